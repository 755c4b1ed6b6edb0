// Text written into a lent space, piece by piece. All functions are total, and their contracts name the definitions of specs/.
#![tactic(auto)]

mod page;
mod values;

pub use page::Page;
pub use values::Text;
