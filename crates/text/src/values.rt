// Values as text.
ghost use Rattle.std.specs.Prelude.{◌≡◌, List, ℕ};
ghost use Rattle.text.specs.Numbers.{decimal_of, hex_of, float_text};
ghost use Rattle.text.specs.Pages.{put, or_dash};

use crate::page::Page;
use std::num::f64_to_bits_with_nan;

// A value that has one text. std's Display has one in a String alone, which is heap.
pub trait Text {
    ghost text: { Self → List ℕ };

    fn put(self, page: &mut Page<'_>)
        ensures { page.new ≡ put page.old (text self) };
}

// A number in decimal.
impl Text for u64 {
    ghost text = { decimal_of };

    #[tactic(auto, using(crate::proofs::Numbers::fewest_decimal))]
    fn put(self, page: &mut Page<'_>) {
        // A String would be heap, which the project does without.
        let mut digits = [0u8; 20];
        let count = io::decimal(self, &mut digits);
        page.put_text(&digits[..count]);
    }
}

// A float by its bits. A NaN is told by its name: any two count as equal, whatever their bits.
impl Text for f64 {
    ghost text = { float_text };

    #[tactic(auto, unfolding(crate::specs::Numbers::float_text))]
    fn put(self, page: &mut Page<'_>) {
        if self.is_nan() {
            page.put_text(b"nan");
        } else {
            put_hex(page, f64_to_bits_with_nan(self));
        }
    }
}

// A dash where there is no value.
impl<T: Text> Text for Option<T> {
    ghost text = { or_dash T.text };

    fn put(self, page: &mut Page<'_>) {
        match self {
            None => page.put_text(b"-"),
            Some(x) => x.put(page),
        }
    }
}

#[tactic(auto, using(crate::proofs::Numbers::fewest_hex))]
fn put_hex(page: &mut Page<'_>, n: u64)
    ensures { page.new ≡ put page.old (hex_of n) }
{
    let mut digits = [0u8; 16];
    io::hex(n, 16, &mut digits);
    page.put_text(&digits);
}
