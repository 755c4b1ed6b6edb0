// A build's part on words alone: all entries but the objects' own.
ghost use Rattle.std.specs.Prelude.{◌≡◌, ◌+◌, ◌-◌, ◌*◌, ◌≤◌, length};
ghost use Rattle.entries.specs.Entry.{entry_words, place_words};
ghost use Rattle.tree.specs.Build.{cleared, emptied, raised, Raises, filled};

use crate::combine::halves_joined;
use entries::entry::Entry;
use entries::words::store;

// n zero entries from e on.
fn clear(b: &mut [u64], e: usize, n: usize)
    requires { (e + n) * entry_words ≤ length b.old }
    ensures { b.new ≡ cleared e n b.old }
{
    b[e * Entry::WORDS..(e + n) * Entry::WORDS].fill(0);
}

// The entries n, n - 1, .., 1, each from its two halves, which then stand already.
fn raise(b: &mut [u64], n: usize)
    requires { (n * place_words + place_words ≤ length b.old) × Raises n b.old }
    ensures { b.new ≡ raised n b.old }
{
    for e in (1..n + 1).rev() {
        let joined = halves_joined(b, e);
        store(b, e, joined);
    }
}

// Completes a board of cap places whose first count places have their own entries.
pub fn fill(b: &mut [u64], cap: usize, count: usize)
    requires { (1 ≤ cap) × (count ≤ cap) × (cap * place_words ≤ length b.old) × Raises (cap - 1) (emptied cap count b.old) }
    ensures { b.new ≡ filled cap count b.old }
{
    clear(b, 0, 1);
    clear(b, cap + count, cap - count);
    raise(b, cap - 1);
}
