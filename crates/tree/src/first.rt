// The first places combined: entry by entry with each check, and with few checks, since a sum of entries only grows, so that a sum within its limits
// was so all along.
ghost use Rattle.std.specs.Prelude.{◌≡◌, ◌+◌, ◌*◌, ◌^◌, ◌≤◌, length};
ghost use Rattle.rules.specs.Limits.{max_levels, max_objects};
ghost use Rattle.entries.specs.Entry.{none, SumOf, entry_words, place_words};
ghost use Rattle.entries.specs.Words.{entry_at};
ghost use Rattle.tree.specs.Limited.{sum_of};
ghost use Rattle.tree.specs.First.{walked, turned_of};

use crate::combine::after;
use crate::size::Size;
use entries::checked::CheckedEntry;
use entries::entry::Entry;
use entries::words::load;
use rules::refusal::Rule;

// Where a combination of the first places stands: the entry to look at next, how many places it covers, how many are left.
#[derive(Clone, Copy)]
pub struct Prefix {
    pub x: usize,
    pub width: usize,
    pub rest: usize,
    pub sum: CheckedEntry,
}

// Takes the entry if all that it covers is left to cover, and goes one level down.
#[tactic(auto, using(rules::proofs::Steps::steps))]
fn turn(b: &[u64], t: Prefix) -> Result<Prefix, Rule>
    requires { (t.x ≤ (2 * max_objects)) × (t.width ≤ t.rest → t.x * entry_words + entry_words ≤ length b.now) }
    ensures { result ≡ turned_of b.now t }
{
    let sum = t.sum;
    if t.rest < t.width {
        return Ok(Prefix {
            x: t.x * 2,
            width: t.width / 2,
            rest: t.rest,
            sum,
        });
    }
    let joined = after(sum, load(b, t.x))?;
    Ok(Prefix {
        x: (t.x + 1) * 2,
        width: t.width / 2,
        rest: t.rest - t.width,
        sum: joined,
    })
}

// Combines the largest entries that together cover just the first p places, from the left.
pub fn sum_of_first(b: &[u64], size: Size, p: usize) -> Result<CheckedEntry, Rule>
    requires { (p ≤ 2 ^ size) × (2 ^ size * place_words ≤ length b.now) }
    ensures { result ≡ walked (size + 1) b.now 1 p none }
{
    let levels = size.levels();
    let mut t = Prefix {
        x: 1,
        width: size.cap(),
        rest: p,
        sum: CheckedEntry::new(),
    };
    for _ in 0..levels + 1 {
        t = turn(b, t)?;
    }
    Ok(t.sum)
}

// The sum and an entry as read, whose own words are checked.
#[tactic(auto, using(rules::proofs::Steps::steps), unfolding(crate::specs::Limited::sum_of))]
fn add(b: &[u64], x: usize, sum: Entry) -> Result<Entry, Rule>
    requires { (x * entry_words + entry_words ≤ length b.now) × SumOf (max_levels + 1) sum }
    ensures { result ≡ sum_of sum (entry_at b.now x) }
{
    let read = load(b, x).checked()?;
    Ok(sum.join(read))
}

// As `sum_of_first`, which is slower but says what is wrong where the sum is not within its limits. One step for each binary digit of p that is 1:
// from the left, each takes the largest entry that covers no more than is left.
pub fn quick_sum_of_first(b: &[u64], size: Size, p: usize) -> Result<CheckedEntry, Rule>
    requires { (p ≤ 2 ^ size) × (2 ^ size * place_words ≤ length b.now) }
    ensures { result ≡ walked (size + 1) b.now 1 p none }
{
    let mut done = size.cap();
    let mut rest = p;
    let mut sum = Entry::new();
    while 0 < rest {
        let level = rest.ilog2();
        let width = 1usize << level;
        let Ok(next) = add(b, done >> level, sum) else {
            return sum_of_first(b, size, p);
        };
        sum = next;
        done += width;
        rest -= width;
    }
    if sum.within() {
        return Ok(CheckedEntry { entry: sum });
    }
    sum_of_first(b, size, p)
}
