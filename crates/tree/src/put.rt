// An entry put in the tree, with what follows from it above.
ghost use Rattle.std.specs.Prelude.{◌≡◌, true, ◌+◌, ◌*◌, ◌/◌, ◌≤◌, length};
ghost use Rattle.std.specs.Result.{result_and, result_unwrap_or};
ghost use Rattle.rules.specs.Limits.{max_levels, max_objects};
ghost use Rattle.rules.specs.Refusals.{good};
ghost use Rattle.entries.specs.Entry.{SumOf, place_words};
ghost use Rattle.tree.specs.Put.{beside_of, above_of, climbed, joined_at, Clear, written_up};

use crate::combine::{halves_joined, limit};
use entries::checked::CheckedEntry;
use entries::entry::Entry;
use entries::words::{load, store};
use rules::refusal::Rule;

// The levels of a board of the most objects.
const MAX_LEVELS: usize = 13;

// The other half of the entry above e: e with its last digit turned.
fn beside(e: usize) -> usize
    ensures { result ≡ beside_of e }
{
    e ^ 1
}

// The entry above e, from v at e and what was read beside it, unchecked.
fn joined_at(e: usize, v: Entry, read: CheckedEntry) -> Entry
    requires { SumOf (max_levels + 1) v × (v.object_count ≤ (max_levels + 1) * max_objects) }
    ensures { result ≡ joined_at e v read }
{
    v.join_at(read, e % 2 == 0)
}

// The same, checked.
#[tactic(auto, using(rules::proofs::Steps::steps, entries::proofs::Limits::sum_of_one, crate::proofs::Checks::counts_one), unfolding(crate::specs::Put::above_of))]
fn above(e: usize, v: CheckedEntry, read: Entry) -> Result<CheckedEntry, Rule>
    ensures { result ≡ above_of e v read }
{
    limit(joined_at(e, v.entry, read.checked()?))
}

// Reads the other half of each entry above e, from the bottom up, and writes only behind the last check.
#[tactic(auto, using(crate::proofs::Climbs::climbing))]
pub fn climb(b: &mut [u64], levels: usize, e: usize, v: CheckedEntry) -> Result<(), Rule>
    requires { e / 2 * place_words + place_words ≤ length b.old }
    ensures value { result ≡ result_and (climbed levels b.old e v) (good tt) }
    ensures b_after { b.new ≡ result_unwrap_or (climbed levels b.old e v) b.old }
{
    if levels == 0 {
        store(b, e, v.entry);
        return Ok(());
    }
    let joined = above(e, v, load(b, beside(e)))?;
    climb(b, levels - 1, e / 2, joined)?;
    store(b, e, v.entry);
    Ok(())
}

// Whether all that a climb reads and combines is within its limits. Sums only grow, so that the last one is checked for all.
fn is_clear(b: &[u64], levels: usize, e: usize, v: CheckedEntry) -> bool
    requires { e / 2 * place_words + place_words ≤ length b.now }
    ensures { result ≡ true → Clear levels b.now e v }
{
    // The sums of more levels may not fit, and at entry 0 a climb would meet one entry twice.
    if MAX_LEVELS < levels {
        return false;
    }
    if e < 1usize << levels {
        return false;
    }
    let mut at = e;
    let mut sum = v.entry;
    for _ in 0..levels {
        let Ok(read) = load(b, beside(at)).checked() else {
            return false;
        };
        sum = joined_at(at, sum, read);
        at /= 2;
    }
    sum.within()
}

// Writes v and what follows from it above, from the bottom up, since both halves of the next entry stand then: where all is clear, what a climb does.
fn write_up(b: &mut [u64], levels: usize, e: usize, v: CheckedEntry)
    requires { (e / 2 * place_words + place_words ≤ length b.old) × Clear levels b.old e v }
    ensures { (b.new ≡ written_up levels b.old e v) × (climbed levels b.old e v ≡ good b.new) }
{
    let mut at = e;
    let mut sum = v.entry;
    for _ in 0..levels {
        store(b, at, sum);
        at /= 2;
        sum = halves_joined(b, at);
    }
    store(b, at, sum);
}

// As `climb`, which is slower but says what is wrong where a word is not within its limits: one pass reads and checks, a second writes.
// As `climb` it promises this on any levels and entry, so that it takes these and not a `Size` and a place, which would ask more.
pub fn quick_climb(b: &mut [u64], levels: usize, e: usize, v: CheckedEntry) -> Result<(), Rule>
    requires { e / 2 * place_words + place_words ≤ length b.old }
    ensures value { result ≡ result_and (climbed levels b.old e v) (good tt) }
    ensures b_after { b.new ≡ result_unwrap_or (climbed levels b.old e v) b.old }
{
    if is_clear(b, levels, e, v) {
        write_up(b, levels, e, v);
        return Ok(());
    }
    climb(b, levels, e, v)
}
