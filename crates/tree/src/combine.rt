// Two entries combined, with the checks of what is read and of what they give.
ghost use Rattle.std.specs.Prelude.{◌≡◌, true, ◌+◌, ◌*◌, ◌≤◌, length};
ghost use Rattle.entries.specs.Entry.{entry_words, in_limits, joined};
ghost use Rattle.entries.specs.Words.{entry_at};
ghost use Rattle.tree.specs.Limited.{without_legacy, limited, after_of};

use entries::checked::CheckedEntry;
use entries::entry::Entry;
use entries::words::load;
use rules::refusal::Rule;

fn without_legacy(e: Entry) -> Entry
    ensures { result ≡ without_legacy e }
{
    Entry {
        legacy_bonus_score: 0,
        ..e
    }
}

// The combined words but the legacy bonus, then that.
#[tactic(auto, using(rules::proofs::Steps::steps, crate::proofs::Light::legacy_in), unfolding(crate::specs::Limited::limited))]
pub fn limit(e: Entry) -> Result<CheckedEntry, Rule>
    ensures { result ≡ limited e }
{
    if !without_legacy(e).within() {
        return Err(Rule::Board);
    }
    if Entry::MAX_SCORE < e.legacy_bonus_score {
        return Err(Rule::Bonus);
    }
    Ok(CheckedEntry { entry: e })
}

// The objects of a, then those of an entry as read.
#[tactic(auto, using(rules::proofs::Steps::steps), unfolding(crate::specs::Limited::after_of))]
pub fn after(a: CheckedEntry, read: Entry) -> Result<CheckedEntry, Rule>
    ensures { result ≡ after_of a read }
{
    limit(a.join(read.checked()?))
}

// The two halves of entry e, which stand within their limits, joined.
#[inline(always)]
pub(crate) fn halves_joined(b: &[u64], e: usize) -> Entry
    requires { ((e * 2 + 2) * entry_words ≤ length b.now) × (in_limits (entry_at b.now (e * 2)) ≡ true) × (in_limits (entry_at b.now (e * 2 + 1)) ≡ true) }
    ensures { result ≡ joined (entry_at b.now (e * 2)) (entry_at b.now (e * 2 + 1)) }
{
    let left = CheckedEntry {
        entry: load(b, e * 2),
    };
    let right = CheckedEntry {
        entry: load(b, e * 2 + 1),
    };
    left.join(right)
}
