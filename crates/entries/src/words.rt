// Entries as words of a lent slice. Each bound is that of its own entry: a board with the length in its type would leave as many clauses, on the entries.
ghost use Rattle.std.specs.Prelude.{◌≡◌, ◌+◌, ◌*◌, ◌≤◌, length};
ghost use Rattle.entries.specs.Entry.{words_of, of_words, entry_words};
ghost use Rattle.entries.specs.Words.{entry_at, put_entry};

use crate::entry::Entry;

// The words of an entry, in their order on a board.
impl From<Entry> for [u64; Entry::WORDS] {
    ghost from_gives = { λ e words. words ≡ words_of e };

    fn from(e: Entry) -> [u64; Entry::WORDS] {
        [
            e.object_count,
            e.combo,
            e.combos_before,
            e.first_no_slider,
            e.accuracy_score,
            e.legacy_bonus_score,
            e.standardised_bonus_score,
            e.n_circles,
            e.n_sliders,
            e.n_spinners,
            e.n_repeats,
            e.n_ticks,
            e.spinner_score,
        ]
    }
}

impl From<[u64; Entry::WORDS]> for Entry {
    ghost from_gives = { λ words e. e ≡ of_words words };

    fn from(words: [u64; Entry::WORDS]) -> Entry {
        Entry {
            object_count: words[0],
            combo: words[1],
            combos_before: words[2],
            first_no_slider: words[3],
            accuracy_score: words[4],
            legacy_bonus_score: words[5],
            standardised_bonus_score: words[6],
            n_circles: words[7],
            n_sliders: words[8],
            n_spinners: words[9],
            n_repeats: words[10],
            n_ticks: words[11],
            spinner_score: words[12],
        }
    }
}

// A loop here and in `store`: `copy_from_slice` tests whether its slices meet and keeps the words in memory, 38% more instructions for an edit and 13%
// for a read.
#[tactic(auto, using(crate::proofs::WordLaws::entry_read))]
pub fn load(b: &[u64], e: usize) -> Entry
    requires { e * entry_words + entry_words ≤ length b.now }
    ensures { result ≡ entry_at b.now e }
{
    let at = e * Entry::WORDS;
    let mut words = [0; Entry::WORDS];
    for i in 0..Entry::WORDS {
        words[i] = b[at + i];
    }
    Entry::from(words)
}

#[tactic(auto, using(std::proofs::lemmas::List::Edits::paste_more))]
pub fn store(b: &mut [u64], e: usize, v: Entry)
    requires { e * entry_words + entry_words ≤ length b.old }
    ensures { b.new ≡ put_entry b.old e v }
{
    let at = e * Entry::WORDS;
    let words = <[u64; Entry::WORDS]>::from(v);
    for i in 0..Entry::WORDS {
        b[at + i] = words[i];
    }
}
