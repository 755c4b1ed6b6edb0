// One entry: the sums over the objects that it covers. This file and `words.rt` name the words; nothing above them does.
ghost use Rattle.std.specs.Prelude.{◌≡◌, true, cond, ◌+◌, ◌*◌, ◌≤◌};
ghost use Rattle.rules.specs.Limits.{max_levels, max_nested, max_objects};
ghost use Rattle.simulator.specs.Limits.{nested_count};
ghost use Rattle.entries.specs.Entry.{none, summed, joined, in_limits, checked, SumOf, entry_with, own_entry};

use crate::checked::CheckedEntry;
use records::hit_object::{HitObject, HitObjectKind, Slider};
use rules::refusal::Rule;
use simulator::legacy_score::NestedScorePerObject;
use simulator::legacy_score_simulator::OsuLegacyScoreSimulator;

// Combo and combos_before are document 01's k and s, first_no_slider its f.
#[derive(Clone, Copy, Default)]
pub struct Entry {
    pub object_count: u64,
    pub combo: u64,
    pub combos_before: u64,
    pub first_no_slider: u64,
    pub accuracy_score: u64,
    pub legacy_bonus_score: u64,
    pub standardised_bonus_score: u64,
    pub n_circles: u64,
    pub n_sliders: u64,
    pub n_spinners: u64,
    pub n_repeats: u64,
    pub n_ticks: u64,
    pub spinner_score: u64,
}

fn choose(on: bool, yes: u64, no: u64) -> u64
    ensures { result ≡ cond on yes no }
{
    if on { yes } else { no }
}

impl Entry {
    pub const WORDS: usize = 13;

    // Two entries for each place of a board.
    pub const PLACE_WORDS: usize = 2 * Entry::WORDS;

    pub const MAX_COUNT: u64 = HitObject::MAX_COUNT;

    pub const MAX_COMBO: u64 = HitObject::MAX_COUNT * (Slider::MAX_NESTED + 1);

    pub const MAX_COMBOS_BEFORE: u64 = 137438953472;

    pub const MAX_FIRST: u64 = 1;

    pub const MAX_SCORE: u64 = HitObject::MAX_BONUS;

    // Of each word, in their order.
    const LIMITS: [u64; Entry::WORDS] = [
        Entry::MAX_COUNT,
        Entry::MAX_COMBO,
        Entry::MAX_COMBOS_BEFORE,
        Entry::MAX_FIRST,
        Entry::MAX_SCORE,
        Entry::MAX_SCORE,
        Entry::MAX_SCORE,
        Entry::MAX_COUNT,
        Entry::MAX_COUNT,
        Entry::MAX_COUNT,
        Entry::MAX_COMBO,
        Entry::MAX_COMBO,
        Entry::MAX_SCORE,
    ];

    // That of no object.
    pub fn new() -> Self
        ensures { result ≡ none }
    {
        Entry::default()
    }

    // The sums of the simulator's state and counts, with the words of the board that these have not. No shorter, since it names each word once, from
    // other names.
    fn with(
        score: OsuLegacyScoreSimulator,
        nested: NestedScorePerObject,
        combos_before: u64,
        first_no_slider: u64,
    ) -> Self
        ensures { result ≡ entry_with score nested combos_before first_no_slider }
    {
        Entry {
            object_count: nested.object_count,
            combo: score.combo,
            combos_before,
            first_no_slider,
            accuracy_score: score.accuracy_score,
            legacy_bonus_score: score.legacy_bonus_score.0,
            standardised_bonus_score: score.standardised_bonus_score.0,
            n_circles: nested.n_circles,
            n_sliders: nested.n_sliders,
            n_spinners: nested.n_spinners,
            n_repeats: nested.n_repeats,
            n_ticks: nested.amount_of_small_ticks,
            spinner_score: nested.spinner_score,
        }
    }

    // That of one object: what the simulator's own step makes of it.
    pub fn own(object: HitObject) -> Self
        requires { nested_count object.kind ≤ max_nested }
        ensures { result ≡ own_entry object.kind }
    {
        let score = OsuLegacyScoreSimulator::new();
        let nested = NestedScorePerObject::new().process_next(object);
        match object.kind {
            HitObjectKind::Circle => Entry::with(score.circle(), nested, 0, 1),
            HitObjectKind::Slider(slider) => {
                let after = score.slider(slider);
                Entry::with(after, nested, after.combo, 0)
            }
            HitObjectKind::Spinner(spinner) => Entry::with(score.spinner(spinner), nested, 0, 1),
        }
    }

    // One branch for all words.
    pub fn within(self) -> bool
        ensures { result ≡ in_limits self }
    {
        let words = <[u64; Entry::WORDS]>::from(self);
        let mut within = true;
        for (word, limit) in words.iter().zip(&Entry::LIMITS) {
            within &= word <= limit;
        }
        within
    }

    // An entry as read, whose words are checked.
    #[tactic(auto, using(rules::proofs::Steps::steps), unfolding(crate::specs::Entry::checked))]
    pub fn checked(self) -> Result<CheckedEntry, Rule>
        ensures { result ≡ checked self }
    {
        if !self.within() {
            return Err(Rule::Board);
        }
        Ok(CheckedEntry { entry: self })
    }

    // The sums of both, with the two words that hang on their order. No type says of how many entries self is a sum: each join makes one more.
    #[tactic(auto, using(crate::proofs::ByWord::summing_next))]
    fn sum(self, b: CheckedEntry, combos_before: u64, first_no_slider: u64) -> Self
        requires { SumOf (max_levels + 1) self }
        ensures { result ≡ summed self b combos_before first_no_slider }
    {
        // By index, since std says nothing of what is written through a `zip` of `iter_mut`.
        let mut words = <[u64; Entry::WORDS]>::from(self);
        let more = <[u64; Entry::WORDS]>::from(b.entry);
        for i in 0..Entry::WORDS {
            words[i] += more[i];
        }
        Entry {
            combos_before,
            first_no_slider,
            ..Entry::from(words)
        }
    }

    // That of the objects of self, then those of b. Sums of a few entries leave room, so that they can be checked later.
    #[tactic(auto, using(crate::proofs::Limits::befores_fit, crate::proofs::Limits::product_fits, crate::proofs::Limits::combos_fit), unfolding(crate::specs::Entry::joined))]
    pub fn join(self, b: CheckedEntry) -> Self
        requires { SumOf (max_levels + 1) self }
        ensures { result ≡ joined self b }
    {
        let behind = b.entry;
        self.sum(
            b,
            self.combos_before + behind.combos_before + self.combo * behind.object_count,
            choose(
                0 < self.object_count,
                self.first_no_slider,
                behind.first_no_slider,
            ),
        )
    }

    // The same, or that of the objects of b and then those of self: the factors are chosen, so that a way up the tree takes no branch for its side.
    // `join` stands beside it, since this asks besides that self's own count has room for one more; a build and a read's sum need no choice.
    #[tactic(auto, using(crate::proofs::Limits::befores_fit, crate::proofs::Limits::chosen_product, crate::proofs::Limits::chosen_combos))]
    pub fn join_at(self, b: CheckedEntry, leads: bool) -> Self
        requires { SumOf (max_levels + 1) self × (self.object_count ≤ (max_levels + 1) * max_objects) }
        ensures { result ≡ cond leads (joined self b) (joined b self) }
    {
        let other = b.entry;
        let combo = choose(leads, self.combo, other.combo);
        let count = choose(leads, other.object_count, self.object_count);
        let first_count = choose(leads, self.object_count, other.object_count);
        let first_there = choose(leads, self.first_no_slider, other.first_no_slider);
        let first_behind = choose(leads, other.first_no_slider, self.first_no_slider);
        self.sum(
            b,
            self.combos_before + other.combos_before + combo * count,
            choose(0 < first_count, first_there, first_behind),
        )
    }
}
