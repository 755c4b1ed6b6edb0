// What the words of an entry say of its objects' score.
ghost use Rattle.std.specs.Prelude.{◌≡◌, false};
ghost use Rattle.entries.specs.Scores.{unsound, state_in, counts_in};

use crate::checked::CheckedEntry;
use crate::entry::Entry;
use simulator::legacy_score::NestedScorePerObject;
use simulator::legacy_score_simulator::OsuLegacyScoreSimulator;
use spinner::{LegacyBonusScore, StandardisedBonusScore};

impl CheckedEntry {
    // No objects have such words: each slider gives a head and a tail, and before each 300 but a leading one stands combo.
    #[tactic(auto, using(crate::proofs::Limits::counts_low), unfolding(crate::specs::Scores::unsound))]
    pub fn is_unsound(self) -> bool
        ensures { result ≡ unsound self }
    {
        let e = self.entry;
        e.combo < 2 * e.n_sliders || e.combos_before + e.first_no_slider < e.object_count
    }

    // The running state behind the objects, at multiplier 1. No From, which asks nothing: unsound words have no state.
    #[tactic(auto, using(crate::proofs::Limits::counts_low, crate::proofs::Sound::sound))]
    pub fn state(self) -> OsuLegacyScoreSimulator
        requires { unsound self ≡ false }
        ensures { result ≡ state_in self }
    {
        let e = self.entry;
        OsuLegacyScoreSimulator {
            combo: e.combo,
            accuracy_score: e.accuracy_score,
            combo_score: 12 * (e.combos_before + e.first_no_slider - e.object_count),
            legacy_bonus_score: LegacyBonusScore(e.legacy_bonus_score),
            standardised_bonus_score: StandardisedBonusScore(e.standardised_bonus_score),
        }
    }
}

// No shorter, since it names each word once, under another name.
impl From<Entry> for NestedScorePerObject {
    ghost from_gives = { λ e r. r ≡ counts_in e };

    fn from(e: Entry) -> NestedScorePerObject {
        NestedScorePerObject {
            object_count: e.object_count,
            n_circles: e.n_circles,
            n_sliders: e.n_sliders,
            n_spinners: e.n_spinners,
            n_repeats: e.n_repeats,
            amount_of_small_ticks: e.n_ticks,
            spinner_score: e.spinner_score,
        }
    }
}
