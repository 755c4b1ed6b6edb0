// An entry whose words are within their limits. Contracts see the entry.
ghost use Rattle.std.specs.Prelude.{◌≡◌};
ghost use Rattle.entries.specs.Entry.{none, joined};

use crate::entry::Entry;
use std::marker::Model;

#[derive(Clone, Copy)]
pub struct CheckedEntry {
    pub entry: Entry,
}

impl Model for CheckedEntry {
    ghost use Rattle.std.specs.Prelude.{◌≡◌, true};
    ghost use Rattle.entries.specs.Entry.{in_limits};
    ghost use Rattle.entries.specs.declared.entry.Entry as declared;

    ghost Value = { declared.Entry };

    ghost view = { λ a. a.entry };

    ghost invariant = { λ a. in_limits a.entry ≡ true };

    ghost inverse = { λ e. record { entry = e } };
}

impl CheckedEntry {
    // That of no object.
    #[tactic(auto, unfolding(crate::specs::Entry::in_limits))]
    pub fn new() -> Self
        ensures { result ≡ none }
    {
        CheckedEntry {
            entry: Entry::new(),
        }
    }

    // That of the objects of self, then those of b.
    #[tactic(auto, using(crate::proofs::Limits::sum_of_one))]
    pub fn join(self, b: CheckedEntry) -> Entry
        ensures { result ≡ joined self b }
    {
        self.entry.join(b)
    }
}
