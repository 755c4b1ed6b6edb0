// What a read finds of the first places: their entries combined, and the starts that the drain leans on.
ghost use Rattle.std.specs.Prelude.{◌≡◌, ◌≤◌};
ghost use Rattle.board.specs.Search.{starts_in, found_of};

use crate::place::Board;
use entries::checked::CheckedEntry;
use records::fields::is_time;
use rules::refusal::Rule;
use tree::first::quick_sum_of_first;

// The starts of the first object and of the last that counts; both 0 where a map has none.
#[derive(Clone, Copy, Default)]
pub struct Starts {
    pub first: f64,
    pub last: f64,
}

#[derive(Clone, Copy)]
pub struct Found {
    pub sum: CheckedEntry,
    pub starts: Starts,
}

impl Board<'_, '_> {
    // The starts of the first p objects: where p is 0, that of the first object is the last too.
    #[tactic(auto, using(crate::proofs::Steps::steps), unfolding(crate::specs::Search::starts_in, numbers::proofs::Literals::of_bits, numbers::proofs::Literals::of_int, numbers::proofs::Literals::round))]
    fn find_starts(&self, p: usize) -> Result<Starts, Rule>
        requires { p ≤ self.now.count }
        ensures { result ≡ starts_in self.now.starts.now self.now.count p }
    {
        if self.count == 0 {
            return Ok(Starts::default());
        }
        let first = self.starts[0];
        let last = self.starts[p.saturating_sub(1)];
        if !is_time(first) {
            return Err(Rule::Board);
        }
        if !is_time(last) {
            return Err(Rule::Board);
        }
        Ok(Starts { first, last })
    }

    // Of the first p objects.
    #[tactic(auto, using(crate::proofs::Steps::steps), unfolding(crate::specs::Search::found_of))]
    pub fn find(&self, p: usize) -> Result<Found, Rule>
        requires { p ≤ self.now.count }
        ensures { result ≡ found_of self.now.words.now self.now.starts.now self.now.count p }
    {
        let sum = quick_sum_of_first(self.words, self.size, p)?;
        let starts = self.find_starts(p)?;
        if sum.is_unsound() {
            return Err(Rule::Board);
        }
        Ok(Found { sum, starts })
    }
}
