// The first two bytes of a record, which say what it is.
ghost use Rattle.std.specs.Prelude.{◌≡◌};
ghost use Rattle.records.specs.Marks.{mark_of, mark_in};

use numbers::words::word_at;
use rules::refusal::Rule;

// The objects' marks in ASCII, as little-endian numbers. The loop over a map's objects tells them by these, since with a match on the enum it takes
// up to 5% more instructions.
pub const CI: u64 = 0x4943;

pub const SL: u64 = 0x4c53;

pub const SP: u64 = 0x5053;

#[derive(Clone, Copy, Debug, PartialEq, Eq, Hash)]
pub enum Mark {
    Header,
    Break,
    Circle,
    Slider,
    Spinner,
    Play,
}

// An unknown mark is refused.
impl TryFrom<u64> for Mark {
    type Error = Rule;

    ghost try_from_gives = { λ word r. r ≡ mark_of word };

    fn try_from(word: u64) -> Result<Self, Rule> {
        match word {
            CI => Ok(Mark::Circle),
            SL => Ok(Mark::Slider),
            SP => Ok(Mark::Spinner),
            0x484d => Ok(Mark::Header), // MH
            0x5242 => Ok(Mark::Break), // BR
            0x4c50 => Ok(Mark::Play), // PL
            _ => Err(Rule::Mark),
        }
    }
}

impl Mark {
    // Of the record that r starts with.
    #[tactic(auto, using(rules::proofs::Steps::steps), unfolding(crate::specs::Marks::mark_in))]
    pub fn read(r: &[u8]) -> Result<Mark, Rule>
        ensures { result ≡ mark_in r.now }
    {
        if r.len() < 2 {
            return Err(Rule::Cut);
        }
        Mark::try_from(word_at(r, 0, 2))
    }
}
