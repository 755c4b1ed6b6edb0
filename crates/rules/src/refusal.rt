// What refuses an input: a rule of documents 01 and 02, and where the record stands that breaks it.
ghost use Rattle.std.specs.Prelude.{◌≡◌};
ghost use Rattle.rules.specs.Refusals.{number_of, refusal_at};

// By its number in documents 01 and 02, where rules/specs/Refusals says when each is given. 10 is given by no call.
#[derive(Clone, Copy, Debug, PartialEq, Eq, Hash)]
pub enum Rule {
    Input = 1,
    Cut = 2,
    Mark = 3,
    Range = 4,
    Nested = 5,
    Count = 6,
    Bonus = 7,
    PlayField = 8,
    PlayExceeds = 9,
    Room = 11,
    Place = 12,
    Board = 13,
    Factor = 14,
    Heat = 15,
}

// A refused call: the rule, and the offset of the record that breaks it.
#[derive(Clone, Copy, Debug, PartialEq, Eq, Hash)]
pub struct Refusal {
    pub rule: Rule,
    pub offset: usize,
}

impl Rule {
    pub fn at(self, offset: usize) -> Refusal
        ensures { result ≡ refusal_at self offset }
    {
        Refusal { rule: self, offset }
    }
}

impl From<Rule> for u8 {
    ghost from_gives = { λ rule n. n ≡ number_of rule };

    fn from(rule: Rule) -> u8 {
        rule as u8
    }
}

// What is no record of a file is refused at 0.
impl From<Rule> for Refusal {
    ghost from_gives = { λ rule r. r ≡ refusal_at rule 0 };

    fn from(rule: Rule) -> Refusal {
        rule.at(0)
    }
}
