// The next record of a map file, by all its checks: the order, the counts, the record itself and the bonus.
ghost use Rattle.std.specs.Prelude.{◌≡◌};
ghost use Rattle.std.specs.Prelude.{Some};
ghost use Rattle.records.specs.Marks.{word_of};
ghost use Rattle.records.specs.Records.{record_read};
ghost use Rattle.map_file.specs.Order.{rank_by, in_order, is_full, over_bonus, body_of, record_of};
ghost use Rattle.map_file.specs.View.{bonus_in};

use play_state::Play;
use records::beatmap::{BreakPeriod, Settings};
use records::hit_object::{HitObject, HitObjectKind};
use records::map_record::{read_break, read_header};
use records::mark::Mark;
use records::object_record::read_kind;
use records::play_record::read_play;
use records::record::{Read, Record};
use rules::refusal::Rule;

// The places of the records in their order. Behind `Beyond`, which no record has, nothing is in order.
#[derive(Clone, Copy, Debug, PartialEq, Eq, PartialOrd, Ord, Hash)]
pub enum Rank {
    Header,
    Break,
    Object,
    Play,
    Beyond,
}

// What the checks of the next record lean on: the last record's place in the order, the records so far and their legacy bonus.
#[derive(Clone, Copy)]
pub struct Counts {
    pub last: Option<Rank>,
    pub breaks: u64,
    pub objects: u64,
    pub bonus: u64,
}

// Where a reader of a file stands.
#[derive(Clone, Copy)]
pub struct Reader {
    pub at: usize,
    pub settings: Settings,
    pub counts: Counts,
}

// The place of a mark.
impl From<Mark> for Rank {
    ghost from_gives = { λ mark r. r ≡ rank_by mark };

    fn from(mark: Mark) -> Rank {
        match mark {
            Mark::Header => Rank::Header,
            Mark::Break => Rank::Break,
            Mark::Circle | Mark::Slider | Mark::Spinner => Rank::Object,
            Mark::Play => Rank::Play,
        }
    }
}

// MH once, any BR, any objects, any PL.
fn in_order(last: Option<Rank>, rank: Rank) -> bool
    ensures { result ≡ in_order last (Some rank) }
{
    match last {
        None => rank == Rank::Header,
        Some(last) => Rank::Header < rank && last <= rank,
    }
}

fn is_full(c: Counts, rank: Rank) -> bool
    ensures { result ≡ is_full c (Some rank) }
{
    match rank {
        Rank::Break => BreakPeriod::MAX_COUNT <= c.breaks,
        Rank::Object => HitObject::MAX_COUNT <= c.objects,
        Rank::Header | Rank::Play | Rank::Beyond => false,
    }
}

#[tactic(auto, unfolding(crate::specs::Order::body_of, records::specs::Records::object_of))]
fn read_body(r: &[u8], mark: Mark) -> Read
    ensures { result ≡ record_read (body_of r.now (word_of mark)) }
{
    match mark {
        Mark::Header => Ok((Record::Header(read_header(r)?), Settings::SIZE)),
        Mark::Break => Ok((Record::Break(read_break(r)?), BreakPeriod::SIZE)),
        Mark::Circle | Mark::Slider | Mark::Spinner => {
            let (object, size) = read_kind(r, mark)?;
            Ok((Record::Object(object), size))
        }
        Mark::Play => Ok((Record::Play(read_play(r)?), Play::SIZE)),
    }
}

// The legacy bonus points of a record: a spinner's.
fn bonus_of(item: Record) -> u64
    ensures { result ≡ bonus_in item }
{
    match item {
        Record::Object(
            HitObject {
                kind: HitObjectKind::Spinner(spinner),
                ..
            },
        ) => spinner::bonus(spinner.duration).legacy.0,
        _ => 0,
    }
}

fn is_over_bonus(c: Counts, bonus: u64) -> bool
    ensures { result ≡ over_bonus c bonus }
{
    HitObject::MAX_BONUS < c.bonus.saturating_add(bonus)
}

// The record that the rest of a file starts with, by all checks of one record in their order. Its bonus is worked out once, for the last of them.
#[tactic(auto, using(rules::proofs::Steps::steps, crate::proofs::Bodies::bonus_kept, crate::proofs::Marked::record_by_mark))]
pub fn read_record(r: &[u8], c: Counts) -> Read
    ensures { result ≡ record_read (record_of r.now c) }
{
    let mark = Mark::read(r)?;
    let rank = Rank::from(mark);
    if !in_order(c.last, rank) {
        return Err(Rule::Mark);
    }
    if is_full(c, rank) {
        return Err(Rule::Count);
    }
    let (item, size) = read_body(r, mark)?;
    if is_over_bonus(c, bonus_of(item)) {
        return Err(Rule::Bonus);
    }
    Ok((item, size))
}
