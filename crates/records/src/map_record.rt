// The records before the objects: the header and the breaks.
ghost use Rattle.std.specs.Prelude.{◌≡◌};
ghost use Rattle.records.specs.Records.{record_read, header_read, header_of, break_read, break_of};

use crate::beatmap::{BreakPeriod, Settings};
use crate::fields;
use rules::refusal::Rule;

#[tactic(auto, using(rules::proofs::Steps::steps), unfolding(crate::specs::Records::header_of))]
pub fn read_header(r: &[u8]) -> Result<Settings, Rule>
    ensures { header_read result ≡ record_read (header_of r.now) }
{
    if r.len() < Settings::SIZE {
        return Err(Rule::Cut);
    }
    let hp = fields::setting_at(r, 2).ok_or(Rule::Range)?;
    let od = fields::setting_at(r, 6).ok_or(Rule::Range)?;
    let cs = fields::setting_at(r, 10).ok_or(Rule::Range)?;
    Ok(Settings { hp, od, cs })
}

#[tactic(auto, using(rules::proofs::Steps::steps), unfolding(crate::specs::Records::break_of))]
pub fn read_break(r: &[u8]) -> Result<BreakPeriod, Rule>
    ensures { break_read result ≡ record_read (break_of r.now) }
{
    if r.len() < BreakPeriod::SIZE {
        return Err(Rule::Cut);
    }
    let start_time = fields::time_at(r, 2).ok_or(Rule::Range)?;
    let end_time = fields::time_at(r, 10).ok_or(Rule::Range)?;
    Ok(BreakPeriod {
        start_time,
        end_time,
    })
}
