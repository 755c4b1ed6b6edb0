// The score of a play on the first objects of a map, from its board and start table.
ghost use Rattle.std.specs.Prelude.{◌≡◌, true, false, ◌≤◌, ◌*◌, length};
ghost use Rattle.rules.specs.Limits.{max_breaks};
ghost use Rattle.entries.specs.Scores.{unsound};
ghost use Rattle.ruleset.specs.Stars.{SettingsIn};
ghost use Rattle.rules.specs.Refusals.{at_0};
ghost use Rattle.board.specs.Read.{settings_bad, times_bad, arguments_bad, drain_from, attributes_from, score_from, read_of};

use crate::place::{Board, room_for};
use crate::search::{Found, Starts};
use play_score::{PlayScore, has_bad_mods, score_on};
use play_state::Play;
use records::beatmap::{BreakPeriod, Settings};
use records::fields::{is_setting, is_time};
use rules::refusal::{Refusal, Rule};
use ruleset::score_multiplier::{DrainLen, break_len, drain_len};
use simulator::attributes::{ScoreAttributes, score_attributes_with};

// A start and an end for each break.
const MAX_BREAK_TIMES: usize = 2 * BreakPeriod::MAX_COUNT as usize;

#[tactic(auto, using(crate::proofs::Steps::steps), unfolding(crate::specs::Read::settings_bad))]
fn has_bad_settings(settings: Settings) -> bool
    ensures { result ≡ settings_bad settings }
{
    !is_setting(settings.hp) || !is_setting(settings.od) || !is_setting(settings.cs)
}

fn has_bad_times(times: &[f64]) -> bool
    ensures { result ≡ times_bad times.now }
{
    times.iter().any(|time| !is_time(*time))
}

// Settings and breaks are given as they stand in the map; a break without its end is cut.
#[tactic(auto, using(crate::proofs::Steps::steps), unfolding(crate::specs::Read::arguments_bad))]
fn has_bad_arguments(settings: Settings, breaks: &[f64]) -> bool
    ensures { result ≡ arguments_bad settings breaks.now }
{
    has_bad_settings(settings) || has_bad_times(breaks) || breaks.len() % 2 == 1
}

// The settings and the breaks of a map, as a read was given them and with its checks passed: starts and ends in turn.
#[derive(Clone, Copy)]
struct GivenMap<'a> {
    settings: Settings,
    breaks: &'a [f64],
    ghost in_range: { SettingsIn settings },
    ghost few: { length breaks.now ≤ 2 * max_breaks },
}

#[tactic(auto, using(crate::proofs::Steps::steps), unfolding(crate::specs::Read::drain_from))]
fn drain_from(starts: Starts, map: GivenMap, count: usize) -> DrainLen
    ensures { result.seconds ≡ drain_from starts map.entry.breaks.now count }
{
    // As in `map_reader::attributes::drain_in`: a function for both would take a closure for the breaks, with its contract, to share this test.
    if count == 0 {
        return DrainLen { seconds: 0 };
    }
    let last = starts.last;
    drain_len(starts.first, last, break_len(map.breaks, last))
}

// The values behind the search.
fn attributes_from(found: Found, map: GivenMap, count: usize) -> ScoreAttributes
    requires { unsound found.sum ≡ false }
    ensures { result ≡ attributes_from found map.entry.settings map.entry.breaks.now count }
{
    let sum = found.sum;
    let starts = found.starts;
    let drain = drain_from(starts, map, count);
    let entry = sum.entry;
    score_attributes_with(map.settings, drain, sum.state(), entry.into())
}

// The search, then the play on what it found.
#[tactic(auto, using(crate::proofs::Steps::steps), unfolding(crate::specs::Read::score_from))]
fn read_in(board: &Board, map: GivenMap, play: Play) -> Result<PlayScore, Rule>
    ensures { result ≡ score_from board.now.words.now board.now.starts.now board.now.count map.entry.settings map.entry.breaks.now play }
{
    let p = board.count.min(usize::from(play.passed_objects));
    let found = board.find(p)?;
    score_on(play, attributes_from(found, map, board.count))
}

// A play on the first objects of a board for `count` objects.
#[tactic(auto, using(crate::proofs::Steps::steps, crate::proofs::Readings::by_size))]
pub fn read(
    board: &[u64],
    starts: &[f64],
    count: usize,
    settings: Settings,
    breaks: &[f64],
    play: Play,
) -> Result<PlayScore, Refusal>
    ensures value { result ≡ at_0 (read_of board.now starts.now count settings breaks.now play) }
    ensures unchanged { (board.exit.now ≡ board.entry.now) × (starts.exit.now ≡ starts.entry.now) × (breaks.exit.now ≡ breaks.entry.now) }
{
    if MAX_BREAK_TIMES < breaks.len() {
        return Err(Rule::Count.at(0));
    }
    let size = room_for(board, starts, count)?;
    if has_bad_arguments(settings, breaks) {
        return Err(Rule::Range.at(0));
    }
    let mods = play.mods;
    if has_bad_mods(mods) {
        return Err(Rule::PlayField.at(0));
    }
    let map = GivenMap { settings, breaks };
    let lent = Board {
        words: board,
        starts,
        size,
        count,
    };
    Ok(read_in(&lent, map, play)?)
}
