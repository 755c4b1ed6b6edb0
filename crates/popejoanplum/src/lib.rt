// The engine for hosts in C and Rust: numbers and #[repr(C)] structs by value, and slices of them. No function asks anything of its caller but valid
// slices that do not overlap.

#![tactic(auto)]

ghost use Rattle.std.specs.Prelude.{◌≡◌};
ghost use Rattle.map_file.specs.File.{file_of};
ghost use Rattle.play_reader.specs.View.{answer_of};
ghost use Rattle.rules.specs.Refusals.{at_0};
ghost use Rattle.scoring.specs.Scores.{scores_of, map_score_of, given_play_of, listed_play_of};
ghost use Rattle.board.specs.Place.{written_left};
ghost use Rattle.board_build.specs.Build.{built};
ghost use Rattle.board.specs.Edit.{edit_of};
ghost use Rattle.board.specs.Read.{read_of};
ghost use Rattle.host.specs.Status.{board_words, status_left};
ghost use Rattle.host.specs.Map.{map_info_of};
ghost use Rattle.host.specs.Play.{play_in};
ghost use Rattle.host.specs.Answer.{map_answer_of, given_answer_of, single_of, listed_answer_of};
ghost use Rattle.slider_breaks.specs.Given.{with_breaks};
ghost use Rattle.host.specs.Breaks.{breaks_answer_of};
ghost use Rattle.heat.specs.Heat.{heat_of};

use board::edit::edit;
use board::read::read;
use board_build::build;
use entries::entry::Entry;
use heat::{due, heat_one, heat_start, heat_status};
use host::answer::{MapAnswer, PlayAnswer};
use host::breaks::{BreaksAnswer, added_by, answer_with};
use host::map::MapInfo;
use host::play::HostPlay;
use host::status::Status;
use play_reader::read_map;
use records::beatmap::Settings;
use records::hit_object::HitObject;
use scoring::score::{score_map, score_play, score_play_at};
use slider_breaks::calculator::SliderFactors;
use tree::size::Size;

// How many words a board for as many objects has; 0 where no map has as many.
#[unsafe(no_mangle)]
pub extern "C" fn pjp_board_words(count: usize) -> usize
    ensures { result ≡ board_words count }
{
    if (HitObject::MAX_COUNT as usize) < count {
        return 0;
    }
    Entry::PLACE_WORDS * Size::new(count).cap()
}

// What a map file holds, by the checks of its records; 9 of its plays is left to the calls that score.
#[unsafe(no_mangle)]
pub extern "C" fn pjp_read_map(file: &[u8]) -> MapInfo
    ensures { result ≡ map_info_of (answer_of (file_of file.now)) }
{
    read_map(file).into()
}

// The attributes of all objects.
#[unsafe(no_mangle)]
pub extern "C" fn pjp_score_map(file: &[u8]) -> MapAnswer
    ensures { result ≡ map_answer_of (map_score_of (scores_of (file_of file.now))) }
{
    score_map(file).into()
}

// A play that is given beside the file.
#[tactic(auto, unfolding(host::specs::Answer::single_of))]
#[unsafe(no_mangle)]
pub extern "C" fn pjp_score_play(file: &[u8], play: HostPlay) -> PlayAnswer
    ensures { result ≡ single_of (scores_of (file_of file.now)) play }
{
    score_play(file, play.into()).into()
}

// A play that is given beside the file, with its slider breaks. C has a call with factors and one without; so on a board.
#[tactic(auto, using(host::proofs::BreaksAdded::added_is), unfolding(host::specs::Answer::single_of))]
#[unsafe(no_mangle)]
pub extern "C" fn pjp_score_play_breaks(
    file: &[u8],
    play: HostPlay,
    factors: SliderFactors,
) -> BreaksAnswer
    ensures { result ≡ breaks_answer_of (with_breaks (play_in play) factors (given_play_of (play_in play) (scores_of (file_of file.now)))) }
{
    let answer = pjp_score_play(file, play);
    answer_with(answer, added_by(play.into(), factors, answer))
}

// For each play what `pjp_score_play` answers, in their order. Outcomes beyond the last play stay, and all of them where the call is refused. By index,
// since std says nothing of what is written through a `zip` of `iter_mut`.
#[tactic(auto, using(heat::proofs::Loop::none_yet, rules::proofs::Steps::steps))]
#[unsafe(no_mangle)]
pub extern "C" fn pjp_heat(file: &[u8], plays: &[HostPlay], outcomes: &mut [PlayAnswer]) -> Status
    ensures { (result, outcomes.new) ≡ heat_of (scores_of (file_of file.now)) plays.now outcomes.old }
{
    let start = heat_start(file, plays.len(), outcomes.len());
    let n = due(start, plays.len());
    for i in 0..n {
        outcomes[i] = heat_one(file, start, plays[i]);
    }
    heat_status(start)
}

// The play at an index of the file.
#[unsafe(no_mangle)]
pub extern "C" fn pjp_score_play_at(file: &[u8], index: u64) -> PlayAnswer
    ensures { result ≡ listed_answer_of (listed_play_of index (scores_of (file_of file.now))) }
{
    score_play_at(file, index).into()
}

// The board and the start table of a map file.
#[unsafe(no_mangle)]
pub extern "C" fn pjp_build(file: &[u8], board: &mut [u64], starts: &mut [f64]) -> Status
    ensures { (result, board.new, starts.new) ≡ status_left (built (scores_of (file_of file.now)) board.old starts.old) }
{
    build(file, board, starts).into()
}

// Another object at a place of a board for `count` objects.
#[unsafe(no_mangle)]
pub extern "C" fn pjp_edit(
    board: &mut [u64],
    starts: &mut [f64],
    count: usize,
    place: usize,
    record: &[u8],
) -> Status
    ensures { (result, board.new, starts.new) ≡ status_left (written_left (edit_of board.old starts.old count place «record».now) board.old starts.old) }
{
    edit(board, starts, count, place, record).into()
}

// A play on the first objects of a board for `count` objects.
#[unsafe(no_mangle)]
pub extern "C" fn pjp_read(
    board: &[u64],
    starts: &[f64],
    count: usize,
    settings: Settings,
    breaks: &[f64],
    play: HostPlay,
) -> PlayAnswer
    ensures value { result ≡ given_answer_of (at_0 (read_of board.now starts.now count settings breaks.now (play_in play))) }
    ensures unchanged { (board.exit.now ≡ board.entry.now) × (starts.exit.now ≡ starts.entry.now) × (breaks.exit.now ≡ breaks.entry.now) }
{
    read(board, starts, count, settings, breaks, play.into()).into()
}

// A play on the first objects of a board for `count` objects, with its slider breaks.
#[tactic(auto, using(host::proofs::BreaksAdded::added_is))]
#[unsafe(no_mangle)]
pub extern "C" fn pjp_read_breaks(
    board: &[u64],
    starts: &[f64],
    count: usize,
    settings: Settings,
    breaks: &[f64],
    play: HostPlay,
    factors: SliderFactors,
) -> BreaksAnswer
    ensures value { result ≡ breaks_answer_of (with_breaks (play_in play) factors (at_0 (read_of board.now starts.now count settings breaks.now (play_in play)))) }
    ensures unchanged { (board.exit.now ≡ board.entry.now) × (starts.exit.now ≡ starts.entry.now) × (breaks.exit.now ≡ breaks.entry.now) }
{
    let answer = pjp_read(board, starts, count, settings, breaks, play);
    answer_with(answer, added_by(play.into(), factors, answer))
}
