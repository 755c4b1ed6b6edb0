// The text of the listing program, written into a lent space: which lines a file gets, and what stands in them.
#![tactic(auto)]

ghost use Rattle.std.specs.Prelude.{◌≡◌, ◌≤◌, length};
ghost use Rattle.text.specs.Space.{put_at};
ghost use Rattle.text.specs.Pages.{put};
ghost use Rattle.map_file.specs.File.{file_of};
ghost use Rattle.scoring.specs.Scores.{scores_of};
ghost use Rattle.listing.specs.Listing.{GoodFile, plays_text, file_text, input_text, if_fits, listed_of};

use estimates::calculator::calculate;
use lines::{put_map_line, put_play_line, put_refused_line};
use marks::{MapFile, mark_before};
use play_reader::play_at;
use play_state::Play;
use rules::refusal::Rule;
use scoring::plays::check_plays;
use text::Page;

// The most bytes that the listing program takes.
pub const MAX_INPUT: usize = 65536;

// The lines of a file's plays. They are all good, so that no play ends the lines early. Marks are made only for plays; a line has no bonus, so that no
// spinner is walked for it. By index, since std says of `step_by` with `enumerate` only what is left, and not where the next play stands.
#[tactic(auto, using(marks::proofs::Marked::mark_there, crate::proofs::Writing::writing_start))]
fn put_plays(file: &MapFile, page: &mut Page<'_>)
    requires good_file { GoodFile file.now.bytes.now file.now.map }
    requires in_bounds { page.old.at ≤ length page.old.space.now }
    ensures { page.new ≡ put page.old (plays_text (scores_of (file_of file.now.bytes.now))) }
{
    let s = file.bytes;
    let map = file.map;
    if map.end == s.len() {
        return;
    }
    let marks = file.marks();
    let plays = (s.len() - map.end).div_ceil(Play::SIZE);
    for index in 0..plays {
        let at = map.end + index * Play::SIZE;
        let Ok(play) = play_at(s, at) else {
            return;
        };
        let i = mark_before(map.objects, play);
        let a = file.attributes_from(marks.states[i], play);
        let estimates = calculate(play, a.difficulty);
        put_play_line(page, index as u64, estimates);
    }
}

// How many bytes of its space the text takes, if the space is longer than the text.
fn if_fits(page: &Page<'_>) -> Option<usize>
    ensures { result ≡ if_fits page.now.at (length page.now.space.now) }
{
    (page.at < page.space.len()).then_some(page.at)
}

// The listing of a map file, which may have any length.
#[tactic(auto, using(text::proofs::Space::pieces, text::proofs::Space::length_put, crate::proofs::Texts::text_refused, crate::proofs::Texts::text_good, crate::proofs::Texts::file_good, crate::proofs::Texts::put_inside, crate::proofs::Texts::listed_is))]
pub fn list_file(s: &[u8], space: &mut [u8]) -> Option<usize>
    ensures value { result ≡ listed_of (file_text s.now) (length space.old) }
    ensures space_after { space.new ≡ put_at space.old 0 (file_text s.now) }
{
    let mut page = Page::new(space);
    match check_plays(s, u64::MAX) {
        Err(refusal) => put_refused_line(&mut page, refusal),
        Ok((map, a)) => {
            put_map_line(&mut page, a);
            put_plays(&MapFile { bytes: s, map }, &mut page);
        }
    }
    if_fits(&page)
}

// The listing of the program's input.
#[tactic(auto, using(text::proofs::Space::length_put, crate::proofs::Texts::listed_is), unfolding(crate::specs::Listing::input_text))]
pub fn list_input(s: &[u8], space: &mut [u8]) -> Option<usize>
    ensures value { result ≡ listed_of (input_text s.now) (length space.old) }
    ensures space_after { space.new ≡ put_at space.old 0 (input_text s.now) }
{
    if MAX_INPUT < s.len() {
        let mut page = Page::new(space);
        put_refused_line(&mut page, Rule::Input.at(0));
        return if_fits(&page);
    }
    list_file(s, space)
}
