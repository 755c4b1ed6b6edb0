// The lines of the listing program, written to a page.
#![tactic(auto)]

ghost use Rattle.std.specs.Prelude.{◌≡◌};
ghost use Rattle.text.specs.Pages.{put};
ghost use Rattle.lines.specs.Lines.{field, map_line, play_line, refused_line};

use estimates::calculator::Estimates;
use rules::refusal::Refusal;
use simulator::attributes::ScoreAttributes;
use text::{Page, Text};

#[tactic(auto, using(text::proofs::Space::pieces))]
fn put_field<T: Text>(page: &mut Page<'_>, x: T)
    ensures { page.new ≡ put page.old (field (T.text x)) }
{
    page.put_text(b" ");
    x.put(page);
}

#[tactic(auto, using(text::proofs::Space::pieces), unfolding(crate::specs::Lines::map_line, crate::specs::Lines::number_field, crate::specs::Lines::float_field))]
pub fn put_map_line(page: &mut Page<'_>, a: ScoreAttributes)
    ensures { page.new ≡ put page.old (map_line a) }
{
    page.put_text(b"map");
    put_field(page, a.object_count);
    put_field(page, a.multiplier);
    put_field(page, a.legacy.accuracy_score);
    put_field(page, a.legacy.combo_score);
    put_field(page, a.legacy.bonus_score_ratio);
    put_field(page, a.legacy.bonus_score.0);
    put_field(page, a.legacy.max_combo);
    put_field(page, a.difficulty.nested_score_per_object);
    page.put_text(b"\n");
}

#[tactic(auto, using(text::proofs::Space::pieces), unfolding(crate::specs::Lines::play_line, crate::specs::Lines::number_field, crate::specs::Lines::float_field, crate::specs::Lines::score_based_field))]
pub fn put_play_line(page: &mut Page<'_>, index: u64, e: Estimates)
    ensures { page.new ≡ put page.old (play_line index e) }
{
    page.put_text(b"play");
    put_field(page, index);
    put_field(page, e.accuracy);
    put_field(page, e.combo_based);
    put_field(page, e.score_based);
    put_field(page, e.effective);
    page.put_text(b"\n");
}

#[tactic(auto, using(text::proofs::Space::pieces), unfolding(crate::specs::Lines::refused_line, crate::specs::Lines::number_field))]
pub fn put_refused_line(page: &mut Page<'_>, refusal: Refusal)
    ensures { page.new ≡ put page.old (refused_line refusal) }
{
    page.put_text(b"refused");
    put_field(page, u64::from(u8::from(refusal.rule)));
    page.put_text(b" at");
    put_field(page, refusal.offset as u64);
    page.put_text(b"\n");
}
