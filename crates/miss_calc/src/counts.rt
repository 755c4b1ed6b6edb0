// How many hits a play has.
ghost use Rattle.std.specs.Prelude.{◌≡◌, ◌≤◌};
ghost use Rattle.miss_calc.specs.Counts.{total_hits, imperfect_hits};

use play_state::OsuHitResults;

pub fn total_hits(h: OsuHitResults) -> u32
    ensures { (result ≡ total_hits h) × (result ≤ 262140) }
{
    u32::from(h.n300) + total_imperfect_hits(h)
}

pub fn total_imperfect_hits(h: OsuHitResults) -> u32
    ensures { (result ≡ imperfect_hits h) × (result ≤ 196605) }
{
    u32::from(h.n100) + u32::from(h.n50) + u32::from(h.misses)
}
