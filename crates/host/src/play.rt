// A play as a host gives it: numbers where the engine has enums.
ghost use Rattle.std.specs.Prelude.{◌≡◌};
ghost use Rattle.host.specs.Play.{play_with, bad_play, play_in};

use play_state::{GameMods, OsuHitResults, OsuScoreOrigin, Play, score_of};

// The fields of a play's record, those of 8 bytes first.
#[repr(C)]
#[derive(Clone, Copy)]
pub struct HostPlay {
    pub clock_rate: f64,
    pub max_combo: u32,
    pub large_tick_hits: u32,
    pub small_tick_hits: u32,
    pub slider_end_hits: u32,
    pub score: u32,
    pub passed_objects: u16,
    pub n300: u16,
    pub n100: u16,
    pub n50: u16,
    pub misses: u16,
    pub flags: u16,
    pub origin: u8,
    pub has_score: u8,
}

// Flags that rule 8 refuses in every call: all bits, where only the lowest 9 have a meaning.
const BAD_FLAGS: u16 = 0xffff;

fn play_with(p: HostPlay, origin: OsuScoreOrigin, score: Option<u32>, flags: u16) -> Play
    ensures { result ≡ play_with p origin score flags }
{
    Play {
        passed_objects: p.passed_objects,
        max_combo: p.max_combo,
        hitresults: OsuHitResults {
            large_tick_hits: p.large_tick_hits,
            small_tick_hits: p.small_tick_hits,
            slider_end_hits: p.slider_end_hits,
            n300: p.n300,
            n100: p.n100,
            n50: p.n50,
            misses: p.misses,
        },
        origin,
        legacy_total_score: score,
        mods: GameMods {
            flags,
            clock_rate: p.clock_rate,
        },
    }
}

// In place of a play with an origin or a score that no enum holds: one whose flags are refused.
fn bad_play(p: HostPlay) -> Play
    ensures { result ≡ bad_play p }
{
    play_with(p, OsuScoreOrigin::Stable, None, BAD_FLAGS)
}

impl From<HostPlay> for Play {
    ghost from_gives = { λ p r. r ≡ play_in p };

    fn from(p: HostPlay) -> Play {
        let origin = OsuScoreOrigin::try_from(u64::from(p.origin));
        let score = score_of(u64::from(p.has_score), p.score);
        match (origin, score) {
            (Ok(origin), Some(score)) => play_with(p, origin, score, p.flags),
            _ => bad_play(p),
        }
    }
}
