// A play: its hits, origin, score and modifiers.
#![tactic(auto)]

ghost use Rattle.std.specs.Prelude.{◌≡◌, ◌<◌};
ghost use Rattle.play_state.specs.Play.{origin_of, played, score_of, place_of, flag_at, flags_bad};

use rules::refusal::Rule;

#[derive(Clone, Copy)]
pub struct OsuHitResults {
    pub large_tick_hits: u32,
    pub small_tick_hits: u32,
    pub slider_end_hits: u32,
    pub n300: u16,
    pub n100: u16,
    pub n50: u16,
    pub misses: u16,
}

#[derive(Clone, Copy)]
pub enum OsuScoreOrigin {
    Stable,
    WithSliderAcc,
    WithoutSliderAcc,
}

// A modifier, by the place of its bit.
#[derive(Clone, Copy, Debug, PartialEq, Eq, Hash)]
pub enum GameMod {
    NoFail = 0,
    Easy = 1,
    Hidden = 2,
    HardRock = 3,
    Flashlight = 4,
    SpunOut = 5,
    Relax = 6,
    Autopilot = 7,
    ScoreV2 = 8,
}

// The modifiers, a bit for each, and the clock rate.
#[derive(Clone, Copy)]
pub struct GameMods {
    pub flags: u16,
    pub clock_rate: f64,
}

#[derive(Clone, Copy)]
pub struct Play {
    pub passed_objects: u16,
    pub max_combo: u32,
    pub hitresults: OsuHitResults,
    pub origin: OsuScoreOrigin,
    pub legacy_total_score: Option<u32>,
    pub mods: GameMods,
}

impl Play {
    pub const SIZE: usize = 44;
}

// The bit at a place below 16.
#[tactic(auto, unfolding(crate::specs::Play::flag_at))]
fn flag(flags: u16, place: u16) -> bool
    requires { place < 16 }
    ensures { result ≡ flag_at place flags }
{
    (flags >> place) & 1 == 1
}

impl GameMods {
    pub const FLAGS: u16 = 9;

    pub fn has(self, m: GameMod) -> bool
        ensures { result ≡ flag_at (place_of m) self.flags }
    {
        flag(self.flags, m as u16)
    }
}

// Whether a bit above the known ones is set.
#[tactic(auto, unfolding(crate::specs::Play::flags_bad))]
pub fn has_unknown_flags(flags: u16) -> bool
    ensures { result ≡ flags_bad flags }
{
    flags >> GameMods::FLAGS != 0
}

// By a byte of a play's record.
impl TryFrom<u64> for OsuScoreOrigin {
    type Error = Rule;

    ghost try_from_gives = { λ b r. r ≡ played (origin_of b) };

    fn try_from(b: u64) -> Result<OsuScoreOrigin, Rule> {
        match b {
            0 => Ok(OsuScoreOrigin::Stable),
            1 => Ok(OsuScoreOrigin::WithSliderAcc),
            2 => Ok(OsuScoreOrigin::WithoutSliderAcc),
            _ => Err(Rule::PlayField),
        }
    }
}

// The score of a play's record by its mark, or no score, if the record may say so. No TryFrom, since std's Option is no type of this crate.
pub fn score_of(present: u64, score: u32) -> Option<Option<u32>>
    ensures { result ≡ score_of present score }
{
    match present {
        1 => Some(Some(score)),
        0 if score == 0 => Some(None),
        _ => None,
    }
}
