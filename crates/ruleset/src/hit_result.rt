// The results of a hit and their points in osu!standard. The other modes of the Rust are left out.
ghost use Rattle.std.specs.Prelude.{◌≡◌};
ghost use Rattle.ruleset.specs.BaseScore.{base_score};

#[derive(Clone, Copy)]
pub enum HitResult {
    None,
    Miss,
    Meh,
    Ok,
    Good,
    Great,
    Perfect,
    SmallTickMiss,
    SmallTickHit,
    LargeTickMiss,
    LargeTickHit,
    SmallBonus,
    LargeBonus,
    IgnoreMiss,
    IgnoreHit,
    ComboBreak,
    SliderTailHit,
    LegacyComboIncrease,
}

impl HitResult {
    pub fn base_score(self) -> u64
        ensures { result ≡ base_score self }
    {
        match self {
            HitResult::SmallTickHit | HitResult::SmallBonus => 10,
            HitResult::LargeTickHit => 30,
            HitResult::Meh | HitResult::LargeBonus => 50,
            HitResult::Ok => 100,
            HitResult::SliderTailHit => 150,
            HitResult::Good => 200,
            // A Perfect gives no more points than a Great.
            HitResult::Great | HitResult::Perfect => 300,
            HitResult::None
            | HitResult::Miss
            | HitResult::SmallTickMiss
            | HitResult::LargeTickMiss
            | HitResult::IgnoreMiss
            | HitResult::IgnoreHit
            | HitResult::ComboBreak
            | HitResult::LegacyComboIncrease => 0,
        }
    }
}
