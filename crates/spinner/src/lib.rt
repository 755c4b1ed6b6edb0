// The bonus points of a spinner: its half spins are gone through one by one, in the public source's order.
#![tactic(auto)]

ghost use Rattle.std.specs.Prelude.{◌≡◌, suc, ◌+◌, ◌<◌, ◌^◌};
ghost use Rattle.spinner.specs.HalfSpins.{total_half_spins, required_half_spins};
ghost use Rattle.spinner.specs.Bonus.{no_bonus, sums_before, legacy_of, standardised_of};

// T and R: the half spins that the duration allows, and those that completing the spinner takes.
#[derive(Clone, Copy)]
pub struct HalfSpins {
    pub total: u64,
    pub required: u64,
    ghost total_short: { total < 2 ^ 31 },
    ghost required_short: { required < 2 ^ 31 },
}

#[tactic(auto, unfolding(crate::specs::HalfSpins::total_half_spins, crate::specs::HalfSpins::required_half_spins, numbers::proofs::Literals::of_bits, numbers::proofs::Literals::of_int))]
pub fn half_spins(duration: f64) -> HalfSpins
    ensures { (result.total ≡ total_half_spins duration) × (result.required ≡ required_half_spins duration) }
{
    let seconds = duration / 1000.0;
    HalfSpins {
        total: numbers::rounding::cut(seconds * (477.0 / 60.0) * 2.0),
        required: numbers::rounding::cut(seconds * 3.0),
    }
}

// The two units of bonus points, which are never added to each other: document 01 has two tuple structs, one per bonus counter.
#[derive(Clone, Copy, Default)]
pub struct LegacyBonusScore(pub u64);

#[derive(Clone, Copy, Default)]
pub struct StandardisedBonusScore(pub u64);

#[derive(Clone, Copy, Default)]
pub struct BonusScores {
    pub legacy: LegacyBonusScore,
    pub standardised: StandardisedBonusScore,
}

impl BonusScores {
    // Before the first half spin.
    fn new() -> Self
        ensures { result ≡ no_bonus }
    {
        BonusScores::default()
    }

    // Behind the half spin i, from the sums before it; B half spins earn no large bonus.
    fn half_spin(self, i: u64, before: u64) -> Self
        requires { (self ≡ sums_before before i) × (i < 2 ^ 31) }
        ensures { result ≡ sums_before before (suc i) }
    {
        if before < i && (i - before) % 2 == 0 {
            return BonusScores {
                legacy: LegacyBonusScore(self.legacy.0 + 1100),
                standardised: StandardisedBonusScore(self.standardised.0 + 50),
            };
        }
        if 1 < i && i % 2 == 0 {
            return BonusScores {
                legacy: LegacyBonusScore(self.legacy.0 + 100),
                standardised: StandardisedBonusScore(self.standardised.0 + 10),
            };
        }
        self
    }
}

// The half spins 0 to T. Document 01's B is three half spins more than completing the spinner takes.
#[tactic(auto, unfolding(crate::specs::Bonus::half_spin_points))]
fn walk_half_spins(h: HalfSpins) -> BonusScores
    ensures { result ≡ sums_before (h.required + 3) (suc h.total) }
{
    let before = h.required + 3;
    let mut sums = BonusScores::new();
    for i in 0..=h.total {
        sums = sums.half_spin(i, before);
    }
    sums
}

#[tactic(auto, unfolding(crate::specs::Bonus::legacy_of, crate::specs::Bonus::standardised_of))]
pub fn bonus(duration: f64) -> BonusScores
    ensures { (result.legacy.0 ≡ legacy_of duration) × (result.standardised.0 ≡ standardised_of duration) }
{
    walk_half_spins(half_spins(duration))
}
