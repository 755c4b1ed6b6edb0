// `exp` by document 02's steps: a series of eight terms at v / 1024, then ten squarings.
#![tactic(auto)]

ghost use Rattle.std.specs.Prelude.{◌≡◌};
ghost use Rattle.numbers.specs.Floats.{whole};
ghost use Rattle.exponential.specs.Exp.{series_of, squared, exp_of};

const TERMS: u32 = 8;

const SQUARINGS: u64 = 10;

// The series from its last term on.
#[tactic(auto, using(crate::proofs::Steps::term), unfolding(crate::specs::Exp::series_of, numbers::proofs::Literals::of_bits, numbers::proofs::Literals::of_int))]
fn series(y: f64) -> f64
    ensures { result ≡ series_of y 8 (whole 1) }
{
    let mut h = 1.0;
    for j in (1..=TERMS).rev() {
        h = 1.0 + y / f64::from(j) * h;
    }
    h
}

#[tactic(auto, using(crate::proofs::Steps::squaring), unfolding(crate::specs::Exp::squared))]
fn square_10_times(x: f64) -> f64
    ensures { result ≡ squared 10 x }
{
    let mut power = x;
    for _ in 0..SQUARINGS {
        power = power * power;
    }
    power
}

// A number that is not one passes the test, and stays so.
#[tactic(auto, unfolding(crate::specs::Exp::exp_of, numbers::proofs::Literals::of_bits, numbers::proofs::Literals::of_int, numbers::proofs::Literals::neg))]
pub fn exp(v: f64) -> f64
    ensures { result ≡ exp_of v }
{
    if v < -700.0 {
        return 0.0;
    }
    square_10_times(series(v / 1024.0))
}
