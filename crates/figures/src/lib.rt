// Reception figures: totals over many batches, and fractions of them in lowest terms.
#![tactic(auto)]

ghost use Rattle.std.specs.Prelude.{◌≡◌};
ghost use Rattle.refusal.specs.Outcome.{judged};
ghost use Rattle.figures.specs.Fraction.{gcd, lowest};
ghost use Rattle.figures.specs.Totals.{summed_of, figure_of, passed, join_refusals, sums, of_frame, fraction_refusals};

use refusal::Refusal;

// What is kept of some frames.
#[derive(Clone, Copy, Debug, PartialEq, Eq)]
pub struct Totals {
    pub frames: u32,
    pub clean: u64,
    pub counts: u64,
    pub rounds: u64,
}

// A figure.
#[derive(Clone, Copy, Debug, PartialEq, Eq)]
pub struct Fraction {
    pub numerator: u64,
    pub denominator: u64,
}

// ---- totals

// Whether a sum passes its limit, without adding.
fn passes(a: u64, b: u64, limit: u64) -> bool
    ensures { result ≡ passed a b limit }
{
    a > limit || b > limit - a
}

// The totals of the frames of both, or a refusal, after which the old ones stand.
pub fn join(a: Totals, b: Totals) -> Result<Totals, Refusal>
    ensures { summed_of result ≡ judged (join_refusals a b) (sums a b) }
{
    if passes(a.frames as u64, b.frames as u64, 0xFFFF_FFFF)
        || passes(a.clean, b.clean, u64::MAX)
        || passes(a.counts, b.counts, u64::MAX)
        || passes(a.rounds, b.rounds, u64::MAX)
    {
        return Err(Refusal::SumPastLimit);
    }
    Ok(Totals {
        frames: a.frames + b.frames,
        clean: a.clean + b.clean,
        counts: a.counts + b.counts,
        rounds: a.rounds + b.rounds,
    })
}

// The totals of one frame.
pub fn of_frame(count: u16, rounds: u16, clean: bool) -> Totals
    ensures { result ≡ of_frame count rounds clean }
{
    Totals {
        frames: 1,
        clean: u64::from(clean),
        counts: count as u64,
        rounds: rounds as u64,
    }
}

// ---- figures

// The greatest common divisor, by Euclid's division.
fn gcd(a: u64, b: u64) -> u64
    ensures { result ≡ gcd a b }
{
    let mut x = a;
    let mut y = b;
    while y != 0 {
        let rest = x % y;
        x = y;
        y = rest;
    }
    x
}

// A number of so many frames, as a fraction in lowest terms.
fn fraction_of(n: u64, frames: u32) -> Result<Fraction, Refusal>
    ensures { figure_of result ≡ judged (fraction_refusals frames) (lowest n frames) }
{
    if frames == 0 {
        return Err(Refusal::NoFrames);
    }
    let d = frames as u64;
    let g = gcd(n, d);
    Ok(Fraction {
        numerator: n / g,
        denominator: d / g,
    })
}

// The share of clean frames.
pub fn clean_share(t: Totals) -> Result<Fraction, Refusal>
    ensures { figure_of result ≡ judged (fraction_refusals t.frames) (lowest t.clean t.frames) }
{
    fraction_of(t.clean, t.frames)
}

// The mean count of a frame.
pub fn mean_count(t: Totals) -> Result<Fraction, Refusal>
    ensures { figure_of result ≡ judged (fraction_refusals t.frames) (lowest t.counts t.frames) }
{
    fraction_of(t.counts, t.frames)
}
