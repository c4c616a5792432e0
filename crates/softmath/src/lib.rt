// The f32 arithmetic of a decoding round: the functions of one or two values. Each operation is rounded once, in a fixed order.
#![tactic(auto)]

ghost use Rattle.std.specs.Prelude.{◌≡◌, cond};
ghost use Rattle.std.specs.Float.Ieee.{lt};
ghost use Rattle.softmath.specs.Functions.{tanh, atanh, clamp_unit, magnitude_of, decide};
ghost use Rattle.softmath.specs.CheckNode.{turned, factor_of};

// How a check answers: the three rules of the staircase codes, and (174,91)'s own.
#[derive(Clone, Copy)]
pub enum DecodeRule {
    SumProduct,
    MinSum,
    ScaledMinSum(f32),
    Ft8,
}

// How a variable node makes its new messages: the total less the own answer, or the sum of the others.
#[derive(Clone, Copy)]
pub enum SumKind {
    Total,
    Others,
}

// The fraction is worked out before the two tests choose, so that a pass over many floats works on several at a time.
pub fn fast_tanh(x: f32) -> f32
    ensures { result ≡ tanh x }
{
    let x2 = x * x;
    let a = x * (945.0 + x2 * (105.0 + x2));
    let b = 945.0 + x2 * (420.0 + x2 * 15.0);
    let q = a / b;
    if x < -4.97 {
        -1.0
    } else if x > 4.97 {
        1.0
    } else {
        q
    }
}

// The atanh by its fraction alone: past its pole near 1.1035 the sign turns, as in the Rust.
pub fn fast_atanh(x: f32) -> f32
    ensures { result ≡ atanh x }
{
    let x2 = x * x;
    let a = x * (945.0 + x2 * (-735.0 + x2 * 64.0));
    let b = 945.0 + x2 * (-1050.0 + x2 * 225.0);
    a / b
}

// To -1.0 and 1.0; a NaN stays.
pub fn clamp_unit(x: f32) -> f32
    ensures { result ≡ clamp_unit x }
{
    if x < -1.0 {
        -1.0
    } else if x > 1.0 {
        1.0
    } else {
        x
    }
}

// The value without its sign: 0.0 for both zeros, a NaN for a NaN. It does not ask whether x is below zero, as the sign's
// test does: a test of floats that chooses twice would become a jump.
pub fn magnitude(x: f32) -> f32
    ensures { result ≡ magnitude_of x }
{
    if x > 0.0 { x } else { 0.0 - x }
}

// The bit that a sum decides: 1 at or below zero, 0 for a NaN.
pub fn decide(x: f32) -> u8
    ensures { result ≡ decide x }
{
    if x <= 0.0 { 1 } else { 0 }
}

// The sign with v's: a NaN and -0.0 are not negative.
pub fn turn_sign(v: f32, sign: f32) -> f32
    ensures { result ≡ turned v sign }
{
    if v < 0.0 { -sign } else { sign }
}

// The lesser of two: b where neither is less, which a NaN never is.
pub fn lesser(a: f32, b: f32) -> f32
    ensures { result ≡ cond (lt a b) a b }
{
    if a < b { a } else { b }
}

// What a min-sum rule multiplies its answers by.
pub fn factor_of(rule: DecodeRule) -> f32
    ensures { result ≡ factor_of rule }
{
    match rule {
        DecodeRule::ScaledMinSum(scale) => scale,
        DecodeRule::SumProduct | DecodeRule::MinSum | DecodeRule::Ft8 => 1.0,
    }
}
