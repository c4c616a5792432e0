// One soft value of the other maker, a signed byte in eighths, and our f32 value.
#![tactic(auto)]

ghost use Rattle.std.specs.Prelude.{◌≡◌, true, false};
ghost use Rattle.std.specs.Float.Ieee.{lt};
ghost use Rattle.soft_bytes.specs.Values.{value_of, whole_eighths, minus_zero, passes, byte_of};
ghost use Rattle.softmath.specs.Single.{zero32};

// The value of a byte: a zero has no sign in either model.
pub fn value_of(b: i8, positive_is_one: bool) -> f32
    ensures { result ≡ value_of positive_is_one b }
{
    if b == 0 {
        return 0.0;
    }
    let v = b as f32 * 0.125;
    if positive_is_one { -v } else { v }
}

// Whether eight times a value is a whole number from 0 to 127: that number, over eight again, is the value.
fn whole_eighths(v: f32) -> bool
    requires zero32_value { lt v zero32 ≡ false }
    requires v_value { minus_zero v ≡ false }
    ensures { result ≡ whole_eighths v }
{
    let t = v * 8.0;
    if t > -1.0 {
        if t < 18446744073709551616.0 {
            let n = std::num::truncating_f32_to_u64(t);
            if n < 128 {
                return n as f32 * 0.125 == v;
            }
        }
    }
    false
}

// Whether the value is -0.0: one over it is below zero then, and over 0.0 it is not.
fn is_minus_zero(v: f32) -> bool
    ensures { result ≡ minus_zero v }
{
    if v == 0.0 {
        return 1.0 / v < 0.0;
    }
    false
}

// Whether a value is a byte's.
pub fn passes(v: f32) -> bool
    ensures { result ≡ passes v }
{
    if is_minus_zero(v) {
        return false;
    }
    if v < 0.0 {
        return whole_eighths(-v);
    }
    whole_eighths(v)
}

// The byte of a value that passes.
pub fn byte_of(v: f32, positive_is_one: bool) -> i8
    requires { passes v ≡ true }
    ensures { result ≡ byte_of positive_is_one v }
{
    let t = v * 8.0;
    let n = t as i8;
    if positive_is_one { -n } else { n }
}
