// What a rule does to each message before the checks, and to each answer after them: one value after another, in any part of the work area.
#![tactic(auto)]

ghost use Rattle.std.specs.Prelude.{◌≡◌, map};
ghost use Rattle.std.specs.List.{AllZip};
ghost use Rattle.softmath.specs.CheckNode.{before, after};

use softmath::DecodeRule;

// Each value of the part replaced by what `f` makes of it.
fn map_in_place<F: Fn(f32) -> f32>(part: &mut [f32], f: F)
    requires { F.IsAlwaysCallable f }
    ensures { AllZip (F.post f) part.old part.new }
{
    for x in part.iter_mut() {
        *x = f(*x);
    }
}

// What a rule does to each message by itself, before the checks take theirs together: any part of the work area.
pub fn before_checks(rule: DecodeRule, part: &mut [f32])
    ensures { part.new ≡ map (before rule) part.old }
{
    match rule {
        DecodeRule::SumProduct => map_in_place(part, |m| softmath::fast_tanh(m / 2.0)),
        DecodeRule::Ft8 => map_in_place(part, |m| softmath::fast_tanh(m / -2.0)),
        DecodeRule::MinSum | DecodeRule::ScaledMinSum(_) => {}
    }
}

// What a rule does to each answer by itself, after the checks: any part of the work area. Only the sum-product rule clamps a product.
pub fn after_checks(rule: DecodeRule, part: &mut [f32])
    ensures { part.new ≡ map (after rule) part.old }
{
    match rule {
        DecodeRule::SumProduct => {
            map_in_place(
                part,
                |p| 2.0 * softmath::fast_atanh(softmath::clamp_unit(p)),
            );
        }
        DecodeRule::Ft8 => map_in_place(part, |p| -2.0 * softmath::fast_atanh(p)),
        DecodeRule::MinSum | DecodeRule::ScaledMinSum(_) => {}
    }
}
