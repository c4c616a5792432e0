// The decode rules by number: the check step that a frame of a code is decoded by.
#![tactic(auto)]

ghost use Rattle.std.specs.Prelude.{◌≡◌};
ghost use Rattle.rules.specs.Rules.{staircase_rule, ft8_rule, rule_of, as_stored};

use softmath::DecodeRule;

// The scale of the house default on the staircase codes.
const HOUSE_SCALE: f32 = 0.75;

// The check step of a staircase code under the rule with that number.
pub fn staircase_rule(rule: u32, scale: f32) -> DecodeRule
    ensures { result ≡ staircase_rule rule scale }
{
    if rule == 0 {
        return DecodeRule::SumProduct;
    }
    if rule == 1 {
        return DecodeRule::MinSum;
    }
    if rule == 2 {
        return DecodeRule::ScaledMinSum(scale);
    }
    DecodeRule::ScaledMinSum(HOUSE_SCALE)
}

// The check step of (174,91) under the rule with that number.
fn ft8_rule(rule: u32) -> DecodeRule
    ensures { result ≡ ft8_rule rule }
{
    if rule > 0 {
        return DecodeRule::SumProduct;
    }
    DecodeRule::Ft8
}

// The check step that a frame of the code is decoded by.
pub fn rule_of(code: u32, rule: u32, scale: f32) -> DecodeRule
    ensures { result ≡ rule_of code rule scale }
{
    if code > 2 {
        return ft8_rule(rule);
    }
    staircase_rule(rule, scale)
}

// A stored batch's rule as it was meant.
#[tactic(auto, unfolding(crate::specs::Rules::as_stored))]
pub fn stored_rule(rule: u32) -> u32
    ensures { result ≡ as_stored rule }
{
    if rule == 3 {
        return 0;
    }
    rule
}
