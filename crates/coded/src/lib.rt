// An answer as one signed number of C: a value as it is, and a refusal as minus its number.
#![tactic(auto)]

ghost use Rattle.std.specs.Prelude.{◌≡◌, pos, neg_ℤ};
ghost use Rattle.refusal.specs.Answers.{outcome_of};
ghost use Rattle.refusal.specs.Numbers.{number_of};
ghost use Rattle.coded.specs.Coded.{coded_by, flag, coded, coded_unit};

use refusal::Refusal;

// A value or a count as it is.
pub fn value_code(v: u16) -> i32
    ensures { result ≡ pos v }
{
    v as i32
}

// Minus the refusal's number.
pub fn refusal_code(r: Refusal) -> i32
    ensures { result ≡ neg_ℤ (pos (number_of r)) }
{
    let n = u8::from(r);
    -(n as i32)
}

pub fn answer_code(answer: Result<u16, Refusal>) -> i32
    ensures { result ≡ coded (outcome_of answer) }
{
    match answer {
        Ok(v) => value_code(v),
        Err(r) => refusal_code(r),
    }
}

// 1 for yes and 0 for no.
pub fn flag_code(answer: Result<bool, Refusal>) -> i32
    ensures { result ≡ coded_by flag (outcome_of answer) }
{
    match answer {
        Ok(yes) => value_code(u16::from(yes)),
        Err(r) => refusal_code(r),
    }
}

pub fn status_code(answer: Result<(), Refusal>) -> i32
    ensures { result ≡ coded_unit (outcome_of answer) }
{
    match answer {
        Ok(()) => 0,
        Err(r) => refusal_code(r),
    }
}
