// A word's count and its first open check, by its code.
#![tactic(auto)]

ghost use Rattle.std.specs.Prelude.{◌≡◌, length};
ghost use Rattle.tanner.specs.Masked.{count_masked, first_masked};
ghost use Rattle.tanner.specs.Found.{first_of};
ghost use Rattle.numbered.specs.Codes.{size_n, checks_by};
ghost use Rattle.numbered.specs.Numbers.{code_number};

use numbered::Code;

// How many checks the low bits of a word leave unsatisfied.
pub fn count(code: Code, hard: &[u8]) -> u16
    requires hard_len { length hard.now ≡ size_n (code_number code) }
    ensures { result ≡ count_masked 1 (checks_by (code_number code)) hard.now }
{
    match code {
        Code::Ft8 => ldpc::count_low(hard),
        _ => stair_counts::count(u32::from(code), hard),
    }
}

// The first of them, of a word whose count is known: the scan is spared where the count is 0.
pub fn first_counted(code: Code, count: u16, hard: &[u8]) -> Option<u16>
    requires hard_len { length hard.now ≡ size_n (code_number code) }
    requires count_value { count ≡ count_masked 1 (checks_by (code_number code)) hard.now }
    ensures { first_of result ≡ first_masked 1 (checks_by (code_number code)) hard.now }
{
    if count == 0 {
        return None;
    }
    match code {
        Code::Ft8 => ldpc::first_low(hard),
        _ => stair_counts::first(u32::from(code), hard),
    }
}
