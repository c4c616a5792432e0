// One round at any of the four codes and by any decode rule, the messages by slots; and the count of a word.
#![tactic(auto)]

ghost use Rattle.std.specs.Prelude.{◌≡◌, List, Float, length};
ghost use Rattle.tanner.specs.Masked.{count_masked, syndrome_masked};
ghost use Rattle.tanner.specs.Found.{syndrome_of};
ghost use Rattle.numbered.specs.Numbers.{code_number};
ghost use Rattle.passes.specs.Codes.{size_n, checks_by, room};
ghost use Rattle.one_round.specs.Held.{HeldBy, RoundBy};

use numbered::Code;
use softmath::DecodeRule;
use tanner::Counted;

// The count of a word's low bits, and the first check that it includes.
pub fn counted(code: Code, hard: &[u8]) -> Counted
    requires hard_len { length hard.now ≡ size_n (code_number code) }
    ensures { syndrome_of result ≡ syndrome_masked 1 (checks_by (code_number code)) hard.now }
{
    let count = counting::count(code, hard);
    let first = counting::first_counted(code, count, hard);
    Counted { count, first }
}

// A round: check step, decision, new messages, and the count of the word decided.
pub fn round(
    code: Code,
    rule: DecodeRule,
    llr: &[f32],
    messages: &mut [f32],
    hard: &mut [u8],
) -> u16
    requires llr_len { length llr.now ≡ size_n (code_number code) }
    requires messages_len { length messages.old ≡ room (code_number code) }
    requires hard_len { length hard.old ≡ size_n (code_number code) }
    ensures round_by { (ms : List Float) → HeldBy (code_number code) messages.old ms
        → RoundBy (code_number code) rule llr.now ms messages.new hard.new result }
    ensures value { result ≡ count_masked 1 (checks_by (code_number code)) hard.new }
{
    passes::check_pass(code, rule, messages);
    passes::bit_pass(code, llr, messages, hard);
    counting::count(code, hard)
}
