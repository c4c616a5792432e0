// The rounds of a decode, one after the other, to the first word of count 0 or to the limit.
#![tactic(auto)]

ghost use Rattle.std.specs.Prelude.{◌≡◌, List, ◌≤◌, Float, length};
ghost use Rattle.numbered.specs.Numbers.{code_number};
ghost use Rattle.passes.specs.Codes.{size_n, checks_by, room};
ghost use Rattle.one_round.specs.Held.{decode_at, HeldBy};
ghost use Rattle.rounds.specs.Run.{Kept, Ran};

use numbered::Code;
use softmath::DecodeRule;
use tanner::Counted;

// What a decode tells beside the bits: the chosen word's count, the rounds run, and the chosen word's first unsatisfied check.
#[derive(Clone, Copy, Debug, PartialEq, Eq)]
pub struct Decoded {
    pub count: u16,
    pub rounds: u16,
    pub first: Option<u16>,
}

// The rounds: left by `break` at the first word whose count is 0. `bits` keeps the front of the best word so far, and `first` is what was counted of it.
pub fn rounds(
    code: Code,
    rule: DecodeRule,
    limit: u16,
    llr: &[f32],
    first: Counted,
    messages: &mut [f32],
    hard: &mut [u8],
    bits: &mut [u8],
) -> Decoded
    requires llr_len { length llr.now ≡ size_n (code_number code) }
    requires messages_len { length messages.old ≡ room (code_number code) }
    requires hard_len { length hard.old ≡ size_n (code_number code) }
    requires bits_len_bound { length bits.old ≤ size_n (code_number code) }
    requires kept { Kept (checks_by (code_number code)) (length bits.old) hard.old bits.old first }
    ensures { (ms : List Float) → HeldBy (code_number code) messages.old ms
        → Ran (decode_at (code_number code) rule llr.now) (length bits.old) limit hard.old ms bits.new result }
{
    let mut kept = first;
    let mut done = 0;
    for turn in 0..limit {
        let found = one_round::round(code, rule, llr, messages, hard);
        done = turn + 1;
        if found < kept.count {
            work_area::keep_word(hard, bits);
            let lowest = counting::first_counted(code, found, hard);
            kept = Counted {
                count: found,
                first: lowest,
            };
        }
        if found == 0 {
            break;
        }
    }
    Decoded {
        count: kept.count,
        rounds: done,
        first: kept.first,
    }
}
