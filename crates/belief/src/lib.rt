// The round loop that both decoders run, at any of the four codes and by any decode rule: the messages lie by slots in a lent work area.
#![tactic(auto)]

ghost use Rattle.std.specs.Prelude.{◌≡◌, ◌≤◌, length};
ghost use Rattle.numbered.specs.Numbers.{code_number};
ghost use Rattle.passes.specs.Codes.{size_n, checks_by, room};
ghost use Rattle.work_area.specs.Area.{cleared};
ghost use Rattle.one_round.specs.Round.{initial_word};
ghost use Rattle.one_round.specs.Held.{decode_at};
ghost use Rattle.rounds.specs.Told.{Chose};
ghost use Rattle.rounds.specs.Run.{Kept};

use numbered::Code;
use rounds::Decoded;
use softmath::DecodeRule;
use tanner::Counted;

// The rounds, unless the initial word, which `hard` and `bits` hold, satisfies every check.
fn improve(
    code: Code,
    rule: DecodeRule,
    limit: u16,
    llr: &[f32],
    first: Counted,
    messages: &mut [f32],
    hard: &mut [u8],
    bits: &mut [u8],
) -> Decoded
    requires llr_len { length llr.now ≡ size_n (code_number code) }
    requires messages_len { length messages.old ≡ room (code_number code) }
    requires hard_value { hard.old ≡ initial_word (decode_at (code_number code) rule llr.now) }
    requires bits_len_bound { length bits.old ≤ size_n (code_number code) }
    requires kept { Kept (checks_by (code_number code)) (length bits.old) hard.old bits.old first }
    ensures { Chose (decode_at (code_number code) rule llr.now) limit (length bits.old) result bits.new }
{
    if first.count == 0 {
        return Decoded {
            count: 0,
            rounds: 0,
            first: None,
        };
    }
    passes::first_messages(code, llr, messages);
    rounds::rounds(code, rule, limit, llr, first, messages, hard, bits)
}

// The chosen word's front and what is told of it, from the channel values.
fn choose(
    code: Code,
    rule: DecodeRule,
    limit: u16,
    llr: &[f32],
    messages: &mut [f32],
    hard: &mut [u8],
    bits: &mut [u8],
) -> Decoded
    requires llr_len { length llr.now ≡ size_n (code_number code) }
    requires messages_len { length messages.old ≡ room (code_number code) }
    requires hard_len { length hard.old ≡ size_n (code_number code) }
    requires bits_len_bound { length bits.old ≤ size_n (code_number code) }
    ensures { Chose (decode_at (code_number code) rule llr.now) limit (length bits.old) result bits.new }
{
    work_area::initial_word(llr, hard);
    let first = one_round::counted(code, hard);
    work_area::keep_word(hard, bits);
    improve(code, rule, limit, llr, first, messages, hard, bits)
}

// A frame's decode: the chosen word's first bits, as many as `bits` has places, and what is told of it. The work area is left to be cleared, which a caller
// that decodes many frames does once.
pub fn decode_uncleared(
    code: Code,
    rule: DecodeRule,
    limit: u16,
    llr: &[f32],
    bits: &mut [u8],
    work: &mut [f32],
) -> Decoded
    requires llr_len { length llr.now ≡ size_n (code_number code) }
    requires bits_len_bound { length bits.old ≤ size_n (code_number code) }
    requires in_bounds { 3070 ≤ length work.old }
    ensures chose { Chose (decode_at (code_number code) rule llr.now) limit (length bits.old) result bits.new }
    ensures work_unchanged { cleared work.new ≡ cleared work.old }
{
    let mut hard = [0u8; 576];
    let n = llr.len();
    let room = passes::message_room(code);
    choose(
        code,
        rule,
        limit,
        llr,
        &mut work[..room],
        &mut hard[..n],
        bits,
    )
}

// The same with document 01's work area: its first 3,070 places are +0.0 afterwards, and the rest is unchanged.
pub fn decode(
    code: Code,
    rule: DecodeRule,
    limit: u16,
    llr: &[f32],
    bits: &mut [u8],
    work: &mut [f32],
) -> Decoded
    requires llr_len { length llr.now ≡ size_n (code_number code) }
    requires bits_len_bound { length bits.old ≤ size_n (code_number code) }
    requires in_bounds { 3070 ≤ length work.old }
    ensures chose { Chose (decode_at (code_number code) rule llr.now) limit (length bits.old) result bits.new }
    ensures work_after { work.new ≡ cleared work.old }
{
    let decoded = decode_uncleared(code, rule, limit, llr, bits, work);
    work_area::clear_area(work);
    decoded
}
