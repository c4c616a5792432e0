// The passes of a round at each of the four codes: the one place that names the tables of a code's edges, and its sizes as numbers that the compiler sees.
#![tactic(auto)]

ghost use Rattle.std.specs.Prelude.{◌≡◌, ◌+◌, ◌≤◌, length};
ghost use Rattle.softmath.specs.CheckNode.{check_step};
ghost use Rattle.softmath.specs.declared.SumKind.TheVariants.{Total};
ghost use Rattle.tanner.specs.Checks.{Checks};
ghost use Rattle.slots.specs.Layout.{scattered, pad_places};
ghost use Rattle.check_node.specs.CheckStep.{AtColumns, pad_of};
ghost use Rattle.variable_node.specs.Passes.{turns, pass_of, Listed};
ghost use Rattle.parity_node.specs.Parity.{Paired};
ghost use Rattle.numbered.specs.Numbers.{code_number};
ghost use Rattle.passes.specs.Codes.{size_n, size_m, checks_by, kind_by, degree, room};
ghost use Rattle.passes.specs.Passes.{slot_first, slot_turn, StairEdges};

use ldpc::tables::{EDGES, PADS};
use numbered::Code;
use softmath::{DecodeRule, SumKind};
use staircase::tables::{N512R12_EDGES, N512R34_EDGES, N576R23_EDGES};

// The place after row 0's last entry, which the other rows have: a staircase code's only pad.
const N512R12_PADS: [u16; 1] = [1024];

const N576R23_PADS: [u16; 1] = [1344];

const N512R34_PADS: [u16; 1] = [1280];

// How many messages a code has by slots, pads included.
pub fn message_room(code: Code) -> usize
    ensures value { result ≡ room (code_number code) }
    ensures upper_bound { result ≤ 3070 }
{
    match code {
        Code::N512R12 => 1280,
        Code::N576R23 => 1536,
        Code::N512R34 => 1408,
        Code::Ft8 => 581,
    }
}

// ---- the first messages

// Those of a staircase code: message bits, then parity bits.
fn stair_first(k: usize, m: usize, from: usize, table: &[u16], llr: &[f32], messages: &mut [f32])
    requires m_in_bounds { k + m ≤ length llr.now }
    requires listed { Listed k table.now (length messages.old) }
    requires paired { Paired m from (length messages.old) }
    ensures { (cs : Checks) → StairEdges cs k m from table.now
        → messages.new ≡ turns (slot_first cs m llr.now) (k + m) messages.old }
{
    variable_node::listed_first(k, llr, table, messages);
    parity_node::parity_first(k, m, from, llr, messages);
}

// Each position's channel value at its places.
pub fn first_messages(code: Code, llr: &[f32], messages: &mut [f32])
    requires llr_len { length llr.now ≡ size_n (code_number code) }
    requires messages_len { length messages.old ≡ room (code_number code) }
    ensures { messages.new
        ≡ turns (slot_first (checks_by (code_number code)) (size_m (code_number code)) llr.now) (size_n (code_number code)) messages.old }
{
    match code {
        Code::N512R12 => stair_first(256, 256, 768, &N512R12_EDGES, llr, messages),
        Code::N576R23 => stair_first(384, 192, 1152, &N576R23_EDGES, llr, messages),
        Code::N512R34 => stair_first(384, 128, 1152, &N512R34_EDGES, llr, messages),
        Code::Ft8 => variable_node::listed_first(174, llr, &EDGES, messages),
    }
}

// ---- the check step

// The rule's step at every check, the pads set before.
pub fn check_pass(code: Code, rule: DecodeRule, messages: &mut [f32])
    requires messages_len { length messages.old ≡ room (code_number code) }
    ensures { AtColumns (check_step rule) (size_m (code_number code)) (degree (code_number code))
        (scattered (pad_of rule) (pad_places (checks_by (code_number code)) (size_m (code_number code)) (degree (code_number code))) messages.old)
        messages.new }
{
    match code {
        Code::N512R12 => check_node::check_step(rule, 256, 5, &N512R12_PADS, messages),
        Code::N576R23 => check_node::check_step(rule, 192, 8, &N576R23_PADS, messages),
        Code::N512R34 => check_node::check_step(rule, 128, 11, &N512R34_PADS, messages),
        Code::Ft8 => check_node::check_step(rule, 83, 7, &PADS, messages),
    }
}

// ---- the bits

// A staircase code's: message bits, then parity bits.
fn stair_bits(
    k: usize,
    m: usize,
    from: usize,
    table: &[u16],
    llr: &[f32],
    messages: &mut [f32],
    hard: &mut [u8],
)
    requires m_in_bounds { k + m ≤ length llr.now }
    requires m_in_bounds_2 { k + m ≤ length hard.old }
    requires listed { Listed k table.now (length messages.old) }
    requires paired { Paired m from (length messages.old) }
    ensures { (cs : Checks) → StairEdges cs k m from table.now → pass_of hard.new messages.new
        ≡ turns (slot_turn cs m Total llr.now) (k + m) (pass_of hard.old messages.old) }
{
    variable_node::listed_bits(SumKind::Total, k, llr, table, messages, hard);
    parity_node::parity_bits(k, m, from, llr, messages, hard);
}

// Each position's decision, and its new messages in place of its answers.
pub fn bit_pass(code: Code, llr: &[f32], messages: &mut [f32], hard: &mut [u8])
    requires llr_len { length llr.now ≡ size_n (code_number code) }
    requires messages_len { length messages.old ≡ room (code_number code) }
    requires hard_len { length hard.old ≡ size_n (code_number code) }
    ensures { pass_of hard.new messages.new
        ≡ turns (slot_turn (checks_by (code_number code)) (size_m (code_number code)) (kind_by (code_number code)) llr.now) (size_n (code_number code))
        (pass_of hard.old messages.old) }
{
    match code {
        Code::N512R12 => stair_bits(256, 256, 768, &N512R12_EDGES, llr, messages, hard),
        Code::N576R23 => stair_bits(384, 192, 1152, &N576R23_EDGES, llr, messages, hard),
        Code::N512R34 => stair_bits(384, 128, 1152, &N512R34_EDGES, llr, messages, hard),
        Code::Ft8 => variable_node::listed_bits(SumKind::Others, 174, llr, &EDGES, messages, hard),
    }
}
