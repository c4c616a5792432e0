// The bits of a code whose messages lie by slots: each bit's first messages, and in a round its decision and its new messages in place of its answers.
// Here those of three edges, whose places are in a table.
#![tactic(auto)]

ghost use Rattle.std.specs.Prelude.{◌≡◌, ◌≤◌, length};
ghost use Rattle.variable_node.specs.Passes.{turns, pass_of, message_to, three_turn, three_first, Listed};

use softmath::SumKind;

// Each bit's channel value at its three edges.
pub fn listed_first(n: usize, llr: &[f32], table: &[u16], messages: &mut [f32])
    requires n_in_bounds { n ≤ length llr.now }
    requires listed { Listed n table.now (length messages.old) }
    ensures { messages.new ≡ turns (three_first llr.now table.now) n messages.old }
{
    for b in 0..n {
        let a = b * 3;
        let l = llr[b];
        let p = table[a] as usize;
        let q = table[a + 1] as usize;
        let r = table[a + 2] as usize;
        messages[p] = l;
        messages[q] = l;
        messages[r] = l;
    }
}

// The new message to an edge: the total less its own answer, or the channel value and the other two answers.
fn new_message(kind: SumKind, llr: f32, total: f32, own: f32, one: f32, other: f32) -> f32
    ensures { result ≡ message_to kind llr total own one other }
{
    match kind {
        SumKind::Total => total - own,
        SumKind::Others => llr + one + other,
    }
}

// Each bit's decision, and its new messages in place of its answers.
pub fn listed_bits(
    kind: SumKind,
    n: usize,
    llr: &[f32],
    table: &[u16],
    messages: &mut [f32],
    hard: &mut [u8],
)
    requires n_in_bounds { n ≤ length llr.now }
    requires n_in_bounds_2 { n ≤ length hard.old }
    requires listed { Listed n table.now (length messages.old) }
    ensures { pass_of hard.new messages.new
        ≡ turns (three_turn kind llr.now table.now) n (pass_of hard.old messages.old) }
{
    for b in 0..n {
        let a = b * 3;
        let l = llr[b];
        let p = table[a] as usize;
        let q = table[a + 1] as usize;
        let r = table[a + 2] as usize;
        let x = messages[p];
        let y = messages[q];
        let z = messages[r];
        let total = l + (0.0 + x + y + z);
        hard[b] = softmath::decide(l + x + y + z);
        messages[p] = new_message(kind, l, total, x, y, z);
        messages[q] = new_message(kind, l, total, y, x, z);
        messages[r] = new_message(kind, l, total, z, x, y);
    }
}
