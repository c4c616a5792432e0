// The parity bits of a staircase code whose messages lie by slots: each bit's first messages, and in a round its decision and its new messages in place of
// its answers. Their edges lie in the last two slots, one after the other; the last bit has one.
#![tactic(auto)]

ghost use Rattle.std.specs.Prelude.{◌≡◌, ◌+◌, ◌-◌, ◌≤◌, length};
ghost use Rattle.variable_node.specs.Passes.{turns, pass_of};
ghost use Rattle.parity_node.specs.Parity.{parity_turn, parity_first, Paired};

// The channel value of each parity bit but the last at its two edges.
fn paired_first(k: usize, m: usize, from: usize, llr: &[f32], messages: &mut [f32])
    requires m_in_bounds { k + m ≤ length llr.now }
    requires paired { Paired m from (length messages.old) }
    ensures { messages.new ≡ turns (parity_first llr.now k m from) (m - 1) messages.old }
{
    let next = from + m + 1;
    for i in 0..m - 1 {
        let l = llr[k + i];
        messages[from + i] = l;
        messages[next + i] = l;
    }
}

// The same of all: the last has one edge.
pub fn parity_first(k: usize, m: usize, from: usize, llr: &[f32], messages: &mut [f32])
    requires m_in_bounds { k + m ≤ length llr.now }
    requires paired { Paired m from (length messages.old) }
    ensures { messages.new ≡ turns (parity_first llr.now k m from) m messages.old }
{
    paired_first(k, m, from, llr, messages);
    let i = m - 1;
    messages[from + i] = llr[k + i];
}

// The decision and the new messages of each parity bit but the last.
fn paired_bits(k: usize, m: usize, from: usize, llr: &[f32], messages: &mut [f32], hard: &mut [u8])
    requires m_in_bounds { k + m ≤ length llr.now }
    requires m_in_bounds_2 { k + m ≤ length hard.old }
    requires paired { Paired m from (length messages.old) }
    ensures { pass_of hard.new messages.new
        ≡ turns (parity_turn llr.now k m from) (m - 1) (pass_of hard.old messages.old) }
{
    let next = from + m + 1;
    for i in 0..m - 1 {
        let l = llr[k + i];
        let x = messages[from + i];
        let y = messages[next + i];
        let total = l + (0.0 + x + y);
        hard[k + i] = softmath::decide(l + x + y);
        messages[from + i] = total - x;
        messages[next + i] = total - y;
    }
}

// The same of all.
pub fn parity_bits(
    k: usize,
    m: usize,
    from: usize,
    llr: &[f32],
    messages: &mut [f32],
    hard: &mut [u8],
)
    requires m_in_bounds { k + m ≤ length llr.now }
    requires m_in_bounds_2 { k + m ≤ length hard.old }
    requires paired { Paired m from (length messages.old) }
    ensures { pass_of hard.new messages.new
        ≡ turns (parity_turn llr.now k m from) m (pass_of hard.old messages.old) }
{
    paired_bits(k, m, from, llr, messages, hard);
    let i = m - 1;
    let l = llr[k + i];
    let x = messages[from + i];
    let total = l + (0.0 + x);
    hard[k + i] = softmath::decide(l + x);
    messages[from + i] = total - x;
}
