// Replays stored inputs through the float arithmetic of a round, and prints the bits of each result. The min-sum records
// come twice: for the first engine, and for the second.
//
// A record is 13 little-endian words. The first holds what to do, then how many floats follow (at most 11);
// the second is the scale or the channel value; the others are the floats' bits.
#![tactic(auto)]

ghost use Rattle.std.specs.Prelude.{◌≡◌, ◌<◌, ◌≤◌, length};

use softmath::{DecodeRule, SumKind};
use std::io;
use std::io::{Print, Read};

const MOST_RECORDS: usize = 8192;

const FLOATS: usize = 11;

// Where a bit's three answers lie among the floats.
const EDGES: [u16; 3] = [3, 7, 1];

const NO_PADS: [u16; 1] = [0];

fn print_float(rt: &impl Print, x: f32) -> io::Result<()> {
    if x != x {
        return println!(rt; "nan");
    }
    let bits = f32::to_bits(x);
    println!(rt; "{bits:08x}")
}

fn print_floats(rt: &impl Print, xs: &[f32]) -> io::Result<()> {
    for &x in xs {
        print_float(rt, x)?;
    }
    Ok(())
}

// The float that a word's bits stand for: a NaN's bits give a NaN that an operation makes.
fn float_of(bits: u32) -> f32 {
    if bits % 2147483648 > 2139095040 {
        0.0 / 0.0
    } else {
        f32::from_bits(bits)
    }
}

fn wide(byte: u8) -> usize {
    byte as usize
}

fn pair(low: u8, high: u8) -> u32
    ensures { result < 65536 }
{
    low as u32 + 256 * (high as u32)
}

fn word(bytes: &[u8; 52], k: usize) -> u32
    requires { k < 13 }
{
    let at = 4 * k;
    let low = pair(bytes[at], bytes[at + 1]);
    let high = pair(bytes[at + 2], bytes[at + 3]);
    low + 65536 * high
}

fn load(bytes: &[u8; 52]) -> [f32; 11]
    ensures { 11 ≡ length result }
{
    let mut floats = [0.0f32; 11];
    for (i, x) in floats.iter_mut().enumerate() {
        *x = float_of(word(bytes, i + 2));
    }
    floats
}

fn functions(rt: &impl Print, floats: &[f32], n: usize) -> io::Result<()> {
    for &x in floats.iter().take(n) {
        print_float(rt, softmath::fast_tanh(x))?;
        print_float(rt, softmath::fast_atanh(x))?;
    }
    Ok(())
}

// One check is a work area whose slots have one place each.
fn check_step(rt: &impl Print, rule: DecodeRule, part: &mut [f32]) -> io::Result<()> {
    let none = NO_PADS;
    let n = part.len();
    check_node::check_step(rule, 1, n, &none[..0], part);
    print_floats(rt, part)
}

// The check step on the first n floats.
fn check(rt: &impl Print, rule: DecodeRule, floats: &mut [f32], n: usize) -> io::Result<()> {
    if n <= floats.len() {
        check_step(rt, rule, &mut floats[..n])?;
    }
    Ok(())
}

fn step_by_others(
    rt: &impl Print,
    scale: f32,
    messages: &[f32],
    answers: &mut [f32],
) -> io::Result<()>
    requires { length answers.old ≡ length messages.now }
{
    by_others::min_sum_by_others(scale, messages, answers);
    print_floats(rt, answers)
}

// Min-sum on the first n floats by the second engine.
fn check_by_others(rt: &impl Print, scale: f32, floats: &[f32], n: usize) -> io::Result<()>
    requires { n ≤ 11 }
{
    let mut answers = [0.0f32; 11];
    if n <= floats.len() {
        step_by_others(rt, scale, &floats[..n], &mut answers[..n])?;
    }
    Ok(())
}

fn print_bit(rt: &impl Print, bit: u8) -> io::Result<()> {
    println!(rt; "{bit:08x}")
}

// A bit of three edges: its decision, and the work area with the new messages in it.
fn bit(rt: &impl Print, kind: SumKind, llr: f32, floats: &mut [f32]) -> io::Result<()>
    requires { 11 ≡ length floats.old }
{
    let value = [llr];
    let edges = EDGES;
    let mut hard = [0u8; 1];
    variable_node::listed_bits(kind, 1, &value, &edges, floats, &mut hard);
    print_bit(rt, hard[0])?;
    print_floats(rt, floats)
}

// Three parity bits, whose edges lie in two slots from place 3 on: the decisions, and the work area with the new messages in it.
fn parity(rt: &impl Print, llr: f32, floats: &mut [f32]) -> io::Result<()>
    requires { 11 ≡ length floats.old }
{
    let values = [llr; 3];
    let mut hard = [0u8; 3];
    parity_node::parity_bits(0, 3, 3, &values, floats, &mut hard);
    print_bit(rt, hard[0])?;
    print_bit(rt, hard[1])?;
    print_bit(rt, hard[2])?;
    print_floats(rt, floats)
}

fn replay(rt: &impl Print, bytes: &[u8; 52]) -> io::Result<()> {
    let mut floats = load(bytes);
    let n = wide(bytes[1]);
    if n > FLOATS {
        return Ok(());
    }
    let parameter = float_of(word(bytes, 1));
    let what = bytes[0];
    match what {
        0 => functions(rt, &floats, n),
        1 => check(rt, DecodeRule::SumProduct, &mut floats, n),
        2 => check(rt, DecodeRule::MinSum, &mut floats, n),
        3 => check(rt, DecodeRule::ScaledMinSum(parameter), &mut floats, n),
        4 => check(rt, DecodeRule::Ft8, &mut floats, n),
        5 => bit(rt, SumKind::Total, parameter, &mut floats),
        6 => bit(rt, SumKind::Others, parameter, &mut floats),
        7 => check_by_others(rt, 1.0, &floats, n),
        8 => check_by_others(rt, parameter, &floats, n),
        9 => parity(rt, parameter, &mut floats),
        _ => Ok(()),
    }
}

// One record; answers whether there was one.
fn replay_one(rt: &impl Print, reader: &mut impl Read) -> io::Result<bool> {
    let mut bytes = [0u8; 52];
    if streams::read_all(reader, &mut bytes)? < 52 {
        return Ok(false);
    }
    replay(rt, &bytes)?;
    Ok(true)
}

fn main(rt: HostRuntime) -> io::Result<()> {
    let mut stdin = rt.stdin();
    for _ in 0..MOST_RECORDS {
        if !replay_one(&rt, &mut stdin)? {
            return Ok(());
        }
    }
    Ok(())
}
