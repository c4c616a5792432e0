// The places that a decode writes beside the rounds: the initial word, the front of a word, and the work area, which is left cleared.
#![tactic(auto)]

ghost use Rattle.std.specs.Prelude.{◌≡◌, map, ◌≤◌, length, take, replicate};
ghost use Rattle.softmath.specs.Single.{zero32};
ghost use Rattle.softmath.specs.Functions.{decide};
ghost use Rattle.work_area.specs.Area.{cleared};

// The work area's length (document 01: "The work area has at least 3,070 f32").
pub const WORK: usize = 3070;

// What the channel values decide.
pub fn initial_word(llr: &[f32], hard: &mut [u8])
    requires { length hard.old ≡ length llr.now }
    ensures { hard.new ≡ map decide llr.now }
{
    for (i, bit) in hard.iter_mut().enumerate() {
        *bit = softmath::decide(llr[i]);
    }
}

// The front of the word, as long as `bits`.
pub fn keep_word(hard: &[u8], bits: &mut [u8])
    requires { length bits.old ≤ length hard.now }
    ensures { bits.new ≡ take (length bits.old) hard.now }
{
    bits.copy_from_slice(&hard[..bits.len()]);
}

// Every place +0.0.
fn clear(part: &mut [f32])
    ensures { part.new ≡ replicate (length part.old) zero32 }
{
    part.fill(0.0);
}

// The first 3,070 places of a work area +0.0.
pub fn clear_area(work: &mut [f32])
    requires { 3070 ≤ length work.old }
    ensures { work.new ≡ cleared work.old }
{
    clear(&mut work[..WORK]);
}
