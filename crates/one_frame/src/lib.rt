// One frame of a batch: decoded by its code and its rule's number, and its answers put in their places.
#![tactic(auto)]

ghost use Rattle.std.specs.Prelude.{◌≡◌, ◌≤◌, length};
ghost use Rattle.rounds.specs.Told.{Chose};
ghost use Rattle.work_area.specs.Area.{cleared};
ghost use Rattle.batch_refusals.specs.Pairs.{pair, frame_of};
ghost use Rattle.numbered.specs.Numbers.{code_number};
ghost use Rattle.one_frame.specs.Codes.{size_n, size_k, decode_of};
ghost use Rattle.one_frame.specs.Place.{lent, PlaceFits, placed};

use numbered::Code;
use rounds::Decoded;

// One frame of any of the four codes: the chosen word's first bits, as many as `bits` has places. The work area is left to be cleared.
pub fn decode_frame(
    code: Code,
    rule: u32,
    scale: f32,
    limit: u16,
    llr: &[f32],
    bits: &mut [u8],
    work: &mut [f32],
) -> Decoded
    requires llr_len { length llr.now ≡ size_n (code_number code) }
    requires bits_len_bound { length bits.old ≤ size_n (code_number code) }
    requires in_bounds { 3070 ≤ length work.old }
    ensures chose { Chose (decode_of (code_number code) rule scale llr.now) limit (length bits.old) result bits.new }
    ensures work_unchanged { cleared work.new ≡ cleared work.old }
{
    let step = rules::rule_of(u32::from(code), rule, scale);
    belief::decode_uncleared(code, step, limit, llr, bits, work)
}

// One frame, the values from `offset` on: decoded to place j of each output. The work area is left to be cleared.
pub fn decode_place(
    code: u32,
    rule: u32,
    scale: f32,
    limit: u16,
    values: &[f32],
    offset: u32,
    j: usize,
    bits: &mut [u8],
    counts: &mut [u16],
    rounds: &mut [u16],
    firsts: &mut [u16],
    work: &mut [f32],
)
    requires { PlaceFits code offset j values.now (lent bits.old counts.old rounds.old firsts.old work.old) }
    ensures { lent bits.new counts.new rounds.new firsts.new (cleared work.new)
        ≡ placed (decode_of code rule scale (frame_of values.now (pair offset (size_n code)))) limit (size_k code) j
        (lent bits.old counts.old rounds.old firsts.old work.old) }
{
    let code = Code::of_number(code);
    let from = offset as usize;
    let to = from + code.n();
    let k = code.k();
    let at = j * k;
    let next = at + k;
    let told = decode_frame(
        code,
        rule,
        scale,
        limit,
        &values[from..to],
        &mut bits[at..next],
        work,
    );
    let first = told.first;
    counts[j] = told.count;
    rounds[j] = told.rounds;
    firsts[j] = check_places::place_of(first);
}
