// The reception figures of a program's input: its batch is read and decoded, and its frames are added to a total.
#![tactic(auto)]

ghost use Rattle.std.specs.Prelude.{◌≡◌, false, take};
ghost use Rattle.batch_input.specs.Input.{pair_numbers, values_of, malformed};
ghost use Rattle.figures.specs.Totals.{summed_of};
ghost use Rattle.input_figures.specs.Added.{input_added};

use figures::Totals;
use refusal::Refusal;

// The total with the frames of an input that is not malformed, its values and pairs read.
fn add_frames(total: Totals, input: &[u8], values: &[f32], pairs: &[u32]) -> Result<Totals, Refusal>
    requires input_value { malformed input.now ≡ false }
    requires values_value { (values.now ≡ values_of input.now) × (pairs.now ≡ take 50 (pair_numbers input.now)) }
    ensures { summed_of result ≡ input_added total input.now }
{
    let mut bits = decoded_input::bits_room();
    let mut counts = decoded_input::numbers_room();
    let mut rounds = decoded_input::numbers_room();
    let mut firsts = decoded_input::numbers_room();
    let decoded = decoded_input::decode_fronts(
        input,
        values,
        pairs,
        &mut bits,
        &mut counts,
        &mut rounds,
        &mut firsts,
    )?;
    batch_figures::add_batch(
        total,
        input[0] as u32,
        values,
        pairs,
        &bits[..decoded.bits],
        &counts[..decoded.frames],
        &rounds[..decoded.frames],
    )
}

// The total with the frames of an input that is not malformed.
fn add_read(total: Totals, input: &[u8]) -> Result<Totals, Refusal>
    requires { malformed input.now ≡ false }
    ensures { summed_of result ≡ input_added total input.now }
{
    let mut pairs = batch_input::pairs_room();
    let words = batch_input::read_pairs(input, &mut pairs);
    let mut values = batch_input::values_room();
    let n = batch_input::read_values(input, &mut values);
    add_frames(total, input, &values[..n], &pairs[..words])
}

// The total with the frames of an input's batch.
pub fn add_input(total: Totals, input: &[u8]) -> Result<Totals, Refusal>
    ensures { summed_of result ≡ input_added total input.now }
{
    if batch_input::is_malformed(input) {
        return Err(Refusal::Malformed);
    }
    add_read(total, input)
}
