// The converter between the other maker's soft values, one signed byte a bit in eighths, and our f32 values.
#![tactic(auto)]

ghost use Rattle.std.specs.Prelude.{◌≡◌, false, not, length};
ghost use Rattle.refusal.specs.Outcome.{judged, kept};
ghost use Rattle.refusal.specs.Answers.{outcome_of};
ghost use Rattle.soft_bytes.specs.Values.{is_least, passes};
ghost use Rattle.eighths.specs.Calls.{some, bytes_refusals, values_refusals, values_of, bytes_of};

use refusal::Refusal;

// ---- from bytes

// Whether some byte is -128.
fn some_least(bytes: &[i8]) -> bool
    ensures { result ≡ some is_least bytes.now }
{
    bytes.iter().any(|&b| b == i8::MIN)
}

fn write_values(bytes: &[i8], positive_is_one: bool, values: &mut [f32])
    requires { length values.old ≡ length bytes.now }
    ensures { values.new ≡ values_of positive_is_one bytes.now }
{
    for (i, v) in values.iter_mut().enumerate() {
        *v = soft_bytes::value_of(bytes[i], positive_is_one);
    }
}

// Each byte times 0.125, negated for the models that count positive as 1.
pub fn values_of_bytes(
    bytes: &[i8],
    positive_is_one: bool,
    values: &mut [f32],
) -> Result<(), Refusal>
    ensures result_value { outcome_of result ≡ judged (bytes_refusals bytes.now values.old) tt }
    ensures values_after { values.new
        ≡ kept (bytes_refusals bytes.now values.old) values.old (values_of positive_is_one bytes.now) }
{
    if bytes.len() != values.len() {
        return Err(Refusal::InputLength);
    }
    if some_least(bytes) {
        return Err(Refusal::ByteOutOfRange);
    }
    write_values(bytes, positive_is_one, values);
    Ok(())
}

// ---- from values

fn some_not_passing(values: &[f32]) -> bool
    ensures { result ≡ some (λ v. not (passes v)) values.now }
{
    values.iter().any(|&v| !soft_bytes::passes(v))
}

fn write_bytes(values: &[f32], positive_is_one: bool, bytes: &mut [i8])
    requires bytes_len { length bytes.old ≡ length values.now }
    requires values_value { some (λ v. not (passes v)) values.now ≡ false }
    ensures { bytes.new ≡ bytes_of positive_is_one values.now }
{
    for (i, b) in bytes.iter_mut().enumerate() {
        *b = soft_bytes::byte_of(values[i], positive_is_one);
    }
}

// Eight times each value, negated for the models that count positive as 1.
pub fn bytes_of_values(
    values: &[f32],
    positive_is_one: bool,
    bytes: &mut [i8],
) -> Result<(), Refusal>
    ensures result_value { outcome_of result ≡ judged (values_refusals values.now bytes.old) tt }
    ensures bytes_after { bytes.new
        ≡ kept (values_refusals values.now bytes.old) bytes.old (bytes_of positive_is_one values.now) }
{
    if values.len() != bytes.len() {
        return Err(Refusal::InputLength);
    }
    if some_not_passing(values) {
        return Err(Refusal::NotEighths);
    }
    write_bytes(values, positive_is_one, bytes);
    Ok(())
}
