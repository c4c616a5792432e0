// The second engine of min-sum: each entry's answer from its other entries alone.
#![tactic(auto)]

ghost use Rattle.std.specs.Prelude.{◌≡◌, ◌++◌, length};
ghost use Rattle.softmath.specs.Single.{fold_from};
ghost use Rattle.by_others.specs.Others.{lesser_of, turned_by, others_answer, others_sum};

// The least magnitude of the part's, and of `start`.
#[tactic(auto, unfolding(softmath::specs::Single::fold_from))]
fn least_from(start: f32, part: &[f32]) -> f32
    ensures { result ≡ fold_from lesser_of start part.now }
{
    part.iter().copied().fold(
        start,
        |least, v| softmath::lesser(softmath::magnitude(v), least),
    )
}

// The sign `start`, turned by each negative one of the part.
#[tactic(auto, unfolding(softmath::specs::Single::fold_from))]
fn sign_from(start: f32, part: &[f32]) -> f32
    ensures { result ≡ fold_from turned_by start part.now }
{
    part.iter()
        .copied()
        .fold(start, |sign, v| softmath::turn_sign(v, sign))
}

// The answer to an entry, from its others alone: those before it and those after it, gone through in row order.
fn others_answer(scale: f32, before: &[f32], after: &[f32]) -> f32
    ensures { result ≡ others_answer scale (before.now ++ after.now) }
{
    let sign = sign_from(sign_from(1.0, before), after);
    scale * sign * least_from(least_from(1.0 / 0.0, before), after)
}

// For each entry it goes through the other entries for their least magnitude and their sign.
pub fn min_sum_by_others(scale: f32, messages: &[f32], answers: &mut [f32])
    requires { length answers.old ≡ length messages.now }
    ensures { answers.new ≡ others_sum scale messages.now }
{
    for (i, answer) in answers.iter_mut().enumerate() {
        *answer = others_answer(scale, &messages[..i], &messages[i + 1..]);
    }
}
