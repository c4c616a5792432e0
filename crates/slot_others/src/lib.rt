// The second engine of min-sum over messages that lie by slots: check by check the messages are taken out of their slots, answered each from its others,
// and the answers put in their place.
#![tactic(auto)]

ghost use Rattle.std.specs.Prelude.{◌≡◌, ◌*◌, ◌<◌, ◌≤◌, length};
ghost use Rattle.softmath.specs.CheckNode.{min_sum, factor_of};
ghost use Rattle.by_others.specs.Others.{others_sum};
ghost use Rattle.slots.specs.Columns.{column, AtColumns, ColumnIs};

use softmath::DecodeRule;

// The messages of check c, into a slice as long as the check.
fn column_of(m: usize, c: usize, work: &[f32], messages: &mut [f32])
    requires { (length work.now ≡ length messages.old * m) × (c < m) }
    ensures { messages.new ≡ column m (length messages.old) c work.now }
{
    for (j, message) in messages.iter_mut().enumerate() {
        *message = work[j * m + c];
    }
}

// The answers to check c, in the place of its messages.
fn put_column(m: usize, c: usize, answers: &[f32], work: &mut [f32])
    requires { (length work.old ≡ length answers.now * m) × (c < m) }
    ensures { ColumnIs m (length answers.now) c answers.now work.old work.new }
{
    for (j, &answer) in answers.iter().enumerate() {
        work[j * m + c] = answer;
    }
}

// The answers to these messages of check c, each from its others, in their place. The rule is matched at each check.
fn replace_column(
    rule: DecodeRule,
    m: usize,
    c: usize,
    messages: &[f32],
    answers: &mut [f32],
    work: &mut [f32],
)
    requires work_len { (length work.old ≡ length messages.now * m) × (c < m) }
    requires answers_len { length answers.old ≡ length messages.now }
    ensures { ColumnIs m (length messages.now) c
        (others_sum (factor_of rule) messages.now) work.old work.new }
{
    by_others::min_sum_by_others(softmath::factor_of(rule), messages, answers);
    put_column(m, c, answers, work);
}

// Check c.
fn answer_check(rule: DecodeRule, m: usize, d: usize, c: usize, work: &mut [f32])
    requires work_len { (length work.old ≡ d * m) × (c < m) }
    requires d_bound { d ≤ 16 }
    ensures { ColumnIs m d c (others_sum (factor_of rule) (column m d c work.old)) work.old work.new }
{
    // Stays with room for 16: the memory of a decode is fixed, and what is read and written are slices as long as the check.
    let mut messages = [0.0f32; 16];
    let mut answers = [0.0f32; 16];
    let column = &mut messages[..d];
    column_of(m, c, work, column);
    replace_column(rule, m, c, column, &mut answers[..d], work);
}

// Min-sum at every check.
fn min_sum_others(rule: DecodeRule, m: usize, d: usize, work: &mut [f32])
    requires work_len { length work.old ≡ d * m }
    requires d_bound { d ≤ 16 }
    ensures { AtColumns (others_sum (factor_of rule)) m d work.old work.new }
{
    for c in 0..m {
        answer_check(rule, m, d, c, work);
    }
}

// The same, as the check step asks for it: what equates the two engines is the theorem of `by_others`.
pub fn min_sum_second(rule: DecodeRule, m: usize, d: usize, work: &mut [f32])
    requires work_len { length work.old ≡ d * m }
    requires d_bound { d ≤ 16 }
    ensures { AtColumns (min_sum (factor_of rule)) m d work.old work.new }
{
    min_sum_others(rule, m, d, work);
}
