// Min-sum at every check of a code, over messages that lie by slots: with m checks of d entries each, entry j of check c lies at place j * m + c. Check by
// check the entries are seen, and then answered in place; of a check the least magnitude, the second and the sign are kept, without a place. Where m and d
// are numbers that the compiler sees it takes a check's loops apart, and works on several checks at a time.
#![tactic(auto)]

ghost use Rattle.std.specs.Prelude.{◌≡◌, cond, map, ◌*◌, ◌<◌, length};
ghost use Rattle.std.specs.Float.Ieee.{lt, eq};
ghost use Rattle.softmath.specs.CheckNode.{min_sum, factor_of};
ghost use Rattle.slots.specs.Columns.{column, AtColumns, ColumnIs};
ghost use Rattle.slot_minima.specs.Minima.{fresh, noted, noted_all, answer_to, Fit};

use softmath::DecodeRule;

// What is kept of the messages seen: their two least magnitudes, and the sign of their product.
#[derive(Clone, Copy)]
pub struct Seen {
    pub least: f32,
    pub second: f32,
    pub sign: f32,
}

// The greater of two: b where neither is.
fn greater(a: f32, b: f32) -> f32
    ensures { result ≡ cond (lt b a) a b }
{
    if b < a { a } else { b }
}

// The least so far where a is less, and otherwise x.
fn pushed(a: f32, least: f32, x: f32) -> f32
    ensures { result ≡ cond (lt a least) least x }
{
    if a < least { least } else { x }
}

// x where the two are equal, and otherwise y.
fn where_equal(a: f32, b: f32, x: f32, y: f32) -> f32
    ensures { result ≡ cond (eq a b) x y }
{
    if a == b { x } else { y }
}

// One message more.
fn note(kept: Seen, v: f32) -> Seen
    ensures { result ≡ noted kept v }
{
    let a = softmath::magnitude(v);
    let x = softmath::lesser(a, kept.second);
    Seen {
        least: softmath::lesser(a, kept.least),
        second: pushed(a, kept.least, x),
        sign: softmath::turn_sign(v, kept.sign),
    }
}

// The answer to a message of which all are seen: by the second magnitude where its own is the least.
fn answer(scale: f32, kept: Seen, v: f32) -> f32
    ensures { result ≡ answer_to scale kept v }
{
    let a = softmath::magnitude(v);
    let t = softmath::turn_sign(v, kept.sign);
    let k = where_equal(a, kept.least, 1.0 / 0.0, 0.0);
    let x = softmath::lesser(kept.second, k);
    scale * t * greater(x, kept.least)
}

// The messages of check c seen.
fn see_column(m: usize, d: usize, c: usize, work: &[f32]) -> Seen
    requires { (length work.now ≡ d * m) × (c < m) }
    ensures value { result ≡ noted_all fresh (column m d c work.now) }
    ensures fit { Fit (column m d c work.now) }
{
    let mut kept = Seen {
        least: 1.0 / 0.0,
        second: 1.0 / 0.0,
        sign: 1.0,
    };
    for j in 0..d {
        kept = note(kept, work[j * m + c]);
    }
    kept
}

// The messages of check c answered, in place.
fn answer_column(scale: f32, kept: Seen, m: usize, d: usize, c: usize, work: &mut [f32])
    requires { (length work.old ≡ d * m) × (c < m) }
    ensures { ColumnIs m d c (map (answer_to scale kept) (column m d c work.old)) work.old work.new }
{
    for j in 0..d {
        let at = j * m + c;
        work[at] = answer(scale, kept, work[at]);
    }
}

// Check c. The rule is matched at each check.
fn min_sum_column(rule: DecodeRule, m: usize, d: usize, c: usize, work: &mut [f32])
    requires { (length work.old ≡ d * m) × (c < m) }
    ensures { ColumnIs m d c (min_sum (factor_of rule) (column m d c work.old)) work.old work.new }
{
    let scale = softmath::factor_of(rule);
    let kept = see_column(m, d, c, work);
    answer_column(scale, kept, m, d, c, work);
}

// Every check.
fn min_sum_columns(rule: DecodeRule, m: usize, d: usize, work: &mut [f32])
    requires { length work.old ≡ d * m }
    ensures { AtColumns (min_sum (factor_of rule)) m d work.old work.new }
{
    for c in 0..m {
        min_sum_column(rule, m, d, c, work);
    }
}

// The same with the sizes of the staircase codes as numbers that the compiler sees.
pub fn min_sum_minima(rule: DecodeRule, m: usize, d: usize, work: &mut [f32])
    requires { length work.old ≡ d * m }
    ensures { AtColumns (min_sum (factor_of rule)) m d work.old work.new }
{
    // Stays with numbers as arguments: const parameters would be no plainer, as the last arm has its sizes at run time and would need a second function.
    match (m, d) {
        (256, 5) => min_sum_columns(rule, 256, 5, work),
        (192, 8) => min_sum_columns(rule, 192, 8, work),
        (128, 11) => min_sum_columns(rule, 128, 11, work),
        _ => min_sum_columns(rule, m, d, work),
    }
}
