// The check step of every check of a code at once, over messages that lie by slots: with m checks of d entries each, entry j of check c lies at
// place j * m + c. The pads are set, and then the rule's products or minima are called.
#![tactic(auto)]

ghost use Rattle.std.specs.Prelude.{◌≡◌, List, ◌*◌, Float, length};
ghost use Rattle.lists.specs.Below.{Below};
ghost use Rattle.softmath.specs.Single.{product};
ghost use Rattle.softmath.specs.CheckNode.{at_each, middle, check_step, min_sum, factor_of};
ghost use Rattle.slots.specs.Layout.{scattered};
ghost use Rattle.check_node.specs.CheckStep.{AtColumns, pad_of};

use softmath::DecodeRule;

// Which engine answers a min-sum check: the two least magnitudes of all its messages, or each entry's others one by one.
const BY_OTHERS: bool = false;

// The value at each of the places.
fn scatter(value: f32, places: &[u16], work: &mut [f32])
    requires { Below (length work.old) places.now }
    ensures { work.new ≡ scattered value places.now work.old }
{
    for &p in places {
        work[p as usize] = value;
    }
}

// The message in the place of an entry that a check lacks.
fn pad_of(rule: DecodeRule) -> f32
    ensures { result ≡ pad_of rule }
{
    match rule {
        DecodeRule::SumProduct | DecodeRule::MinSum | DecodeRule::ScaledMinSum(_) => f32::INFINITY,
        DecodeRule::Ft8 => f32::NEG_INFINITY,
    }
}

// The check step of a rule that multiplies: each message by itself, each check's together, each answer by itself.
fn product_step(rule: DecodeRule, m: usize, d: usize, work: &mut [f32])
    requires ts_value { (ts : List Float) → middle rule ts ≡ at_each product ts }
    requires work_len { length work.old ≡ d * m }
    ensures { AtColumns (check_step rule) m d work.old work.new }
{
    each_message::before_checks(rule, work);
    slot_products::products_slots(m, d, work);
    each_message::after_checks(rule, work);
}

// Min-sum by the engine that the constant selects. The second takes checks of up to 16 entries, and the codes have none above 11.
fn min_sum_step(rule: DecodeRule, m: usize, d: usize, work: &mut [f32])
    requires { length work.old ≡ d * m }
    ensures { AtColumns (min_sum (factor_of rule)) m d work.old work.new }
{
    if BY_OTHERS && d <= 16 {
        slot_others::min_sum_second(rule, m, d, work);
    } else {
        slot_minima::min_sum_minima(rule, m, d, work);
    }
}

// The check step of every check: the pads, then the rule. Between products and min-sum the choice is made once for all checks; which min-sum rule it
// is, is matched at each check.
pub fn check_step(rule: DecodeRule, m: usize, d: usize, pads: &[u16], work: &mut [f32])
    requires work_len { length work.old ≡ d * m }
    requires below { Below (length work.old) pads.now }
    ensures { AtColumns (check_step rule) m d (scattered (pad_of rule) pads.now work.old) work.new }
{
    scatter(pad_of(rule), pads, work);
    match rule {
        // Stays an arm for each rule: joined by `|` they miss the speed bar, 9.9 microseconds and not 9.0 for 256 checks of 5 entries under sum-product, and
        // 5.5 and not 3.8 for 100 checks of 6 under min-sum.
        DecodeRule::SumProduct => product_step(rule, m, d, work),
        DecodeRule::MinSum => min_sum_step(rule, m, d, work),
        DecodeRule::ScaledMinSum(_) => min_sum_step(rule, m, d, work),
        DecodeRule::Ft8 => product_step(rule, m, d, work),
    }
}
