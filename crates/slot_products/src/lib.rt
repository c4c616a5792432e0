// At every check of a code the products of its other entries, over messages that lie by slots: with m checks of d entries each, entry j of check c lies at
// place j * m + c. Check by check a column is turned in place. Where m and d are numbers that the compiler sees it takes a check's loops apart, and works
// on several checks at a time.
#![tactic(auto)]

ghost use Rattle.std.specs.Prelude.{◌≡◌, ◌*◌, ◌<◌, length, drop};
ghost use Rattle.softmath.specs.Single.{◌⊗◌, fold_from, product};
ghost use Rattle.softmath.specs.CheckNode.{at_each};
ghost use Rattle.slots.specs.Columns.{column, AtColumns, ColumnIs};

// `start` times the entries of check c from entry `from` on, in row order.
fn product_from(start: f32, m: usize, d: usize, c: usize, from: usize, work: &[f32]) -> f32
    requires { (length work.now ≡ d * m) × (c < m) }
    ensures { result ≡ fold_from ◌⊗◌ start (drop from (column m d c work.now)) }
{
    let mut p = start;
    for j in from..d {
        p *= work[j * m + c];
    }
    p
}

// In the place of each entry of check c the product from 1.0 of the others, in row order: those before it are carried along, those after it are still there.
fn product_column(m: usize, d: usize, c: usize, work: &mut [f32])
    requires { (length work.old ≡ d * m) × (c < m) }
    ensures { ColumnIs m d c (at_each product (column m d c work.old)) work.old work.new }
{
    let mut carried = 1.0;
    for j in 0..d {
        let at = j * m + c;
        let own = work[at];
        work[at] = product_from(carried, m, d, c, j + 1, work);
        carried *= own;
    }
}

// The same at every check.
fn product_columns(m: usize, d: usize, work: &mut [f32])
    requires { length work.old ≡ d * m }
    ensures { AtColumns (at_each product) m d work.old work.new }
{
    for c in 0..m {
        product_column(m, d, c, work);
    }
}

// The same with the sizes of the codes as numbers that the compiler sees.
pub fn products_slots(m: usize, d: usize, work: &mut [f32])
    requires { length work.old ≡ d * m }
    ensures { AtColumns (at_each product) m d work.old work.new }
{
    // Stays with numbers as arguments: const parameters would be no plainer, as the last arm has its sizes at run time and would need a second function.
    match (m, d) {
        (256, 5) => product_columns(256, 5, work),
        (192, 8) => product_columns(192, 8, work),
        (128, 11) => product_columns(128, 11, work),
        (83, 7) => product_columns(83, 7, work),
        _ => product_columns(m, d, work),
    }
}
