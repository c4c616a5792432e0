// The construction of the staircase codes' message columns, proved to give what `specs/Columns.antt` says.
#![tactic(auto)]

pub mod codes;

ghost use Rattle.std.specs.Prelude.{◌≡◌, ◌+◌, ◌*◌, ◌≤◌, ◌<◌, length};
ghost use Rattle.xorshift.specs.Draw.{draw};
ghost use Rattle.placing.specs.Tables.{Begun, Placed};
ghost use Rattle.construction.specs.Columns.{made, rows_of};
ghost use Rattle.construction.specs.Tables.{ColumnMade, Blank, Constructed};

use xorshift::Xorshift;

// One generator is lent: "the generator's state is lent and advanced once per pick". The functions that take
// or make the reference are thin: a pick draws and places, a column makes three picks, and the columns are made in turn.
//
// Stays three slices at each call: where a struct holds them by `&mut`, each function that takes it has to ensure that each field is the same
// reference still, which is longer than the three parameters.

// Pick t of column n at the lent generator's next draw. Whether it was relaxed.
fn one_pick(
    generator: &mut Xorshift,
    rows: &mut [u16],
    n: usize,
    t: usize,
    loads: &[u16],
    marks: &mut [u8],
) -> bool
    requires { (t < 3) × Begun (length loads.now) n t rows.old loads.now marks.old }
    ensures { (generator.new.state ≡ draw generator.old.state)
        × Placed (length loads.now) n t generator.new.state rows.old loads.now result rows.new marks.new }
{
    let drawn = generator.next();
    placing::place(rows, n, t, loads, marks, drawn)
}

// Column n: three picks, finished. How many of them were relaxed.
fn column(
    generator: &mut Xorshift,
    rows: &mut [u16],
    n: usize,
    loads: &mut [u16],
    marks: &mut [u8],
) -> usize
    requires { Begun (length loads.old) n 0 rows.old loads.old marks.old }
    ensures { ColumnMade (length loads.old) n generator.old.state rows.old
        generator.new.state result rows.new loads.new marks.new }
{
    let first = one_pick(generator, rows, n, 0, loads, marks);
    let second = one_pick(generator, rows, n, 1, loads, marks);
    let third = one_pick(generator, rows, n, 2, loads, marks);
    placing::finish_column(rows, n, loads, marks);
    usize::from(first) + usize::from(second) + usize::from(third)
}

// The rows of k columns, with the lent generator. How many picks were relaxed.
fn construct_with(
    generator: &mut Xorshift,
    rows: &mut [u16],
    loads: &mut [u16],
    marks: &mut [u8],
    k: usize,
) -> usize
    requires { Blank (length loads.old) k rows.old loads.old marks.old }
    ensures { Constructed k (length loads.old) generator.old.state rows.new generator.new.state result }
{
    let mut relaxed = 0;
    for n in 0..k {
        relaxed += column(generator, rows, n, loads, marks);
    }
    relaxed
}

// The generator's state after the last pick, and how many picks were relaxed.
#[derive(Clone, Copy, PartialEq, Eq)]
pub struct Step {
    pub state: u64,
    pub relaxed: usize,
}

// The rows of k columns from a seed: the generator is made of it, and lent.
fn construct_seeded(
    rows: &mut [u16],
    loads: &mut [u16],
    marks: &mut [u8],
    k: usize,
    seed: u64,
) -> Step
    requires { Blank (length loads.old) k rows.old loads.old marks.old }
    ensures { Constructed k (length loads.old) seed rows.new result.state result.relaxed }
{
    let mut generator = Xorshift { state: seed };
    let relaxed = construct_with(&mut generator, rows, loads, marks, k);
    Step {
        state: generator.state,
        relaxed,
    }
}

// The rows of k columns, three a column, for as many rows as there are loads.
pub fn construct(rows: &mut [u16], loads: &mut [u16], marks: &mut [u8], k: usize, seed: u64) -> Step
    requires rows_len { length rows.old ≡ 3 * k }
    requires k_bound { 3 * k < 65536 }
    requires loads_nonzero { (0 < length loads.old) × ((length loads.old ≤ 65536) × (length marks.old ≡ length loads.old)) }
    ensures rows_after { rows.new ≡ rows_of k (length loads.old) seed }
    ensures state_value { (result.state ≡ (made k (length loads.old) seed).state)
        × (result.relaxed ≡ (made k (length loads.old) seed).relaxed) }
{
    loads.fill(0);
    marks.fill(0);
    construct_seeded(rows, loads, marks, k, seed)
}
