// The three staircase codes as types, each with its own N, K and M and its construction.
ghost use Rattle.std.specs.Prelude.{◌≡◌, ◌*◌, ◌≤◌, ◌<◌};
ghost use Rattle.construction.specs.Codes.{n512r12, n576r23, n512r34, message_rows, relaxed_picks};
ghost use Rattle.construction.specs.Columns.{made, rows_of};

// The rows of a code's message columns, three a column, and how many picks were relaxed.
#[derive(Clone, Copy, PartialEq, Eq)]
pub struct Columns<const ROWS: usize> {
    pub rows: [u16; ROWS],
    pub relaxed: usize,
}

// The message columns of a code of k columns over M rows.
fn of_seed<const ROWS: usize, const M: usize>(k: usize, seed: u64) -> Columns<ROWS>
    requires rows_len { ROWS ≡ 3 * k }
    requires k_bound { 3 * k < 65536 }
    requires m_bound { (0 < M) × (M ≤ 65536) }
    ensures rows { result.rows ≡ rows_of k M seed }
    ensures relaxed { result.relaxed ≡ (made k M seed).relaxed }
{
    let mut rows = [0; ROWS];
    let mut loads = [0; M];
    let mut marks = [0; M];
    let step = crate::construct(&mut rows, &mut loads, &mut marks, k, seed);
    Columns {
        rows,
        relaxed: step.relaxed,
    }
}

// Code 0.
#[derive(Clone, Copy)]
pub struct N512R12;

impl N512R12 {
    pub const N: usize = 512;

    pub const K: usize = 256;

    pub const M: usize = 256;

    pub const SEED: u64 = 0x4C44_5043_3531_3200;

    pub fn construct() -> Columns<768>
        ensures { (result.rows ≡ message_rows n512r12) × (result.relaxed ≡ relaxed_picks n512r12) }
    {
        of_seed::<768, { N512R12::M }>(N512R12::K, N512R12::SEED)
    }
}

// Code 1.
#[derive(Clone, Copy)]
pub struct N576R23;

impl N576R23 {
    pub const N: usize = 576;

    pub const K: usize = 384;

    pub const M: usize = 192;

    pub const SEED: u64 = 0x4C44_5043_3531_3201;

    pub fn construct() -> Columns<1152>
        ensures { (result.rows ≡ message_rows n576r23) × (result.relaxed ≡ relaxed_picks n576r23) }
    {
        of_seed::<1152, { N576R23::M }>(N576R23::K, N576R23::SEED)
    }
}

// Code 2.
#[derive(Clone, Copy)]
pub struct N512R34;

impl N512R34 {
    pub const N: usize = 512;

    pub const K: usize = 384;

    pub const M: usize = 128;

    pub const SEED: u64 = 0x4C44_5043_3531_3202;

    pub fn construct() -> Columns<1152>
        ensures { (result.rows ≡ message_rows n512r34) × (result.relaxed ≡ relaxed_picks n512r34) }
    {
        of_seed::<1152, { N512R34::M }>(N512R34::K, N512R34::SEED)
    }
}
