// A column of rows: whether it holds one, the flags and the loads of its rows, and its sorting.
#![tactic(auto)]

ghost use Rattle.std.specs.Prelude.{◌≡◌, [], ◌∷◌, ◌*◌, ◌≤◌, ◌<◌, length, take, replicate};
ghost use Rattle.columns.specs.Rows.{holds, sorted};
ghost use Rattle.columns.specs.Tables.{columns_in, Marked, MarkedWith, AllMarked, Loaded, Room};
ghost use Rattle.lists.specs.Below.{Below};

// Whether the column holds the row.
pub fn contains(column: &[u16], r: usize) -> bool
    ensures { result ≡ holds column.now r }
{
    column.iter().any(|&q| q as usize == r)
}

// A flag at each of the column's rows.
fn mark_rows(marks: &mut [u8], column: &[u16])
    requires { Below (length marks.old) column.now }
    ensures { Marked column.now marks.old marks.new }
{
    for &r in column {
        marks[r as usize] = 1;
    }
}

// A flag at each of the column's rows, where it holds q.
fn mark_column(marks: &mut [u8], column: &[u16], q: usize)
    requires { Below (length marks.old) column.now }
    ensures { MarkedWith column.now q marks.old marks.new }
{
    if contains(column, q) {
        mark_rows(marks, column);
    }
}

// A flag at row q and at each row that one of the first n columns holds together with q.
pub fn mark_together(marks: &mut [u8], rows: &[u16], n: usize, q: usize)
    requires q_in_bounds { q < length marks.old }
    requires n_in_bounds { 3 * n ≤ length rows.now }
    requires below { Below (length marks.old) (take (3 * n) rows.now) }
    ensures { AllMarked (columns_in rows.now n) q marks.old marks.new }
{
    marks[q] = 1;
    for column in rows[..3 * n].chunks_exact(3) {
        mark_column(marks, column, q);
    }
}

// One more at the load of each of the column's rows.
pub fn add_loads(loads: &mut [u16], column: &[u16])
    requires below { Below (length loads.old) column.now }
    requires room { Room (length column.now) loads.old }
    ensures { Loaded column.now loads.old loads.new }
{
    for &r in column {
        loads[r as usize] += 1;
    }
}

// A column's rows, sorted where they lie.
pub fn sort_column(column: &mut [u16])
    requires { length column.old ≡ 3 }
    ensures { column.new ≡ sorted column.old }
{
    column.sort_unstable();
}
