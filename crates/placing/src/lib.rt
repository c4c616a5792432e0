// A pick stored and marked, and a column of three picks finished, in the tables that the construction keeps.
#![tactic(auto)]

ghost use Rattle.std.specs.Prelude.{◌<◌, length};
ghost use Rattle.columns.specs.Tables.{column_at};
ghost use Rattle.placing.specs.Tables.{Begun, Placed, Finished};

// Pick t of column n at a drawn number: picked, stored and marked. Whether it was relaxed.
pub fn place(
    rows: &mut [u16],
    n: usize,
    t: usize,
    loads: &[u16],
    marks: &mut [u8],
    drawn: u64,
) -> bool
    requires { (t < 3) × Begun (length loads.now) n t rows.old loads.now marks.old }
    ensures { Placed (length loads.now) n t drawn rows.old loads.now result rows.new marks.new }
{
    let at = 3 * n;
    let end = at + t;
    let taken = picking::pick_row(loads, marks, &rows[at..end], drawn);
    columns::mark_together(marks, rows, n, taken.row);
    rows[end] = taken.row as u16;
    taken.relaxed
}

// Column n, of which three rows stand in the table: sorted and counted, and its flags cleared for the next.
pub fn finish_column(rows: &mut [u16], n: usize, loads: &mut [u16], marks: &mut [u8])
    requires { Begun (length loads.old) n 3 rows.old loads.old marks.old }
    ensures { Finished (length loads.old) n (column_at rows.old n) rows.old rows.new loads.new marks.new }
{
    let column = &mut rows[3 * n..3 * n + 3];
    columns::sort_column(column);
    columns::add_loads(loads, column);
    marks.fill(0);
}
