// A pick: the search once round the rows, and the relaxed pick where it yields nothing.
#![tactic(auto)]

ghost use Rattle.std.specs.Prelude.{◌≡◌, true, ◌-◌, ◌%◌, ◌≤◌, ◌<◌, length};
ghost use Rattle.columns.specs.Tables.{flag_at};
ghost use Rattle.picking.specs.Picks.{up_from, once_round, search, first_outside, settled};
ghost use Rattle.picking.specs.Searches.{met_row, met_rows, Unbeaten, FoundBelow, load_at, choice_of};

// The better of what was found and row r, which a flag may skip.
fn better(loads: &[u16], marks: &[u8], found: Option<usize>, r: usize) -> Option<usize>
    requires r_in_bounds { r < length loads.now }
    requires marks_len { length marks.now ≡ length loads.now }
    requires found_below { FoundBelow (length loads.now) found }
    ensures result_value { result ≡ met_row (load_at loads.now) (flag_at marks.now r) r found }
    ensures found_below_2 { FoundBelow (length loads.now) result }
{
    if marks[r] != 0 {
        return found;
    }
    let Some(q) = found else {
        return Some(r);
    };
    if loads[r] < loads[q] {
        return Some(r);
    }
    found
}

// No row is less loaded than an unloaded one.
fn unbeaten(loads: &[u16], found: Option<usize>) -> bool
    requires { FoundBelow (length loads.now) found }
    ensures { result ≡ true → Unbeaten loads.now found }
{
    let Some(q) = found else {
        return false;
    };
    loads[q] == 0
}

// The search over the rows from one to another, after what was found before.
fn search_part(
    loads: &[u16],
    marks: &[u8],
    from: usize,
    to: usize,
    before: Option<usize>,
) -> Option<usize>
    requires to_in_bounds { to ≤ length loads.now }
    requires marks_len { length marks.now ≡ length loads.now }
    requires found_below { FoundBelow (length loads.now) before }
    ensures result_value { result ≡ met_rows (load_at loads.now) (flag_at marks.now) (up_from from (to - from)) before }
    ensures found_below_2 { FoundBelow (length loads.now) result }
{
    let mut found = before;
    for r in from..to {
        found = better(loads, marks, found, r);
        if unbeaten(loads, found) {
            break;
        }
    }
    found
}

// The search: once round the rows from the start.
fn search(loads: &[u16], marks: &[u8], start: usize) -> Option<usize>
    requires marks_len { length marks.now ≡ length loads.now }
    requires start_in_bounds { start < length loads.now }
    ensures result_value { result ≡ search (length loads.now) (load_at loads.now) (flag_at marks.now) start }
    ensures found_below { FoundBelow (length loads.now) result }
{
    let first = search_part(loads, marks, start, loads.len(), None);
    search_part(loads, marks, 0, start, first)
}

// The first row from one to another that the column does not hold, or else the row other.
fn first_outside(column: &[u16], from: usize, to: usize, other: usize) -> usize
    ensures { result ≡ first_outside column.now (up_from from (to - from)) other }
{
    (from..to)
        .find(|&r| !columns::contains(column, r))
        .unwrap_or(other)
}

// The relaxed pick.
fn relaxed_row(column: &[u16], m: usize, start: usize) -> usize
    ensures { result ≡ first_outside column.now (once_round m start) 0 }
{
    let wrapped = first_outside(column, 0, start, 0);
    first_outside(column, start, m, wrapped)
}

// A row that was picked, and whether the pick was relaxed.
#[derive(Clone, Copy)]
pub struct Taken {
    pub row: usize,
    pub relaxed: bool,
}

// One pick at a drawn number, for a column that holds some rows already.
pub fn pick_row(loads: &[u16], marks: &[u8], column: &[u16], drawn: u64) -> Taken
    requires marks_len { length marks.now ≡ length loads.now }
    requires loads_nonzero { 0 < length loads.now }
    ensures result_value { choice_of result ≡ settled (length loads.now) column.now (drawn % length loads.now)
        (search (length loads.now) (load_at loads.now) (flag_at marks.now) (drawn % length loads.now)) }
    ensures row_in_bounds { result.row < length loads.now }
{
    let m = loads.len();
    let start = (drawn % (m as u64)) as usize;
    let Some(row) = search(loads, marks, start) else {
        let row = relaxed_row(column, m, start);
        return Taken { row, relaxed: true };
    };
    Taken {
        row,
        relaxed: false,
    }
}
