// What `batchfigures` does with a file: its batch is added to the total, or the file has a line that says why it is not.
#![tactic(auto)]

ghost use Rattle.std.specs.Prelude.{◌≤◌, length};
ghost use Rattle.figure_report.specs.Report.{file_of, Stepped};

use figure_lines::Reason;
use figures::Totals;

// The total after a file, and how many bytes its line has.
#[derive(Clone, Copy, Debug, PartialEq, Eq)]
pub struct Step {
    pub total: Totals,
    pub end: usize,
}

// The file at that place among the arguments: its bytes, unless it cannot be read.
pub fn add_file(total: Totals, place: u64, file: Option<&[u8]>, out: &mut [u8]) -> Step
    requires { 35 ≤ length out.old }
    ensures { Stepped place total (file_of file.entry) out.old out.new result }
{
    let Some(input) = file else {
        let end = figure_lines::file_line(out, 0, place, Reason::Unreadable);
        return Step { total, end };
    };
    match input_figures::add_input(total, input) {
        Ok(sum) => Step { total: sum, end: 0 },
        Err(r) => {
            let end = figure_lines::file_line(out, 0, place, Reason::Refused(r));
            Step { total, end }
        }
    }
}
