// The print of the answer for tables, written into lent bytes.
ghost use Rattle.std.specs.Prelude.{◌≤◌, length};
ghost use Rattle.report.specs.Tables.{Tables};
ghost use Rattle.report.specs.Expressions.{tables_in};
ghost use Rattle.report.specs.HarbourFile.{File};
ghost use Rattle.harbour_print.specs.Layouts.{accepted_as, file_as};
ghost use Rattle.harbour_print.specs.Printing.{ColumnReads, ColumnReadable, Prints};

use crate::Layout;
use judging::{COLUMN_WORDS, check_into_columns};
use printing::{put_accepted, put_page};
use report::{Reading, TableWords};
use sets::Row;
use writing::put_refused;

// The print of an accepted report of n features, with its permitted configurations and its column rows.
fn print_columns(n: usize, permitted: Row, layout: Layout, columns: &[u64], out: &mut [u8]) -> usize
    requires { ColumnReadable n permitted.words columns.now out.old }
    ensures { (T : Tables) → ColumnReads T n permitted.words columns.now → Prints (accepted_as layout T) out.old out.new result }
{
    match layout {
        Layout::Columns => put_accepted(out, 0, permitted, 1 << n, columns),
        Layout::Page => put_page(out, 0, permitted, 1 << n, columns),
    }
}

// The print of the answer for these tables: a refusal, or the columns of each permitted configuration, in the layout.
// It takes any bytes so long, and not `PrintRoom` alone, which is one length.
pub fn print_tables(tables: &TableWords, layout: Layout, out: &mut [u8]) -> usize
    requires { 201653 ≤ length out.old }
    ensures { Prints
        (file_as layout (File.holds (tables_in tables.now)))
        out.old out.new result }
{
    let mut columns = [0; COLUMN_WORDS];
    let judged = check_into_columns(tables, Reading::Strict, &mut columns);
    let verdict = judged.verdict;
    match verdict {
        Ok(()) => print_columns(
            tables.head.features,
            judged.permitted,
            layout,
            &columns,
            out,
        ),
        Err(r) => put_refused(out, 0, r),
    }
}
