// The entry point `write_page`: the wall page, a line for each permitted configuration with a mark for each attribute.
#![tactic(auto)]

ghost use Rattle.std.specs.Prelude.{◌≡◌, ◌≤◌};
ghost use Rattle.report.specs.Expressions.{tables_in};
ghost use Rattle.printing.specs.PageRows.{permitted_count};
ghost use Rattle.wall_page.specs.Page.{PageWritten};

use judging::{COLUMN_WORDS, check_into_columns};
use printing::put_page;
use report::{Reading, Refusal, TableWords};
use sets::Row;
use verdicts::refuse_if;

// What writing a page answers: the number of its lines, or the refusal.
pub type PageAnswer = Result<usize, Refusal>;

// The bytes of a line: 72 characters and a line feed.
const LINE_BYTES: usize = 73;

// How many of the configurations below `count` the row has.
#[tactic(auto, using(sets::proofs::SearchLaws::count_le), unfolding(printing::specs::PageRows::permitted_count))]
fn permitted_count(row: Row, count: usize) -> usize
    requires { count ≤ 1024 }
    ensures { result ≡ permitted_count row.words count }
{
    let mut found = 0;
    for c in 0..count {
        if row.has(c) {
            found += 1;
        }
    }
    found
}

// Writes the page of the report of these tables, in the reading, to the start of `page`.
pub fn write_page(tables: &TableWords, reading: Reading, page: &mut [u8]) -> PageAnswer
    ensures { PageWritten
        (tables_in tables.now) reading page.old result page.new }
{
    let mut columns = [0; COLUMN_WORDS];
    let judged = check_into_columns(tables, reading, &mut columns);
    judged.verdict?;
    let count = 1 << tables.head.features;
    // The lines are counted before any is written: a refused call changes no byte.
    let lines = permitted_count(judged.permitted, count);
    refuse_if(page.len() < LINE_BYTES * lines, 23, 0)?;
    put_page(page, 0, judged.permitted, count, &columns);
    Ok(lines)
}
