// The entry point `check`.
#![tactic(auto)]

ghost use Rattle.report.specs.Expressions.{tables_in};
ghost use Rattle.checking.specs.Promises.{Checks};
ghost use Rattle.checking.specs.Meaning.{MeaningReads, Meant};

use forms::check_forms;
use judging::{COLUMN_WORDS, judge_tables_into_columns};
use report::{Reading, TableWords, Verdict};
use verdicts::refuse;

// Checks 12 to 19 and 25 of tables that have passed 1 to 10 and 24. Accepted: `rows`, of 1,024 words, holds the column rows. Refused: `rows` is as it was.
fn check_meaning(tables: &TableWords, reading: Reading, rows: &mut [u64]) -> Verdict
    requires { MeaningReads (tables_in tables.now) rows.old }
    ensures { Meant (tables_in tables.now) reading result rows.old rows.new }
{
    let mut columns = [0; COLUMN_WORDS];
    let judged = judge_tables_into_columns(tables, reading, &mut columns);
    judged.verdict?;
    rows.copy_from_slice(&columns);
    Ok(())
}

// Checks the report of these tables in the reading. Accepted: `rows` holds its column rows. Refused: `rows` is as it was.
pub fn check(tables: &TableWords, reading: Reading, rows: &mut [u64]) -> Verdict
    ensures { Checks (tables_in tables.now)
        reading rows.old result rows.new }
{
    check_forms(tables)?;
    if rows.len() != COLUMN_WORDS {
        return refuse(11, 0);
    }
    check_meaning(tables, reading, rows)
}
