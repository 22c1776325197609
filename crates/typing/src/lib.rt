// Checks 15 to 19 and 25, and the column rows: configuration by configuration where few are permitted, and else by rows of all configurations. By rows
// the lowest form that fails, in its first phase that fails at any configuration, and the lowest failing configuration of that phase are found first,
// and the answer is that at this configuration.
#![tactic(auto)]

ghost use Rattle.std.specs.Prelude.{◌≡◌, ◌*◌, ◌≤◌, length};
ghost use Rattle.sets.specs.Search.{lowest};
ghost use Rattle.sets.specs.Lists.{concat};
ghost use Rattle.report.specs.Tables.{Tables, query_count};
ghost use Rattle.report.specs.Configuring.{written};
ghost use Rattle.report.specs.Checks.{typing_check};
ghost use Rattle.report.specs.declared.Reading.{Reading};
ghost use Rattle.expression_rows.specs.SplitTables.{of_split};
ghost use Rattle.expression_rows.specs.TypingReads.{TypingReads, TypingReadable, Checked};
ghost use Rattle.fault_rows.specs.FaultRows.{failing_row};
ghost use Rattle.typing.specs.Typed.{rowed, RowsReads, RowsReadable, SecondReads, SecondReadable};

use attribute_rows::fill_gathered_rows;
use comparisons::Gathered;
use expression_rows::{Scope, SplitTables};
use fault_rows::{add_clashes, fill_faults};
use report::{Limits, Verdict};
use sets::Row;
use typing_at::check_here;
use typing_each::{FEW, check_each};

// The lowest of `count` rows that is not empty.
fn lowest_row(count: usize, rows: &[u64]) -> Option<usize>
    requires { count * 16 ≤ length rows.now }
    ensures { result ≡ lowest (rowed rows.now) count }
{
    for q in 0..count {
        let row = Row::load(rows, q);
        if !row.is_empty() {
            return Some(q);
        }
    }
    None
}

// The answer from the rows of the configurations at which each form fails. A row that is not empty has a lowest configuration, so the second
// return is never taken.
fn check_rows(
    tables: &SplitTables,
    reach: &[u64],
    spared_sets: &[u64],
    fault_rows: &[u64],
) -> Verdict
    requires { of_split tables.now RowsReadable reach.now spared_sets.now fault_rows.now }
    ensures { (T : Tables) (R : Reading)
        → of_split tables.now (RowsReads T R) reach.now spared_sets.now
        fault_rows.now
        → result ≡ typing_check T R }
{
    let form = lowest_row(tables.queries.len() / 4, fault_rows);
    let Some(q) = form else {
        return Ok(());
    };
    let configuration = Row::load(fault_rows, q).lowest();
    let Some(c) = configuration else {
        return Ok(());
    };
    let here = check_here(c, tables, reach, spared_sets);
    here.verdict
}

// The second phase, 25: a row of the first phase that is empty becomes that of the configurations at which kinds differ. Done when the first phase has
// returned, so that the rows of clashes and those from which the first phase is worked out are not on the stack together.
fn add_second_phase(full: Row, tables: &SplitTables, reach: &[u64], fault_rows: &mut [u64])
    requires { SecondReadable full.words tables.now.expression_rows.now tables.now.comparisons.now tables.now.queries.now
        tables.now.kinds.now reach.now fault_rows.old }
    ensures { (T : Tables) (R : Reading)
        → SecondReads T R full.words tables.now.expression_rows.now tables.now.comparisons.now
        tables.now.queries.now tables.now.kinds.now reach.now fault_rows.old
        → fault_rows.new ≡ written (concat (query_count T) (failing_row T R)) fault_rows.old }
{
    let mut clash_rows = [0; Limits::MOST_COMPARISONS * Row::WORDS];
    // a row of clashes is not of one attribute: 0 stands for any
    fill_gathered_rows(Gathered::Clashes, 0, full, tables, &mut clash_rows);
    add_clashes(tables.queries, reach, &clash_rows, fault_rows);
}

// Checks 15 to 19 and 25 by rows of all configurations, and the column rows, whatever the answer.
fn check_by_rows(scope: Scope, tables: &SplitTables, reach: &[u64], columns: &mut [u64]) -> Verdict
    requires { of_split tables.now (TypingReadable scope) reach.now columns.old }
    ensures { (T : Tables)
        → of_split tables.now (TypingReads T scope) reach.now
        → Checked T scope.reading result columns.new }
{
    let mut fault_rows = [0; Limits::MOST_QUERIES * Row::WORDS];
    let mut spared_sets = [0; Limits::MOST_QUERIES];
    fill_faults(
        scope,
        tables,
        reach,
        &mut fault_rows,
        &mut spared_sets,
        columns,
    );
    add_second_phase(scope.full, tables, reach, &mut fault_rows);
    check_rows(tables, reach, &spared_sets, &fault_rows)
}

// Checks 15 to 19 and 25 of split tables, whose reach rows `reach` starts with, and the column rows,
// whatever the answer.
pub fn check_typing(
    scope: Scope,
    tables: &SplitTables,
    reach: &[u64],
    columns: &mut [u64],
) -> Verdict
    requires { of_split tables.now (TypingReadable scope) reach.now columns.old }
    ensures { (T : Tables)
        → of_split tables.now (TypingReads T scope) reach.now
        → Checked T scope.reading result columns.new }
{
    if scope.permitted.count() <= FEW {
        return check_each(scope, tables, reach, columns);
    }
    check_by_rows(scope, tables, reach, columns)
}
