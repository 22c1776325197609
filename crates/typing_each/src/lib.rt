// Checks 15 to 19 and 25, configuration by configuration, and the column rows. Of the answers at all permitted configurations the one of the lowest form is
// given, then of its first phase, then of the lowest configuration.
#![tactic(auto)]

ghost use Rattle.std.specs.Prelude.{◌≤◌};
ghost use Rattle.report.specs.Tables.{Tables};
ghost use Rattle.expression_rows.specs.SplitTables.{of_split};
ghost use Rattle.expression_rows.specs.TypingReads.{TypingReads, Checked};
ghost use Rattle.typing_each.specs.TypingEach.{EachReadable, EachFillable, SizeReadable};

use column_rows::{SetAt, store_columns};
use expression_rows::{Scope, SplitTables};
use report::{Limits, Verdict};
use sets::AttributeSet;
use sparing::fill_spared;
use typing_at::fill_here;
use verdicts::sooner_of;

// How many permitted configurations are few: there is room for the report's sets at so many. On reports of full size going through up to so many one by
// one takes less time than the rows of all do (docs/changes/06-big-schema.md).
pub const FEW: usize = 64;

// The answer at each permitted configuration, ascending, and the column rows; in the words lent, the sets at one configuration after another, and in
// `spared_sets` what the reading does not hold against each form. The report's sets are kept, and the column rows made of them at the end.
fn check_with(
    scope: Scope,
    tables: &SplitTables,
    reach: &[u64],
    spared_sets: &[u64],
    columns: &mut [u64],
    named_sets: &mut [u64],
    clash_sets: &mut [u64],
    form_sets: &mut [u64],
) -> Verdict
    requires { of_split tables.now (EachFillable scope) reach.now spared_sets.now columns.old
        named_sets.old clash_sets.old form_sets.old }
    ensures { (T : Tables)
        → of_split tables.now (TypingReads T scope) reach.now
        → Checked T scope.reading result columns.new }
{
    let permitted = scope.permitted;
    // No heap: an array with room for all, and how many are in it.
    let mut gathered = [SetAt {
        configuration: 0,
        set: AttributeSet::empty(),
    }; FEW];
    let mut count = 0;
    let mut answer = Ok(());
    let mut from = 0;
    while let Some(c) = permitted.lowest_from(from) {
        let here = fill_here(
            c,
            tables,
            reach,
            spared_sets,
            named_sets,
            clash_sets,
            form_sets,
        );
        gathered[count] = SetAt {
            configuration: c as u16,
            set: here.set,
        };
        count += 1;
        answer = sooner_of(answer, here.verdict);
        from = c + 1;
    }
    store_columns(scope.items, &gathered[..count], columns);
    answer
}

// The same with words of its own, and with what is spared worked out first, of tables with at most FORMS comparisons and query forms.
fn check_sized<const FORMS: usize>(
    scope: Scope,
    tables: &SplitTables,
    reach: &[u64],
    columns: &mut [u64],
) -> Verdict
    requires { (FORMS ≤ 256) × of_split tables.now (SizeReadable FORMS scope) reach.now columns.old }
    ensures { (T : Tables)
        → of_split tables.now (TypingReads T scope) reach.now
        → Checked T scope.reading result columns.new }
{
    let mut spared_sets = [0; FORMS];
    fill_spared(scope, tables, reach, &mut spared_sets);
    let mut named_sets = [0; FORMS];
    let mut clash_sets = [0; FORMS];
    let mut form_sets = [0; FORMS];
    check_with(
        scope,
        tables,
        reach,
        &spared_sets,
        columns,
        &mut named_sets,
        &mut clash_sets,
        &mut form_sets,
    )
}

// Checks 15 to 19 and 25 at each permitted configuration, ascending, and the column rows, whatever the answer.
pub fn check_each(scope: Scope, tables: &SplitTables, reach: &[u64], columns: &mut [u64]) -> Verdict
    requires { of_split tables.now (EachReadable scope) reach.now columns.old }
    ensures { (T : Tables)
        → of_split tables.now (TypingReads T scope) reach.now
        → Checked T scope.reading result columns.new }
{
    if tables.comparisons.len() / 5 <= Limits::SMALL && tables.queries.len() / 4 <= Limits::SMALL {
        return check_sized::<{ Limits::SMALL }>(scope, tables, reach, columns);
    }
    // MOST_COMPARISONS is the same number.
    check_sized::<{ Limits::MOST_QUERIES }>(scope, tables, reach, columns)
}
