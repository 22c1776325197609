// What every call runs before its own: 1 to 10 and 24, the expression rows, 12 to 19 and 25, the reach rows and the column rows. A name that ends in
// `into_rows` says that the reach rows and the column rows are the caller's, who lends words for them; `into_columns`, that the column rows are, and the
// function has reach rows of its own. Expression rows are given (`judge_into_rows`, `judge_into_columns`), the function's own (`judge_tables_into_columns`,
// `check_into_columns`), or the caller's to be filled (`check_into_rows`).
#![tactic(auto)]

ghost use Rattle.std.specs.Prelude.{◌≡◌, ◌≤◌, ◌/◌, replicate};
ghost use Rattle.report.specs.Tables.{Tables};
ghost use Rattle.report.specs.Expressions.{tables_in};
ghost use Rattle.report.specs.Checks.{model_and_schema_check};
ghost use Rattle.expression_rows.specs.ExpressionRows.{SchemaReads, SchemaReadable};
ghost use Rattle.expression_rows.specs.SplitTables.{of_split};
ghost use Rattle.judging.specs.Judging.{JudgeReads, JudgeReadable, Judged, ColumnsReadable, ColumnsJudged};
ghost use Rattle.judging.specs.Judging.{SplitReads, SplitReadable, IsSplit, TablesFillable, TablesFilled, TablesReadable, TablesJudged, ColumnsChecked, RowsLent, RowsChecked};

use expression_rows::{Scope, SplitTables, check_permitted, check_schema, fill_expression_rows};
use forms::{check_forms, relations_end};
use reach::fill_reach;
use report::{Head, Limits, Reading, TableWords, Verdict};
use sets::{AttributeSet, Row};
use typing::check_typing;

// The words of the expression rows, of the reach rows and of the column rows, at most.
pub const EXPRESSION_WORDS: usize = Limits::MOST_EXPRESSIONS * Row::WORDS;

pub const REACH_WORDS: usize = Limits::MOST_QUERIES * Row::WORDS;

pub const COLUMN_WORDS: usize = AttributeSet::MOST_ATTRIBUTES * Row::WORDS;

// Those of the expression rows and of the reach rows of small tables.
const SMALL_WORDS: usize = Limits::SMALL * Row::WORDS;

// Checks 12 to 14, where these configurations are permitted.
fn check_model_and_schema(permitted: Row, tables: &SplitTables) -> Verdict
    requires { SchemaReadable tables.now.expression_rows.now permitted.words tables.now.relation_entries.now tables.now.relations.now }
    ensures { (T : Tables)
        → SchemaReads T tables.now.expression_rows.now permitted.words tables.now.relation_entries.now
        tables.now.relations.now
        → result ≡ model_and_schema_check T }
{
    check_permitted(permitted)?;
    check_schema(permitted, tables)
}

// ---- given expression rows

// Checks 12 to 19 and 25 of split tables, whose expression rows the first of their parts starts with. Fills `reach` with the reach
// rows and `columns` with the column rows, unless 12 to 14 refuse; before, both are all 0.
pub fn judge_into_rows(
    head: Head,
    reading: Reading,
    tables: &SplitTables,
    reach: &mut [u64],
    columns: &mut [u64],
) -> Verdict
    requires { of_split tables.now (JudgeReadable head) reach.old columns.old }
    ensures { (T : Tables)
        → of_split tables.now (JudgeReads T head)
        → Judged T reading result reach.old columns.old reach.new columns.new }
{
    let permitted = Row::load(tables.expression_rows, head.model);
    check_model_and_schema(permitted, tables)?;
    fill_reach(permitted, tables, reach);
    let scope = Scope {
        full: Row::full(head.features),
        permitted: permitted,
        items: head.attributes.max(tables.relations.len() / 2),
        reading: reading,
    };
    check_typing(scope, tables, reach, columns)
}

// The same with reach rows of its own, in WORDS words, of tables that have no more query forms than these have rows for.
fn judge_with_reach<const WORDS: usize>(
    head: Head,
    reading: Reading,
    tables: &SplitTables,
    columns: &mut [u64],
) -> Verdict
    requires { (WORDS ≤ 4096) × of_split tables.now (ColumnsReadable (WORDS / 16) head) columns.old }
    ensures { (T : Tables)
        → of_split tables.now (JudgeReads T head)
        → ColumnsJudged T reading result columns.old columns.new }
{
    let mut reach = [0; WORDS];
    judge_into_rows(head, reading, tables, &mut reach, columns)
}

// Checks 12 to 19 and 25 of split tables, whose expression rows the first of their parts starts with. Fills `columns`, which is all 0,
// with the column rows, unless 12 to 14 refuse.
pub fn judge_into_columns(
    head: Head,
    reading: Reading,
    tables: &SplitTables,
    columns: &mut [u64],
) -> Verdict
    requires { of_split tables.now (ColumnsReadable 256 head) columns.old }
    ensures { (T : Tables)
        → of_split tables.now (JudgeReads T head)
        → ColumnsJudged T reading result columns.old columns.new }
{
    if tables.queries.len() / 4 <= Limits::SMALL {
        return judge_with_reach::<SMALL_WORDS>(head, reading, tables, columns);
    }
    judge_with_reach::<REACH_WORDS>(head, reading, tables, columns)
}

// ---- whole tables

// The answer of the checks, and the permitted configurations. No Result has both: they are promised where typing refuses too (`ColumnsChecked`).
#[derive(Clone, Copy)]
pub struct Judgement {
    pub verdict: Verdict,
    pub permitted: Row,
}

// Tables 1 to 4 and the kind table of tables that have passed the form checks, with their expression rows: table 1 is split where the lists of the
// relations end. It is not given table 0, in whose place the expression rows stand from here on.
pub fn split_tables<'r, 't>(
    expression_rows: &'r [u64],
    entries: &'t [u16],
    relations: &'t [u16],
    comparisons: &'t [u16],
    queries: &'t [u16],
    kinds: &'t [u16],
) -> SplitTables<'r, 't>
    requires { SplitReadable entries.now relations.now comparisons.now queries.now kinds.now }
    ensures { (T : Tables)
        → SplitReads T entries.now relations.now comparisons.now queries.now kinds.now
        → of_split result (IsSplit T expression_rows.now) }
{
    let end = relations_end(relations) * 2;
    SplitTables {
        expression_rows,
        relation_entries: &entries[..end],
        project_entries: &entries[end..],
        relations,
        comparisons,
        queries,
        kinds,
    }
}

// Fills `expression_rows` with the expression rows of whole tables, splits table 1 where the lists of the relations end, and judges.
fn fill_and_judge(
    tables: &TableWords,
    reading: Reading,
    expression_rows: &mut [u64],
    columns: &mut [u64],
) -> Verdict
    requires { TablesFillable (tables_in tables.now) expression_rows.old columns.old }
    ensures { TablesFilled
        (tables_in tables.now)
        reading result expression_rows.old columns.old expression_rows.new columns.new }
{
    fill_expression_rows(tables.head.features, tables.expressions, expression_rows);
    let split = split_tables(
        expression_rows,
        tables.entries,
        tables.relations,
        tables.comparisons,
        tables.queries,
        tables.kinds,
    );
    judge_into_columns(tables.head, reading, &split, columns)
}

// The same with expression rows of its own, in WORDS words, of tables that have no more expressions than these have rows for.
// Not inlined: a call that is refused before would have the rows on its stack.
#[inline(never)]
fn judge_with_expression_rows<const WORDS: usize>(
    tables: &TableWords,
    reading: Reading,
    columns: &mut [u64],
) -> Judgement
    requires { (WORDS ≤ 4096) × TablesReadable (WORDS / 16) (tables_in tables.now) columns.old }
    ensures { TablesJudged
        (tables_in tables.now)
        reading result.verdict result.permitted.words columns.old columns.new }
{
    let mut expression_rows = [0; WORDS];
    let verdict = fill_and_judge(tables, reading, &mut expression_rows, columns);
    Judgement {
        verdict: verdict,
        permitted: Row::load(&expression_rows, tables.head.model),
    }
}

// Checks 12 to 19 and 25 of whole tables that have passed the form checks. Fills `columns`, which is all 0, with the column rows, unless 12 to 14 refuse.
pub fn judge_tables_into_columns(
    tables: &TableWords,
    reading: Reading,
    columns: &mut [u64],
) -> Judgement
    requires { TablesReadable 256 (tables_in tables.now) columns.old }
    ensures { TablesJudged
        (tables_in tables.now)
        reading result.verdict result.permitted.words columns.old columns.new }
{
    if tables.expressions.len() / 3 <= Limits::SMALL {
        return judge_with_expression_rows::<SMALL_WORDS>(tables, reading, columns);
    }
    judge_with_expression_rows::<EXPRESSION_WORDS>(tables, reading, columns)
}

// Checks 1 to 10, 24, 12 to 19 and 25. Fills `columns`, which is all 0, with the column rows, unless 1 to 10, 24 or 12 to 14 refuse. No configuration is
// permitted where 1 to 10 or 24 refuse.
// No `?` hands the first refusal on: a row is answered beside it.
pub fn check_into_columns(tables: &TableWords, reading: Reading, columns: &mut [u64]) -> Judgement
    requires { columns.old ≡ replicate 1024 0 }
    ensures { ColumnsChecked
        (tables_in tables.now)
        reading result.verdict result.permitted.words columns.old columns.new }
{
    let form = check_forms(tables);
    if let Err(_) = form {
        return Judgement {
            verdict: form,
            permitted: Row::empty(),
        };
    }
    judge_tables_into_columns(tables, reading, columns)
}

// The same with all rows in words that the caller lends: fills `expression_rows` with the expression rows too.
pub fn check_into_rows(
    tables: &TableWords,
    reading: Reading,
    expression_rows: &mut [u64],
    reach: &mut [u64],
    columns: &mut [u64],
) -> Verdict
    requires { RowsLent expression_rows.old reach.old columns.old }
    ensures { RowsChecked
        (tables_in tables.now)
        reading result expression_rows.old reach.old columns.old expression_rows.new reach.new
        columns.new }
{
    check_forms(tables)?;
    fill_expression_rows(tables.head.features, tables.expressions, expression_rows);
    let split = split_tables(
        expression_rows,
        tables.entries,
        tables.relations,
        tables.comparisons,
        tables.queries,
        tables.kinds,
    );
    judge_into_rows(tables.head, reading, &split, reach, columns)
}
