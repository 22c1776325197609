// Fault rows: for each query form the configurations at which it fails, in two phases, and what the reading spares it; and the column rows. The first
// phase and the column rows go attribute by attribute, each from the rows of that attribute; the second phase adds the clashes of kinds.
#![tactic(auto)]

ghost use Rattle.std.specs.Prelude.{◌≡◌, ◌+◌, ◌*◌, ◌^◌, ◌<◌, ◌≤◌, length, get_or, set};
ghost use Rattle.std.specs.Int.Bits.{bit_or};
ghost use Rattle.sets.specs.Lists.{concat};
ghost use Rattle.sets.specs.Rows.{row_in, row_join, row_intersect, with_row};
ghost use Rattle.report.specs.Tables.{Tables, query_count};
ghost use Rattle.report.specs.Configuring.{written};
ghost use Rattle.report.specs.declared.Reading.{Reading};
ghost use Rattle.expression_rows.specs.SplitTables.{of_split};
ghost use Rattle.expression_rows.specs.TypingReads.{TypingReads};
ghost use Rattle.fault_rows.specs.FaultRows.{failing_row, FailReadable, FailsFilled, ClashReads, ClashReadable};
ghost use Rattle.fault_rows.specs.FaultRules.{unequal_row, absent_row, present_in, AbsentRead, fault_step, FaultRead};
ghost use Rattle.fault_rows.specs.FaultRules.{found_step, spared_step, FormRead, ItemRead, ItemJudged};
ghost use Rattle.fault_rows.specs.FaultRules.{FormRowsReads, FormRowsReadable, FormsFilled};
ghost use Rattle.fault_rows.specs.FaultRules.{clash_step, ClashRead, first_found, stored_column, ColumnRead};

use attribute_rows::{fill_gathered_rows, fill_relation_rows, list_row, set_row};
use comparisons::Gathered;
use decoders::{decode_query, project_length, relation_expression};
use expression_rows::{Scope, SplitTables};
use report::{Limits, Query, Reading};
use sets::{AttributeSet, Row};

// A question of the first phase: is the item, an attribute or a relation, at fault in the form, and where, of the configurations in `reached`, which are
// those that reach the form? `listed` is the row of the form's own list.
#[derive(Clone, Copy)]
struct Question {
    form: Query,
    listed: Row,
    reached: Row,
    item: usize,
}

// The configurations that one of two rows has and the other lacks.
fn unequal_row(x: Row, y: Row) -> Row
    ensures { result.words ≡ unequal_row x.words y.words }
{
    x.minus(y).join(y.minus(x))
}

// The configurations that reach the form at which relation r is absent, if it is the item.
fn absent_row(question: &Question, r: usize, tables: &SplitTables) -> Row
    requires { AbsentRead tables.now.expression_rows.now tables.now.relations.now r }
    ensures { result.words ≡ absent_row tables.now.expression_rows.now question.now.reached.words tables.now.relations.now question.now.item r }
{
    if question.item == r {
        let x = relation_expression(tables.relations, r);
        question.reached.minus(Row::load(tables.expression_rows, x))
    } else {
        Row::empty()
    }
}

// The configurations at which the item is at fault in the form: all of those that reach it, perhaps others. `named_rows` and `form_rows`, of which only
// those of lower forms are read, have the rows of the item.
fn form_faults(
    question: &Question,
    tables: &SplitTables,
    named_rows: &[u64],
    form_rows: &[u64],
) -> Row
    requires { FaultRead tables.now.expression_rows.now tables.now.relations.now named_rows.now form_rows.now question.now.form }
    ensures { result.words ≡ fault_step tables.now.expression_rows.now tables.now.relations.now named_rows.now
        form_rows.now question.now.listed.words question.now.reached.words question.now.item question.now.form }
{
    match question.form {
        Query::Malformed | Query::Empty | Query::Choice(_, _, _) => Row::empty(),
        Query::Relation(r) => absent_row(question, r, tables),
        Query::Select(f, b) => Row::load(named_rows, f).minus(Row::load(form_rows, b)),
        Query::Project(_, b) => question.listed.minus(Row::load(form_rows, b)),
        Query::Product(b, d) => Row::load(form_rows, b).intersect(Row::load(form_rows, d)),
        Query::Union(b, d) | Query::Intersection(b, d) => {
            unequal_row(Row::load(form_rows, b), Row::load(form_rows, d))
        }
    }
}

// Relation r is the item, and present at a configuration that reaches the form.
fn is_present_in(question: &Question, r: usize, tables: &SplitTables) -> bool
    requires { AbsentRead tables.now.expression_rows.now tables.now.relations.now r }
    ensures { result ≡ present_in tables.now.expression_rows.now question.now.reached.words tables.now.relations.now question.now.item r }
{
    question.item == r
        && question.reached.meets(
            tables.expression_rows,
            relation_expression(tables.relations, r),
        )
}

// The form asks for the item, and finds it at a configuration that reaches the form. `form_rows` is as in form_faults.
fn is_found(question: &Question, tables: &SplitTables, form_rows: &[u64]) -> bool
    requires { FormRead tables.now.expression_rows.now tables.now.relations.now form_rows.now question.now.form }
    ensures { result ≡ found_step tables.now.expression_rows.now tables.now.relations.now form_rows.now question.now.listed.words
        question.now.reached.words question.now.item question.now.form }
{
    match question.form {
        Query::Relation(r) => is_present_in(question, r, tables),
        Query::Project(_, b) => !question
            .listed
            .intersect(question.reached)
            .intersect(Row::load(form_rows, b))
            .is_empty(),
        Query::Malformed
        | Query::Empty
        | Query::Select(_, _)
        | Query::Choice(_, _, _)
        | Query::Product(_, _)
        | Query::Union(_, _)
        | Query::Intersection(_, _) => false,
    }
}

// The reading does not hold the item against the form where it is missing.
fn is_spared(reading: Reading, question: &Question, tables: &SplitTables, form_rows: &[u64]) -> bool
    requires { FormRead tables.now.expression_rows.now tables.now.relations.now form_rows.now question.now.form }
    ensures { result ≡ spared_step reading tables.now.expression_rows.now tables.now.relations.now form_rows.now
        question.now.listed.words question.now.reached.words question.now.item question.now.form }
{
    match reading {
        Reading::Strict => false,
        Reading::Filled => is_found(question, tables, form_rows),
    }
}

// Row q of `fault_rows` joined with `here`.
fn join_fault(here: Row, q: usize, fault_rows: &mut [u64])
    requires { q * 16 + 16 ≤ length fault_rows.old }
    ensures { fault_rows.new ≡ with_row 16 fault_rows.old q (row_join 16 (row_in 16 fault_rows.old q)
        here.words) }
{
    Row::load(fault_rows, q).join(here).store(fault_rows, q);
}

// Set q of `spared_sets` with item a.
fn spare_item(a: usize, q: usize, spared_sets: &mut [u64])
    requires { (a < 64) × (q < length spared_sets.old) }
    ensures { spared_sets.new ≡ set spared_sets.old q (bit_or (get_or spared_sets.old q 0) (2 ^ a)) }
{
    let all = AttributeSet::of_bits(spared_sets[q]).with(a);
    spared_sets[q] = all.bits;
}

// The item in form q: one that is spared goes to set q of `spared_sets`, and of any other row q of `fault_rows` is joined with the configurations that
// reach the form and at which it is at fault.
fn judge_item(
    reading: Reading,
    question: &Question,
    q: usize,
    tables: &SplitTables,
    named_rows: &[u64],
    form_rows: &[u64],
    fault_rows: &mut [u64],
    spared_sets: &mut [u64],
)
    requires { ItemRead tables.now.expression_rows.now tables.now.relations.now named_rows.now form_rows.now fault_rows.old
        spared_sets.old question.now.form question.now.item q }
    ensures { ItemJudged (spared_step reading tables.now.expression_rows.now tables.now.relations.now form_rows.now
        question.now.listed.words question.now.reached.words question.now.item question.now.form) (row_intersect 16
        (fault_step tables.now.expression_rows.now tables.now.relations.now named_rows.now form_rows.now
        question.now.listed.words question.now.reached.words question.now.item question.now.form)
        question.now.reached.words) question.now.item q fault_rows.old
        fault_rows.new spared_sets.old spared_sets.new }
{
    if is_spared(reading, question, tables, form_rows) {
        spare_item(question.item, q, spared_sets);
    } else {
        let faults = form_faults(question, tables, named_rows, form_rows);
        join_fault(faults.intersect(question.reached), q, fault_rows);
    }
}

// Types all query forms in attribute a, bottom up: judges item a in each, and fills `form_rows` with the forms' rows.
fn type_forms(
    reading: Reading,
    a: usize,
    tables: &SplitTables,
    reach: &[u64],
    named_rows: &[u64],
    relation_rows: &[u64],
    form_rows: &mut [u64],
    fault_rows: &mut [u64],
    spared_sets: &mut [u64],
)
    requires { FormRowsReadable reading tables.now.expression_rows.now tables.now.project_entries.now tables.now.relations.now
        tables.now.queries.now reach.now named_rows.now relation_rows.now a form_rows.old fault_rows.old spared_sets.old }
    ensures { (T : Tables)
        → FormRowsReads T reading tables.now.expression_rows.now tables.now.project_entries.now
        tables.now.relations.now tables.now.queries.now reach.now named_rows.now relation_rows.now
        a fault_rows.old spared_sets.old
        → FormsFilled T reading a form_rows.new fault_rows.old fault_rows.new
        spared_sets.old spared_sets.new }
{
    let count = tables.queries.len() / 4;
    let mut start = 0;
    for q in 0..count {
        let x = decode_query(tables.queries, q);
        let n = project_length(x);
        let listed = list_row(start, n, a, tables.expression_rows, tables.project_entries);
        let question = Question {
            form: x,
            listed,
            reached: Row::load(reach, q),
            item: a,
        };
        judge_item(
            reading,
            &question,
            q,
            tables,
            named_rows,
            form_rows,
            fault_rows,
            spared_sets,
        );
        let row = set_row(x, listed, tables.expression_rows, relation_rows, form_rows);
        row.store(form_rows, q);
        start += n;
    }
}

// Stores the column row of attribute a; `form_rows` has the rows of attribute a.
fn store_column(
    permitted: Row,
    a: usize,
    tables: &SplitTables,
    form_rows: &[u64],
    columns: &mut [u64],
)
    requires { ColumnRead tables.now.queries.now form_rows.now a columns.old }
    ensures { columns.new ≡ with_row 16 columns.old a (stored_column permitted.words tables.now.queries.now
        form_rows.now) }
{
    let last = tables.queries.len() / 4 - 1;
    let shown = Row::load(form_rows, last);
    let column = shown.intersect(permitted);
    column.store(columns, a);
}

// The first phase in the reading of the scope: fills `fault_rows` with the rows of the configurations at which each form fails in it, `spared_sets` with
// what each form is spared, and `columns` with the column rows: attribute by attribute, of the items of the scope.
pub fn fill_faults(
    scope: Scope,
    tables: &SplitTables,
    reach: &[u64],
    fault_rows: &mut [u64],
    spared_sets: &mut [u64],
    columns: &mut [u64],
)
    requires { of_split tables.now (FailReadable scope) reach.now fault_rows.old spared_sets.old columns.old }
    ensures { (T : Tables)
        → of_split tables.now (TypingReads T scope) reach.now
        → FailsFilled T scope.reading scope.items fault_rows.old fault_rows.new spared_sets.old
        spared_sets.new columns.old columns.new }
{
    let mut named_rows = [0; Limits::MOST_COMPARISONS * Row::WORDS];
    let mut relation_rows = [0; Limits::MOST_RELATIONS * Row::WORDS];
    let mut form_rows = [0; Limits::MOST_QUERIES * Row::WORDS];
    for a in 0..scope.items {
        fill_gathered_rows(Gathered::Names, a, scope.full, tables, &mut named_rows);
        fill_relation_rows(a, tables, &mut relation_rows);
        type_forms(
            scope.reading,
            a,
            tables,
            reach,
            &named_rows,
            &relation_rows,
            &mut form_rows,
            fault_rows,
            spared_sets,
        );
        store_column(scope.permitted, a, tables, &form_rows, columns);
    }
}

// The configurations of `reached` at which a query form clashes; `clash_rows` has those of the comparisons.
fn clash_row(x: Query, reached: Row, clash_rows: &[u64]) -> Row
    requires { ClashRead clash_rows.now x }
    ensures { result.words ≡ clash_step clash_rows.now reached.words x }
{
    match x {
        Query::Select(f, _) => Row::load(clash_rows, f).intersect(reached),
        Query::Malformed
        | Query::Empty
        | Query::Relation(_)
        | Query::Project(_, _)
        | Query::Choice(_, _, _)
        | Query::Product(_, _)
        | Query::Union(_, _)
        | Query::Intersection(_, _) => Row::empty(),
    }
}

// The first row, or the second if that is empty.
fn first_found(first: Row, second: Row) -> Row
    ensures { result.words ≡ first_found first.words second.words }
{
    if first.is_empty() { second } else { first }
}

// The second phase: in `fault_rows` the row of each form that fails nowhere in the first becomes that of the configurations that reach the form and at
// which it clashes. All other rows stay.
pub fn add_clashes(queries: &[u16], reach: &[u64], clash_rows: &[u64], fault_rows: &mut [u64])
    requires { ClashReadable queries.now reach.now clash_rows.now fault_rows.old }
    ensures { (T : Tables) (R : Reading) → ClashReads T R queries.now reach.now clash_rows.now fault_rows.old
        → fault_rows.new ≡ written (concat (query_count T) (failing_row T R)) fault_rows.old }
{
    let count = queries.len() / 4;
    for q in 0..count {
        let x = decode_query(queries, q);
        let second = clash_row(x, Row::load(reach, q), clash_rows);
        let row = first_found(Row::load(fault_rows, q), second);
        row.store(fault_rows, q);
    }
}
