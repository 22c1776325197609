// What the filled reading does not hold against a query form: what the form asks for and finds at any configuration that reaches it. It is needed whole
// before a form is judged at the first configuration, so it is worked out beforehand, configuration by configuration.
#![tactic(auto)]

ghost use Rattle.std.specs.Prelude.{◌≡◌, cond, ℕ, suc, ◌+◌, ◌^◌};
ghost use Rattle.sets.specs.Lists.{table};
ghost use Rattle.report.specs.Tables.{Tables, query_count};
ghost use Rattle.report.specs.Expressions.{configurations};
ghost use Rattle.report.specs.Typing.{present, reached};
ghost use Rattle.report.specs.Configuring.{written};
ghost use Rattle.report.specs.Readings.{found_in, found_below, spared};
ghost use Rattle.at_configuration.specs.AtConfiguration.{PresentReads, PresentReadable};
ghost use Rattle.sparing.specs.Sparing.{SparingReads, SparingReadable};
ghost use Rattle.sparing.specs.FoundAt.{FoundReads, FoundReadable, FoundHereReads, FoundHereReadable, AddReads, AddReadable};

use at_configuration::{holds_at, is_present};
use decoders::decode_query;
use expression_rows::{Scope, SplitTables};
use faults_at::fill_form_sets;
use report::{Limits, Query, Reading};
use sets::AttributeSet;

// Relation r if it is present at c, as a set of items.
// `absent_item` of faults_at is its like, of the other case: each is a definition's own term.
fn present_item(c: usize, r: usize, expression_rows: &[u64], relations: &[u16]) -> AttributeSet
    requires { PresentReadable expression_rows.now relations.now c (r + 1) }
    ensures { (T : Tables) → PresentReads T expression_rows.now relations.now c → result.bits ≡ cond (present T c r) (2 ^ r) 0 }
{
    if is_present(c, r, expression_rows, relations) {
        return AttributeSet::single(r);
    }
    AttributeSet::empty()
}

// What form q, which is x, asks for and finds at c. `form_sets` has the sets of the forms there: what a project finds is its own set.
fn found_in(x: Query, q: usize, c: usize, tables: &SplitTables, form_sets: &[u64]) -> AttributeSet
    requires { FoundReadable x q c tables.now.expression_rows.now tables.now.relations.now form_sets.now }
    ensures { (T : Tables) → FoundReads T x q c tables.now.expression_rows.now tables.now.relations.now form_sets.now
        → result.bits ≡ found_in T c q x }
{
    match x {
        Query::Relation(r) => present_item(c, r, tables.expression_rows, tables.relations),
        Query::Project(_, _) => AttributeSet::of_bits(form_sets[q]),
        Query::Malformed
        | Query::Empty
        | Query::Select(_, _)
        | Query::Choice(_, _, _)
        | Query::Product(_, _)
        | Query::Union(_, _)
        | Query::Intersection(_, _) => AttributeSet::empty(),
    }
}

// The same if c reaches the form, and nothing if not.
fn found_here(
    x: Query,
    q: usize,
    c: usize,
    tables: &SplitTables,
    reach: &[u64],
    form_sets: &[u64],
) -> AttributeSet
    requires { FoundHereReadable x q c tables.now.expression_rows.now tables.now.relations.now reach.now form_sets.now }
    ensures { (T : Tables)
        → FoundHereReads T x q c tables.now.expression_rows.now tables.now.relations.now reach.now form_sets.now
        → result.bits ≡ cond (reached T c q) (found_in T c q x) 0 }
{
    if !holds_at(reach, q, c) {
        return AttributeSet::empty();
    }
    found_in(x, q, c, tables, form_sets)
}

// Joins what each form finds at c to what it finds at lower configurations, which `spared_sets` has; `form_sets` has the sets of the forms at c.
fn add_found(
    c: usize,
    tables: &SplitTables,
    reach: &[u64],
    form_sets: &[u64],
    spared_sets: &mut [u64],
)
    requires { AddReadable c tables.now.expression_rows.now tables.now.relations.now tables.now.queries.now reach.now form_sets.now
        spared_sets.old }
    ensures { (T : Tables)
        → AddReads T c tables.now.expression_rows.now tables.now.relations.now tables.now.queries.now reach.now form_sets.now
        spared_sets.old
        → spared_sets.new ≡ written (table (query_count T) (found_below T (suc c))) spared_sets.old }
{
    let count = tables.queries.len() / 4;
    for q in 0..count {
        let x = decode_query(tables.queries, q);
        let found = found_here(x, q, c, tables, reach, form_sets);
        let before = AttributeSet::of_bits(spared_sets[q]);
        let joined = before.union(found);
        spared_sets[q] = joined.bits;
    }
}

// Fills `spared_sets`, which is all 0, with what each form finds at any configuration that reaches it. Those that are not permitted reach none.
fn fill_found(scope: Scope, tables: &SplitTables, reach: &[u64], spared_sets: &mut [u64])
    requires { SparingReadable scope tables.now.expression_rows.now tables.now.relation_entries.now tables.now.project_entries.now
        tables.now.relations.now tables.now.queries.now reach.now spared_sets.old }
    ensures { (T : Tables)
        → SparingReads T scope tables.now.expression_rows.now tables.now.relation_entries.now tables.now.project_entries.now
        tables.now.relations.now tables.now.queries.now reach.now
        → spared_sets.new ≡ written (table (query_count T) (found_below T (configurations T))) spared_sets.old }
{
    let mut form_sets = [0; Limits::MOST_QUERIES];
    let mut from = 0;
    while let Some(c) = scope.permitted.lowest_from(from) {
        fill_form_sets(c, tables, &mut form_sets);
        add_found(c, tables, reach, &form_sets, spared_sets);
        from = c + 1;
    }
}

// Fills `spared_sets`, which is all 0, with what the reading of the scope does not hold against each query form: in the strict one nothing.
pub fn fill_spared(scope: Scope, tables: &SplitTables, reach: &[u64], spared_sets: &mut [u64])
    requires { SparingReadable scope tables.now.expression_rows.now tables.now.relation_entries.now tables.now.project_entries.now
        tables.now.relations.now tables.now.queries.now reach.now spared_sets.old }
    ensures { (T : Tables)
        → SparingReads T scope tables.now.expression_rows.now tables.now.relation_entries.now tables.now.project_entries.now
        tables.now.relations.now tables.now.queries.now reach.now
        → spared_sets.new ≡ written (table (query_count T) (spared T scope.reading)) spared_sets.old }
{
    match scope.reading {
        Reading::Strict => {}
        Reading::Filled => fill_found(scope, tables, reach, spared_sets),
    }
}
