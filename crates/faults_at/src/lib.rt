// What is worked out at one configuration c: what is gathered from comparisons, the sets of relations and query forms, the items at fault in one
// form in each phase. Sets lie one after another, one word a form. Forms go bottom up, each from the sets of lower ones. What attribute_rows and fault_rows say of
// all configurations by rows is said here of one by sets: a row joins both alternatives of a choice, a set takes one, so a trait over both would be the longer.
#![tactic(auto)]

ghost use Rattle.std.specs.Prelude.{◌≡◌, cond, ℕ, ◌+◌, ◌^◌, ◌<◌, length, get_or};
ghost use Rattle.sets.specs.Lists.{table};
ghost use Rattle.report.specs.Tables.{Tables, kind_of, relation_count, comparison_count, query_count};
ghost use Rattle.report.specs.Typing.{present, gathered_of, gathered, set_rule, set_of, faults_of, clashes_in};
ghost use Rattle.report.specs.Configuring.{written};
ghost use Rattle.comparisons.specs.Gathering.{own_of};
ghost use Rattle.at_configuration.specs.AtConfiguration.{PresentReads, PresentReadable, RelationReads};
ghost use Rattle.faults_at.specs.SetsAt.{present_set, RelationSetsReadable, RelationSetReadable};
ghost use Rattle.faults_at.specs.SetsAt.{ComparisonAt, SomeComparison, GatheredReads, GatheredReadable};
ghost use Rattle.faults_at.specs.SetsAt.{SetsReads, SetsReadable, FormSetsReads, FormSetsReadable, QueryAt, SomeQuery, FormFaultsReads, FormFaultsReadable};
ghost use Rattle.faults_at.specs.SetsAt.{FormClashesReads, FormClashesReadable};

use at_configuration::{is_present, joined_at, taken_at};
use comparisons::{Gathered, own_set};
use decoders::{
    comparison_operands, decode_comparison, decode_query, project_length, relation_length,
};
use expression_rows::SplitTables;
use report::{Limits, Operands, Query};
use sets::AttributeSet;

// The set of relation r, whose list starts at `start`: none where it is absent.
fn relation_set(c: usize, r: usize, start: usize, tables: &SplitTables) -> AttributeSet
    requires { RelationSetReadable tables.now.expression_rows.now tables.now.relation_entries.now tables.now.relations.now c r start }
    ensures { (T : Tables)
        → RelationReads T tables.now.expression_rows.now tables.now.relation_entries.now tables.now.relations.now c
        → result.bits ≡ present_set T c r }
{
    if is_present(c, r, tables.expression_rows, tables.relations) {
        let count = relation_length(tables.relations, r);
        return joined_at(
            c,
            start,
            count,
            tables.expression_rows,
            tables.relation_entries,
        );
    }
    AttributeSet::empty()
}

// Fills `relation_sets` with the sets of all relations.
fn fill_relation_sets(c: usize, tables: &SplitTables, relation_sets: &mut [u64])
    requires { RelationSetsReadable tables.now.expression_rows.now tables.now.relation_entries.now tables.now.relations.now c
        relation_sets.old }
    ensures { (T : Tables)
        → RelationReads T tables.now.expression_rows.now tables.now.relation_entries.now tables.now.relations.now c
        → relation_sets.new ≡ written (table (relation_count T) (present_set T c)) relation_sets.old }
{
    let count = tables.relations.len() / 2;
    let mut start = 0;
    for r in 0..count {
        let s = relation_set(c, r, start, tables);
        relation_sets[r] = s.bits;
        start += relation_length(tables.relations, r);
    }
}

// Set k of the sets.
fn set_in(sets: &[u64], k: usize) -> AttributeSet
    requires { k < length sets.now }
    ensures { result.bits ≡ get_or sets.now k 0 }
{
    AttributeSet::of_bits(sets[k])
}

// What is gathered at c from a comparison that refers to these: `gathered_sets` has what is gathered from lower ones. One that refers to none gives its own.
fn gathered_at(
    to: Operands,
    c: usize,
    own: AttributeSet,
    expression_rows: &[u64],
    gathered_sets: &[u64],
) -> AttributeSet
    requires { SomeComparison expression_rows.now c gathered_sets.now to }
    ensures { (T : Tables) (f : ℕ) (set : ℕ → ℕ) → ComparisonAt T f set expression_rows.now c gathered_sets.now to
        → result.bits ≡ gathered_of T c set own.bits to }
{
    match to {
        Operands::Nothing => own,
        Operands::One(a) => set_in(gathered_sets, a),
        Operands::Both(a, b) => set_in(gathered_sets, a).union(set_in(gathered_sets, b)),
        Operands::Choice(e, a, b) => set_in(gathered_sets, taken_at(c, e, a, b, expression_rows)),
    }
}

// Fills `gathered_sets` with what is gathered from each comparison at c.
pub fn fill_gathered(c: usize, what: Gathered, tables: &SplitTables, gathered_sets: &mut [u64])
    requires { GatheredReadable tables.now.expression_rows.now tables.now.comparisons.now tables.now.kinds.now c gathered_sets.old }
    ensures { (T : Tables)
        → GatheredReads T tables.now.expression_rows.now tables.now.comparisons.now tables.now.kinds.now c
        → gathered_sets.new ≡ written (table (comparison_count T) (gathered T c (own_of (kind_of T) what))) gathered_sets.old }
{
    let count = tables.comparisons.len() / 5;
    for f in 0..count {
        let x = decode_comparison(tables.comparisons, f);
        let own = own_set(what, x, tables.kinds);
        let s = gathered_at(
            comparison_operands(x),
            c,
            own,
            tables.expression_rows,
            gathered_sets,
        );
        gathered_sets[f] = s.bits;
    }
}

// The set of a query form at c, a project's list starting at `start`; `form_sets` has those of lower forms.
fn set_at(
    x: Query,
    c: usize,
    start: usize,
    tables: &SplitTables,
    relation_sets: &[u64],
    form_sets: &[u64],
) -> AttributeSet
    requires { SomeQuery tables.now.expression_rows.now tables.now.project_entries.now relation_sets.now c form_sets.now start x }
    ensures { (T : Tables) (q : ℕ)
        → QueryAt T q tables.now.expression_rows.now tables.now.project_entries.now relation_sets.now c form_sets.now start x
        → result.bits ≡ set_rule T c (set_of T c) q x }
{
    match x {
        Query::Malformed | Query::Empty => AttributeSet::empty(),
        Query::Relation(r) => set_in(relation_sets, r),
        Query::Select(_, a) | Query::Union(a, _) | Query::Intersection(a, _) => {
            set_in(form_sets, a)
        }
        Query::Project(count, a) => {
            let listed = joined_at(
                c,
                start,
                count,
                tables.expression_rows,
                tables.project_entries,
            );
            listed.intersect(set_in(form_sets, a))
        }
        Query::Choice(e, a, b) => set_in(form_sets, taken_at(c, e, a, b, tables.expression_rows)),
        Query::Product(a, b) => set_in(form_sets, a).union(set_in(form_sets, b)),
    }
}

// Fills `form_sets` with the sets of all query forms.
fn fill_sets(c: usize, tables: &SplitTables, relation_sets: &[u64], form_sets: &mut [u64])
    requires { SetsReadable tables.now.expression_rows.now tables.now.project_entries.now tables.now.queries.now relation_sets.now c
        form_sets.old }
    ensures { (T : Tables)
        → SetsReads T tables.now.expression_rows.now tables.now.project_entries.now tables.now.queries.now relation_sets.now c
        → form_sets.new ≡ written (table (query_count T) (set_of T c)) form_sets.old }
{
    let count = tables.queries.len() / 4;
    let mut start = 0;
    for q in 0..count {
        let x = decode_query(tables.queries, q);
        let s = set_at(x, c, start, tables, relation_sets, form_sets);
        form_sets[q] = s.bits;
        start += project_length(x);
    }
}

// Fills `form_sets` with the sets of all query forms at configuration c. Those of the relations, from which they are worked out, are its own.
pub fn fill_form_sets(c: usize, tables: &SplitTables, form_sets: &mut [u64])
    requires { FormSetsReadable c tables.now.expression_rows.now tables.now.relation_entries.now tables.now.project_entries.now
        tables.now.relations.now tables.now.queries.now form_sets.old }
    ensures { (T : Tables)
        → FormSetsReads T c tables.now.expression_rows.now tables.now.relation_entries.now tables.now.project_entries.now
        tables.now.relations.now tables.now.queries.now
        → form_sets.new ≡ written (table (query_count T) (set_of T c)) form_sets.old }
{
    let mut relation_sets = [0; Limits::MOST_RELATIONS];
    fill_relation_sets(c, tables, &mut relation_sets);
    fill_sets(c, tables, &relation_sets, form_sets);
}

// Relation r if it is absent at c, as a set of items.
fn absent_item(c: usize, r: usize, expression_rows: &[u64], relations: &[u16]) -> AttributeSet
    requires { PresentReadable expression_rows.now relations.now c (r + 1) }
    ensures { (T : Tables) → PresentReads T expression_rows.now relations.now c → result.bits ≡ cond (present T c r) 0 (2 ^ r) }
{
    if is_present(c, r, expression_rows, relations) {
        return AttributeSet::empty();
    }
    AttributeSet::single(r)
}

// The items at fault in a query form at c, a project's list starting at `start`; `named_sets` has what each comparison names, `form_sets` the sets of
// lower forms.
pub fn faults_of(
    x: Query,
    c: usize,
    start: usize,
    tables: &SplitTables,
    named_sets: &[u64],
    form_sets: &[u64],
) -> AttributeSet
    requires { FormFaultsReadable tables.now.expression_rows.now tables.now.project_entries.now tables.now.relations.now c named_sets.now
        form_sets.now start x }
    ensures { (T : Tables) (q : ℕ)
        → FormFaultsReads T q tables.now.expression_rows.now tables.now.project_entries.now tables.now.relations.now c
        named_sets.now form_sets.now start x
        → result.bits ≡ faults_of T c q x }
{
    match x {
        Query::Malformed | Query::Empty | Query::Choice(_, _, _) => AttributeSet::empty(),
        Query::Relation(r) => absent_item(c, r, tables.expression_rows, tables.relations),
        Query::Select(f, a) => set_in(named_sets, f).minus(set_in(form_sets, a)),
        Query::Project(count, a) => {
            let listed = joined_at(
                c,
                start,
                count,
                tables.expression_rows,
                tables.project_entries,
            );
            listed.minus(set_in(form_sets, a))
        }
        Query::Product(a, b) => set_in(form_sets, a).intersect(set_in(form_sets, b)),
        Query::Union(a, b) | Query::Intersection(a, b) => {
            set_in(form_sets, a).unequal(set_in(form_sets, b))
        }
    }
}

// The left attributes at fault in a query form at c; `clash_sets` has those of the comparisons. Only a select compares.
pub fn clashes_in(x: Query, clash_sets: &[u64]) -> AttributeSet
    requires { FormClashesReadable clash_sets.now x }
    ensures { (T : Tables) (q c : ℕ) → FormClashesReads T q c clash_sets.now x → result.bits ≡ clashes_in T c x }
{
    if let Query::Select(f, _) = x {
        return set_in(clash_sets, f);
    }
    AttributeSet::empty()
}
