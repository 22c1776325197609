// Checks 6 and 8 to 10 of the table of refusals (docs/FORMAT.md, "Refusals"), and checks 1 to 10 and 24 one after another.
#![tactic(auto)]

ghost use Rattle.std.specs.Prelude.{◌≡◌, ◌/◌, ◌<◌, ◌≤◌, length};
ghost use Rattle.report.specs.Tables.{relation_start};
ghost use Rattle.report.specs.Expressions.{tables_in};
ghost use Rattle.report.specs.Verdicts.{or_else};
ghost use Rattle.report.specs.FormChecks.{free, free_pair, list_fits, query_fits, relations_check, left_entry_check, tables_check, form_check};
ghost use Rattle.report.specs.Formed.{OperandsBelow};
ghost use Rattle.forms.specs.MarkedForms.{marked, FormRoom, marked_by, untaken_by};
ghost use Rattle.forms.specs.MarkedForms.{queries_rest, QueriesReady, lists_rest, ListsReady, contents_rest};

use comparisons::check_kinds;
use decoders::{
    decode_query, project_length, query_operands, relation_expression, relation_length,
};
use report::{Limits, Operands, Query, TableWords, Verdict};
use table_checks::{
    check_comparisons, check_entries, check_expressions, check_head, check_lengths,
    check_model_form,
};
use verdicts::refuse_if;

// A list that starts at `start` lies in the entries.
fn list_fits(start: usize, count: usize, entries: &[u16]) -> bool
    requires { start ≤ length entries.now / 2 }
    ensures { result ≡ list_fits entries.now start count }
{
    count <= entries.len() / 2 - start
}

// Check 6, where there are e expressions.
pub fn check_relations(e: usize, entries: &[u16], relations: &[u16]) -> Verdict
    ensures { result ≡ relations_check e entries.now relations.now }
{
    let mut start = 0;
    for r in 0..relations.len() / 2 {
        let x = relation_expression(relations, r);
        let length = relation_length(relations, r);
        let fits = (x < e) & list_fits(start, length, entries);
        refuse_if(!fits, 6, r)?;
        start += length;
    }
    Ok(())
}

// Where the lists of the relations end.
pub fn relations_end(relations: &[u16]) -> usize
    requires { length relations.now / 2 ≤ 32 }
    ensures { result ≡ relation_start relations.now (length relations.now / 2) }
{
    let mut end = 0;
    for r in 0..relations.len() / 2 {
        end += relation_length(relations, r);
    }
    end
}

// Form x is below q and not taken yet.
fn is_free(marks: &[bool], q: usize, x: usize) -> bool
    requires { q ≤ length marks.now }
    ensures { result ≡ free (marked marks.now) q x }
{
    x < q && !marks[x]
}

// Two operands, of which the second is not the first once more.
fn are_free(marks: &[bool], q: usize, x: usize, y: usize) -> bool
    requires { q ≤ length marks.now }
    ensures { result ≡ free_pair (marked marks.now) q x y }
{
    is_free(marks, q, x) && is_free(marks, q, y) && x != y
}

// How many forms the tables have that a query form may name.
#[derive(Clone, Copy)]
pub struct Counts {
    expressions: usize,
    relations: usize,
    comparisons: usize,
}

// A query that stands as form q; a project's list starts at `start`.
fn query_fits(
    counts: Counts,
    x: Query,
    q: usize,
    start: usize,
    entries: &[u16],
    marks: &[bool],
) -> bool
    requires { FormRoom entries.now start marks.now q }
    ensures { result
        ≡ query_fits counts.expressions counts.relations counts.comparisons entries.now start (marked marks.now)
        q x }
{
    match x {
        Query::Malformed => false,
        Query::Empty => true,
        Query::Relation(a) => a < counts.relations,
        Query::Select(a, b) => a < counts.comparisons && is_free(marks, q, b),
        Query::Project(a, b) => list_fits(start, a, entries) && is_free(marks, q, b),
        Query::Choice(a, b, d) => a < counts.expressions && are_free(marks, q, b, d),
        Query::Product(a, b) | Query::Union(a, b) | Query::Intersection(a, b) => {
            are_free(marks, q, a, b)
        }
    }
}

// Marks the operands of a form that fits.
fn mark_operands(marks: &mut [bool], to: Operands)
    requires { OperandsBelow (length marks.old) to }
    ensures { marks.new ≡ marked_by to marks.old }
{
    match to {
        Operands::Nothing => {}
        Operands::One(a) => marks[a] = true,
        Operands::Both(a, b) | Operands::Choice(_, a, b) => {
            marks[a] = true;
            marks[b] = true;
        }
    }
}

// Check 9, by the marks of all forms.
fn check_untaken(last: usize, marks: &[bool]) -> Verdict
    requires { last ≤ length marks.now }
    ensures { result ≡ untaken_by marks.now last }
{
    for q in 0..last {
        refuse_if(!marks[q], 9, q)?;
    }
    Ok(())
}

// Checks 9 and 10, by the marks of all forms: their lists end at `end`, and table 1 has `count` entries.
fn check_end(last: usize, end: usize, count: usize, marks: &[bool]) -> Verdict
    requires { last ≤ length marks.now }
    ensures { result ≡ or_else (untaken_by marks.now last) (left_entry_check end count) }
{
    check_untaken(last, marks)?;
    refuse_if(end < count, 10, end)
}

// Checks 8 to 10 with the project forms' entries, which are entries `split` and following of table 1.
pub fn check_queries(
    counts: Counts,
    split: usize,
    project_entries: &[u16],
    queries: &[u16],
) -> Verdict
    requires { QueriesReady project_entries.now split queries.now }
    ensures { result ≡ queries_rest counts project_entries.now split queries.now }
{
    let mut marks = [false; Limits::MOST_QUERIES];
    let count = queries.len() / 4;
    let mut end = 0;
    for q in 0..count {
        let x = decode_query(queries, q);
        let fits = query_fits(counts, x, q, end, project_entries, &marks);
        refuse_if(!fits, 8, q)?;
        mark_operands(&mut marks, query_operands(x));
        end += project_length(x);
    }
    check_end(
        count - 1,
        split + end,
        split + project_entries.len() / 2,
        &marks,
    )
}

// Checks 6 to 10.
#[tactic(auto, using(crate::proofs::Chain::split_words))]
fn check_lists(tables: &TableWords) -> Verdict
    requires { ListsReady (tables_in tables.now) }
    ensures { result ≡ lists_rest (tables_in tables.now) }
{
    let counts = Counts {
        expressions: tables.expressions.len() / 3,
        relations: tables.relations.len() / 2,
        comparisons: tables.comparisons.len() / 5,
    };
    check_relations(counts.expressions, tables.entries, tables.relations)?;
    check_comparisons(
        tables.head.attributes,
        counts.expressions,
        tables.comparisons,
    )?;
    let split = relations_end(tables.relations);
    let project_entries = &tables.entries[split * 2..];
    check_queries(counts, split, project_entries, tables.queries)
}

// Checks 3 to 10.
fn check_contents(tables: &TableWords) -> Verdict
    requires { ListsReady (tables_in tables.now) }
    ensures { result ≡ contents_rest (tables_in tables.now) }
{
    let count = tables.expressions.len() / 3;
    check_expressions(tables.head.features, tables.expressions)?;
    check_model_form(count, tables.head.model)?;
    check_entries(tables.head.attributes, count, tables.entries)?;
    check_lists(tables)
}

// Checks 1 to 10.
#[tactic(auto, unfolding(report::specs::FormChecks::tables_check))]
fn check_tables(tables: &TableWords) -> Verdict
    ensures { result ≡ tables_check (tables_in tables.now) }
{
    check_head(tables.head.features, tables.head.attributes)?;
    check_lengths(tables)?;
    check_contents(tables)
}

// Checks 1 to 10, then 24. Where they accept, report's law `formed` gives a caller `Formed` of the tables in one line:
// `formed _ (sym ensures ∙ accepted)`.
#[tactic(auto, unfolding(report::specs::FormChecks::form_check, report::specs::FormChecks::tables_check))]
pub fn check_forms(tables: &TableWords) -> Verdict
    ensures { result ≡ form_check
        (tables_in tables.now) }
{
    check_tables(tables)?;
    check_kinds(tables.head.attributes, tables.comparisons, tables.kinds)
}
