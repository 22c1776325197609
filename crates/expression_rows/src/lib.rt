// Expression rows, the scope of typing, and checks 12 to 14.
#![tactic(auto)]

ghost use Rattle.std.specs.Prelude.{◌≡◌, ◌/◌, length};
ghost use Rattle.sets.specs.Rows.{row_is_empty};
ghost use Rattle.report.specs.Tables.{Tables};
ghost use Rattle.report.specs.Verdicts.{refusal, refuse_if};
ghost use Rattle.report.specs.Checks.{schema_check};
ghost use Rattle.report.specs.Configuring.{written};
ghost use Rattle.report.specs.Formed.{ExpressionLower};
ghost use Rattle.expression_rows.specs.ExpressionRows.{fresh_rows, ExpressionsFillable, SchemaReads, SchemaReadable};
ghost use Rattle.expression_rows.specs.RowRules.{step_row, list_rule, relation_rule, ListRead, RelationRead};

use decoders::{
    decode_expression, entry_attribute, entry_expression, relation_expression, relation_length,
};
use feature_rows::exactly_one;
use report::{Expression, Reading, Refusal, Verdict};
use sets::Row;
use verdicts::refuse_if;

// The row of an expression, from the rows of lower forms; `full` has the configurations of all features.
fn expression_row(x: Expression, full: Row, expression_rows: &[u64]) -> Row
    requires { ExpressionLower 10 (length expression_rows.now / 16) x }
    ensures { result.words ≡ step_row full.words expression_rows.now x }
{
    match x {
        Expression::Malformed => Row::empty(),
        Expression::False => Row::empty(),
        Expression::True => full,
        Expression::Feature(a) => full.intersect(Row::feature(a)),
        Expression::Not(a) => full.minus(Row::load(expression_rows, a)),
        Expression::And(a, b) => Row::load(expression_rows, a).intersect(Row::load(
            expression_rows,
            b,
        )),
        Expression::Or(a, b) => Row::load(expression_rows, a).join(Row::load(expression_rows, b)),
        Expression::ExactlyOne(a, b) => exactly_one(a, b, full),
    }
}

// Fills `expression_rows` with the rows of the expressions of table 0, bottom up.
#[tactic(auto, using(crate::proofs::FillLaws::filling_lower, crate::proofs::FillLaws::filling_more, crate::proofs::FillLaws::filling_all))]
pub fn fill_expression_rows(n: usize, expressions: &[u16], expression_rows: &mut [u64])
    requires { ExpressionsFillable n expressions.now expression_rows.old }
    ensures { expression_rows.new ≡ written (fresh_rows n expressions.now) expression_rows.old }
{
    let full = Row::full(n);
    for f in 0..expressions.len() / 3 {
        let x = decode_expression(expressions, f);
        let r = expression_row(x, full, expression_rows);
        r.store(expression_rows, f);
    }
}

// Tables that have passed the form checks, as they are read from then on: the expression rows in place of table 0, table 1 split where the lists of the
// relations end, tables 2 to 4 and the kind table.
#[derive(Clone, Copy)]
pub struct SplitTables<'r, 't> {
    pub expression_rows: &'r [u64],
    pub relation_entries: &'t [u16],
    pub project_entries: &'t [u16],
    pub relations: &'t [u16],
    pub comparisons: &'t [u16],
    pub queries: &'t [u16],
    pub kinds: &'t [u16],
}

// What typing is asked of: all configurations, the permitted ones, a bound of the items that can be at fault, which are attributes and relations, and the
// reading.
#[derive(Clone, Copy)]
pub struct Scope {
    pub full: Row,
    pub permitted: Row,
    pub items: usize,
    pub reading: Reading,
}

// Check 12, where these configurations are permitted.
pub fn check_permitted(permitted: Row) -> Verdict
    ensures { result ≡ refuse_if (row_is_empty 16 permitted.words) (refusal 12 0 0 0) }
{
    refuse_if(permitted.is_empty(), 12, 0)
}

// Check 14 of relation r, which has `count` entries from `start` on; `present` has the permitted configurations where it is present.
fn check_list(present: Row, r: usize, start: usize, count: usize, tables: &SplitTables) -> Verdict
    requires { ListRead tables.now.expression_rows.now tables.now.relation_entries.now start count }
    ensures { result ≡ list_rule tables.now.expression_rows.now present.words tables.now.relation_entries.now r start count }
{
    for i in 0..count {
        let k = start + i;
        let x = entry_expression(tables.relation_entries, k);
        if !present.meets(tables.expression_rows, x) {
            let a = entry_attribute(tables.relation_entries, k);
            return Err(Refusal {
                number: 14,
                place: r as u64,
                item: a as u64,
                configuration: 0,
            });
        }
    }
    Ok(())
}

// Checks 13 and 14 of relation r, whose list starts at `start`.
fn check_relation(permitted: Row, r: usize, start: usize, tables: &SplitTables) -> Verdict
    requires { RelationRead tables.now.expression_rows.now tables.now.relation_entries.now tables.now.relations.now r start }
    ensures { result ≡ relation_rule tables.now.expression_rows.now permitted.words tables.now.relation_entries.now
        tables.now.relations.now r start }
{
    let x = relation_expression(tables.relations, r);
    let count = relation_length(tables.relations, r);
    let own = Row::load(tables.expression_rows, x);
    let present = permitted.intersect(own);
    refuse_if(present.is_empty(), 13, r)?;
    check_list(present, r, start, count, tables)
}

// Checks 13 and 14, relation by relation, of tables that have passed the form checks.
#[tactic(auto, using(crate::proofs::CheckLaws::related_here))]
pub fn check_schema(permitted: Row, tables: &SplitTables) -> Verdict
    requires { SchemaReadable tables.now.expression_rows.now permitted.words tables.now.relation_entries.now tables.now.relations.now }
    ensures { (T : Tables)
        → SchemaReads T tables.now.expression_rows.now permitted.words tables.now.relation_entries.now
        tables.now.relations.now
        → result ≡ schema_check T }
{
    let mut start = 0;
    for r in 0..tables.relations.len() / 2 {
        check_relation(permitted, r, start, tables)?;
        start += relation_length(tables.relations, r);
    }
    Ok(())
}
