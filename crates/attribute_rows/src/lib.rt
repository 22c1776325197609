// The rows of one attribute a: the configurations at which the lists, the relations, the comparisons and the query forms have it; and, whatever
// a is, the rows of the configurations at which a comparison compares two kinds. Forms go bottom up, each from the rows of lower ones, so a form
// that others share is worked out once.
#![tactic(auto)]

ghost use Rattle.std.specs.Prelude.{◌≡◌, ℕ, ◌+◌};
ghost use Rattle.sets.specs.Lists.{concat};
ghost use Rattle.sets.specs.Rows.{row_join, row_intersect, row_minus};
ghost use Rattle.report.specs.Tables.{Tables, kind_in, relation_count, comparison_count};
ghost use Rattle.report.specs.Operands.{comparison_operands};
ghost use Rattle.report.specs.Configuring.{written};
ghost use Rattle.comparisons.specs.Gathering.{shows, own_of};
ghost use Rattle.attribute_rows.specs.AttributeRows.{list_row, relation_row, gathered_row, ListRowReads, ListRowReadable};
ghost use Rattle.attribute_rows.specs.AttributeRows.{RelationRowReads, RelationRowReadable, GatheredReads, GatheredReadable};
ghost use Rattle.attribute_rows.specs.RowRules.{entry_row, EntryRead, RelationAt, SomeRelation};
ghost use Rattle.attribute_rows.specs.RowRules.{gathered_step, GatheredRead, set_step, SetRead};

use comparisons::{Gathered, own_shows};
use decoders::{
    comparison_operands, decode_comparison, entry_attribute, entry_expression, relation_expression,
    relation_length,
};
use expression_rows::SplitTables;
use report::{Comparison, Operands, Query};
use sets::Row;

// A row joined with that of entry k, if it names attribute a.
fn with_entry(k: usize, a: usize, r: Row, expression_rows: &[u64], entries: &[u16]) -> Row
    requires { EntryRead expression_rows.now entries.now k }
    ensures { result.words ≡ entry_row expression_rows.now entries.now a k r.words }
{
    if a == entry_attribute(entries, k) {
        let x = entry_expression(entries, k);
        r.join(Row::load(expression_rows, x))
    } else {
        r
    }
}

// The join of the rows of the entries that name attribute a, of `count` entries from `start` on.
pub fn list_row(
    start: usize,
    count: usize,
    a: usize,
    expression_rows: &[u64],
    entries: &[u16],
) -> Row
    requires { ListRowReadable expression_rows.now entries.now start count }
    ensures { (T : Tables) (offset : ℕ) → ListRowReads T offset expression_rows.now entries.now start count
        → result.words ≡ list_row T a (offset + start) count }
{
    let mut r = Row::empty();
    for i in 0..count {
        r = with_entry(start + i, a, r, expression_rows, entries);
    }
    r
}

// Where `holds` has it the configurations of x, elsewhere those of y.
fn choice_row(holds: Row, x: Row, y: Row) -> Row
    ensures { result.words ≡ row_join 16 (row_intersect 16 x.words holds.words) (row_minus 16 y.words holds.words) }
{
    x.intersect(holds).join(y.minus(holds))
}

// The row of comparison x from `rows`, which has those of lower comparisons. Without operands it is `full`, which has all configurations, or empty: what
// a comparison gives by itself it gives at all of them. What it gives by itself is looked at there alone.
fn gathered_row(
    x: Comparison,
    what: Gathered,
    a: usize,
    full: Row,
    tables: &SplitTables,
    rows: &[u64],
) -> Row
    requires { GatheredRead tables.now.expression_rows.now rows.now (comparison_operands x) }
    ensures { result.words
        ≡ gathered_step tables.now.expression_rows.now rows.now full.words (shows what a (own_of (kind_in tables.now.kinds.now) what x))
        (comparison_operands x) }
{
    match comparison_operands(x) {
        Operands::Nothing => {
            if own_shows(what, x, a, tables.kinds) {
                full
            } else {
                Row::empty()
            }
        }
        Operands::One(b) => Row::load(rows, b),
        Operands::Both(b, d) => Row::load(rows, b).join(Row::load(rows, d)),
        Operands::Choice(e, b, d) => choice_row(
            Row::load(tables.expression_rows, e),
            Row::load(rows, b),
            Row::load(rows, d),
        ),
    }
}

// Fills `rows` with the rows of all comparisons.
pub fn fill_gathered_rows(
    what: Gathered,
    a: usize,
    full: Row,
    tables: &SplitTables,
    rows: &mut [u64],
)
    requires { GatheredReadable tables.now.expression_rows.now tables.now.comparisons.now tables.now.kinds.now full.words rows.old }
    ensures { (T : Tables)
        → GatheredReads T tables.now.expression_rows.now tables.now.comparisons.now tables.now.kinds.now full.words
        → rows.new ≡ written (concat (comparison_count T) (gathered_row T what a)) rows.old }
{
    let count = tables.comparisons.len() / 5;
    for f in 0..count {
        let x = decode_comparison(tables.comparisons, f);
        let r = gathered_row(x, what, a, full, tables, rows);
        r.store(rows, f);
    }
}

// Relation r, whose list starts at `start`: its list where it is present.
fn relation_row(r: usize, start: usize, a: usize, tables: &SplitTables) -> Row
    requires { SomeRelation tables.now.expression_rows.now tables.now.relation_entries.now tables.now.relations.now r start }
    ensures { (T : Tables)
        → RelationAt T tables.now.expression_rows.now tables.now.relation_entries.now tables.now.relations.now r start
        → result.words ≡ relation_row T a r }
{
    let count = relation_length(tables.relations, r);
    let x = relation_expression(tables.relations, r);
    let listed = list_row(
        start,
        count,
        a,
        tables.expression_rows,
        tables.relation_entries,
    );
    let present = Row::load(tables.expression_rows, x);
    listed.intersect(present)
}

// Fills `relation_rows` with the rows of all relations.
pub fn fill_relation_rows(a: usize, tables: &SplitTables, relation_rows: &mut [u64])
    requires { RelationRowReadable tables.now.expression_rows.now tables.now.relation_entries.now tables.now.relations.now relation_rows.old }
    ensures { (T : Tables)
        → RelationRowReads T tables.now.expression_rows.now tables.now.relation_entries.now tables.now.relations.now
        → relation_rows.new ≡ written (concat (relation_count T) (relation_row T a)) relation_rows.old }
{
    let count = tables.relations.len() / 2;
    let mut start = 0;
    for r in 0..count {
        let row = relation_row(r, start, a, tables);
        row.store(relation_rows, r);
        start += relation_length(tables.relations, r);
    }
}

// The row of a query form, from the rows of the relations, of the lower forms, and of the form's own list.
pub fn set_row(
    x: Query,
    listed: Row,
    expression_rows: &[u64],
    relation_rows: &[u64],
    form_rows: &[u64],
) -> Row
    requires { SetRead expression_rows.now relation_rows.now form_rows.now x }
    ensures { result.words ≡ set_step expression_rows.now relation_rows.now form_rows.now listed.words x }
{
    match x {
        Query::Malformed | Query::Empty => Row::empty(),
        Query::Relation(r) => Row::load(relation_rows, r),
        Query::Project(_, b) => listed.intersect(Row::load(form_rows, b)),
        Query::Choice(e, b, d) => choice_row(
            Row::load(expression_rows, e),
            Row::load(form_rows, b),
            Row::load(form_rows, d),
        ),
        Query::Product(b, d) => Row::load(form_rows, b).join(Row::load(form_rows, d)),
        Query::Select(_, b) | Query::Union(b, _) | Query::Intersection(b, _) => {
            Row::load(form_rows, b)
        }
    }
}
