// What configuring keeps of comparisons and queries at one configuration, with their new numbers, written into lent tables. The kinds of forms
// are numbers, since they are words of these tables, which are C's.
#![tactic(auto)]

ghost use Rattle.std.specs.Prelude.{◌≡◌, ◌&&◌, cond, not, [], ◌∷◌, ℕ, ◌<◌, length, get_or};
ghost use Rattle.sets.specs.Bits.{member_count};
ghost use Rattle.sets.specs.Lists.{table};
ghost use Rattle.sets.specs.Writing.{Room, WrittenAt};
ghost use Rattle.report.specs.Tables.{Tables, comparison_count, query_count};
ghost use Rattle.report.specs.Operands.{is_choice};
ghost use Rattle.report.specs.Configuring.{target_of, new_relation, new_comparison, new_query, written};
ghost use Rattle.at_configuration.specs.AtConfiguration.{PresentReads, PresentReadable};
ghost use Rattle.at_configuration.specs.AtConfiguration.{ComparisonReads, ComparisonNumberable};
ghost use Rattle.kept_forms.specs.Numbering.{comparison_forms, QueryReads, QueryNumberable};
ghost use Rattle.kept_forms.specs.Numbering.{ComparisonFormReads, ComparisonFormWritable};
ghost use Rattle.kept_forms.specs.Numbering.{query_forms, QueryFormReads, QueryFormWritable};
ghost use Rattle.kept_forms.specs.FormWords.{AtomWritable, ComparisonWritable};
ghost use Rattle.kept_forms.specs.FormWords.{relation_words, RelationWritable, query_words, QueryWritable};
ghost use Rattle.kept_forms.specs.FormWords.{TargetReads, TargetReadable, comparison_words};

use at_configuration::{holds_at, is_present, taken_at};
use decoders::{comparison_operands, decode_comparison, decode_query, query_operands};
use expression_rows::SplitTables;
use kept_lists::new_relation;
use report::{Comparison, Operands, Query};
use sets::{AttributeSet, put};

// The new number of what a form that refers to these forms leads to at c, where `kept` forms below it are kept and `numbers` has those of lower ones.
fn form_number(to: Operands, c: usize, kept: usize, expression_rows: &[u64], numbers: &[u16]) -> u16
    requires { TargetReadable expression_rows.now c numbers.now kept to }
    ensures { (T : Tables) → TargetReads T expression_rows.now c numbers.now to
        → result ≡ target_of T c (λ k. get_or numbers.now k 0) kept to }
{
    match to {
        Operands::Choice(e, a, b) => numbers[taken_at(c, e, a, b, expression_rows)],
        Operands::Nothing | Operands::One(_) | Operands::Both(_, _) => kept as u16,
    }
}

// How many forms are kept of one that refers to these forms: of a choice, or of one that is not reached, none.
fn kept_if(reached: bool, to: Operands) -> usize
    ensures { result ≡ cond (reached && not (is_choice to)) 1 0 }
{
    usize::from(reached && !matches!(to, Operands::Choice(_, _, _)))
}

// The new number of what each comparison leads to at c, into `numbers`: a choice has that of the alternative it takes.
pub fn number_comparisons(
    c: usize,
    expression_rows: &[u64],
    comparisons: &[u16],
    numbers: &mut [u16],
)
    requires { ComparisonNumberable expression_rows.now comparisons.now c numbers.old }
    ensures { (T : Tables) → ComparisonReads T expression_rows.now comparisons.now c
        → numbers.new ≡ written (table (comparison_count T) (new_comparison T c)) numbers.old }
{
    let count = comparisons.len() / 5;
    let mut kept = 0;
    for f in 0..count {
        let to = comparison_operands(decode_comparison(comparisons, f));
        numbers[f] = form_number(to, c, kept, expression_rows, numbers);
        kept += kept_if(true, to);
    }
}

// The new number of what each query form leads to at c, into `numbers`: a choice has that of the alternative it takes.
// With `number_comparisons` it shares `form_number` and `kept_if`; one function for both would take the decoder and the reach as closures, and be longer.
pub fn number_queries(
    c: usize,
    expression_rows: &[u64],
    queries: &[u16],
    reach: &[u64],
    numbers: &mut [u16],
)
    requires { QueryNumberable expression_rows.now reach.now queries.now c numbers.old }
    ensures { (T : Tables) → QueryReads T expression_rows.now reach.now queries.now c
        → numbers.new ≡ written (table (query_count T) (new_query T c)) numbers.old }
{
    let count = queries.len() / 4;
    let mut kept = 0;
    for q in 0..count {
        let to = query_operands(decode_query(queries, q));
        numbers[q] = form_number(to, c, kept, expression_rows, numbers);
        kept += kept_if(holds_at(reach, q, c), to);
    }
}

// Writes a comparison of the kind, which has no operator, with two words.
fn put_comparison(out: &mut [u16], at: usize, kind: u16, a: u16, b: u16) -> usize
    requires { Room (kind ∷ 0 ∷ a ∷ b ∷ 0 ∷ []) out.old at }
    ensures { WrittenAt (kind ∷ 0 ∷ a ∷ b ∷ 0 ∷ []) out.old at out.new result }
{
    put(out, at, &[kind, 0, a, b, 0])
}

// Writes a comparison of an attribute with a constant, whose kind is k, or with an attribute, where k is 0.
fn put_atom(out: &mut [u16], at: usize, kind: u16, o: usize, a: usize, b: usize, k: usize) -> usize
    requires { AtomWritable kind o a b k out.old at }
    ensures { WrittenAt (kind ∷ o ∷ a ∷ b ∷ k ∷ []) out.old at out.new result }
{
    put(out, at, &[kind, o as u16, a as u16, b as u16, k as u16])
}

// Writes a comparison that is no choice, with the new numbers of its operands.
fn write_comparison(x: Comparison, numbers: &[u16], out: &mut [u16], at: usize) -> usize
    requires { ComparisonWritable numbers.now x out.old at }
    ensures { WrittenAt (comparison_words numbers.now x) out.old at out.new result }
{
    match x {
        Comparison::Malformed | Comparison::Choice(_, _, _) => at,
        Comparison::Never => put_comparison(out, at, 0, 0, 0),
        Comparison::Always => put_comparison(out, at, 1, 0, 0),
        Comparison::Constant(o, a, b, k) => put_atom(out, at, 2, o, a, b, k),
        Comparison::Attribute(o, a, b) => put_atom(out, at, 3, o, a, b, 0),
        Comparison::Not(a) => put_comparison(out, at, 4, numbers[a], 0),
        Comparison::And(a, b) => put_comparison(out, at, 5, numbers[a], numbers[b]),
        Comparison::Or(a, b) => put_comparison(out, at, 6, numbers[a], numbers[b]),
    }
}

// Writes every comparison that is no choice; `numbers` has the new numbers.
pub fn write_comparisons(comparisons: &[u16], numbers: &[u16], out: &mut [u16]) -> usize
    requires { ComparisonFormWritable comparisons.now numbers.now out.old }
    ensures { (T : Tables) (c : ℕ) → ComparisonFormReads T c comparisons.now numbers.now
        → WrittenAt (comparison_forms T c) out.old 0 out.new result }
{
    let count = comparisons.len() / 5;
    let mut p = 0;
    for f in 0..count {
        let x = decode_comparison(comparisons, f);
        p = write_comparison(x, numbers, out, p);
    }
    p
}

// The new number of relation a, as a word.
fn relation_word(c: usize, a: usize, expression_rows: &[u64], relations: &[u16]) -> u16
    requires { PresentReadable expression_rows.now relations.now c a }
    ensures { (T : Tables) → PresentReads T expression_rows.now relations.now c → result ≡ new_relation T c a }
{
    new_relation(c, a, expression_rows, relations) as u16
}

// How many entries of the project form q are kept, as a word: as many as its set has attributes.
fn length_word(q: usize, form_sets: &[u64]) -> u16
    requires { q < length form_sets.now }
    ensures { result ≡ member_count (get_or form_sets.now q 0) }
{
    AttributeSet::of_bits(form_sets[q]).count() as u16
}

// Writes a query form of the kind, with two words.
fn put_query(out: &mut [u16], at: usize, kind: u16, a: u16, b: u16) -> usize
    requires { Room (kind ∷ a ∷ b ∷ 0 ∷ []) out.old at }
    ensures { WrittenAt (kind ∷ a ∷ b ∷ 0 ∷ []) out.old at out.new result }
{
    put(out, at, &[kind, a, b, 0])
}

// Writes a form of relation a, with its new number. Where the relation is absent at c it is an empty one.
fn put_relation(
    out: &mut [u16],
    at: usize,
    c: usize,
    a: usize,
    expression_rows: &[u64],
    relations: &[u16],
) -> usize
    requires { RelationWritable expression_rows.now relations.now c a out.old at }
    ensures { (T : Tables) → PresentReads T expression_rows.now relations.now c
        → WrittenAt (relation_words T c a) out.old at out.new result }
{
    if is_present(c, a, expression_rows, relations) {
        let number = relation_word(c, a, expression_rows, relations);
        put_query(out, at, 1, number, 0)
    } else {
        put_query(out, at, 0, 0, 0)
    }
}

// Writes query form q, which is no choice, with the new numbers of what it refers to; `form_sets` has the sets of the forms.
fn write_query(
    x: Query,
    c: usize,
    q: usize,
    expression_rows: &[u64],
    relations: &[u16],
    form_sets: &[u64],
    comparison_numbers: &[u16],
    query_numbers: &[u16],
    out: &mut [u16],
    at: usize,
) -> usize
    requires { QueryWritable expression_rows.now relations.now c q form_sets.now comparison_numbers.now query_numbers.now x
        out.old at }
    ensures { (T : Tables) → PresentReads T expression_rows.now relations.now c
        → WrittenAt (query_words T c q form_sets.now comparison_numbers.now query_numbers.now x)
        out.old at out.new result }
{
    match x {
        Query::Malformed | Query::Choice(_, _, _) => at,
        Query::Empty => put_query(out, at, 0, 0, 0),
        Query::Relation(a) => put_relation(out, at, c, a, expression_rows, relations),
        Query::Select(a, b) => put_query(out, at, 2, comparison_numbers[a], query_numbers[b]),
        Query::Project(_, b) => put_query(out, at, 3, length_word(q, form_sets), query_numbers[b]),
        Query::Product(a, b) => put_query(out, at, 5, query_numbers[a], query_numbers[b]),
        Query::Union(a, b) => put_query(out, at, 6, query_numbers[a], query_numbers[b]),
        Query::Intersection(a, b) => put_query(out, at, 7, query_numbers[a], query_numbers[b]),
    }
}

// Writes the query forms that are no choice and that c reaches; `form_sets` has the sets of the forms.
pub fn write_queries(
    c: usize,
    tables: &SplitTables,
    reach: &[u64],
    form_sets: &[u64],
    comparison_numbers: &[u16],
    query_numbers: &[u16],
    out: &mut [u16],
) -> usize
    requires { QueryFormWritable tables.now.expression_rows.now reach.now form_sets.now tables.now.relations.now
        tables.now.queries.now c comparison_numbers.now query_numbers.now out.old }
    ensures { (T : Tables)
        → QueryFormReads T tables.now.expression_rows.now reach.now form_sets.now tables.now.relations.now
        tables.now.queries.now c comparison_numbers.now query_numbers.now
        → WrittenAt (query_forms T c) out.old 0 out.new result }
{
    let count = tables.queries.len() / 4;
    let mut p = 0;
    for q in 0..count {
        let x = decode_query(tables.queries, q);
        if holds_at(reach, q, c) {
            p = write_query(
                x,
                c,
                q,
                tables.expression_rows,
                tables.relations,
                form_sets,
                comparison_numbers,
                query_numbers,
                out,
                p,
            );
        }
    }
    p
}
