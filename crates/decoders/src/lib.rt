// One form of each table, from its words. The kinds are numbers there, since the tables are C's. The words of an entry and of a relation are two terms each of
// docs/FORMAT.md, so each has a function, of one expression.
#![tactic(auto)]

ghost use Rattle.std.specs.Prelude.{◌≡◌, ◌/◌, ◌<◌, length};
ghost use Rattle.report.specs.Tables.{kind_in, entry_attribute, entry_expression, relation_expression, relation_length, expression_of, expression};
ghost use Rattle.report.specs.Tables.{comparison_of, comparison, query_of, query, project_length};
ghost use Rattle.report.specs.Operands.{comparison_operands, query_operands, comparison_sides};
ghost use Rattle.report.specs.declared.Expression.{Expression};
ghost use Rattle.report.specs.declared.Comparison.{Comparison};
ghost use Rattle.report.specs.declared.Query.{Query};
ghost use Rattle.decoders.specs.Words.{IsWord};

use report::{Comparison, Expression, Operands, Query, Sides};

// The attribute of entry k.
pub fn entry_attribute(entries: &[u16], k: usize) -> usize
    requires { k < length entries.now / 2 }
    ensures { IsWord (entry_attribute entries.now k) result }
{
    entries[k * 2] as usize
}

// The expression of entry k.
pub fn entry_expression(entries: &[u16], k: usize) -> usize
    requires { k < length entries.now / 2 }
    ensures { IsWord (entry_expression entries.now k) result }
{
    entries[k * 2 + 1] as usize
}

// The expression of relation k.
pub fn relation_expression(relations: &[u16], k: usize) -> usize
    requires { k < length relations.now / 2 }
    ensures { IsWord (relation_expression relations.now k) result }
{
    relations[k * 2] as usize
}

// How many entries relation k has.
pub fn relation_length(relations: &[u16], k: usize) -> usize
    requires { k < length relations.now / 2 }
    ensures { IsWord (relation_length relations.now k) result }
{
    relations[k * 2 + 1] as usize
}

// The kind of attribute a; 0 past the end of the kind table.
pub fn kind_of(kinds: &[u16], a: usize) -> usize
    ensures { result ≡ kind_in kinds.now a }
{
    kinds.get(a).map_or(0, |kind| *kind as usize)
}

// The form of table 0 with these words. A word that its kind leaves unused must be 0.
fn expression_of(kind: usize, a: usize, b: usize) -> Expression
    ensures { result ≡ expression_of kind a b }
{
    match (kind, a, b) {
        (0, 0, 0) => Expression::False,
        (1, 0, 0) => Expression::True,
        (2, _, 0) => Expression::Feature(a),
        (3, _, 0) => Expression::Not(a),
        (4, _, _) => Expression::And(a, b),
        (5, _, _) => Expression::Or(a, b),
        (6, _, _) => Expression::ExactlyOne(a, b),
        _ => Expression::Malformed,
    }
}

// Form k of table 0.
pub fn decode_expression(expressions: &[u16], k: usize) -> Expression
    requires { k < length expressions.now / 3 }
    ensures { result ≡ expression expressions.now k }
{
    let at = k * 3;
    expression_of(
        expressions[at] as usize,
        expressions[at + 1] as usize,
        expressions[at + 2] as usize,
    )
}

// The form of table 3 with these words, o the operator. A word that its kind leaves unused must be 0.
fn comparison_of(kind: usize, o: usize, a: usize, b: usize, c: usize) -> Comparison
    ensures { result ≡ comparison_of kind o a b c }
{
    match (kind, o, a, b, c) {
        (0, 0, 0, 0, 0) => Comparison::Never,
        (1, 0, 0, 0, 0) => Comparison::Always,
        (2, _, _, _, _) => Comparison::Constant(o, a, b, c),
        (3, _, _, _, 0) => Comparison::Attribute(o, a, b),
        (4, 0, _, 0, 0) => Comparison::Not(a),
        (5, 0, _, _, 0) => Comparison::And(a, b),
        (6, 0, _, _, 0) => Comparison::Or(a, b),
        (7, 0, _, _, _) => Comparison::Choice(a, b, c),
        _ => Comparison::Malformed,
    }
}

// Form k of table 3.
pub fn decode_comparison(comparisons: &[u16], k: usize) -> Comparison
    requires { k < length comparisons.now / 5 }
    ensures { result ≡ comparison comparisons.now k }
{
    let at = k * 5;
    comparison_of(
        comparisons[at] as usize,
        comparisons[at + 1] as usize,
        comparisons[at + 2] as usize,
        comparisons[at + 3] as usize,
        comparisons[at + 4] as usize,
    )
}

// The form of table 4 with these words. A word that its kind leaves unused must be 0.
fn query_of(kind: usize, a: usize, b: usize, c: usize) -> Query
    ensures { result ≡ query_of kind a b c }
{
    match (kind, a, b, c) {
        (0, 0, 0, 0) => Query::Empty,
        (1, _, 0, 0) => Query::Relation(a),
        (2, _, _, 0) => Query::Select(a, b),
        (3, _, _, 0) => Query::Project(a, b),
        (4, _, _, _) => Query::Choice(a, b, c),
        (5, _, _, 0) => Query::Product(a, b),
        (6, _, _, 0) => Query::Union(a, b),
        (7, _, _, 0) => Query::Intersection(a, b),
        _ => Query::Malformed,
    }
}

// Form k of table 4.
pub fn decode_query(queries: &[u16], k: usize) -> Query
    requires { k < length queries.now / 4 }
    ensures { result ≡ query queries.now k }
{
    let at = k * 4;
    query_of(
        queries[at] as usize,
        queries[at + 1] as usize,
        queries[at + 2] as usize,
        queries[at + 3] as usize,
    )
}

// How many entries a query form lists.
pub fn project_length(x: Query) -> usize
    ensures { result ≡ project_length x }
{
    if let Query::Project(count, _) = x {
        count
    } else {
        0
    }
}

// The comparisons that a comparison refers to.
pub fn comparison_operands(x: Comparison) -> Operands
    ensures { result ≡ comparison_operands x }
{
    match x {
        Comparison::Malformed
        | Comparison::Never
        | Comparison::Always
        | Comparison::Constant(_, _, _, _)
        | Comparison::Attribute(_, _, _) => Operands::Nothing,
        Comparison::Not(a) => Operands::One(a),
        Comparison::And(a, b) | Comparison::Or(a, b) => Operands::Both(a, b),
        Comparison::Choice(e, a, b) => Operands::Choice(e, a, b),
    }
}

// The query forms that a query form refers to.
pub fn query_operands(x: Query) -> Operands
    ensures { result ≡ query_operands x }
{
    match x {
        Query::Malformed | Query::Empty | Query::Relation(_) => Operands::Nothing,
        Query::Select(_, b) | Query::Project(_, b) => Operands::One(b),
        Query::Choice(e, a, b) => Operands::Choice(e, a, b),
        Query::Product(a, b) | Query::Union(a, b) | Query::Intersection(a, b) => Operands::Both(
            a, b,
        ),
    }
}

// What a comparison compares by itself.
pub fn comparison_sides(x: Comparison) -> Sides
    ensures { result ≡ comparison_sides x }
{
    match x {
        Comparison::Constant(_, a, _, k) => Sides::Constant(a, k),
        Comparison::Attribute(_, a, b) => Sides::Attributes(a, b),
        Comparison::Malformed
        | Comparison::Never
        | Comparison::Always
        | Comparison::Not(_)
        | Comparison::And(_, _)
        | Comparison::Or(_, _)
        | Comparison::Choice(_, _, _) => Sides::Neither,
    }
}
