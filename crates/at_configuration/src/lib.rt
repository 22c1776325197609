// What holds at one configuration c, read from the expression rows and the reach rows: an expression, an entry of a list, a relation, a choice; and
// the joined set of a list.
#![tactic(auto)]

ghost use Rattle.std.specs.Prelude.{◌≡◌, cond, ℕ, ◌+◌, ◌*◌, ◌<◌, ◌≤◌, length};
ghost use Rattle.sets.specs.Rows.{row_bit, row_in};
ghost use Rattle.report.specs.Tables.{Tables};
ghost use Rattle.report.specs.Typing.{entry_holds, joined_set, present};
ghost use Rattle.at_configuration.specs.AtConfiguration.{ListReads, ListReadable, PresentReads, PresentReadable};

use decoders::{entry_attribute, entry_expression, relation_expression};
use sets::{AttributeSet, Row};

// Configuration c is in row x of the rows: expression x holds there, or form x is reached.
pub fn holds_at(rows: &[u64], x: usize, c: usize) -> bool
    requires { (x * 16 + 16 ≤ length rows.now) × (c < 1024) }
    ensures { result ≡ row_bit (row_in 16 rows.now x) c }
{
    // One word is read where it lies: `Row::load(rows, x).has(c)` copies the row first, and took five times as long.
    let word = rows[x * Row::WORDS + c / 64];
    (word >> (c % 64)) % 2 == 1
}

// The alternative that a choice on expression e takes at c: a where e holds, b elsewhere.
pub fn taken_at(c: usize, e: usize, a: usize, b: usize, expression_rows: &[u64]) -> usize
    requires { (e * 16 + 16 ≤ length expression_rows.now) × (c < 1024) }
    ensures { result ≡ cond (row_bit (row_in 16 expression_rows.now e) c) a b }
{
    if holds_at(expression_rows, e, c) {
        return a;
    }
    b
}

// Entry i of the list that starts at `start` holds at c.
pub fn entry_holds(
    c: usize,
    start: usize,
    i: usize,
    expression_rows: &[u64],
    entries: &[u16],
) -> bool
    requires { ListReadable expression_rows.now entries.now c start (i + 1) }
    ensures { (T : Tables) (offset : ℕ) → ListReads T offset expression_rows.now entries.now c start (i + 1)
        → result ≡ entry_holds T c (offset + start + i) }
{
    holds_at(expression_rows, entry_expression(entries, start + i), c)
}

// The joined set of a list at c: the attributes of those of the `count` entries from `start` on that hold.
pub fn joined_at(
    c: usize,
    start: usize,
    count: usize,
    expression_rows: &[u64],
    entries: &[u16],
) -> AttributeSet
    requires { ListReadable expression_rows.now entries.now c start count }
    ensures { (T : Tables) (offset : ℕ) → ListReads T offset expression_rows.now entries.now c start count
        → result.bits ≡ joined_set T c (offset + start) count }
{
    let mut joined = AttributeSet::empty();
    for i in 0..count {
        let a = entry_attribute(entries, start + i);
        let holds = entry_holds(c, start, i, expression_rows, entries);
        joined = joined.with_if(a, holds);
    }
    joined
}

// Relation r is present at c.
pub fn is_present(c: usize, r: usize, expression_rows: &[u64], relations: &[u16]) -> bool
    requires { PresentReadable expression_rows.now relations.now c (r + 1) }
    ensures { (T : Tables) → PresentReads T expression_rows.now relations.now c → result ≡ present T c r }
{
    holds_at(expression_rows, relation_expression(relations, r), c)
}
