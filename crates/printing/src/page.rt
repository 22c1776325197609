// The wall page of an accepted report: a line for each permitted configuration, from the column rows.
ghost use Rattle.std.specs.Prelude.{◌≡◌, length};
ghost use Rattle.sets.specs.Writing.{Room, WrittenAt};
ghost use Rattle.report.specs.Text.{decimal};
ghost use Rattle.printing.specs.Page.{aligned, mark, marks, page_line};
ghost use Rattle.printing.specs.PageRows.{page_text, AlignedRead, LineRead, PageRead};

use crate::shown_at;
use sets::{AttributeSet, Row, put};
use writing::put_decimal;

// How many digits a number has.
fn digit_count(n: u64) -> usize
    ensures { result ≡ length (decimal n) }
{
    n.max(1).ilog10() as usize + 1
}

// A number right-aligned in `width` characters.
fn put_aligned(out: &mut [u8], at: usize, n: u64, width: usize) -> usize
    requires { AlignedRead n width out.old at }
    ensures { WrittenAt (aligned width n) out.old at out.new result }
{
    let spaces = width - digit_count(n);
    let digits = at + spaces;
    out[at..digits].fill(b' ');
    put_decimal(out, digits, n)
}

// The mark of an attribute: `o` where it is present, and else `.`.
fn mark_of(present: bool) -> u8
    ensures { result ≡ mark present }
{
    if present { b'o' } else { b'.' }
}

// The marks of all attributes, from 0 on.
fn put_marks(out: &mut [u8], at: usize, s: AttributeSet) -> usize
    requires { Room (marks s.bits) out.old at }
    ensures { WrittenAt (marks s.bits) out.old at out.new result }
{
    for a in 0..AttributeSet::MOST_ATTRIBUTES {
        out[at + a] = mark_of(s.has(a));
    }
    at + AttributeSet::MOST_ATTRIBUTES
}

// The line of configuration c, which has the attributes of the set.
fn put_page_line(out: &mut [u8], at: usize, c: u64, s: AttributeSet) -> usize
    requires { LineRead c s.bits out.old at }
    ensures { WrittenAt (page_line c s.bits) out.old at out.new result }
{
    let p0 = put_aligned(out, at, c, 4);
    let p1 = put(out, p0, b" ");
    let p2 = put_marks(out, p1, s);
    let p3 = put(out, p2, b" ");
    let p4 = put_aligned(out, p3, s.count() as u64, 2);
    put(out, p4, b"\n")
}

// The line of each permitted configuration below `count`, with the marks that the column rows show.
pub fn put_page(out: &mut [u8], at: usize, permitted: Row, count: usize, rows: &[u64]) -> usize
    requires { PageRead permitted.words count rows.now out.old at }
    ensures { WrittenAt (page_text permitted.words count rows.now) out.old at out.new result }
{
    let mut p = at;
    for c in 0..count {
        if permitted.has(c) {
            let s = shown_at(rows, c);
            p = put_page_line(out, p, c as u64, s);
        }
    }
    p
}
