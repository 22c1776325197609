// The print of an accepted report: the columns of each permitted configuration, from the column rows.
ghost use Rattle.std.specs.Prelude.{◌≡◌};
ghost use Rattle.sets.specs.Writing.{WrittenAt};
ghost use Rattle.report.specs.ColumnRows.{shown};
ghost use Rattle.printing.specs.ColumnLines.{configuration_text, accepted_text, RowsRead, ConfigurationRead, AcceptedRead};

use sets::{AttributeSet, Row, put};
use writing::put_at_line;

// The attributes that the rows show at configuration c.
pub fn shown_at(rows: &[u64], c: usize) -> AttributeSet
    requires { RowsRead rows.now c }
    ensures { result.bits ≡ shown rows.now c }
{
    let mut found = AttributeSet::empty();
    for a in 0..AttributeSet::MOST_ATTRIBUTES {
        let word = rows[a * Row::WORDS + c / 64];
        found = found.with_if(a, (word >> (c % 64)) % 2 == 1);
    }
    found
}

// The line of configuration c, where it is permitted.
fn put_configuration(out: &mut [u8], at: usize, permitted: Row, rows: &[u64], c: usize) -> usize
    requires { ConfigurationRead permitted.words rows.now c out.old at }
    ensures { WrittenAt (configuration_text permitted.words rows.now c) out.old at out.new result }
{
    if permitted.has(c) {
        let s = shown_at(rows, c);
        return put_at_line(out, at, c as u64, s);
    }
    at
}

// That the report is accepted, and the line of each permitted configuration below `count`.
pub fn put_accepted(out: &mut [u8], at: usize, permitted: Row, count: usize, rows: &[u64]) -> usize
    requires { AcceptedRead permitted.words count rows.now out.old at }
    ensures { WrittenAt (accepted_text permitted.words count rows.now) out.old at out.new result }
{
    let mut p = put(out, at, b"(accepted)\n");
    for c in 0..count {
        p = put_configuration(out, p, permitted, rows, c);
    }
    p
}
