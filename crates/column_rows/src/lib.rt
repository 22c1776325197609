// The column rows, made of the report's sets at the permitted configurations, one configuration after another.
#![tactic(auto)]

ghost use Rattle.std.specs.Prelude.{◌≡◌, cond, ◌%◌, ◌^◌, ◌<◌};
ghost use Rattle.sets.specs.Bits.{bit};
ghost use Rattle.sets.specs.Lists.{concat};
ghost use Rattle.sets.specs.Rows.{with_row};
ghost use Rattle.report.specs.Tables.{Tables};
ghost use Rattle.report.specs.Configuring.{written};
ghost use Rattle.report.specs.ColumnRows.{column_row};
ghost use Rattle.column_rows.specs.GatheredSets.{SetsGathered, SomeGathered, ShownAnywhere, ColumnFillable, ColumnsFillable};

use sets::{AttributeSet, Row};

// A permitted configuration, and the report's set there.
#[derive(Clone, Copy)]
pub struct SetAt {
    pub configuration: u16,
    pub set: AttributeSet,
}

// The bit of configuration c in its word of the row of attribute a, if the set at c has a; else 0.
fn shown_bit(s: AttributeSet, a: usize, c: usize) -> u64
    requires { a < 64 }
    ensures { result ≡ cond (bit s.bits a) (2 ^ (c % 64)) 0 }
{
    if s.has(a) {
        return 1 << (c % 64);
    }
    0
}

// The column row of attribute a, from the report's sets at the permitted configurations. It is made in words of its own: a row by value would be copied at
// each configuration.
fn column_row(a: usize, gathered: &[SetAt]) -> Row
    requires { (a < 64) × SomeGathered gathered.now }
    ensures { (T : Tables) → SetsGathered T gathered.now → result.words ≡ column_row T a }
{
    let mut words = [0; Row::WORDS];
    for set_at in gathered {
        let c = set_at.configuration as usize;
        let w = c / 64;
        words[w] |= shown_bit(set_at.set, a, c);
    }
    Row { words: words }
}

// The attributes that any of the sets has.
fn shown_anywhere(gathered: &[SetAt]) -> AttributeSet
    ensures { ShownAnywhere gathered.now result.bits }
{
    let mut shown = AttributeSet::empty();
    for set_at in gathered {
        shown = shown.union(set_at.set);
    }
    shown
}

// Stores the column row of attribute a. It is empty as it is, and stays so where no set has a.
fn store_column(a: usize, shown: AttributeSet, gathered: &[SetAt], columns: &mut [u64])
    requires { ColumnFillable a shown.bits gathered.now columns.old }
    ensures { (T : Tables) → SetsGathered T gathered.now → columns.new ≡ with_row 16 columns.old a (column_row T a) }
{
    if !shown.has(a) {
        return;
    }
    let row = column_row(a, gathered);
    row.store(columns, a);
}

// Stores the column rows of the attributes below `items`.
pub fn store_columns(items: usize, gathered: &[SetAt], columns: &mut [u64])
    requires { ColumnsFillable items gathered.now columns.old }
    ensures { (T : Tables) → SetsGathered T gathered.now → columns.new ≡ written (concat items (column_row T)) columns.old }
{
    let shown = shown_anywhere(gathered);
    for a in 0..items {
        store_column(a, shown, gathered, columns);
    }
}
