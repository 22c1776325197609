// The entry point `find`: the lowest permitted configuration at which a report has wanted columns.
#![tactic(auto)]

ghost use Rattle.std.specs.Prelude.{◌≡◌, length};
ghost use Rattle.report.specs.Expressions.{tables_in};
ghost use Rattle.finding.specs.Finding.{Finds};
ghost use Rattle.finding.specs.ColumnSearch.{lowest_shown};

use judging::{COLUMN_WORDS, check_into_columns};
use report::{Reading, Refusal, TableWords};
use sets::{AttributeSet, Row};
use verdicts::refuse_if;

// What finding answers: the configuration, or none, or the refusal.
pub type FindAnswer = Result<Option<usize>, Refusal>;

// The lowest configuration of the row at which the column rows show all wanted attributes.
fn lowest_with(row: Row, columns: &[u64], wanted: AttributeSet) -> Option<usize>
    requires { length columns.now ≡ 1024 }
    ensures { result ≡ lowest_shown row.words columns.now wanted.bits }
{
    let mut having = row;
    let mut rest = wanted;
    while let Some(a) = rest.lowest() {
        having = having.intersect(Row::load(columns, a));
        rest = rest.minus(AttributeSet::single(a));
    }
    having.lowest()
}

// The lowest permitted configuration at which the report of these tables, in the reading, has all wanted attributes: attribute a is wanted where bit a is 1.
pub fn find(tables: &TableWords, reading: Reading, wanted: u64) -> FindAnswer
    ensures { Finds
        (tables_in tables.now) reading wanted result }
{
    let wanted = AttributeSet::of_bits(wanted);
    let mut columns = [0; COLUMN_WORDS];
    let judged = check_into_columns(tables, reading, &mut columns);
    judged.verdict?;
    // 22 comes after the checks of the report.
    refuse_if(wanted.has_from(tables.head.attributes), 22, 0)?;
    Ok(lowest_with(judged.permitted, &columns, wanted))
}
