// Checking, configuring, finding and the page as C functions.
#![tactic(auto)]

ghost use Rattle.std.specs.Prelude.{◌≡◌};
ghost use Rattle.report.specs.Expressions.{tables_in, tables_of};
ghost use Rattle.c_answers.specs.ReadingTold.{reading_told};
ghost use Rattle.gelvomas.specs.Answers.{CheckTold, ConfigureTold, FindTold, PageTold};

use c_answers::{AnswerWords, reading_told, tell_refusal};
use checking::check;
use configuring::configure;
use finding::find;
use report::{Head, TableWords};
use wall_page::write_page;

// The tables that C tells: an exported function takes no struct of slices.
fn tables_told<'a>(
    features: u64,
    attributes: u64,
    model: u64,
    expressions: &'a [u16],
    entries: &'a [u16],
    relations: &'a [u16],
    comparisons: &'a [u16],
    queries: &'a [u16],
    kinds: &'a [u16],
) -> TableWords<'a>
    ensures { tables_in result ≡ tables_of features attributes model expressions.now entries.now relations.now
        comparisons.now queries.now kinds.now }
{
    TableWords {
        head: Head {
            features: features as usize,
            attributes: attributes as usize,
            model: model as usize,
        },
        expressions,
        entries,
        relations,
        comparisons,
        queries,
        kinds,
    }
}

// Answers 0 where the report is accepted: `rows` holds its column rows, and `refusal` is as it was.
// Else answers 1: `refusal` holds number, place, item and configuration, and `rows` is as it was.
#[unsafe(no_mangle)]
pub extern "C" fn gelvomas_check(
    features: u64,
    attributes: u64,
    model: u64,
    expressions: &[u16],
    entries: &[u16],
    relations: &[u16],
    comparisons: &[u16],
    queries: &[u16],
    kinds: &[u16],
    filled: bool,
    rows: &mut [u64],
    refusal: &mut AnswerWords,
) -> u64
    ensures { CheckTold (tables_of features attributes model expressions.now entries.now relations.now
        comparisons.now queries.now kinds.now)
        (reading_told filled) rows.old refusal.old result refusal.new rows.new }
{
    let tables = tables_told(
        features,
        attributes,
        model,
        expressions,
        entries,
        relations,
        comparisons,
        queries,
        kinds,
    );
    let checked = check(&tables, reading_told(filled), rows);
    match checked {
        Ok(()) => 0,
        Err(r) => tell_refusal(r, refusal),
    }
}

// Answers 0 where the report is configured: each of `new_entries` to `new_queries` holds its table, followed by what stood there, and
// `answer` how many forms each table has. Else answers 1: `answer` holds number, place, item and configuration, and `new_entries` to
// `new_queries` are as they were.
#[unsafe(no_mangle)]
pub extern "C" fn gelvomas_configure(
    features: u64,
    attributes: u64,
    model: u64,
    expressions: &[u16],
    entries: &[u16],
    relations: &[u16],
    comparisons: &[u16],
    queries: &[u16],
    kinds: &[u16],
    filled: bool,
    c: u64,
    new_entries: &mut [u16],
    new_relations: &mut [u16],
    new_comparisons: &mut [u16],
    new_queries: &mut [u16],
    answer: &mut AnswerWords,
) -> u64
    ensures { ConfigureTold (tables_of features attributes model expressions.now entries.now relations.now
        comparisons.now queries.now kinds.now)
        (reading_told filled) c new_entries.old new_relations.old new_comparisons.old new_queries.old
        result answer.new new_entries.new new_relations.new new_comparisons.new new_queries.new }
{
    let tables = tables_told(
        features,
        attributes,
        model,
        expressions,
        entries,
        relations,
        comparisons,
        queries,
        kinds,
    );
    let made = configure(
        &tables,
        reading_told(filled),
        c,
        new_entries,
        new_relations,
        new_comparisons,
        new_queries,
    );
    match made {
        Ok(counts) => {
            *answer = [
                counts.entries as u64,
                counts.relations as u64,
                counts.comparisons as u64,
                counts.queries as u64,
            ];
            0
        }
        Err(r) => tell_refusal(r, answer),
    }
}

// Answers 0 where a permitted configuration has all wanted attributes: `answer` begins with the lowest. Answers 2 where none has. Else answers 1:
// `answer` holds number, place, item and configuration.
#[unsafe(no_mangle)]
pub extern "C" fn gelvomas_find(
    features: u64,
    attributes: u64,
    model: u64,
    expressions: &[u16],
    entries: &[u16],
    relations: &[u16],
    comparisons: &[u16],
    queries: &[u16],
    kinds: &[u16],
    filled: bool,
    wanted: u64,
    answer: &mut AnswerWords,
) -> u64
    ensures { FindTold (tables_of features attributes model expressions.now entries.now relations.now
        comparisons.now queries.now kinds.now)
        (reading_told filled) wanted result answer.new }
{
    let tables = tables_told(
        features,
        attributes,
        model,
        expressions,
        entries,
        relations,
        comparisons,
        queries,
        kinds,
    );
    let found = find(&tables, reading_told(filled), wanted);
    match found {
        Ok(Some(c)) => {
            *answer = [c as u64, 0, 0, 0];
            0
        }
        Ok(None) => {
            *answer = [0, 0, 0, 0];
            2
        }
        Err(r) => tell_refusal(r, answer),
    }
}

// Answers 0 where the page of the report is written: `answer` begins with the number of its lines, and the bytes after them are as they were. Else
// answers 1: `answer` holds number, place, item and configuration, and `page` is as it was.
#[unsafe(no_mangle)]
pub extern "C" fn gelvomas_page(
    features: u64,
    attributes: u64,
    model: u64,
    expressions: &[u16],
    entries: &[u16],
    relations: &[u16],
    comparisons: &[u16],
    queries: &[u16],
    kinds: &[u16],
    filled: bool,
    page: &mut [u8],
    answer: &mut AnswerWords,
) -> u64
    ensures { PageTold (tables_of features attributes model expressions.now entries.now relations.now
        comparisons.now queries.now kinds.now)
        (reading_told filled) page.old result answer.new page.new }
{
    let tables = tables_told(
        features,
        attributes,
        model,
        expressions,
        entries,
        relations,
        comparisons,
        queries,
        kinds,
    );
    let written = write_page(&tables, reading_told(filled), page);
    match written {
        Ok(lines) => {
            *answer = [lines as u64, 0, 0, 0];
            0
        }
        Err(r) => tell_refusal(r, answer),
    }
}
