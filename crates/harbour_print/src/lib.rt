// Printing what the report of a harbour file has.
#![tactic(auto)]

mod printed;

ghost use Rattle.report.specs.Tables.{Tables};
ghost use Rattle.report.specs.HarbourFile.{File};
ghost use Rattle.harbour_file.specs.Filing.{Held};
ghost use Rattle.harbour_print.specs.Layouts.{file_as, text_as};
ghost use Rattle.harbour_print.specs.Printing.{words_in, HeldReadable, Prints};

use harbour_file::{Sizes, decode_head, read_file};
use printed::print_tables;
use report::{Limits, TableWords};
use sets::AttributeSet;
use writing::put_unread;

// How the columns of an accepted report are printed: as lists, or as the wall page.
// It says what is asked, and is no step to run: definitions go by cases on it (`accepted_as`).
#[derive(Clone, Copy)]
pub enum Layout {
    Columns,
    Page,
}

// The length of the longest print: 1,024 configurations with 64 attributes each.
pub const LONGEST_PRINT: usize = 201653;

// Room for every print.
pub type PrintRoom = [u8; LONGEST_PRINT];

// The print of tables that were read, which are so many of the first words of the lent ones.
fn print_read(lent: &TableWords, sizes: Sizes, layout: Layout, out: &mut [u8]) -> usize
    requires { HeldReadable sizes (words_in lent.now) out.old }
    ensures { (T : Tables) → Held T sizes (words_in lent.now) → Prints (file_as layout (File.holds T)) out.old out.new result }
{
    let tables = TableWords {
        head: lent.head,
        expressions: &lent.expressions[..sizes.expressions],
        entries: &lent.entries[..sizes.entries],
        relations: &lent.relations[..sizes.relations],
        comparisons: &lent.comparisons[..sizes.comparisons],
        queries: &lent.queries[..sizes.queries],
        kinds: &lent.kinds[..sizes.kinds],
    };
    print_tables(&tables, layout, out)
}

// Prints what the report of a harbour file has, in the layout, or that the file cannot be read, to the start of `out`. Answers how many bytes that are.
pub fn print_file(text: &[u8], layout: Layout, out: &mut PrintRoom) -> usize
    ensures { Prints (text_as layout text.now) out.old out.new result }
{
    let mut head = [0; 3];
    let mut expressions = [0; Limits::MOST_EXPRESSIONS * 3];
    let mut entries = [0; Limits::MOST_ENTRIES * 2];
    let mut relations = [0; Limits::MOST_RELATIONS * 2];
    let mut comparisons = [0; Limits::MOST_COMPARISONS * 5];
    let mut queries = [0; Limits::MOST_QUERIES * 4];
    let mut kinds = [0; AttributeSet::MOST_ATTRIBUTES];
    let file = read_file(
        text,
        &mut head,
        &mut expressions,
        &mut entries,
        &mut relations,
        &mut comparisons,
        &mut queries,
        &mut kinds,
    );
    match file {
        Err(bad) => put_unread(out, 0, bad.number as u64),
        Ok(sizes) => {
            let lent = TableWords {
                head: decode_head(&head),
                expressions: &expressions,
                entries: &entries,
                relations: &relations,
                comparisons: &comparisons,
                queries: &queries,
                kinds: &kinds,
            };
            print_read(&lent, sizes, layout, out)
        }
    }
}
