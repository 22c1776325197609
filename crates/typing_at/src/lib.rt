// Checks 15 to 19 and 25 at one configuration, in either reading: the sets of all forms are worked out first, and then each form's faults from them, less
// what the reading does not hold against it (`spared_sets`).
#![tactic(auto)]

ghost use Rattle.std.specs.Prelude.{◌≡◌};
ghost use Rattle.sets.specs.Lists.{table};
ghost use Rattle.report.specs.Tables.{Tables, query_count};
ghost use Rattle.report.specs.Typing.{set_of};
ghost use Rattle.report.specs.Configuring.{written};
ghost use Rattle.expression_rows.specs.SplitTables.{of_split};
ghost use Rattle.report.specs.Checks.{rule_number};
ghost use Rattle.report.specs.declared.Reading.{Reading};
ghost use Rattle.typing_at.specs.TypingAt.{form_here, typing_here, HereReads, HereReadable, HereChecked, HereFillable, HereFilled};
ghost use Rattle.typing_at.specs.Here.{FormHereReads, FormHereReadable, FormsHereReads, FormsHereReadable};

use at_configuration::holds_at;
use comparisons::Gathered;
use decoders::{decode_query, project_length};
use expression_rows::SplitTables;
use faults_at::{clashes_in, faults_of, fill_form_sets, fill_gathered};
use report::{Limits, Query, Verdict};
use sets::AttributeSet;
use verdicts::refuse_items;

// The number of a query form's rule, the first that is looked for.
// 0 for a form without a rule, as the definition has it.
fn rule_number(x: Query) -> u64
    ensures { result ≡ rule_number x }
{
    match x {
        Query::Malformed => 0,
        Query::Empty => 0,
        Query::Relation(_) => 15,
        Query::Select(_, _) => 16,
        Query::Project(_, _) => 17,
        Query::Choice(_, _, _) => 0,
        Query::Product(_, _) => 18,
        Query::Union(_, _) => 19,
        Query::Intersection(_, _) => 19,
    }
}

// The sets at one configuration from which the faults there are worked out: what each comparison names, the left attributes that it compares with another
// kind, and the set of each query form.
#[derive(Clone, Copy)]
struct SetsAt<'a> {
    named: &'a [u64],
    clashes: &'a [u64],
    forms: &'a [u64],
}

// Both phases of form q, which is x, at c, the first without the items that the reading does not hold against it; a project's list starts at `start`.
fn form_here(
    x: Query,
    q: usize,
    c: usize,
    start: usize,
    tables: &SplitTables,
    reach: &[u64],
    spared_sets: &[u64],
    sets: &SetsAt,
) -> Verdict
    requires { FormHereReadable q tables.now.expression_rows.now tables.now.project_entries.now tables.now.relations.now reach.now
        spared_sets.now c sets.now.named.now sets.now.clashes.now sets.now.forms.now start x }
    ensures { (T : Tables) (R : Reading)
        → FormHereReads T R q tables.now.expression_rows.now tables.now.project_entries.now tables.now.relations.now reach.now
        spared_sets.now c sets.now.named.now sets.now.clashes.now sets.now.forms.now start x
        → result ≡ form_here T R c q }
{
    if !holds_at(reach, q, c) {
        return Ok(());
    }
    let broken = faults_of(x, c, start, tables, sets.named, sets.forms);
    let spared = AttributeSet::of_bits(spared_sets[q]);
    refuse_items(rule_number(x), q, broken.minus(spared), c)?;
    refuse_items(25, q, clashes_in(x, sets.clashes), c)
}

// All forms at c: the lowest that fails there.
fn forms_here(
    c: usize,
    tables: &SplitTables,
    reach: &[u64],
    spared_sets: &[u64],
    sets: &SetsAt,
) -> Verdict
    requires { FormsHereReadable tables.now.expression_rows.now tables.now.project_entries.now tables.now.relations.now
        tables.now.queries.now reach.now spared_sets.now c sets.now.named.now sets.now.clashes.now sets.now.forms.now }
    ensures { (T : Tables) (R : Reading)
        → FormsHereReads T R tables.now.expression_rows.now tables.now.project_entries.now tables.now.relations.now
        tables.now.queries.now reach.now spared_sets.now c sets.now.named.now sets.now.clashes.now sets.now.forms.now
        → result ≡ typing_here T R c }
{
    let mut start = 0;
    for q in 0..tables.queries.len() / 4 {
        let x = decode_query(tables.queries, q);
        form_here(x, q, c, start, tables, reach, spared_sets, sets)?;
        start += project_length(x);
    }
    Ok(())
}

// What typing finds at one configuration alone: its answer there, and the report's set, that of the last form.
// No Result has both: the set is promised where the verdict refuses too (`HereFilled`).
#[derive(Clone, Copy)]
pub struct Here {
    pub verdict: Verdict,
    pub set: AttributeSet,
}

// Fills the words lent with the sets at configuration c, and answers from them.
pub fn fill_here(
    c: usize,
    tables: &SplitTables,
    reach: &[u64],
    spared_sets: &[u64],
    named_sets: &mut [u64],
    clash_sets: &mut [u64],
    form_sets: &mut [u64],
) -> Here
    requires { of_split tables.now (HereFillable c) reach.now spared_sets.now named_sets.old clash_sets.old form_sets.old }
    ensures { (T : Tables) (R : Reading)
        → of_split tables.now (HereReads T R c) reach.now spared_sets.now
        → HereFilled T R c result named_sets.old clash_sets.old form_sets.old named_sets.new
        clash_sets.new form_sets.new }
{
    fill_gathered(c, Gathered::Names, tables, named_sets);
    fill_gathered(c, Gathered::Clashes, tables, clash_sets);
    fill_form_sets(c, tables, form_sets);
    let sets = SetsAt {
        named: named_sets,
        clashes: clash_sets,
        forms: form_sets,
    };
    let verdict = forms_here(c, tables, reach, spared_sets, &sets);
    let set = AttributeSet::of_bits(form_sets[tables.queries.len() / 4 - 1]);
    Here { verdict, set }
}

// The same with words of its own.
pub fn check_here(c: usize, tables: &SplitTables, reach: &[u64], spared_sets: &[u64]) -> Here
    requires { of_split tables.now (HereReadable c) reach.now spared_sets.now }
    ensures { (T : Tables) (R : Reading)
        → of_split tables.now (HereReads T R c) reach.now spared_sets.now
        → HereChecked T R c result }
{
    let mut named_sets = [0; Limits::MOST_COMPARISONS];
    let mut clash_sets = [0; Limits::MOST_COMPARISONS];
    let mut form_sets = [0; Limits::MOST_QUERIES];
    fill_here(
        c,
        tables,
        reach,
        spared_sets,
        &mut named_sets,
        &mut clash_sets,
        &mut form_sets,
    )
}
