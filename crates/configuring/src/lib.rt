// The entry point `configure`: the plain tables of an accepted report at one configuration.
#![tactic(auto)]

ghost use Rattle.std.specs.Prelude.{◌++◌};
ghost use Rattle.sets.specs.Writing.{WrittenAt};
ghost use Rattle.report.specs.Tables.{Tables};
ghost use Rattle.report.specs.Expressions.{tables_in};
ghost use Rattle.report.specs.Configuring.{configured};
ghost use Rattle.report.specs.declared.Reading.{Reading};
ghost use Rattle.kept_lists.specs.Keeping.{relation_lists, project_lists};
ghost use Rattle.configuring.specs.Promises.{Leaves, Configures};
ghost use Rattle.configuring.specs.AfterTyping.{late_verdict, ConfigureReads, ConfigureReadable};
ghost use Rattle.configuring.specs.AfterTyping.{EntriesReads, EntriesWritable, TypedReads, TypedWritable, KeptReads, KeptWritable};

use expression_rows::SplitTables;
use faults_at::fill_form_sets;
use judging::{COLUMN_WORDS, EXPRESSION_WORDS, REACH_WORDS, check_into_rows, split_tables};
use kept_forms::{number_comparisons, number_queries, write_comparisons, write_queries};
use kept_lists::{write_project_lists, write_relation_forms, write_relation_lists};
use late_checks::{LentWords, check_late};
use report::{Limits, Reading, Refusal, TableWords};
use sets::Row;

// How many forms each of the tables 1 to 4 has.
#[derive(Clone, Copy)]
pub struct FormCounts {
    pub entries: usize,
    pub relations: usize,
    pub comparisons: usize,
    pub queries: usize,
}

// What configuring answers: these, or the refusal.
pub type Configured = Result<FormCounts, Refusal>;

// Writes table 1 at c: the lists of the relations that are present, then those of the project forms that are reached.
fn write_entries(
    c: usize,
    tables: &SplitTables,
    reach: &[u64],
    form_sets: &[u64],
    out: &mut [u16],
) -> usize
    requires { EntriesWritable tables.now reach.now form_sets.now c out.old }
    ensures { (T : Tables) → EntriesReads T tables.now reach.now form_sets.now c
        → WrittenAt (relation_lists T c ++ project_lists T c) out.old 0 out.new result }
{
    let lists = write_relation_lists(c, tables, out);
    write_project_lists(c, tables, reach, form_sets, out, lists)
}

// Writes what the report keeps at c, from the split tables, the configurations that reach each query form, and the sets of the forms at c.
fn write_with(
    c: usize,
    tables: &SplitTables,
    reach: &[u64],
    form_sets: &[u64],
    new_entries: &mut [u16],
    new_relations: &mut [u16],
    new_comparisons: &mut [u16],
    new_queries: &mut [u16],
) -> Configured
    requires { TypedWritable tables.now reach.now form_sets.now c
        new_entries.old new_relations.old new_comparisons.old new_queries.old }
    ensures { (T : Tables) → TypedReads T tables.now reach.now form_sets.now c
        → Leaves (Ok tt) (configured T c Reading.Filled)
        new_entries.old new_relations.old new_comparisons.old new_queries.old result
        new_entries.new new_relations.new new_comparisons.new new_queries.new }
{
    let entry_count = write_entries(c, tables, reach, form_sets, new_entries) / 2;
    let relation_count = write_relation_forms(c, tables, new_relations) / 2;
    let mut comparison_numbers = [0; Limits::MOST_COMPARISONS];
    number_comparisons(
        c,
        tables.expression_rows,
        tables.comparisons,
        &mut comparison_numbers,
    );
    let comparison_count = write_comparisons(
        tables.comparisons,
        &comparison_numbers,
        new_comparisons,
    ) / 5;
    let mut query_numbers = [0; Limits::MOST_QUERIES];
    number_queries(
        c,
        tables.expression_rows,
        tables.queries,
        reach,
        &mut query_numbers,
    );
    let query_count = write_queries(
        c,
        tables,
        reach,
        form_sets,
        &comparison_numbers,
        &query_numbers,
        new_queries,
    ) / 4;
    Ok(FormCounts {
        entries: entry_count,
        relations: relation_count,
        comparisons: comparison_count,
        queries: query_count,
    })
}

// The same. The sets of the forms at c are its own. It is not told the reading: it writes what the filled one says, which of a report that the strict
// one accepts is the same.
fn write_kept(
    c: usize,
    tables: &SplitTables,
    reach: &[u64],
    new_entries: &mut [u16],
    new_relations: &mut [u16],
    new_comparisons: &mut [u16],
    new_queries: &mut [u16],
) -> Configured
    requires { KeptWritable tables.now reach.now c new_entries.old new_relations.old new_comparisons.old new_queries.old }
    ensures { (T : Tables) → KeptReads T tables.now reach.now c
        → Leaves (Ok tt) (configured T c Reading.Filled)
        new_entries.old new_relations.old new_comparisons.old new_queries.old result
        new_entries.new new_relations.new new_comparisons.new new_queries.new }
{
    let mut form_sets = [0; Limits::MOST_QUERIES];
    fill_form_sets(c, tables, &mut form_sets);
    write_with(
        c,
        tables,
        reach,
        &form_sets,
        new_entries,
        new_relations,
        new_comparisons,
        new_queries,
    )
}

// The four tables lent for writing are no struct: one that holds a `&mut` needs a clause in each function that it is the same one.
// 20, 21 and the tables at c, of a report that has passed the checks before, from its split tables and its reach rows.
fn configure_judged(
    model: usize,
    c: u64,
    tables: &SplitTables,
    reach: &[u64],
    new_entries: &mut [u16],
    new_relations: &mut [u16],
    new_comparisons: &mut [u16],
    new_queries: &mut [u16],
) -> Configured
    requires { ConfigureReadable model tables.now reach.now }
    ensures { (T : Tables) → ConfigureReads T model tables.now reach.now
        → Leaves (late_verdict T c new_entries.old new_relations.old new_comparisons.old new_queries.old)
        (configured T c Reading.Filled)
        new_entries.old new_relations.old new_comparisons.old new_queries.old result
        new_entries.new new_relations.new new_comparisons.new new_queries.new }
{
    let lent = LentWords {
        entries: new_entries.len(),
        relations: new_relations.len(),
        comparisons: new_comparisons.len(),
        queries: new_queries.len(),
    };
    let permitted = Row::load(tables.expression_rows, model);
    check_late(permitted, c, lent, tables)?;
    write_kept(
        c as usize,
        tables,
        reach,
        new_entries,
        new_relations,
        new_comparisons,
        new_queries,
    )
}

// Writes the tables that the report of these tables, in the reading, becomes at configuration c into the tables lent for it. Refused: they are as they were.
pub fn configure(
    tables: &TableWords,
    reading: Reading,
    c: u64,
    new_entries: &mut [u16],
    new_relations: &mut [u16],
    new_comparisons: &mut [u16],
    new_queries: &mut [u16],
) -> Configured
    ensures { Configures
        (tables_in tables.now) reading c
        new_entries.old new_relations.old new_comparisons.old new_queries.old result
        new_entries.new new_relations.new new_comparisons.new new_queries.new }
{
    let mut expression_rows = [0; EXPRESSION_WORDS];
    let mut reach = [0; REACH_WORDS];
    let mut columns = [0; COLUMN_WORDS];
    check_into_rows(
        tables,
        reading,
        &mut expression_rows,
        &mut reach,
        &mut columns,
    )?;
    let split = split_tables(
        &expression_rows,
        tables.entries,
        tables.relations,
        tables.comparisons,
        tables.queries,
        tables.kinds,
    );
    configure_judged(
        tables.head.model,
        c,
        &split,
        &reach,
        new_entries,
        new_relations,
        new_comparisons,
        new_queries,
    )
}
