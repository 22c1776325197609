// Checks 20 and 21, which a call runs after typing: the configuration that is asked for, and the room for what is written.
#![tactic(auto)]

ghost use Rattle.std.specs.Prelude.{◌≡◌, ◌&&◌, ◌++◌, ltb};
ghost use Rattle.sets.specs.Rows.{row_bit};
ghost use Rattle.report.specs.Tables.{Tables};
ghost use Rattle.report.specs.Verdicts.{first_of};
ghost use Rattle.report.specs.Calls.{permitted_condition, room_conditions};
ghost use Rattle.late_checks.specs.LateReads.{SourceReads, LateReads, LateReadable};

use expression_rows::SplitTables;
use report::{Refusal, Verdict};
use sets::Row;
use verdicts::refuse_if;

// Configuration c is in the row. Any number may be asked for, so it is compared before it is narrowed.
fn is_permitted(permitted: Row, c: u64) -> bool
    ensures { result ≡ (ltb c 1024 && row_bit permitted.words c) }
{
    c < 1024 && permitted.has(c as usize)
}

// How many words each of the tables lent for writing has.
// Not `FormCounts` of configuring, which counts forms: one name for both units would say less.
#[derive(Clone, Copy)]
pub struct LentWords {
    pub entries: usize,
    pub relations: usize,
    pub comparisons: usize,
    pub queries: usize,
}

// Check 21: each table lent for writing has as many words as its source, table 1 as many as its two parts.
fn check_room(lent: LentWords, tables: &SplitTables) -> Verdict
    ensures { (T : Tables) → SourceReads T (tables.now.relation_entries.now ++ tables.now.project_entries.now) tables.now.relations.now
        tables.now.comparisons.now tables.now.queries.now
        → result ≡ first_of (room_conditions lent.entries lent.relations lent.comparisons lent.queries T) }
{
    let entries = tables.relation_entries.len() + tables.project_entries.len();
    refuse_if(lent.entries < entries, 21, 1)?;
    refuse_if(lent.relations < tables.relations.len(), 21, 2)?;
    refuse_if(lent.comparisons < tables.comparisons.len(), 21, 3)?;
    refuse_if(lent.queries < tables.queries.len(), 21, 4)
}

// Checks 20 and 21, where these configurations are permitted.
pub fn check_late(permitted: Row, c: u64, lent: LentWords, tables: &SplitTables) -> Verdict
    requires { LateReadable permitted.words (tables.now.relation_entries.now ++ tables.now.project_entries.now) tables.now.relations.now
        tables.now.comparisons.now tables.now.queries.now }
    ensures { (T : Tables)
        → LateReads T permitted.words (tables.now.relation_entries.now ++ tables.now.project_entries.now) tables.now.relations.now
        tables.now.comparisons.now tables.now.queries.now
        → result ≡ first_of (permitted_condition c T ++ room_conditions lent.entries lent.relations lent.comparisons lent.queries T) }
{
    if !is_permitted(permitted, c) {
        return Err(Refusal {
            number: 20,
            place: 0,
            item: 0,
            configuration: c,
        });
    }
    check_room(lent, tables)
}
