// What configuring keeps of lists and relations at one configuration, written into lent tables. Each writer returns the position after what it wrote,
// which its promise names, as those of `writing` do.
#![tactic(auto)]

ghost use Rattle.std.specs.Prelude.{◌≡◌, ℕ, ◌+◌};
ghost use Rattle.sets.specs.Bits.{bit};
ghost use Rattle.sets.specs.Writing.{WrittenAt};
ghost use Rattle.report.specs.Tables.{Tables};
ghost use Rattle.report.specs.Configuring.{all_stay, kept_length, kept_list, new_relation};
ghost use Rattle.at_configuration.specs.AtConfiguration.{ListReads, ListReadable, PresentReads, PresentReadable, RelationReads};
ghost use Rattle.kept_lists.specs.Keeping.{relation_lists, project_lists, relation_forms, KeptListWritable, KeptRelationWritable};
ghost use Rattle.kept_lists.specs.Keeping.{ProjectReads, ProjectWritable};
ghost use Rattle.kept_lists.specs.Blocks.{pair_if, list_if, WordPairWritable, ListIfWritable};

use at_configuration::{entry_holds, holds_at, is_present, joined_at};
use decoders::{decode_query, entry_attribute, project_length, relation_length};
use expression_rows::SplitTables;
use sets::AttributeSet;

// How many of the `count` entries from `start` on are kept at c, where all attributes stay: as many as their joined set has attributes.
fn kept_length(
    c: usize,
    start: usize,
    count: usize,
    expression_rows: &[u64],
    entries: &[u16],
) -> usize
    requires { ListReadable expression_rows.now entries.now c start count }
    ensures { (T : Tables) (offset : ℕ) → ListReads T offset expression_rows.now entries.now c start count
        → result ≡ kept_length T c all_stay (offset + start) count }
{
    joined_at(c, start, count, expression_rows, entries).count()
}

// Writes x and y, if they are kept.
fn write_pair(keep: bool, x: usize, y: usize, out: &mut [u16], at: usize) -> usize
    requires { WordPairWritable keep x y out.old at }
    ensures { WrittenAt (pair_if keep x y) out.old at out.new result }
{
    if keep {
        out[at] = x as u16;
        out[at + 1] = y as u16;
        return at + 2;
    }
    at
}

// Writes of the `count` entries from `start` on each attribute's first that holds at c, its expression made 0, if the attribute stays. `kept` has
// the attributes of the entries that hold, so that of each a later one is no first.
fn write_list(
    c: usize,
    start: usize,
    count: usize,
    stays: AttributeSet,
    expression_rows: &[u64],
    entries: &[u16],
    out: &mut [u16],
    at: usize,
) -> usize
    requires { KeptListWritable expression_rows.now entries.now c start count stays.bits out.old at }
    ensures { (T : Tables) (offset : ℕ) → ListReads T offset expression_rows.now entries.now c start count
        → WrittenAt (kept_list T c (bit stays.bits) (offset + start) count) out.old at out.new result }
{
    let mut kept = AttributeSet::empty();
    let mut p = at;
    for i in 0..count {
        let a = entry_attribute(entries, start + i);
        let holds = entry_holds(c, start, i, expression_rows, entries);
        let first = holds & !kept.has(a);
        let stay = stays.has(a);
        p = write_pair(stay & first, a, 0, out, p);
        kept = kept.with_if(a, holds);
    }
    p
}

// Writes that list, if it is kept.
fn write_list_if(
    keep: bool,
    c: usize,
    start: usize,
    count: usize,
    stays: AttributeSet,
    expression_rows: &[u64],
    entries: &[u16],
    out: &mut [u16],
    at: usize,
) -> usize
    requires { ListIfWritable keep expression_rows.now entries.now c start count stays.bits out.old at }
    ensures { (T : Tables) (offset : ℕ) → ListReads T offset expression_rows.now entries.now c start count
        → WrittenAt (list_if keep T c (bit stays.bits) (offset + start) count) out.old at out.new result }
{
    if keep {
        return write_list(c, start, count, stays, expression_rows, entries, out, at);
    }
    at
}

// The new number of relation r: how many below it are present at c.
pub fn new_relation(c: usize, r: usize, expression_rows: &[u64], relations: &[u16]) -> usize
    requires { PresentReadable expression_rows.now relations.now c r }
    ensures { (T : Tables) → PresentReads T expression_rows.now relations.now c → result ≡ new_relation T c r }
{
    let mut kept = 0;
    for i in 0..r {
        kept += usize::from(is_present(c, i, expression_rows, relations));
    }
    kept
}

// Writes the lists of the relations that are present at c. All attributes of a relation stay.
pub fn write_relation_lists(c: usize, tables: &SplitTables, out: &mut [u16]) -> usize
    requires { KeptRelationWritable relation_lists tables.now.expression_rows.now tables.now.relation_entries.now
        tables.now.relations.now c out.old 0 }
    ensures { (T : Tables)
        → RelationReads T tables.now.expression_rows.now tables.now.relation_entries.now tables.now.relations.now c
        → WrittenAt (relation_lists T c) out.old 0 out.new result }
{
    let all = AttributeSet::all();
    let count = tables.relations.len() / 2;
    let mut start = 0;
    let mut p = 0;
    for r in 0..count {
        let n = relation_length(tables.relations, r);
        let present = is_present(c, r, tables.expression_rows, tables.relations);
        p = write_list_if(
            present,
            c,
            start,
            n,
            all,
            tables.expression_rows,
            tables.relation_entries,
            out,
            p,
        );
        start += n;
    }
    p
}

// Writes the relations that are present at c: expression 0, and how many of its entries are kept.
pub fn write_relation_forms(c: usize, tables: &SplitTables, out: &mut [u16]) -> usize
    requires { KeptRelationWritable relation_forms tables.now.expression_rows.now tables.now.relation_entries.now
        tables.now.relations.now c out.old 0 }
    ensures { (T : Tables)
        → RelationReads T tables.now.expression_rows.now tables.now.relation_entries.now tables.now.relations.now c
        → WrittenAt (relation_forms T c) out.old 0 out.new result }
{
    let count = tables.relations.len() / 2;
    let mut start = 0;
    let mut p = 0;
    for r in 0..count {
        let n = relation_length(tables.relations, r);
        let present = is_present(c, r, tables.expression_rows, tables.relations);
        let kept = kept_length(c, start, n, tables.expression_rows, tables.relation_entries);
        p = write_pair(present, 0, kept, out, p);
        start += n;
    }
    p
}

// Writes the lists of the project forms that c reaches; `form_sets` has the sets of the forms. Of a project's list those attributes stay that are in
// its own set: of what it lists at c they are what its operand has. Another form has no entries, so its list is written as none.
pub fn write_project_lists(
    c: usize,
    tables: &SplitTables,
    reach: &[u64],
    form_sets: &[u64],
    out: &mut [u16],
    at: usize,
) -> usize
    requires { ProjectWritable tables.now.expression_rows.now reach.now form_sets.now tables.now.project_entries.now
        tables.now.queries.now c out.old at }
    ensures { (T : Tables)
        → ProjectReads T tables.now.expression_rows.now reach.now form_sets.now tables.now.project_entries.now
        tables.now.queries.now c
        → WrittenAt (project_lists T c) out.old at out.new result }
{
    let count = tables.queries.len() / 4;
    let mut start = 0;
    let mut p = at;
    for q in 0..count {
        let x = decode_query(tables.queries, q);
        let n = project_length(x);
        let reached = holds_at(reach, q, c);
        let stays = AttributeSet::of_bits(form_sets[q]);
        p = write_list_if(
            reached,
            c,
            start,
            n,
            stays,
            tables.expression_rows,
            tables.project_entries,
            out,
            p,
        );
        start += n;
    }
    p
}
