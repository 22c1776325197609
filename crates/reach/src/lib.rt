// Which configurations reach each query form.
#![tactic(auto)]

ghost use Rattle.std.specs.Prelude.{◌≡◌, ◌+◌, ◌*◌, ◌≤◌, length, eqb};
ghost use Rattle.report.specs.Tables.{Tables};
ghost use Rattle.reach.specs.Reach.{joined, reach_rows, ReachReads, ReachReadable, WalkReady, Walked};

use decoders::{decode_query, query_operands};
use expression_rows::SplitTables;
use report::Operands;
use sets::Row;

// Joins `reached` into row `form` of out.
fn join_row(form: usize, reached: Row, out: &mut [u64])
    requires { form * 16 + 16 ≤ length out.old }
    ensures { out.new ≡ joined out.old reached.words (λ c x. eqb x form) }
{
    Row::load(out, form).join(reached).store(out, form);
}

// Joins `reached` into row `form` of out, and into the rows of the forms below it the configurations that it passes on to them: a choice those
// of its expression to its first alternative and the others to its second, any other form all to each operand. Operands are lower, so the
// form number falls at each call.
fn walk(form: usize, reached: Row, tables: &SplitTables, out: &mut [u64])
    requires { WalkReady tables.now.queries.now tables.now.expression_rows.now reached.words out.old form }
    ensures { Walked tables.now.queries.now tables.now.expression_rows.now form reached.words out.old out.new }
{
    join_row(form, reached, out);
    match query_operands(decode_query(tables.queries, form)) {
        Operands::Nothing => {}
        Operands::One(b) => walk(b, reached, tables, out),
        Operands::Both(a, b) => {
            walk(a, reached, tables, out);
            walk(b, reached, tables, out);
        }
        Operands::Choice(e, b, d) => {
            let holds = Row::load(tables.expression_rows, e);
            let chosen = reached.intersect(holds);
            let others = reached.minus(holds);
            walk(b, chosen, tables, out);
            walk(d, others, tables, out);
        }
    }
}

// Fills `out`, whose words are all 0, with the reach rows, by the walk from the report with the permitted configurations.
pub fn fill_reach(permitted: Row, tables: &SplitTables, out: &mut [u64])
    requires { ReachReadable tables.now.queries.now tables.now.expression_rows.now permitted.words out.old }
    ensures { (T : Tables) → ReachReads T tables.now.queries.now tables.now.expression_rows.now permitted.words
        → out.new ≡ reach_rows T (length out.old) }
{
    walk(tables.queries.len() / 4 - 1, permitted, tables, out);
}
