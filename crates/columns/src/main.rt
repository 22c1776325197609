// The columns of the report on standard input, configuration by configuration.
#![tactic(auto)]

use harbour_print::{LONGEST_PRINT, Layout, PrintRoom};
use program::run;

fn main(rt: HostRuntime) {
    let mut out: PrintRoom = [0; LONGEST_PRINT];
    // What failed is told on standard error already.
    let _ = run(
        Layout::Columns,
        b"columns",
        &mut rt.stdin(),
        &mut rt.stdout(),
        &mut rt.stderr(),
        &mut out,
    );
}
