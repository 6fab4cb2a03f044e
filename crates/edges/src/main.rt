// The edges of document 01's log, its reader, the line and the sheet, run. What they must give is written out in tools/expected-edges.
#![tactic(auto)]

mod answered;
mod example;
mod lines;
mod logs;

use std::io;

fn main(rt: HostRuntime) -> io::Result<()> {
    logs::show_cases(&rt)?;
    logs::show_lengths(&rt)?;
    logs::show_longest(&rt, 1)?;
    logs::show_longest(&rt, 2)?;
    lines::show_lines(&rt)?;
    lines::show_sheet(&rt)
}
