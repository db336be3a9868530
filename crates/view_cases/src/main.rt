// Views rows of maps and prints each answer on a line: where the row starts, or the number of the cause, and then the part that is handed back.
// All memory is of fixed length, since nothing is allocated.
#![tactic(auto)]

use cases::{printing, table};
use std::io;

// One line of the table: the name, both maps, and the call's numbers.
fn case(rt: &impl Print, line: &[u8]) -> io::Result<()> {
    let mut light_memory = [0u8; 25];
    let mut dark_memory = [0u8; 25];
    let light = table::bytes(rt, line, 1, &mut light_memory)?;
    let dark = table::bytes(rt, line, 2, &mut dark_memory)?;
    let width = table::number(line, 3);
    let height = table::number(line, 4);
    let row = table::number(line, 5);
    let side = table::number(line, 6);
    rt.write_all(table::field(line, 0))?;
    let start = viewer::view_start(light, dark, width, height, row, side);
    printing::value(rt, start, b"\tstart ", b"\trefused ")?;
    printing::part(rt, viewer::view_row(light, dark, width, height, row, side))?;
    print!(rt; "\n")
}

fn main(rt: HostRuntime) -> io::Result<()> {
    table::run(&rt, |line| case(&rt, line))
}
