// Maps pictures and prints each answer on a line: done, or the number of the cause, then the residue map, the index map and the workspace
// as the call left them. Before every call the workspace is lent full of 7, the residue map full of 8 and the index map full of 9.
// All memory is of fixed length, since nothing is allocated.
#![tactic(auto)]

use calls::Kind;
use cases::{printing, table};
use grid::Grid;
use std::io;

// One line of the table: the name, the picture, the call's numbers and steps, and how many words, bytes and entries it is lent.
fn case(rt: &impl Print, line: &[u8]) -> io::Result<()> {
    let mut greys = [0u8; 25];
    let mut thresholds = [0u32; 257];
    let mut workspace_memory = [7u32; 175];
    let mut residue_memory = [8u8; 25];
    let mut index_memory = [9u16; 25];
    let picture = table::bytes(rt, line, 1, &mut greys)?;
    let grid = Grid {
        width: table::number(line, 2),
        height: table::number(line, 3),
        neighbours: table::number(line, 5),
    };
    let kind = Kind::Thresholds(table::number(line, 4));
    let steps = table::words(rt, line, 6, &mut thresholds)?;
    let gap = table::number(line, 7);
    let workspace = table::lent(rt, line, 8, &mut workspace_memory)?;
    let residue = table::lent(rt, line, 9, &mut residue_memory)?;
    let index = table::lent(rt, line, 10, &mut index_memory)?;
    let answer = residues::map(picture, grid, kind, steps, gap, workspace, residue, index);
    rt.write_all(table::field(line, 0))?;
    printing::maps(rt, answer, residue, index)?;
    printing::part(rt, workspace)?;
    print!(rt; "\n")
}

fn main(rt: HostRuntime) -> io::Result<()> {
    table::run(&rt, |line| case(&rt, line))
}
