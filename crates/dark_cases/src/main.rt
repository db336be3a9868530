// Maps pictures and prints each answer on a line, as map_cases does: of dark floc where the second field is 1, of light and dark together where it is 2.
// Before every call the workspace is lent full of 7, the residue map full of 8, the index map full of 9 and the contrast map full of -5. What a dark
// call is not lent, the contrast map, is printed too.
// All memory is of fixed length, since nothing is allocated.
#![tactic(auto)]

use calls::Kind;
use cases::{printing, table};
use grid::Grid;
use std::io;

// The call that a case makes.
#[derive(Clone, Copy)]
enum Call {
    Dark,
    Combined,
}

impl From<u32> for Call {
    fn from(number: u32) -> Call {
        match number {
            1 => Call::Dark,
            _ => Call::Combined,
        }
    }
}

// One line of the table: the name, which call, the picture, the call's numbers and steps, and how many words, bytes and entries it is lent.
fn case(rt: &impl Print, line: &[u8]) -> io::Result<()> {
    let mut greys = [0u8; 25];
    let mut thresholds = [0u32; 257];
    let mut workspace_memory = [7u32; 175];
    let mut residue_memory = [8u8; 25];
    let mut index_memory = [9u16; 25];
    let mut contrast_memory = [-5i16; 25];
    let picture = table::bytes(rt, line, 2, &mut greys)?;
    let grid = Grid {
        width: table::number(line, 3),
        height: table::number(line, 4),
        neighbours: table::number(line, 6),
    };
    let kind = Kind::Thresholds(table::number(line, 5));
    let steps = table::words(rt, line, 7, &mut thresholds)?;
    let gap = table::number(line, 8);
    let workspace = table::lent(rt, line, 9, &mut workspace_memory)?;
    let residue = table::lent(rt, line, 10, &mut residue_memory)?;
    let index = table::lent(rt, line, 11, &mut index_memory)?;
    let contrast = table::lent(rt, line, 12, &mut contrast_memory)?;
    let answer = match Call::from(table::number(line, 1)) {
        Call::Dark => dark::dark_map(picture, grid, kind, steps, gap, workspace, residue, index),
        Call::Combined => dark::combined_map(
            picture, grid, kind, steps, gap, workspace, residue, index, contrast,
        ),
    };
    rt.write_all(table::field(line, 0))?;
    printing::maps(rt, answer, residue, index)?;
    printing::part(rt, contrast)?;
    printing::part(rt, workspace)?;
    print!(rt; "\n")
}

fn main(rt: HostRuntime) -> io::Result<()> {
    table::run(&rt, |line| case(&rt, line))
}
