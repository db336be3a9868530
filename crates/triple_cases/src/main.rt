// Calls with triples, and prints each answer on a line, with what it left of the memory that it was lent: the opening where the second field is 1, the
// map where it is 2, of dark floc where it is 3, of light and dark together where it is 4. An opening is by the first three words, and its output is
// lent from the residue map's memory. Before every call the workspace is lent full of 7, the residue map full of 8, the index map full of 9
// and the contrast map full of -5; all four are printed, also what a call is not lent.
// All memory is of fixed length, since nothing is allocated.
#![tactic(auto)]

use calls::{Kind, Step};
use cases::{printing, table};
use causes::Cause;
use grid::{Grid, Triple};
use std::io;

// The call that a case makes.
#[derive(Clone, Copy)]
enum Call {
    Open,
    Map,
    Dark,
    Combined,
}

impl From<u32> for Call {
    fn from(number: u32) -> Call {
        match number {
            1 => Call::Open,
            2 => Call::Map,
            3 => Call::Dark,
            _ => Call::Combined,
        }
    }
}

// With fewer than three words, which no line has, no call is made.
fn opened(
    picture: &[u8],
    grid: Grid,
    words: &[u32],
    workspace: &mut [u32],
    output: &mut [u8],
) -> Result<(), Cause> {
    let [area, height, width, ..] = words else {
        return Ok(());
    };
    let triple = Triple {
        area: *area,
        height: *height,
        width: *width,
    };
    openings::open(picture, grid, Step::Three(triple), workspace, output)
}

// One line of the table: the name, which call, the picture, the call's numbers and the words of its triples, and how many words, bytes and entries it is
// lent.
fn case(rt: &impl Print, line: &[u8]) -> io::Result<()> {
    let mut greys = [0u8; 25];
    let mut triple_memory = [0u32; 771];
    let mut workspace_memory = [7u32; 175];
    let mut residue_memory = [8u8; 25];
    let mut index_memory = [9u16; 25];
    let mut contrast_memory = [-5i16; 25];
    let picture = table::bytes(rt, line, 2, &mut greys)?;
    let grid = Grid {
        width: table::number(line, 3),
        height: table::number(line, 4),
        neighbours: table::number(line, 5),
    };
    let kind = Kind::Triples;
    let words = table::words(rt, line, 6, &mut triple_memory)?;
    let gap = table::number(line, 7);
    let workspace = table::lent(rt, line, 8, &mut workspace_memory)?;
    let residue = table::lent(rt, line, 9, &mut residue_memory)?;
    let index = table::lent(rt, line, 10, &mut index_memory)?;
    let contrast = table::lent(rt, line, 11, &mut contrast_memory)?;
    let answer = match Call::from(table::number(line, 1)) {
        Call::Open => opened(picture, grid, words, workspace, residue),
        Call::Map => residues::map(picture, grid, kind, words, gap, workspace, residue, index),
        Call::Dark => dark::dark_map(picture, grid, kind, words, gap, workspace, residue, index),
        Call::Combined => dark::combined_map(
            picture, grid, kind, words, gap, workspace, residue, index, contrast,
        ),
    };
    rt.write_all(table::field(line, 0))?;
    printing::maps(rt, answer, residue, index)?;
    printing::part(rt, contrast)?;
    printing::part(rt, workspace)?;
    print!(rt; "\n")
}

fn main(rt: HostRuntime) -> io::Result<()> {
    table::run(&rt, |line| case(&rt, line))
}
