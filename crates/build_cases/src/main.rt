// Builds max-trees and prints each answer on a line: the number of nodes or of the cause, then the workspace as the call left it: of a
// short one every word, of a long one how many words it has. Before a call the workspace is lent full of 7.
// All memory is of fixed length, since nothing is allocated.
#![tactic(auto)]

use cases::{printing, table};
use grid::Grid;
use std::io;

fn left(rt: &impl Print, workspace: &[u32]) -> io::Result<()> {
    let words = workspace.len();
    if 350 < words {
        return print!(rt; "\t words {words}");
    }
    printing::part(rt, workspace)
}

// The attribute by its number, as the call takes it.
fn builds(
    rt: &impl Print,
    name: &[u8],
    picture: &[u8],
    grid: Grid,
    attribute: u32,
    workspace: &mut [u32],
) -> io::Result<()> {
    rt.write_all(name)?;
    let built = max_tree::build(picture, grid, attribute, workspace);
    printing::value(rt, built, b"\tnodes ", b"\trefused ")?;
    left(rt, workspace)?;
    print!(rt; "\n")
}

// One line of the table: the name, the picture, the call's numbers, and how many words it is lent.
fn case(rt: &impl Print, line: &[u8]) -> io::Result<()> {
    let mut greys = [0u8; 256];
    let mut workspace = [7u32; 1792];
    builds(
        rt,
        table::field(line, 0),
        table::bytes(rt, line, 1, &mut greys)?,
        Grid {
            width: table::number(line, 2),
            height: table::number(line, 3),
            neighbours: table::number(line, 5),
        },
        table::number(line, 4),
        table::lent(rt, line, 6, &mut workspace)?,
    )
}

// 7 words for each of 4,096 pixels. The second call is lent what the first left.
fn largest(rt: &impl Print) -> io::Result<()> {
    let picture = [0u8; 4096];
    let mut workspace = [7u32; 28672];
    prove!(workspace.len() == 7 * picture.len());
    let square = Grid {
        width: 64,
        height: 64,
        neighbours: 4,
    };
    let row = Grid {
        width: 4096,
        height: 1,
        neighbours: 8,
    };
    builds(
        rt,
        b"4,096 pixels of one grey",
        &picture,
        square,
        1,
        &mut workspace,
    )?;
    builds(rt, b"in a single row", &picture, row, 3, &mut workspace)
}

fn main(rt: HostRuntime) -> io::Result<()> {
    table::run(&rt, |line| case(&rt, line))?;
    largest(&rt)
}
