// Runs the opening call on the cases of small pictures and on each refusal, and prints a line for each: the answer, and the memory that
// the output and the workspace are lent from. Before each call the output's holds 9s and the workspace's 7s.
// All memory is of fixed length, since nothing is allocated.
#![tactic(auto)]

use cases::{printing, table};
use grid::Grid;
use std::io;

// One line of the table: the name, the picture, the call's numbers, and how many words and entries it is lent.
fn case(rt: &impl Print, line: &[u8]) -> io::Result<()> {
    let mut greys = [0u8; 25];
    let mut workspace = [7u32; 175];
    let mut output = [9u8; 25];
    let picture = table::bytes(rt, line, 1, &mut greys)?;
    let grid = Grid {
        width: table::number(line, 2),
        height: table::number(line, 3),
        neighbours: table::number(line, 5),
    };
    let step = calls::Step::Threshold(table::number(line, 4), table::number(line, 6));
    let answer = openings::open(
        picture,
        grid,
        step,
        table::lent(rt, line, 7, &mut workspace)?,
        table::lent(rt, line, 8, &mut output)?,
    );
    rt.write_all(table::field(line, 0))?;
    printing::verdict(rt, answer, b": done", b": refused ")?;
    print!(rt; ",")?;
    printing::list(rt, &output)?;
    print!(rt; ",")?;
    printing::list(rt, &workspace)?;
    print!(rt; "\n")
}

fn main(rt: HostRuntime) -> io::Result<()> {
    table::run(&rt, |line| case(&rt, line))
}
