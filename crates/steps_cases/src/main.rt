// Steps files, good and bad, each parsed, with a line for each: what it tries, then the attribute and the number of steps, or the cause;
// then each entry of the lent steps that parsing stored.
// All memory is of fixed length, since nothing is allocated.
#![tactic(auto)]

use cases::{printing, table};
use causes::Cause;
use std::io;
use steps::Parsed;

// What every entry holds before a file is parsed; no threshold has this value.
const UNTOUCHED: u32 = u32::MAX;

fn answer(rt: &impl Print, parsed: Result<Parsed, Cause>) -> io::Result<()> {
    match parsed {
        Ok(Parsed { attribute, count }) => print!(rt; "\t{attribute}\t{count}"),
        Err(cause) => printing::refused(rt, b"\trefused\t", cause),
    }
}

fn stored(rt: &impl Print, list: &[u32]) -> io::Result<()> {
    for threshold in list.iter().filter(|t| **t != UNTOUCHED) {
        print!(rt; "\t{threshold}")?;
    }
    Ok(())
}

// One line of the table: the name and the file.
fn case(rt: &impl Print, line: &[u8]) -> io::Result<()> {
    let mut memory = [0u8; 4096];
    let mut list = [UNTOUCHED; 256];
    let file = table::text(rt, line, 1, &mut memory)?;
    rt.write_all(table::field(line, 0))?;
    answer(rt, steps::parse(file, &mut list))?;
    stored(rt, &list)?;
    print!(rt; "\n")
}

fn main(rt: HostRuntime) -> io::Result<()> {
    table::run(&rt, |line| case(&rt, line))
}
