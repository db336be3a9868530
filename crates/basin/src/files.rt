// A file's bytes, up to the length of a buffer. No contract can say what is read.
ghost use Rattle.std.specs.Prelude.{length};
ghost use Rattle.basin.specs.Loads.{loaded_within};

use std::fs;
use std::io::Read;
use std::rt::Files;

// Reads until the buffer is full or the file ends, and answers how many bytes there are. A read that fails is told from the end of the file,
// and answers none; `read_full` of crate cases hands its error on.
fn read_on(file: &mut impl Read, buffer: &mut [u8]) -> Option<usize>
    ensures { loaded_within result (length buffer.new) }
{
    let mut done = 0;
    // A `while`, since a turn goes on by as many bytes as a read returned.
    while done < buffer.len() {
        let n = file.read(&mut buffer[done..]).ok()?;
        if n == 0 {
            break;
        }
        done += n;
    }
    Some(done)
}

// How many bytes a file has, none where it was not opened or read.
pub fn load(rt: &impl Files, path: &str, buffer: &mut [u8]) -> Option<usize>
    ensures { loaded_within result (length buffer.new) }
{
    let mut file = fs::open(rt, path).ok()?;
    read_on(&mut file, buffer)
}
