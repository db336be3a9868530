// Reads pictures of files and writes into buffers of every kind that the reader and the writer tell apart, and prints each answer on a
// line: what was found or the number of the cause, and the bytes of the raster or of the buffer. Before a call the buffer is lent full of 1.
// All memory is of fixed length, since nothing is allocated.
#![tactic(auto)]

use cases::{printing, table};
use causes::Cause;
use pgm::Picture;
use std::io;

// Every byte in decimal; of a long run only how many there are.
fn bytes(rt: &impl Print, s: &[u8]) -> io::Result<()> {
    let count = s.len();
    if 32 < count {
        return print!(rt; "\t\tbytes\t{count}");
    }
    printing::part(rt, s)
}

fn found(rt: &impl Print, answer: Result<Picture, Cause>) -> io::Result<()> {
    match answer {
        Ok(
            Picture {
                width,
                height,
                maximum,
                start,
            },
        ) => print!(rt; "\t{width}\t{height}\t{maximum}\t{start}"),
        Err(cause) => printing::refused(rt, b"\trefused\t", cause),
    }
}

fn reads(rt: &impl Print, name: &[u8], file: &[u8], number: usize) -> io::Result<()> {
    rt.write_all(name)?;
    found(rt, pgm::read(file, number))?;
    bytes(rt, pgm::raster(file, number))?;
    print!(rt; "\n")
}

fn writes(
    rt: &impl Print,
    name: &[u8],
    picture: &[u8],
    width: u32,
    height: u32,
    maximum: u32,
    buffer: &mut [u8],
) -> io::Result<()> {
    rt.write_all(name)?;
    let written = pgm::write(picture, width, height, maximum, buffer);
    printing::value(rt, written, b"\t", b"\trefused\t")?;
    bytes(rt, buffer)?;
    print!(rt; "\n")
}

// The file and the number of the picture.
fn read_case(rt: &impl Print, line: &[u8]) -> io::Result<()> {
    let mut memory = [0u8; 64];
    reads(
        rt,
        table::field(line, 0),
        table::text(rt, line, 1, &mut memory)?,
        table::number(line, 2) as usize,
    )
}

// The picture, its numbers and how many bytes the call is lent; then what reading the buffer back is named, if it is to be read.
fn write_case(rt: &impl Print, line: &[u8]) -> io::Result<()> {
    let mut greys = [0u8; 3];
    let mut memory = [1u8; 16];
    let buffer = table::lent(rt, line, 7, &mut memory)?;
    writes(
        rt,
        table::field(line, 0),
        table::bytes(rt, line, 3, &mut greys)?,
        table::number(line, 4),
        table::number(line, 5),
        table::number(line, 6),
        buffer,
    )?;
    let again = table::field(line, 8);
    if !again.is_empty() {
        reads(rt, again, buffer, 1)?;
    }
    Ok(())
}

// A line of the table names the file to read, or the picture to write.
fn case(rt: &impl Print, line: &[u8]) -> io::Result<()> {
    if table::field(line, 3).is_empty() {
        read_case(rt, line)
    } else {
        write_case(rt, line)
    }
}

// The buffer has as many bytes as the file of a picture of 65,536 pixels, 15 of them before the raster.
fn largest(rt: &impl Print) -> io::Result<()> {
    let picture = [0u8; 65536];
    let mut buffer = [1u8; 65551];
    prove!(buffer.len() == 15 + picture.len());
    writes(rt, b"widest picture", &picture, 4096, 16, 200, &mut buffer)?;
    reads(rt, b"widest picture read back", &buffer, 1)
}

// Two pictures written end to end into one buffer, and read back by number.
fn sequence(rt: &impl Print) -> io::Result<()> {
    let mut buffer = [1u8; 26];
    let (first, second) = buffer.split_at_mut(14);
    writes(rt, b"first written", b"abc", 3, 1, 255, first)?;
    writes(rt, b"second written", b"AB", 1, 2, 99, second)?;
    reads(rt, b"written, number 1", &buffer, 1)?;
    reads(rt, b"written, number 2", &buffer, 2)?;
    reads(rt, b"written, number 3", &buffer, 3)?;
    reads(rt, b"written, number 0", &buffer, 0)
}

fn main(rt: HostRuntime) -> io::Result<()> {
    table::run(&rt, |line| case(&rt, line))?;
    largest(&rt)?;
    sequence(&rt)
}
