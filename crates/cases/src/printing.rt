// Answers and lent memory, on standard output. A write that fails ends each of these with its error.
use causes::Cause;
use std::fmt::Display;
use std::io;

// Some of a case does not fit the memory that the program has for it. No stored output has this word, so such a case cannot pass.
pub(crate) fn cut(rt: &impl Print) -> io::Result<()> {
    print!(rt; "(cut)")
}

// Each number in decimal, after a blank.
pub fn list<T: Display>(rt: &impl Print, numbers: &[T]) -> io::Result<()> {
    for n in numbers {
        print!(rt; " {n}")?;
    }
    Ok(())
}

// The same, after a tab.
pub fn part<T: Display>(rt: &impl Print, numbers: &[T]) -> io::Result<()> {
    print!(rt; "\t")?;
    list(rt, numbers)
}

// The number of a cause after its label.
pub fn refused(rt: &impl Print, label: &[u8], cause: Cause) -> io::Result<()> {
    let number = u32::from(cause);
    rt.write_all(label)?;
    print!(rt; "{number}")
}

// What a call answered, by the words for a call that was done and for one that was refused.
pub fn verdict(
    rt: &impl Print,
    answer: Result<(), Cause>,
    done: &[u8],
    label: &[u8],
) -> io::Result<()> {
    match answer {
        Ok(()) => rt.write_all(done),
        Err(cause) => refused(rt, label, cause),
    }
}

// What a call with a value answered: the value after its label, or the number of the cause after its own.
pub fn value<T: Display + Copy>(
    rt: &impl Print,
    answer: Result<T, Cause>,
    label: &[u8],
    refusal: &[u8],
) -> io::Result<()> {
    match answer {
        Ok(value) => {
            rt.write_all(label)?;
            print!(rt; "{value}")
        }
        Err(cause) => refused(rt, refusal, cause),
    }
}

// What a call that maps answered, and what it left of both maps.
pub fn maps(
    rt: &impl Print,
    answer: Result<(), Cause>,
    residue: &[u8],
    index: &[u16],
) -> io::Result<()> {
    verdict(rt, answer, b"\tdone", b"\trefused ")?;
    part(rt, residue)?;
    part(rt, index)
}
