// A table of cases: a heading, then a line for each case, with tabs between its fields, which are counted from 0. A field is a number, a list
// of numbers with blanks between them, or text with escapes.
ghost use Rattle.std.specs.Prelude.{◌≤◌, ◌≡◌, ◌==◌, [], slice_get, unwrap_or, length, IfOk, IfErr};
ghost use Rattle.std.specs.Iterator.{IsFinite};
ghost use Rattle.std.specs.List.{slice_split};
ghost use Rattle.cases.specs.Counts.{IsPrefixLen};

use crate::escapes::Meant;
use crate::printing;
use std::io;
use std::io::Read;

// Reads until the memory is full or the input ends, and answers how many bytes it put at the start. Each read hops as far as it was given
// bytes, so this is no `for`.
fn read_full(input: &mut impl Read, memory: &mut [u8]) -> io::Result<usize>
    ensures ok { IfOk result (λ n. IsPrefixLen n memory.new) }
    ensures err { IfErr result (λ e. length memory.new ≡ length memory.old) }
{
    let mut done = 0;
    while done < memory.len() {
        let n = input.read(&mut memory[done..])?;
        if n == 0 {
            break;
        }
        done += n;
    }
    Ok(done)
}

// Reads the table, and runs a case for each line after the heading.
pub fn run<F: FnMut(&[u8]) -> io::Result<()>>(
    rt: &(impl Input + Print),
    mut case: F,
) -> io::Result<()>
    requires { F.IsAlwaysCallable case }
{
    let mut memory = [0u8; 65536];
    let count = read_full(&mut rt.reader(), &mut memory)?;
    if memory.len() <= count {
        printing::cut(rt)?;
    }
    let table = &memory[..count];
    for line in table.split_inclusive(|b| *b == b'\n').skip(1) {
        case(line.strip_suffix(b"\n").unwrap_or(line))?;
    }
    Ok(())
}

// The field k, as it stands; nothing where the line has no such field.
pub fn field(line: &[u8], k: usize) -> &[u8]
    ensures { result.now ≡ unwrap_or (slice_get (slice_split (λ b. b == 9) line.now) k) [] }
{
    line.split(|b| *b == b'\t').nth(k).unwrap_or(&[])
}

// A number with one digit more. Where that has over 32 bits, or the byte is no digit, it stays.
fn extended(value: u32, digit: u8) -> u32 {
    match digit {
        b'0'..=b'9' => value
            .checked_mul(10)
            .and_then(|tens| tens.checked_add(u32::from(digit - b'0')))
            .unwrap_or(value),
        _ => value,
    }
}

fn value(digits: &[u8]) -> u32 {
    digits.iter().fold(0, |n, digit| extended(n, *digit))
}

fn low(n: u32) -> u8 {
    (n % 256) as u8
}

// Puts items into memory, as far as they fit, and answers how many there are, which is why it counts them.
fn put<T: Copy, I: Iterator<Item = T> + Drop>(
    rt: &impl Print,
    items: I,
    memory: &mut [T],
) -> io::Result<usize>
    requires can { I.can_next items }
    requires ends { IsFinite (I.remaining items) }
    ensures ok { IfOk result (λ n. IsPrefixLen n memory.new) }
    ensures err { IfErr result (λ e. length memory.new ≡ length memory.old) }
{
    let mut count = 0;
    for item in items {
        if memory.len() <= count {
            printing::cut(rt)?;
            break;
        }
        memory[count] = item;
        count += 1;
    }
    Ok(count)
}

// The field k as a number.
pub fn number(line: &[u8], k: usize) -> u32 {
    value(field(line, k))
}

// As a list of bytes, put into memory.
pub fn bytes<'a>(
    rt: &impl Print,
    line: &[u8],
    k: usize,
    memory: &'a mut [u8],
) -> io::Result<&'a [u8]>
    ensures { IfOk result (λ s. length s.now ≤ length memory.old) }
{
    let numbers = field(line, k).split_inclusive(|b| *b == b' ');
    let count = put(rt, numbers.map(|digits| low(value(digits))), memory)?;
    Ok(&memory[..count])
}

// As a list of words.
pub fn words<'a>(
    rt: &impl Print,
    line: &[u8],
    k: usize,
    memory: &'a mut [u32],
) -> io::Result<&'a [u32]>
    ensures { IfOk result (λ s. length s.now ≤ length memory.old) }
{
    let numbers = field(line, k).split_inclusive(|b| *b == b' ');
    let count = put(rt, numbers.map(value), memory)?;
    Ok(&memory[..count])
}

// As text.
pub fn text<'a>(
    rt: &impl Print,
    line: &[u8],
    k: usize,
    memory: &'a mut [u8],
) -> io::Result<&'a [u8]>
    ensures { IfOk result (λ s. length s.now ≤ length memory.old) }
{
    let text = field(line, k);
    let count = put(rt, Meant { text }, memory)?;
    Ok(&memory[..count])
}

// As many of the first items of some memory as the field k says.
pub fn lent<'a, T>(
    rt: &impl Print,
    line: &[u8],
    k: usize,
    memory: &'a mut [T],
) -> io::Result<&'a mut [T]>
    ensures { IfOk result (λ s. length s.now ≤ length memory.old) }
{
    let count = number(line, k) as usize;
    if memory.len() < count {
        printing::cut(rt)?;
        return Ok(memory);
    }
    Ok(&mut memory[..count])
}
