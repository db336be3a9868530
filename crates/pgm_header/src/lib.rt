// The header of a PGM picture, read from a position on in the order of the Netpbm page. In code, definitions and documents the parts are
// numbered as they stand in that page's list: 1. the sign, 2. white, 3. the width, 4. white, 5. the height, 6. white, 7. the maximum, 8. one
// white byte, 9. the raster. The magic is a constant that the reader compares and the writer writes. What the numbers of the header may be is
// judged by the crates above.
#![tactic(auto)]

ghost use Rattle.std.specs.Prelude.{◌≡◌, false, ◌+◌, drop};
ghost use Rattle.pgm_header.specs.Bytes.{move_of, ends_comment};
ghost use Rattle.pgm_header.specs.Header.{starts_with_sign, gap_length, finished_number, number_at, white_at, gap_at, header_at};

pub mod reader;

pub const MAGIC: [u8; MAGIC_LENGTH] = *b"P5";

// How many bytes the magic has.
pub const MAGIC_LENGTH: usize = 2;

// A number has at most this many digits.
const MOST_DIGITS: usize = 7;

// The header reader's next move, by the byte that it stands at.
#[derive(Clone, Copy, PartialEq, Eq)]
pub enum Move {
    White,
    Digit,
    Comment,
    Foreign,
}

#[tactic(auto, unfolding(crate::specs::Bytes::move_of))]
fn sort(b: u8) -> Move
    ensures { result ≡ move_of b }
{
    match b {
        b'\t' | b'\n' | b'\r' | b' ' => Move::White,
        b'0'..=b'9' => Move::Digit,
        b'#' => Move::Comment,
        _ => Move::Foreign,
    }
}

// A number of the header and the position after it.
#[derive(Clone, Copy)]
pub struct Number {
    pub value: u32,
    pub end: usize,
}

// What a header says, and the position after it, where the raster starts.
#[derive(Clone, Copy)]
pub struct Header {
    pub width: u32,
    pub height: u32,
    pub maximum: u32,
    pub start: usize,
}

// 1. "A "magic number" for identifying the file type": whether the file starts with it.
pub fn has_sign(file: &[u8]) -> bool
    ensures answer { result ≡ starts_with_sign file.now }
{
    file.starts_with(&MAGIC)
}

fn ends_comment(b: u8) -> bool
    ensures { result ≡ ends_comment b }
{
    b == b'\n' || b == b'\r'
}

// The position past the white bytes and the comments from `from` on, where digits should start. No `for`: a comment is hopped over, and both
// loops are left by the label with that position.
fn gap_end(file: &[u8], from: usize) -> usize
    ensures { result ≡ from + gap_length false (drop from file.now) }
{
    let mut at = from;
    'gap: loop {
        if file.len() <= at {
            break 'gap at;
        }
        match sort(file[at]) {
            Move::White => at += 1,
            Move::Comment => {
                at += 1;
                loop {
                    if file.len() <= at {
                        break 'gap at;
                    }
                    let b = file[at];
                    at += 1;
                    if ends_comment(b) {
                        break;
                    }
                }
            }
            Move::Digit => break 'gap at,
            Move::Foreign => break 'gap at,
        }
    }
}

// The number that `count` digits before `end` wrote; none where there was no digit.
fn finished(value: u32, count: usize, end: usize) -> Option<Number>
    ensures { result ≡ finished_number value count end }
{
    (count != 0).then_some(Number { value, end })
}

// 3., 5., 7. "formatted as ASCII characters in decimal": the number that stands at `from`. Where it ends and whether it is too long is found here, which
// the other readers of decimals, of steps and of case tables, need not find.
fn number_at(file: &[u8], from: usize) -> Option<Number>
    ensures { result ≡ number_at file.now from }
{
    let mut value = 0;
    let mut count = 0;
    for at in from..file.len() {
        let b = file[at];
        if sort(b) != Move::Digit {
            break;
        }
        if count == MOST_DIGITS {
            return None;
        }
        value = value * 10 + u32::from(b - b'0');
        count += 1;
    }
    finished(value, count, from + count)
}

// Whether a white byte stands at `at`: a gap starts with one, and step 8 is one.
fn white_at(file: &[u8], at: usize) -> bool
    ensures { result ≡ white_at file.now at }
{
    at < file.len() && sort(file[at]) == Move::White
}

// 2., 4., 6. "Whitespace": where the gap that stands at `at` ends.
#[tactic(auto, unfolding(crate::specs::Header::gap_at))]
fn gap_at(file: &[u8], at: usize) -> Option<usize>
    ensures { result ≡ gap_at file.now at }
{
    if white_at(file, at) {
        Some(gap_end(file, at))
    } else {
        None
    }
}

// The header of a picture whose sign ends at `at`: steps 2 to 8 of the Netpbm page, one by one.
#[tactic(auto, unfolding(crate::specs::Header::header_at))]
fn header_at(file: &[u8], at: usize) -> Option<Header>
    ensures { result ≡ header_at file.now at }
{
    // 2. "Whitespace"
    let width_start = gap_at(file, at)?;
    // 3. "A width"
    let width = number_at(file, width_start)?;
    // 4. "Whitespace"
    let height_start = gap_at(file, width.end)?;
    // 5. "A height"
    let height = number_at(file, height_start)?;
    // 6. "Whitespace"
    let maximum_start = gap_at(file, height.end)?;
    // 7. "The maximum gray value"
    let maximum = number_at(file, maximum_start)?;
    // 8. "A single whitespace character"
    if !white_at(file, maximum.end) {
        return None;
    }
    Some(Header {
        width: width.value,
        height: height.value,
        maximum: maximum.value,
        start: maximum.end + 1,
    })
}
