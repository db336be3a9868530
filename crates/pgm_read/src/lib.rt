// Reads binary PGM (P5) over lent memory: one picture of a file that holds one or more, end to end. Every call answers on every input.
#![tactic(auto)]

ghost use Rattle.std.specs.Prelude.{◌≡◌, true, ◌*◌, ◌-◌, ◌≤◌, leb, length};
ghost use Rattle.causes.specs.Sides.{sides_fit};
ghost use Rattle.pgm_header.specs.Header.{header_at};
ghost use Rattle.pgm_read.specs.Read.{judged, picture_at, read_answer, found_in, found_there, found_numbers, raster_span, raster_part, raster_of};

use causes::Cause;
use pgm_header::reader::Reader;
use pgm_header::{Header, reader};
use std::ops::Range;

// The number of a file's first picture.
const FIRST: usize = 1;

// What a picture's header says, once it is judged right, and the position in the file where its raster starts.
#[derive(Clone, Copy)]
pub struct Picture {
    pub width: u32,
    pub height: u32,
    pub maximum: u32,
    pub start: usize,
}

impl Picture {
    // How many pixels it has.
    fn pixels(self) -> usize
        requires { sides_fit self.width self.height ≡ true }
        ensures { result ≡ self.width * self.height }
    {
        pgm_values::pixels(self.width, self.height)
    }
}

// A picture, and the position where it starts itself.
#[derive(Clone, Copy)]
struct Located {
    at: usize,
    picture: Picture,
}

// Whether n bytes, of which there is one at least, follow `start`.
fn follow(file: &[u8], start: usize, n: usize) -> bool
    requires { 1 ≤ n }
    ensures { result ≡ leb n (length file.now - start) }
{
    start <= file.len() && n <= file.len() - start
}

// A header that was read, judged: the maximum, the sides, the number of raster bytes, the samples, in the order 10, 1, 11, 12.
#[tactic(auto, unfolding(crate::specs::Read::judged))]
fn judge(file: &[u8], found: Option<Header>) -> Result<Picture, Cause>
    ensures { result ≡ judged file.now found }
{
    let Header {
        width,
        height,
        maximum,
        start,
    } = found.ok_or(Cause::Header)?;
    if !pgm_values::allowed(maximum) {
        return Err(Cause::Maximum);
    }
    if !causes::fit(width, height) {
        return Err(Cause::Sides);
    }
    // 9. the raster
    let n = pgm_values::pixels(width, height);
    if !follow(file, start, n) {
        return Err(Cause::RasterLength);
    }
    if !pgm_values::within(&file[start..start + n], maximum) {
        return Err(Cause::Sample);
    }
    Ok(Picture {
        width,
        height,
        maximum,
        start,
    })
}

// The picture that starts at a position, read in the order of the Netpbm page, or the first cause that applies, in the order 8, 9, 10, 1,
// 11, 12.
#[tactic(auto, unfolding(crate::specs::Read::picture_at))]
fn picture_at(file: &[u8], at: usize) -> Result<Picture, Cause>
    requires { at ≤ length file.now }
    ensures { result ≡ picture_at file.now at }
{
    // 1. the sign
    if !pgm_header::has_sign(&file[at..]) {
        return Err(Cause::Sign);
    }
    // 2. to 8. white, width, white, height, white, maximum, one white byte; then 9., in `judge`
    judge(file, reader::header_of(file, at + pgm_header::MAGIC_LENGTH))
}

// The picture of a number. Every picture of the file is judged, one after the other, and the one that has the number is held. The
// number is counted down, so that no count can overflow. No `for`: where the next picture starts, the one before says.
fn pick(file: &[u8], number: usize) -> Result<Located, Cause>
    ensures result_value { found_in result ≡ read_answer file.now number }
    ensures result_value_2 { found_there file.now result ≡ read_answer file.now number }
{
    let mut at = 0;
    let mut left = number;
    let mut held = Err(Cause::PictureNumber);
    loop {
        let picture = picture_at(file, at)?;
        if left == FIRST {
            held = Ok(Located { at, picture });
        }
        left = left.saturating_sub(1);
        at = picture.start + picture.pixels();
        if file.len() <= at {
            return held;
        }
    }
}

// Reads the picture of a number, from 1 up, of a file. The first faulty picture of the file gives the cause, in the order 8, 9, 10, 1,
// 11, 12; then a number that no picture has, 18.
pub fn read(file: &[u8], number: usize) -> Result<Picture, Cause>
    ensures answer { found_numbers result ≡ found_numbers (read_answer file.now number) }
{
    pick(file, number).map(|located| located.picture)
}

// Where a header that was read says that the raster lies: no byte of it where the picture is refused.
fn raster_span(file: &[u8], found: Option<Header>) -> Range<usize>
    ensures { result ≡ raster_span (judged file.now found) }
{
    match judge(file, found) {
        Ok(picture) => picture.start..picture.start + picture.pixels(),
        Err(_) => 0..0,
    }
}

// The raster of the picture whose sign ends at a position. One reader goes from the header to the raster.
fn raster_after_sign(file: &[u8], at: usize) -> &[u8]
    ensures { result.now ≡ raster_part file.now (judged file.now (header_at file.now at)) }
{
    let reader = Reader::new(file, at);
    let span = raster_span(file, reader.header());
    reader.moved(span.start).taken(span.end - span.start)
}

// The raster of the picture of a number as a part of the file, uncopied; empty where the call is refused.
pub fn raster(file: &[u8], number: usize) -> &[u8]
    ensures raster { result.now ≡ raster_of file.now number }
{
    match pick(file, number) {
        Ok(located) => raster_after_sign(file, located.at + pgm_header::MAGIC_LENGTH),
        Err(_) => &file[..0],
    }
}
