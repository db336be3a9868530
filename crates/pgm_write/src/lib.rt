// Writes binary PGM (P5) over lent memory. Every call answers on every input, and a refusal writes nothing.
#![tactic(auto)]

ghost use Rattle.std.specs.Prelude.{◌≡◌, true, ◌∷◌, ◌+◌, ◌*◌, ◌^◌, ◌≤◌, ◌<◌, length};
ghost use Rattle.std.proofs.lemmas.List.Edits.{sets};
ghost use Rattle.causes.specs.Sides.{sides_fit};
ghost use Rattle.pgm_values.specs.Values.{maximum_fits};
ghost use Rattle.pgm_header.specs.Header.{most_digits};
ghost use Rattle.pgm_write.specs.Write.{digits_of, pgm_file, write_answer, written_numbers, buffer_after};

mod digits;
mod samples;

use causes::Cause;

// Stores one byte and the digits of x from `at` on, and answers the position after them.
fn put_field(buffer: &mut [u8], at: usize, lead: u8, x: u32) -> usize
    requires number { x < 10 ^ most_digits }
    requires room { at + length (lead ∷ digits_of x) ≤ length buffer.old }
    ensures next { result ≡ at + length (lead ∷ digits_of x) }
    ensures buffer { buffer.new ≡ sets buffer.old at (lead ∷ digits_of x) }
{
    buffer[at] = lead;
    digits::put_number(buffer, at + 1, x)
}

// Stores the whole file. The numbers are no struct, since each clause would name them longer: `pgm_file` takes them one by one.
fn put_file(picture: &[u8], width: u32, height: u32, maximum: u32, buffer: &mut [u8])
    requires sides { sides_fit width height ≡ true }
    requires maximum { maximum_fits maximum ≡ true }
    requires room { length (pgm_file picture.now width height maximum) ≤ length buffer.old }
    ensures buffer { buffer.new ≡ sets buffer.old 0 (pgm_file picture.now width height maximum) }
{
    buffer[..pgm_header::MAGIC_LENGTH].copy_from_slice(&pgm_header::MAGIC);
    let a = put_field(buffer, pgm_header::MAGIC_LENGTH, b'\n', width);
    let b = put_field(buffer, a, b' ', height);
    let c = put_field(buffer, b, b'\n', maximum);
    buffer[c] = b'\n';
    samples::put_samples(buffer, c + 1, picture);
}

// The number of bytes of a picture's file: six beside the digits and the samples, for the magic and what ends each field.
fn file_length(picture: &[u8], width: u32, height: u32, maximum: u32) -> usize
    requires sides { sides_fit width height ≡ true }
    requires maximum { maximum_fits maximum ≡ true }
    requires pixels { length picture.now ≡ width * height }
    ensures { result ≡ length (pgm_file picture.now width height maximum) }
{
    let fields = digits::digit_total(width)
        + digits::digit_total(height)
        + digits::digit_total(maximum);
    fields + 6 + picture.len()
}

// The number of bytes of a picture's file that fits into `room` bytes, or the first cause that applies, in the order 1, 2, 10, 12, 7.
#[tactic(auto, unfolding(crate::specs::Write::write_answer))]
fn writable(
    picture: &[u8],
    width: u32,
    height: u32,
    maximum: u32,
    room: usize,
) -> Result<usize, Cause>
    ensures { result ≡ write_answer picture.now width height maximum room }
{
    if !causes::fit(width, height) {
        return Err(Cause::Sides);
    }
    if picture.len() != pgm_values::pixels(width, height) {
        return Err(Cause::PictureLength);
    }
    if !pgm_values::allowed(maximum) {
        return Err(Cause::Maximum);
    }
    if !pgm_values::within(picture, maximum) {
        return Err(Cause::Sample);
    }
    let needed = file_length(picture, width, height, maximum);
    if room < needed {
        return Err(Cause::Buffer);
    }
    Ok(needed)
}

// Writes a picture's file into the buffer, and answers the number of its bytes; those after them stay as they were. A refusal writes
// nothing.
pub fn write(
    picture: &[u8],
    width: u32,
    height: u32,
    maximum: u32,
    buffer: &mut [u8],
) -> Result<usize, Cause>
    ensures answer { written_numbers result ≡ written_numbers (write_answer picture.now width height maximum (length buffer.old)) }
    ensures buffer { buffer.new ≡ buffer_after picture.now width height maximum buffer.old }
{
    let needed = writable(picture, width, height, maximum, buffer.len())?;
    put_file(picture, width, height, maximum, buffer);
    Ok(needed)
}
