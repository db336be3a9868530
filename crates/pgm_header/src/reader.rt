// A reader: it keeps the file's bytes and its own position together. It is opened at each picture of the file in turn, right after the
// sign, and its header is read from its position on. One reader goes from header to raster: it is handed on at the position after the
// header, from where the raster is taken. Each method takes it apart and leaves the work to a function on the slice and the number;
// `header_of`, and `raster_after_sign` of the crate pgm_read, have plain parameters and are for every other caller.
ghost use Rattle.std.specs.Prelude.{◌≡◌, ◌+◌, ◌≤◌, length, take, drop};
ghost use Rattle.pgm_header.specs.Header.{header_at};

use crate::Header;

#[derive(Clone, Copy)]
pub struct Reader<'a> {
    pub file: &'a [u8],
    pub at: usize,
}

impl<'a> Reader<'a> {
    // A reader of a file that stands at a position.
    pub fn new(file: &'a [u8], at: usize) -> Self
        ensures reader { (result.file ≡ file.entry) × (result.at ≡ at) }
    {
        Reader { file, at }
    }

    // The header from the reader's position on.
    pub fn header(self) -> Option<Header>
        ensures header { result ≡ header_at self.entry.file.now self.entry.at }
    {
        crate::header_at(self.file, self.at)
    }

    // The same reader, handed on at another position of its file.
    pub fn moved(self, at: usize) -> Self
        ensures reader { (result.file ≡ self.entry.file) × (result.at ≡ at) }
    {
        Reader { at, ..self }
    }

    // The same from the reader's position on: the raster, once the reader stands there.
    pub fn taken(self, n: usize) -> &'a [u8]
        requires { self.at + n ≤ length self.file.now }
        ensures bytes { result.now ≡ take n (drop self.entry.at self.entry.file.now) }
    {
        bytes_at(self.file, self.at, n)
    }
}

// The n bytes from a position on, as a part of the file.
fn bytes_at(file: &[u8], at: usize, n: usize) -> &[u8]
    requires { at + n ≤ length file.now }
    ensures bytes { result.now ≡ take n (drop at file.now) }
{
    let end = at + n;
    &file[at..end]
}

// The header from a position on.
pub fn header_of(file: &[u8], at: usize) -> Option<Header>
    ensures header { result ≡ header_at file.now at }
{
    Reader::new(file, at).header()
}
