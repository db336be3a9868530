// Text in which \n, \t and \r stand for those bytes, and \x with two digits for any byte.
ghost use Rattle.std.specs.Prelude.{◌<◌, length};
ghost use Rattle.std.specs.Iterator.{at_most};

// A digit of base 16; 0 for any other glyph, and after the end.
fn digit(glyph: Option<&u8>) -> u8
    ensures { result < 16 }
{
    match glyph {
        Some(d @ b'0'..=b'9') => *d - b'0',
        Some(d @ b'a'..=b'f') => *d - b'a' + 10,
        _ => 0,
    }
}

// The byte of two digits.
fn byte(digits: &[u8]) -> u8 {
    digit(digits.first()) * 16 + digit(digits.get(1))
}

// The bytes that a text means, of which this much is left.
#[derive(Drop)]
pub struct Meant<'a> {
    pub text: &'a [u8],
}

impl Iterator for Meant<'_> {
    type Item = u8;

    ghost remaining = { λ s. at_most (length s.text.now) };

    // Any other glyph after a \ is passed over alone, though it stands for the two digits after it.
    fn next(&mut self) -> Option<u8> {
        let (meant, width) = match self.text {
            [] => return None,
            [b'\\', b'n', ..] => (b'\n', 2),
            [b'\\', b't', ..] => (b'\t', 2),
            [b'\\', b'r', ..] => (b'\r', 2),
            [b'\\', b'x', digits @ ..] => (byte(digits), 4),
            [b'\\', _, digits @ ..] => (byte(digits), 2),
            [b'\\'] => (0, 1),
            [plain, ..] => (*plain, 1),
        };
        self.text = &self.text[self.text.len().min(width)..];
        Some(meant)
    }
}
