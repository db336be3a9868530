// The lines of a steps file, one after the other, and their shape.
ghost use Rattle.std.specs.Prelude.{◌≡◌, true, false, drop, MatchOption};
ghost use Rattle.std.specs.Iterator.{YieldsFirstRef, item_count};
ghost use Rattle.steps.specs.Lines.{ends_line, lines, line_length, attribute_line, step_line, step_lines, well_formed, Parts, threshold};

use crate::fields;

const ATTRIBUTE: [u8; 10] = *b"attribute\t";

const STEP: [u8; 5] = *b"step\t";

// The lines of a text, each without the byte 10 that ends it.
#[derive(Clone, Copy)]
pub struct Lines<'a> {
    pub text: &'a [u8],
}

impl<'a> Iterator for Lines<'a> {
    type Item = &'a [u8];

    ghost next_gives = { YieldsFirstRef (λ s. lines s.text.now) };

    ghost remaining = { item_count (λ s. lines s.text.now) };

    fn next(&mut self) -> Option<&'a [u8]> {
        let text = self.text;
        if text.is_empty() {
            return None;
        }
        let end = line_end(text);
        self.text = from(text, end + 1);
        Some(&text[..end])
    }
}

// The position of the first byte 10, or of the end.
fn line_end(text: &[u8]) -> usize
    ensures { result ≡ line_length text.now }
{
    text.iter().position(|b| *b == b'\n').unwrap_or(text.len())
}

// The bytes from a position on, none where there are not so many.
#[tactic(auto, using(causes::proofs::Lists::to_end))]
fn from(text: &[u8], at: usize) -> &[u8]
    ensures { result.now ≡ drop at text.now }
{
    text.get(at..).unwrap_or(&[])
}

// Whether the last byte is 10.
#[tactic(auto, unfolding(crate::specs::Lines::ends_line))]
fn ends_line(file: &[u8]) -> bool
    ensures { result ≡ ends_line file.now }
{
    matches!(file, [.., b'\n'])
}

// The word on an attribute line.
#[tactic(auto, using(crate::proofs::Shaping::attribute_line_not, crate::proofs::Shaping::attribute_line_word))]
fn word(line: &[u8]) -> Option<&[u8]>
    ensures { MatchOption result (attribute_line line.now ≡ false) (λ w. (attribute_line line.now ≡ true) × (w.now ≡ drop 10 line.now)) }
{
    line.strip_prefix(&ATTRIBUTE)
        .filter(|word| fields::field(word, 8, b'a', b'z'))
}

#[tactic(auto, using(crate::proofs::Shaping::step_line_not, crate::proofs::Shaping::step_line_number))]
fn step_line(line: &[u8]) -> bool
    ensures { result ≡ step_line line.now }
{
    line.strip_prefix(&STEP).is_some_and(fields::is_number)
}

// The number on a step line.
#[tactic(auto, using(crate::proofs::Shaping::step_line_long, crate::proofs::Shaping::step_line_digits, crate::proofs::Shaping::threshold_value))]
pub fn threshold(line: &[u8]) -> u32
    requires { step_line line.now ≡ true }
    ensures { result ≡ threshold line.now }
{
    fields::value(&line[STEP.len()..])
}

// Whether every line is a step line.
fn all_steps(mut rest: Lines) -> bool
    ensures { result ≡ step_lines (lines rest.entry.text.now) }
{
    rest.all(step_line)
}

// The word on the attribute line, and the lines after it, where they are step lines and each line is ended.
#[tactic(auto, using(crate::proofs::Answering::not_ended, crate::proofs::Answering::no_line, crate::proofs::Answering::first_not, crate::proofs::Answering::others_not))]
pub fn parts(file: &[u8]) -> Option<(&[u8], Lines<'_>)>
    ensures { MatchOption result (well_formed file.now ≡ false) (λ p. Parts file.now p.0.now p.1.text.now) }
{
    if !ends_line(file) {
        return None;
    }
    let mut rest = Lines { text: file };
    let word = word(rest.next()?)?;
    if all_steps(rest) {
        Some((word, rest))
    } else {
        None
    }
}
