// The steps file: the attribute and the step list that the program is given. A file is judged whole before its word, and its word
// before its numbers. Parsing answers on every input, and a refusal writes nothing.
#![tactic(auto)]

ghost use Rattle.std.specs.Prelude.{◌≡◌, ◌≤◌, length};
ghost use Rattle.std.proofs.lemmas.List.Edits.{sets};
ghost use Rattle.steps.specs.Lines.{lines, thresholds, StepLines};
ghost use Rattle.causes.specs.Bounds.{most_steps};
ghost use Rattle.calls.specs.Judging.{steps_good};
ghost use Rattle.steps.specs.Answer.{parse_answer, parsed_numbers, steps_after};

mod fields;
mod lines;

use causes::Cause;
use lines::Lines;

// What a file gives: the attribute's number, by which a call names it, and how many steps there are.
#[derive(Clone, Copy, Debug, PartialEq, Eq)]
pub struct Parsed {
    pub attribute: u32,
    pub count: usize,
}

// Whether the numbers on step lines are a step list. `calls::steps_good` judges a slice of them, but none may be stored before all are judged.
#[tactic(auto, using(crate::proofs::Judging::judged_none, crate::proofs::Judging::judged_end, crate::proofs::Shaping::step_here))]
fn good_steps(rest: Lines) -> bool
    requires { StepLines (lines rest.text.now) }
    ensures { result ≡ steps_good (thresholds (lines rest.entry.text.now)) }
{
    let mut low = 0;
    let mut count = 0;
    for line in rest {
        let t = lines::threshold(line);
        if count == causes::MOST_STEPS || t <= low || !calls::threshold_good(t) {
            return false;
        }
        low = t;
        count += 1;
    }
    count != 0
}

// Stores the numbers on step lines, and answers how many there are.
#[tactic(auto, using(crate::proofs::Judging::stored_total, crate::proofs::Judging::stored_all, crate::proofs::Judging::place_left, crate::proofs::Shaping::step_here))]
fn put_steps(rest: Lines, steps: &mut [u32; 256]) -> usize
    requires { StepLines (lines rest.text.now) × (length (thresholds (lines rest.text.now)) ≤ most_steps) }
    ensures count { result ≡ length (thresholds (lines rest.entry.text.now)) }
    ensures steps { steps.new ≡ sets steps.old 0 (thresholds (lines rest.entry.text.now)) }
{
    let mut count = 0;
    for line in rest {
        steps[count] = lines::threshold(line);
        count += 1;
    }
    count
}

// Parses a file: its attribute and its steps, of which the thresholds are stored, or the first cause that applies, in the order 13, 3, 4.
// An array is lent for the steps, and they are counted, since no memory is allocated.
pub fn parse(file: &[u8], steps: &mut [u32; 256]) -> Result<Parsed, Cause>
    ensures answer { parsed_numbers result ≡ parsed_numbers (parse_answer file.now) }
    ensures steps { steps.new ≡ steps_after file.now steps.old }
{
    let (word, rest) = lines::parts(file).ok_or(Cause::StepsFile)?;
    let attribute = fields::attribute_of(word).ok_or(Cause::Attribute)?;
    calls::check(good_steps(rest), Cause::Steps)?;
    let count = put_steps(rest, steps);
    Ok(Parsed { attribute, count })
}
