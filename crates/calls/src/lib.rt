// The calls on a picture: how what a call names and is lent is judged. Judging writes nothing.
#![tactic(auto)]

ghost use Rattle.std.specs.Prelude.{◌*◌, ◌≡◌, [], ◌∷◌, eqb};
ghost use Rattle.causes.specs.Bounds.{words_a_pixel};
ghost use Rattle.grid.specs.Pixels.{pixels};
ghost use Rattle.calls.specs.Steps.{step_attribute, list_attribute};
ghost use Rattle.calls.specs.Judging.{attribute_good, neighbours_good, threshold_good, steps_good, parts_good, no_part_falls, some_part_rises, may_follow};
ghost use Rattle.calls.specs.Judging.{triples_good, step_good, list_good, gap_good, verdict_of, picture_tests, sizing_tests};

use causes::Cause;
use grid::{Grid, Triple};

// What an opening call opens by: a threshold of an attribute, or one of each. The attribute comes as its number, here and in `Kind`: another than
// the three is refused, and not before the sides and the picture are judged.
#[derive(Clone, Copy, Debug, PartialEq, Eq)]
pub enum Step {
    Threshold(u32, u32),
    Three(Triple),
}

// What the words of a step list are: thresholds of an attribute, or triples, three words to a step: area, height, width.
#[derive(Clone, Copy, Debug, PartialEq, Eq)]
pub enum Kind {
    Thresholds(u32),
    Triples,
}

// One test on a call. With `?` after each, the first that fails gives the cause.
#[tactic(auto, unfolding(crate::specs::Judging::also))]
pub fn check(good: bool, cause: Cause) -> Result<(), Cause>
    ensures answer { result ≡ verdict_of ((good, cause) ∷ []) }
{
    if good { Ok(()) } else { Err(cause) }
}

// The attribute and the neighbourhood by their numbers, since a call may name others.
#[tactic(auto, unfolding(crate::specs::Judging::attribute_good))]
pub fn attribute_good(attribute: u32) -> bool
    ensures answer { result ≡ attribute_good attribute }
{
    (1..=3).contains(&attribute)
}

#[tactic(auto, unfolding(crate::specs::Judging::neighbours_good))]
pub fn neighbours_good(neighbours: u32) -> bool
    ensures answer { result ≡ neighbours_good neighbours }
{
    neighbours == 4 || neighbours == 8
}

#[tactic(auto, unfolding(crate::specs::Judging::threshold_good))]
pub fn threshold_good(threshold: u32) -> bool
    ensures answer { result ≡ threshold_good threshold }
{
    (1..=causes::TOP_THRESHOLD).contains(&threshold)
}

// Whether a list of thresholds is a step list. At most 256 of them are looked at.
#[tactic(auto, unfolding(crate::specs::Judging::steps_good))]
pub fn steps_good(steps: &[u32]) -> bool
    ensures answer { result ≡ steps_good steps.now }
{
    if !(1..=causes::MOST_STEPS).contains(&steps.len()) {
        return false;
    }
    let mut low = 0;
    for &t in steps {
        if t <= low || !threshold_good(t) {
            return false;
        }
        low = t;
    }
    true
}

// Whether each part of a triple is in range.
#[tactic(auto, unfolding(crate::specs::Judging::parts_good))]
fn parts_good(t: Triple) -> bool
    ensures answer { result ≡ parts_good t }
{
    t.area <= causes::TOP_THRESHOLD
        && t.height <= causes::TOP_THRESHOLD
        && t.width <= causes::TOP_THRESHOLD
}

#[tactic(auto, unfolding(crate::specs::Judging::no_part_falls))]
fn no_part_falls(low: Triple, t: Triple) -> bool
    ensures answer { result ≡ no_part_falls low t }
{
    low.area <= t.area && low.height <= t.height && low.width <= t.width
}

#[tactic(auto, unfolding(crate::specs::Judging::some_part_rises))]
fn some_part_rises(low: Triple, t: Triple) -> bool
    ensures answer { result ≡ some_part_rises low t }
{
    low.area < t.area || low.height < t.height || low.width < t.width
}

// Whether a triple may follow another in a step list.
#[tactic(auto, unfolding(crate::specs::Judging::may_follow))]
fn may_follow(low: Triple, t: Triple) -> bool
    ensures answer { result ≡ may_follow low t }
{
    parts_good(t) && no_part_falls(low, t) && some_part_rises(low, t)
}

// Whether the words are a list of triples. At most 256 steps are looked at.
#[tactic(auto, unfolding(crate::specs::Judging::triples_good))]
pub fn triples_good(words: &[u32]) -> bool
    ensures answer { result ≡ triples_good words.now }
{
    if words.len() % 3 != 0 {
        return false;
    }
    if !(1..=3 * causes::MOST_STEPS).contains(&words.len()) {
        return false;
    }
    let mut low = Triple {
        area: 0,
        height: 0,
        width: 0,
    };
    for i in 0..words.len() / 3 {
        let t = Triple {
            area: words[3 * i],
            height: words[3 * i + 1],
            width: words[3 * i + 2],
        };
        if !may_follow(low, t) {
            return false;
        }
        low = t;
    }
    true
}

// Whether a step list of either kind is one.
pub fn list_good(kind: Kind, steps: &[u32]) -> bool
    ensures answer { result ≡ list_good kind steps.now }
{
    match kind {
        Kind::Thresholds(_) => steps_good(steps),
        Kind::Triples => triples_good(steps),
    }
}

// Whether an opening may name a step.
pub fn step_good(step: Step) -> bool
    ensures answer { result ≡ step_good step }
{
    match step {
        Step::Threshold(_, threshold) => threshold_good(threshold),
        Step::Three(t) => may_follow(
            Triple {
                area: 0,
                height: 0,
                width: 0,
            },
            t,
        ),
    }
}

// The attribute whose words a call leaves: with triples it names none, and leaves areas.
pub fn step_attribute(step: Step) -> u32
    ensures answer { result ≡ step_attribute step }
{
    match step {
        Step::Threshold(attribute, _) => attribute,
        Step::Three(_) => 1,
    }
}

pub fn list_attribute(kind: Kind) -> u32
    ensures answer { result ≡ list_attribute kind }
{
    match kind {
        Kind::Thresholds(attribute) => attribute,
        Kind::Triples => 1,
    }
}

#[tactic(auto, unfolding(crate::specs::Judging::gap_good))]
pub fn gap_good(gap: u32) -> bool
    ensures answer { result ≡ gap_good gap }
{
    gap <= causes::MOST_GAP
}

// Whether a lent run has one entry for each pixel.
pub fn entry_each(grid: Grid, entries: usize) -> bool
    ensures answer { result ≡ eqb entries (pixels grid) }
{
    entries == grid.pixels()
}

// Whether a workspace has the words for each pixel. Sides that do not fit may have too many pixels to be multiplied again.
pub fn words_each(grid: Grid, words: usize) -> bool
    ensures answer { result ≡ eqb words (words_a_pixel * pixels grid) }
{
    words % causes::WORDS_A_PIXEL == 0 && words / causes::WORDS_A_PIXEL == grid.pixels()
}

// The tests that every call on a picture starts with: its sides, its picture's bytes, its attribute and its neighbourhood.
#[tactic(auto, unfolding(crate::specs::Judging::also))]
pub fn judge_picture(grid: Grid, bytes: usize, attribute: u32) -> Result<(), Cause>
    ensures answer { result ≡ verdict_of (picture_tests grid bytes attribute) }
{
    check(causes::fit(grid.width, grid.height), Cause::Sides)?;
    check(entry_each(grid, bytes), Cause::PictureLength)?;
    check(attribute_good(attribute), Cause::Attribute)?;
    check(neighbours_good(grid.neighbours), Cause::Neighbours)
}

// The tests of a call that sizes a picture: those of `judge_picture`, its steps, its gap, its workspace's words and the entries of its two maps.
#[tactic(auto, unfolding(crate::specs::Judging::also))]
pub fn judge_sizing(
    grid: Grid,
    bytes: usize,
    kind: Kind,
    steps: &[u32],
    gap: u32,
    words: usize,
    residues: usize,
    indices: usize,
) -> Result<(), Cause>
    ensures answer { result ≡ verdict_of (sizing_tests grid bytes kind steps.now gap words residues indices) }
{
    judge_picture(grid, bytes, list_attribute(kind))?;
    check(list_good(kind, steps), Cause::Steps)?;
    check(gap_good(gap), Cause::Gap)?;
    check(words_each(grid, words), Cause::Workspace)?;
    check(entry_each(grid, residues), Cause::Output)?;
    check(entry_each(grid, indices), Cause::Output)
}
