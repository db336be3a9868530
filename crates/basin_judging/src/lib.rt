// What the program does with its two files: its causes for refusal, in its order. Nothing is read or printed here.
#![tactic(auto)]

ghost use Rattle.std.specs.Prelude.{◌≡◌};
ghost use Rattle.steps.specs.Answer.{parse_answer, steps_after};
ghost use Rattle.basin_judging.specs.Judging.{both_read, lengths_numbers, sized_by, job_of, job_numbers, job_steps};

use causes::Cause;
use grid::Grid;
use steps::Parsed;

// The bounds of specs/Judging.antt.
pub const LONGEST_FILE: usize = 4096;

pub const MOST_SIZED: usize = 2048;

// The gap that the program names.
const GAP: u32 = 0;

// The number of the picture that the program takes.
pub const PICTURE: usize = 1;

// How many bytes each file has.
#[derive(Clone, Copy, Debug, PartialEq, Eq)]
pub struct Lengths {
    pub picture: usize,
    pub list: usize,
}

// What is to be sized, by which attribute, by its number as a call names it, by how many steps and which gap.
#[derive(Clone, Copy, Debug, PartialEq, Eq)]
pub struct Job {
    pub grid: Grid,
    pub attribute: u32,
    pub count: usize,
    pub gap: u32,
}

// A file that was not opened or read, which has no length, is judged first, then one that is too long.
pub fn both(picture: Option<usize>, list: Option<usize>) -> Result<Lengths, Cause>
    ensures answer { lengths_numbers result ≡ lengths_numbers (both_read picture list) }
{
    let picture = picture.ok_or(Cause::NotRead)?;
    let list = list.ok_or(Cause::NotRead)?;
    if LONGEST_FILE < picture || LONGEST_FILE < list {
        return Err(Cause::TooLarge);
    }
    Ok(Lengths { picture, list })
}

// The steps file, for a picture with the grid named.
fn by_steps(grid: Grid, list: &[u8], thresholds: &mut [u32; 256]) -> Result<Job, Cause>
    ensures value { result ≡ sized_by grid (parse_answer list.now) }
    ensures thresholds_after { thresholds.new ≡ steps_after list.now thresholds.old }
{
    let Parsed { attribute, count } = steps::parse(list, thresholds)?;
    Ok(Job {
        grid,
        attribute,
        count,
        gap: GAP,
    })
}

// The picture's file, all of it, the first picture's size, then the steps file.
pub fn judge(file: &[u8], list: &[u8], thresholds: &mut [u32; 256]) -> Result<Job, Cause>
    ensures answer { job_numbers result ≡ job_numbers (job_of file.now list.now) }
    ensures thresholds { thresholds.new ≡ job_steps file.now list.now thresholds.old }
{
    let picture = pgm::read(file, PICTURE)?;
    let grid = Grid {
        width: picture.width,
        height: picture.height,
        neighbours: 4,
    };
    if MOST_SIZED < grid.pixels() {
        return Err(Cause::TooLarge);
    }
    by_steps(grid, list, thresholds)
}
