// Sizes the first picture of basin.pgm by the steps of steps.tsv, both in the working folder, and prints a line for each pixel: its row, column,
// grey, residue and index. A refusal prints its one line alone, since nothing is printed before every cause is judged.
#![tactic(auto)]

ghost use Rattle.std.specs.Prelude.{◌≡◌, ◌*◌, ◌≤◌, ◌<◌, length};
ghost use Rattle.causes.specs.Bounds.{words_a_pixel};
ghost use Rattle.basin_judging.specs.Judging.{most_sized};

mod files;

use basin_judging::{Job, Lengths};
use causes::Cause;
use std::io;

// Room for a file, and for one byte more, so that a longer one is told.
const FILE_ROOM: usize = basin_judging::LONGEST_FILE + 1;

// The words of workspace that the largest picture needs.
const WORDS: usize = causes::WORDS_A_PIXEL * basin_judging::MOST_SIZED;

fn refused(rt: &impl Print, cause: Cause) -> io::Result<()> {
    println!(rt; "refused\t{}", u32::from(cause))
}

// A head line, then a line for each pixel in order of position. The maps have an entry for each, so none of them ends the zip before the picture does.
fn listing(
    rt: &impl Print,
    picture: &[u8],
    width: u32,
    residue: &[u8],
    index: &[u16],
) -> io::Result<()>
    requires { (0 < width) × (length residue.now ≡ length picture.now) × (length index.now ≡ length picture.now) }
{
    println!(rt; "row\tcol\tgrey\tresidue\tindex")?;
    let w = width as usize;
    for (p, ((grey, residue), index)) in picture.iter().zip(residue).zip(index).enumerate() {
        println!(rt; "{}\t{}\t{grey}\t{residue}\t{index}", p / w, p % w)?;
    }
    Ok(())
}

// Prints the maps of a picture, in memory that is lent for it.
fn sized(
    rt: &impl Print,
    picture: &[u8],
    job: Job,
    steps: &[u32],
    workspace: &mut [u32],
    residue: &mut [u8],
    index: &mut [u16],
) -> io::Result<()>
    requires picture_len_bound { length picture.now ≤ most_sized }
    requires most_sized_value { words_a_pixel * most_sized ≡ length workspace.old }
    requires most_sized_value_2 { (most_sized ≡ length residue.old) × (most_sized ≡ length index.old) }
{
    let n = picture.len();
    let residue = &mut residue[..n];
    let index = &mut index[..n];
    let mapped = residues::map(
        picture,
        job.grid,
        calls::Kind::Thresholds(job.attribute),
        steps,
        job.gap,
        &mut workspace[..causes::WORDS_A_PIXEL * n],
        residue,
        index,
    );
    match mapped {
        Ok(()) => listing(rt, picture, job.grid.width, residue, index),
        Err(cause) => refused(rt, cause),
    }
}

// Prints the maps of a picture of at most 2,048 pixels, in fixed memory, since nothing is allocated.
fn maps(rt: &impl Print, picture: &[u8], job: Job, steps: &[u32]) -> io::Result<()>
    requires { length picture.now ≤ most_sized }
{
    let mut workspace = [0; WORDS];
    let mut residue = [0; basin_judging::MOST_SIZED];
    let mut index = [0; basin_judging::MOST_SIZED];
    sized(
        rt,
        picture,
        job,
        steps,
        &mut workspace,
        &mut residue,
        &mut index,
    )
}

// Prints what the two files' bytes give.
fn answer(rt: &impl Print, file: &[u8], list: &[u8]) -> io::Result<()> {
    let mut thresholds = [0; causes::MOST_STEPS];
    match basin_judging::judge(file, list, &mut thresholds) {
        Ok(job) => maps(
            rt,
            pgm::raster(file, basin_judging::PICTURE),
            job,
            &thresholds[..job.count],
        ),
        Err(cause) => refused(rt, cause),
    }
}

fn main(rt: HostRuntime) -> io::Result<()> {
    let mut file = [0; FILE_ROOM];
    let mut steps = [0; FILE_ROOM];
    let a = files::load(&rt, "basin.pgm", &mut file);
    let b = files::load(&rt, "steps.tsv", &mut steps);
    match basin_judging::both(a, b) {
        Ok(Lengths { picture, list }) => answer(&rt, &file[..picture], &steps[..list]),
        Err(cause) => refused(&rt, cause),
    }
}
