// The opening call. At a threshold of one attribute a picture is opened from its tree record. The climb asks no more of the record than that levels
// fall, whichever own pixels stand for the nodes; the pass over the pixels asks that they are the lowest. By a triple, whose heights and widths the
// record does not have, each pixel loses what its node falls along the list of that one step, as the maps find it.
#![tactic(auto)]

ghost use Rattle.std.specs.Prelude.{ℕ, ◌<◌, ◌≡◌, length};
ghost use Rattle.sets.specs.Sets.{table};
ghost use Rattle.calls.specs.Steps.{step_test, step_attribute};
ghost use Rattle.calls.specs.Judging.{verdict_numbers};
ghost use Rattle.calls.specs.Calls.{grey, record_of, opened_picture, open_call, open_verdict, open_workspace, open_output};
ghost use Rattle.calls.specs.declared.Step.TheVariants.{Threshold, Three};
ghost use Rattle.openings.specs.Climbing.{Climbable, From, Kept, OpenedTo, AllOpened, Pass};
ghost use Rattle.openings.specs.Opening.{Openable, Fallen, less_its_fall};

use calls::{Kind, Step};
use causes::Cause;
use grid::{Grid, Triple};

// The grey of the nearest kept ancestor of the node of `r`, itself among them: recursion to the parent, whose level is below. So there are
// no more steps than the grey of `r` counts.
fn climb(picture: &[u8], words: &[u32], n: usize, r: usize, threshold: u32) -> u8
    requires { From picture.now words.now n r }
    ensures { Kept picture.now words.now n threshold (grey picture.now r) r result }
{
    let parent = words[r] as usize;
    if threshold <= words[n + r] || parent == r {
        picture[r]
    } else {
        climb(picture, words, n, parent, threshold)
    }
}

// The new grey of `p`, where every position before it has its own. The representative of a node that is kept has its own grey. That of a node
// that goes has the new grey of its parent, and any other pixel that of its representative: it is there where that position is before
// `p`. Else, and for the root, a climb finds it.
fn new_grey(picture: &[u8], words: &[u32], n: usize, p: usize, threshold: u32, output: &[u8]) -> u8
    requires pass { Pass picture.now words.now n threshold p output.now }
    requires p_lt_n { p < n }
    ensures { OpenedTo picture.now words.now n threshold p result }
{
    if threshold <= words[n + p] {
        picture[p]
    } else {
        let parent = words[p] as usize;
        if parent < p {
            output[parent]
        } else {
            climb(picture, words, n, p, threshold)
        }
    }
}

// Writes every new grey, in order of position.
fn open_record(picture: &[u8], words: &[u32], threshold: u32, output: &mut [u8])
    requires climbable { Climbable picture.now words.now (length picture.now) }
    requires output_len { length output.old ≡ length picture.now }
    requires threshold_nonzero { 0 < threshold }
    ensures { AllOpened picture.now words.now threshold output.new }
{
    let n = picture.len();
    for p in 0..n {
        output[p] = new_grey(picture, words, n, p, threshold, output);
    }
}

// Opens a picture at a threshold of an attribute, by its number as a call names it, by climbing its record.
fn open_at(
    picture: &[u8],
    grid: Grid,
    attribute: u32,
    threshold: u32,
    workspace: &mut [u32],
    output: &mut [u8],
)
    requires { Openable grid (Threshold attribute threshold) picture.now workspace.old output.old }
    ensures workspace { workspace.new ≡ record_of grid attribute picture.now }
    ensures output { output.new ≡ opened_picture grid (step_test grid (Threshold attribute threshold)) picture.now }
{
    building::build_record(picture, grid, attribute, workspace);
    open_record(picture, workspace, threshold, output);
}

// Every grey less the fall of its node, which is the total of the node's pair.
fn take_falls(picture: &[u8], ws: &[u32], output: &mut [u8])
    requires { Fallen picture.now ws.now (length output.old) }
    ensures { output.new ≡ table (length picture.now) (λ (q : ℕ). less_its_fall picture.now ws.now q) }
{
    let n = picture.len();
    for (q, grey) in output.iter_mut().enumerate() {
        let fall = (map_passes::pair_of(n, ws, q) % 256) as u8;
        *grey = picture[q] - fall;
    }
}

// Opens a picture by a triple: what falls is what falls along the list of that one step.
fn open_by_triple(picture: &[u8], grid: Grid, t: Triple, workspace: &mut [u32], output: &mut [u8])
    requires { Openable grid (Three t) picture.now workspace.old output.old }
    ensures workspace { workspace.new ≡ record_of grid 1 picture.now }
    ensures output { output.new ≡ opened_picture grid (step_test grid (Three t)) picture.now }
{
    let words = [t.area, t.height, t.width];
    sizing::settle(picture, grid, Kind::Triples, &words, 0, workspace);
    take_falls(picture, workspace, output);
    building::write_whole(picture, workspace);
}

// Opens a picture by a step of either kind.
fn open_by(picture: &[u8], grid: Grid, step: Step, workspace: &mut [u32], output: &mut [u8])
    requires { Openable grid step picture.now workspace.old output.old }
    ensures workspace { workspace.new ≡ record_of grid (step_attribute step) picture.now }
    ensures output { output.new ≡ opened_picture grid (step_test grid step) picture.now }
{
    match step {
        Step::Threshold(attribute, threshold) => {
            open_at(picture, grid, attribute, threshold, workspace, output)
        }
        Step::Three(t) => open_by_triple(picture, grid, t, workspace, output),
    }
}

// Opens a picture by a step of either kind: the output is the opened picture, and the workspace the tree record of the picture given.
#[tactic(auto, using(crate::proofs::Opening::open_asks), unfolding(calls::specs::Judging::also, calls::specs::Calls::open_workspace, calls::specs::Calls::open_output))]
pub fn open(
    picture: &[u8],
    grid: Grid,
    step: Step,
    workspace: &mut [u32],
    output: &mut [u8],
) -> Result<(), Cause>
    ensures answer { verdict_numbers result ≡ verdict_numbers (open_verdict (open_call picture.now grid step workspace.old output.old)) }
    ensures workspace { workspace.new ≡ open_workspace (open_call picture.now grid step workspace.old output.old) }
    ensures output { output.new ≡ open_output (open_call picture.now grid step workspace.old output.old) }
{
    calls::judge_picture(grid, picture.len(), calls::step_attribute(step))?;
    calls::check(calls::step_good(step), Cause::Steps)?;
    calls::check(calls::words_each(grid, workspace.len()), Cause::Workspace)?;
    calls::check(calls::entry_each(grid, output.len()), Cause::Output)?;
    open_by(picture, grid, step, workspace, output);
    Ok(())
}
