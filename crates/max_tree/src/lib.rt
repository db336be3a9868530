// The building call: the max-tree of a picture, whose record is left in the workspace.
#![tactic(auto)]

ghost use Rattle.std.specs.Prelude.{◌≡◌};
ghost use Rattle.calls.specs.Calls.{build_call, built, built_numbers, build_workspace};

use causes::Cause;
use grid::Grid;

// Builds the tree of a picture: the workspace holds its record, and the answer is the number of nodes. The attribute comes as its number, since
// another than the three is refused in its turn.
#[tactic(auto, unfolding(calls::specs::Judging::also, calls::specs::Calls::built, calls::specs::Calls::build_workspace))]
pub fn build(
    picture: &[u8],
    grid: Grid,
    attribute: u32,
    workspace: &mut [u32],
) -> Result<u32, Cause>
    ensures answer { built_numbers result ≡ built_numbers (built (build_call picture.now grid attribute workspace.old)) }
    ensures workspace { workspace.new ≡ build_workspace (build_call picture.now grid attribute workspace.old) }
{
    calls::judge_picture(grid, picture.len(), attribute)?;
    calls::check(calls::words_each(grid, workspace.len()), Cause::Workspace)?;
    Ok(building::build_record(picture, grid, attribute, workspace))
}
