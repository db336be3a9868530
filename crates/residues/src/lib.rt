// The map call: the residue map and the index map of a picture for a list of steps of either kind and a gap.
#![tactic(auto)]

ghost use Rattle.std.specs.Prelude.{◌≡◌};
ghost use Rattle.calls.specs.Judging.{verdict_numbers};
ghost use Rattle.calls.specs.Calls.{map_call, map_verdict, map_workspace, map_residue, map_index};

use calls::Kind;
use causes::Cause;
use grid::Grid;

// The residue map and the index map of a picture for a list of steps of either kind, whose residues a gap joins. The workspace holds the tree
// record of the picture. What it is told and lent comes one by one, as the C interface and the definitions name it.
#[tactic(auto, unfolding(calls::specs::Calls::map_workspace, calls::specs::Calls::map_residue, calls::specs::Calls::map_index))]
pub fn map(
    picture: &[u8],
    grid: Grid,
    kind: Kind,
    steps: &[u32],
    gap: u32,
    workspace: &mut [u32],
    residue: &mut [u8],
    index: &mut [u16],
) -> Result<(), Cause>
    ensures answer { verdict_numbers result ≡ verdict_numbers (map_verdict (map_call picture.now grid kind steps.now gap workspace.old residue.old index.old)) }
    ensures workspace { workspace.new ≡ map_workspace (map_call picture.now grid kind steps.now gap workspace.old residue.old index.old) }
    ensures residue { residue.new ≡ map_residue (map_call picture.now grid kind steps.now gap workspace.old residue.old index.old) }
    ensures index { index.new ≡ map_index (map_call picture.now grid kind steps.now gap workspace.old residue.old index.old) }
{
    calls::judge_sizing(
        grid,
        picture.len(),
        kind,
        steps,
        gap,
        workspace.len(),
        residue.len(),
        index.len(),
    )?;
    sizing::size(picture, grid, kind, steps, gap, workspace, index);
    building::write_whole(picture, workspace);
    map_passes::unpack(residue, index);
    Ok(())
}
