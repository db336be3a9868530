// Sizing a picture for a list of steps of either kind and a gap: the pairs of its nodes, and those of its pixels, of which the maps are made. The
// calls are in the crates above. What is sized comes one by one, as the definitions take it.
#![tactic(auto)]

ghost use Rattle.std.specs.Prelude.{◌≡◌, length};
ghost use Rattle.grid.specs.Pixels.{pixels};
ghost use Rattle.calls.specs.Steps.{list_tests};
ghost use Rattle.sizing.specs.Sizing.{Sizeable, NodePairs, PixelPairs};

use calls::Kind;
use grid::Grid;

// The words of the nodes of a picture, with the pair of each. Kept from being inlined, so that a program lets its tables of levels and places go.
#[inline(never)]
pub fn settle(
    picture: &[u8],
    grid: Grid,
    kind: Kind,
    steps: &[u32],
    gap: u32,
    workspace: &mut [u32],
)
    requires { Sizeable grid picture.now kind steps.now gap workspace.old }
    ensures { NodePairs grid picture.now kind steps.now gap workspace.new }
{
    let nodes = building::number_nodes(picture, grid, workspace);
    let count = placing::place_nodes(picture, grid, kind, steps, nodes, workspace);
    map_passes::settle_pairs(picture, count as u32, gap, nodes, workspace);
}

// The same, and the pair of each pixel.
pub fn size(
    picture: &[u8],
    grid: Grid,
    kind: Kind,
    steps: &[u32],
    gap: u32,
    workspace: &mut [u32],
    pairs: &mut [u16],
)
    requires sizeable { Sizeable grid picture.now kind steps.now gap workspace.old }
    requires pairs_len { length pairs.old ≡ pixels grid }
    ensures workspace { NodePairs grid picture.now kind steps.now gap workspace.new }
    ensures pairs { PixelPairs grid picture.now (list_tests grid kind steps.now) gap pairs.new }
{
    settle(picture, grid, kind, steps, gap, workspace);
    map_passes::hold(picture.len(), workspace, pairs);
}
