// Building up to the record of a picture's max-tree, which is kept in a workspace: part 1 the parents, part 2 the attributes, part 3 the list of
// the nodes, parts 4 to 7 scratch. The flood gives the nodes numbers, and the passes make the record of the words of the nodes. The calls are
// in the crates above. Here and in the passes the picture, its grid, the attribute and the workspace come one by one, as the definitions take them:
// a struct of them would spare a parameter and lengthen every clause. So does the attribute's number, of which they take any.
#![tactic(auto)]

ghost use Rattle.std.specs.Prelude.{◌++◌, ◌≡◌, ◌+◌, ◌-◌, ◌*◌, ◌≤◌, length, take, replicate};
ghost use Rattle.levels.specs.Workspace.{Sized};
ghost use Rattle.building.specs.Building.{Buildable, Flooded, Measured, Recordable, Recorded, Whole};

use grid::Grid;

// Gives each node of a picture a number. Answers how many there are.
pub fn number_nodes(picture: &[u8], grid: Grid, workspace: &mut [u32]) -> usize
    requires { Buildable grid picture.now workspace.old }
    ensures { Flooded grid picture.now workspace.new result }
{
    flood::flood(picture, grid, workspace)
}

// Measures the nodes, once they have numbers: each has its lowest own pixel, its parent's number and its attribute. It can be done again, by
// another attribute.
pub fn measure_nodes(
    picture: &[u8],
    grid: Grid,
    attribute: u32,
    nodes: usize,
    workspace: &mut [u32],
)
    requires { Flooded grid picture.now workspace.old nodes }
    ensures { Measured grid attribute picture.now nodes workspace.old workspace.new }
{
    own_pixels::own_pixels(picture.len(), grid, attribute, nodes, workspace);
    descendants::descendants(picture, attribute, nodes, workspace);
}

// Zeroes what follows the nodes in the list of them, part 3.
fn end_list(nodes: usize, list: &mut [u32])
    requires { nodes ≤ length list.old }
    ensures { list.new ≡ take nodes list.old ++ replicate (length list.old - nodes) 0 }
{
    let n = list.len();
    levels::fill(&mut list[nodes..n], 0);
}

// Zeroes what follows the list of the nodes in a workspace with n words to a part: the rest of part 3, and parts 4 to 7. Each part is lent on
// for writing by itself.
fn clear_scratch(n: usize, nodes: usize, workspace: &mut [u32])
    requires sized { Sized n workspace.old }
    requires nodes_le_n { nodes ≤ n }
    ensures { workspace.new ≡ take (2 * n + nodes) workspace.old ++ replicate (5 * n - nodes) 0 }
{
    end_list(nodes, &mut workspace[2 * n..3 * n]);
    levels::fill(&mut workspace[3 * n..4 * n], 0);
    levels::fill(&mut workspace[4 * n..5 * n], 0);
    levels::fill(&mut workspace[5 * n..6 * n], 0);
    levels::fill(&mut workspace[6 * n..7 * n], 0);
}

// The whole record from the words of the nodes: parents, attributes, the list of the nodes by rising level, and zero scratch. Answers the
// number of nodes.
pub fn write_whole(picture: &[u8], workspace: &mut [u32]) -> u32
    requires { Recordable picture.now workspace.old }
    ensures { Recorded picture.now workspace.old workspace.new result }
{
    let n = picture.len();
    let nodes = representatives::write_record(n, workspace);
    sorting::sort_by_level(picture, nodes, workspace);
    clear_scratch(n, nodes, workspace);
    nodes as u32
}

// The whole record of a picture. Answers the number of nodes.
pub fn build_record(picture: &[u8], grid: Grid, attribute: u32, workspace: &mut [u32]) -> u32
    requires { Buildable grid picture.now workspace.old }
    ensures { Whole grid attribute picture.now workspace.new result }
{
    let nodes = number_nodes(picture, grid, workspace);
    measure_nodes(picture, grid, attribute, nodes, workspace);
    write_whole(picture, workspace)
}
