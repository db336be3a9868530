// At which step of a list each node falls, for steps of either kind: a node falls at the first step that it does not meet. Each node has a place
// word, which starts at the number of steps and is lowered by each list of thresholds that applies: one for thresholds of an attribute; for triples
// three, one a part, since a node meets a triple if it meets all three.
#![tactic(auto)]

ghost use Rattle.std.specs.Prelude.{true, ◌≡◌, ◌≤◌, ◌<◌, ◌+◌, ◌*◌, map, length};
ghost use Rattle.causes.specs.Bounds.{most_steps};
ghost use Rattle.levels.specs.Workspace.{Sized};
ghost use Rattle.opening.specs.Residue.{not_falling};
ghost use Rattle.calls.specs.Steps.{triples_in};
ghost use Rattle.calls.specs.Judging.{triples_good, list_good};
ghost use Rattle.building.specs.Building.{Flooded};
ghost use Rattle.placing.specs.Placing.{part_in, Column, Started, LoweredBy, LimitedBy, Placed};

use calls::Kind;
use grid::Grid;

// One part of each triple, in order: 0 the areas, 1 the heights, 2 the widths. An array, since nothing is allocated, and a list has at most 256.
fn column(words: &[u32], part: usize) -> [u32; 256]
    requires words_len_bound { length words.now ≤ 3 * most_steps }
    requires part_bound { part < 3 }
    ensures { Column part words.now result }
{
    let mut entries: [u32; 256] = [0; 256];
    for i in 0..words.len() / 3 {
        entries[i] = words[3 * i + part];
    }
    entries
}

// The place word of each node before any list of thresholds: the number of steps.
fn start_places(n: usize, count: usize, nodes: usize, ws: &mut [u32])
    requires sized { Sized n ws.old }
    requires nodes_le_n { nodes ≤ n }
    requires count_le_most_steps { count ≤ most_steps }
    ensures { Started n count nodes ws.old ws.new }
{
    let end = 2 * n + nodes;
    levels::fill(&mut ws[2 * n..end], count as u32);
}

// Lowers the places of the nodes by thresholds of one attribute, named by its number as `place_nodes` is told it, which the nodes hold afterwards. That
// the nodes have numbers is asked here and below, since it is said of picture, grid, workspace and their number together.
fn lower_by(picture: &[u8], grid: Grid, attribute: u32, steps: &[u32], nodes: usize, ws: &mut [u32])
    requires flooded { Flooded grid picture.now ws.old nodes }
    requires steps_len_bound { length steps.now ≤ most_steps }
    requires steps_value { not_falling 0 steps.now ≡ true }
    ensures { LoweredBy grid attribute picture.now steps.now nodes ws.old ws.new }
{
    building::measure_nodes(picture, grid, attribute, nodes, ws);
    places::lower(picture.len(), steps, nodes, ws);
}

// The same by one part of each triple, whose attribute is the part's number and one.
fn lower_by_part(
    picture: &[u8],
    grid: Grid,
    words: &[u32],
    part: usize,
    nodes: usize,
    ws: &mut [u32],
)
    requires flooded { Flooded grid picture.now ws.old nodes }
    requires words_value { triples_good words.now ≡ true }
    requires part_bound { part < 3 }
    ensures { LoweredBy grid (part + 1) picture.now (map (part_in part) (triples_in words.now)) nodes ws.old ws.new }
{
    let entries = column(words, part);
    let steps = &entries[..words.len() / 3];
    lower_by(picture, grid, part as u32 + 1, steps, nodes, ws);
}

// The same by each part of a list of triples, the areas last, so that the nodes hold them afterwards.
fn lower_by_parts(picture: &[u8], grid: Grid, words: &[u32], nodes: usize, ws: &mut [u32])
    requires flooded { Flooded grid picture.now ws.old nodes }
    requires words_value { triples_good words.now ≡ true }
    ensures { LimitedBy grid picture.now words.now nodes ws.old ws.new }
{
    lower_by_part(picture, grid, words, 1, nodes, ws);
    lower_by_part(picture, grid, words, 2, nodes, ws);
    lower_by_part(picture, grid, words, 0, nodes, ws);
}

// The places of the nodes, once they have numbers, for a step list of either kind. Answers the number of steps.
pub fn place_nodes(
    picture: &[u8],
    grid: Grid,
    kind: Kind,
    steps: &[u32],
    nodes: usize,
    ws: &mut [u32],
) -> usize
    requires flooded { Flooded grid picture.now ws.old nodes }
    requires steps_value { list_good kind steps.now ≡ true }
    ensures { Placed grid kind picture.now steps.now nodes result ws.new }
{
    match kind {
        Kind::Thresholds(attribute) => {
            start_places(picture.len(), steps.len(), nodes, ws);
            lower_by(picture, grid, attribute, steps, nodes, ws);
            steps.len()
        }
        Kind::Triples => {
            let count = steps.len() / 3;
            start_places(picture.len(), count, nodes, ws);
            lower_by_parts(picture, grid, steps, nodes, ws);
            count
        }
    }
}
