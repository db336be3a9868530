// The pass over the frame, after the pass over the own pixels: the accumulator of each node with a pixel in the first or last row or column
// notes that. Only the pixels of the frame are read, so that the pass over all pixels needs no test. The attribute comes as its number, as in the definitions.
#![tactic(auto)]

ghost use Rattle.std.specs.Prelude.{◌≡◌, ◌+◌, ◌*◌, ◌<◌, length};
ghost use Rattle.frame.specs.Frame.{node_marked, Markable, run, Marked, Framable};
ghost use Rattle.grid.specs.Attributes.{on_frame};

use grid::Grid;

// Marks the node k, among the words of the nodes.
fn mark_node(attribute: u32, k: usize, words: &mut [u32])
    requires { 3 * k + 2 < length words.old }
    ensures { words.new ≡ node_marked attribute k words.old }
{
    words[3 * k + 2] = accumulators::mark(attribute, words[3 * k + 2]);
}

// Marks the nodes of so many pixels, each a step after the one before. The words of the nodes, parts 4 to 6, are lent on by themselves.
fn mark_run(n: usize, attribute: u32, from: usize, step: usize, count: usize, ws: &mut [u32])
    requires { Markable n from step count ws.old }
    ensures { Marked attribute n (run from step count) ws.old ws.new }
{
    for i in 0..count {
        let k = ws[from + i * step] as usize;
        mark_node(attribute, k, &mut ws[3 * n..6 * n]);
    }
}

// Marks the nodes of the pixels on the frame: the first and the last row, then the first and the last column.
pub fn mark_frame(n: usize, grid: Grid, attribute: u32, ws: &mut [u32])
    requires { Framable grid n ws.old }
    ensures { Marked attribute n (on_frame grid) ws.old ws.new }
{
    let width = grid.width as usize;
    let height = grid.height as usize;
    mark_run(n, attribute, 0, 1, width, ws);
    mark_run(n, attribute, n - width, 1, width, ws);
    mark_run(n, attribute, 0, width, height, ws);
    mark_run(n, attribute, width - 1, width, height, ws);
}
