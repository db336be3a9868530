// The pass over the own pixels of the nodes, after the flood: among the words of each node, its lowest own pixel and the accumulator of its
// own pixels. The words of the nodes, parts 4 to 6, are lent on by themselves. The attribute comes as its number, as in the definitions.
#![tactic(auto)]

ghost use Rattle.std.specs.Prelude.{◌≡◌, ◌*◌, ◌-◌, ◌≤◌, ◌<◌, length};
ghost use Rattle.own_pixels.specs.Points.{position, point_of, coordinate};
ghost use Rattle.own_pixels.specs.OwnPixels.{Countable, Blank, Gatherable, gathered_at, Seen, Owned};

use grid::Grid;

// Where a pixel stands.
#[derive(Clone, Copy)]
struct Point {
    row: u32,
    column: u32,
}

impl Point {
    // The point before: where a row starts the last of the row above, else the next on the left. So no pixel needs a division.
    #[tactic(auto, using(crate::proofs::Points::previous_column))]
    fn previous(self, width: u32) -> Point
        requires column_lt_width { self.column < width }
        requires point_nonzero { 0 < position width self }
        ensures { result ≡ point_of width (position width self - 1) }
    {
        if self.column == 0 {
            Point {
                row: self.row - 1,
                column: width - 1,
            }
        } else {
            Point {
                column: self.column - 1,
                ..self
            }
        }
    }

    // The row of a point for the height, its column for the width.
    fn coordinate(self, attribute: u32) -> u32
        ensures { result ≡ coordinate attribute self }
    {
        match attribute {
            2 => self.row,
            _ => self.column,
        }
    }
}

// The accumulator of no pixel for each of the nodes.
fn blank(attribute: u32, nodes: usize, words: &mut [u32])
    requires { 3 * nodes ≤ length words.old }
    ensures { Blank attribute nodes words.old words.new }
{
    let none = accumulators::none(attribute);
    for k in 0..nodes {
        words[3 * k + 2] = none;
    }
}

// Adds the own pixel q, which is below those added before and whose accumulator is given, to the node k. Before the frame is noted no area
// goes beyond the top threshold.
fn gather(attribute: u32, q: usize, k: usize, own: u32, words: &mut [u32])
    requires { Gatherable attribute q k own words.old }
    ensures { words.new ≡ gathered_at attribute q k own words.old }
{
    let held = accumulators::add(attribute, words[3 * k + 2], own);
    words[3 * k] = q as u32;
    words[3 * k + 2] = held;
}

// The lowest own pixel of each node, and the accumulator of what is seen of its own pixels: one straight pass over the positions, from the last
// to the first, so that the pixel noted last is the lowest. It stands by itself since the compiler then makes a loop of its own for areas, in which
// no point is kept.
fn own_seen(n: usize, grid: Grid, attribute: u32, nodes: usize, ws: &mut [u32])
    requires { Countable grid attribute n nodes ws.old }
    ensures { Seen grid attribute n nodes ws.old ws.new }
{
    blank(attribute, nodes, &mut ws[3 * n..6 * n]);
    let mut point = Point {
        row: grid.height,
        column: 0,
    };
    for q in (0..n).rev() {
        point = point.previous(grid.width);
        let k = ws[q] as usize;
        let own = accumulators::one(attribute, point.coordinate(attribute));
        gather(attribute, q, k, own, &mut ws[3 * n..6 * n]);
    }
}

// The lowest own pixel of each node, and the accumulator of its own pixels: what is seen of them, then the frame.
pub fn own_pixels(n: usize, grid: Grid, attribute: u32, nodes: usize, ws: &mut [u32])
    requires { Countable grid attribute n nodes ws.old }
    ensures { Owned grid attribute n nodes ws.old ws.new }
{
    own_seen(n, grid, attribute, nodes, ws);
    frame::mark_frame(n, grid, attribute, ws);
}
