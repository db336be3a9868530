// Flooding of the max-tree with level queues. Part 1 of the workspace receives the number of each pixel's node, part 2 the numbers in the
// order of closing, each with how far its level lies above its parent's, part 3 holds the queues, and the words of each node receive its
// parent's number.
#![tactic(auto)]

ghost use Rattle.std.specs.Prelude.{◌≡◌, ◌≤◌, length};
ghost use Rattle.causes.specs.Bounds.{most_pixels};
ghost use Rattle.levels.specs.Levels.{level_counts, starts_of};
ghost use Rattle.visits.specs.Visits.{Standing};
ghost use Rattle.queues.specs.Queues.{lists_of, taken_of};
ghost use Rattle.flood.specs.Calls.{Leavable, Left, Floodable, NumberedBy};

use grid::Grid;
use queues::{Opened, Queues};
use visits::Picture;

// Leaves the pixel p, whose neighbours are all met: the head of its level moves on, and a level with nothing left is closed. The answer is
// the level at which the flood goes on, none at the end.
fn leave(
    picture: Picture,
    p: usize,
    level: usize,
    queues: &mut Queues,
    ws: &mut [u32],
) -> Option<usize>
    requires { Leavable picture.grid picture.greys.now (lists_of ws.old queues.old) level p }
    ensures left { Left picture.entry.grid picture.entry.greys.now (lists_of ws.old queues.old) (lists_of ws.new queues.new) result }
    ensures tails { queues.new.tails ≡ queues.old.tails }
{
    queues.heads[level] += 1;
    if queues.heads[level] != queues.tails[level] {
        return Some(level);
    }
    queues.opened.close(picture.greys.len(), level, ws)
}

// The flood from the pixel named, at the head of the level named, to its end. It goes on at once at a brighter pixel that was not met, or at
// one that took the place at the head, else at the pixel at the head of the next level. No `for`: where it goes on, a turn finds out.
fn run(picture: Picture, first: usize, start: usize, queues: &mut Queues, ws: &mut [u32])
    requires { Standing picture.grid picture.greys.now (lists_of ws.old queues.old) start first }
    ensures { NumberedBy picture.entry.grid picture.entry.greys.now ws.new (taken_of queues.new.opened) }
{
    let n = picture.greys.len();
    let mut p = first;
    let mut level = start;
    loop {
        if let Some(q) = picture.visit_around(p, level, queues, ws) {
            p = q;
            level = picture.greys[q] as usize;
        } else if let Some(next) = leave(picture, p, level, queues, ws) {
            p = ws[2 * n + queues.heads[next]] as usize;
            level = next;
        } else {
            return;
        }
    }
}

// Floods a picture: on return every node has a number, each pixel that of its node, and the parents that the numbers stand for join the
// same pixels at every level as the picture's neighbours. The answer is how many nodes there are. The queues are filled where they lie: a
// second copy of them would take three tables of levels more of the stack.
pub fn flood(picture: &[u8], grid: Grid, ws: &mut [u32]) -> usize
    requires { Floodable grid picture.now ws.old }
    ensures { NumberedBy grid picture.now ws.new result }
{
    let n = picture.len();
    // no level is open
    let mut queues = Queues {
        heads: levels::count_levels(picture),
        tails: [0; 256],
        opened: Opened {
            numbers: [0; 256],
            levels: [0; 4],
            taken: 0,
            closed: 0,
        },
    };
    levels::counts_to_starts(&mut queues.heads);
    queues.tails = queues.heads;
    queues.opened.numbers.fill(n);
    levels::fill(&mut ws[..n], n as u32);
    let level = picture[0] as usize;
    let k = queues.opened.next_number(level);
    queues.append(n, 0, level, k, ws);
    run(
        Picture {
            greys: picture,
            grid,
        },
        0,
        level,
        &mut queues,
        ws,
    );
    queues.opened.taken
}
