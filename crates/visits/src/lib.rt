// The visits: each neighbour of the pixel at the head of the current level that is not met is put into its queue, or takes the place at the
// head. The flood moves on at once to a brighter one that was not met.
#![tactic(auto)]

ghost use Rattle.std.specs.Prelude.{◌≡◌, ◌+◌, ◌%◌, ◌≤◌, ◌<◌, ℕ, Some, MatchOption, eqb, get_or, length};
ghost use Rattle.sets.specs.Sets.{Positions};
ghost use Rattle.levels.specs.Workspace.{Sized};
ghost use Rattle.queues.specs.Queues.{Nameable, Naming, lists_of};
ghost use Rattle.visits.specs.Visits.{Standing, Visiting, left_of, right_of, corners};
ghost use Rattle.visits.specs.Visits.{Based, Only, beside_at, VisitedTo, met_test, MetBut, VisitedAround};

use grid::Grid;
use queues::{Opened, Queues};

// Whether the pixel q is met, in a picture of n pixels: n stands for no number, in the words that are lent. It may be asked of n too, where no pixel is:
// the word there is part 2's, and the answer says nothing.
fn met(n: usize, q: usize, ws: &[u32]) -> bool
    requires sized { Sized n ws.now }
    requires n_nonzero { 0 < n }
    requires q_le_n { q ≤ n }
    ensures { result ≡ met_test n ws.now q }
{
    (ws[q] as usize) < n
}

// The number of the node of level l. A node is open at the level named, at which the flood stands, and none at a brighter one: of those two
// nothing need be asked.
fn number_for(n: usize, l: usize, level: usize, opened: &mut Opened) -> usize
    requires nameable { Nameable n l opened.old }
    requires open_here { l ≡ level → get_or opened.old.numbers l 0 < n }
    requires none_brighter { level < l → get_or opened.old.numbers l 0 ≡ n }
    ensures { Naming n l opened.old result opened.new }
{
    if l == level {
        opened.numbers[l]
    } else if l > level {
        opened.next_number(l)
    } else {
        opened.take_number(n, l)
    }
}

// A picture: the greys of its pixels, and its grid. Each visit is of neighbours of p, the pixel at the head of the level named, at which the
// flood stands; that it does is asked of each, since picture, queues and workspace all have a part in it. The answer is the pixel at which the flood
// goes on, none where it stays at p. (Of two pixels the compiler could not tell that they differ.)
#[derive(Clone, Copy)]
pub struct Picture<'a> {
    pub greys: &'a [u8],
    pub grid: Grid,
}

impl Picture<'_> {
    // The pixel above p.
    fn above(self, p: usize) -> Option<usize>
        ensures { MatchOption result (p < self.entry.grid.width) (λ q. q + self.entry.grid.width ≡ p) }
    {
        p.checked_sub(self.grid.width as usize)
    }

    // The pixel below p.
    fn below(self, p: usize) -> Option<usize>
        requires { p < length self.greys.now }
        ensures { MatchOption result (length self.entry.greys.now ≤ p + self.entry.grid.width) (λ q. (q ≡ p + self.entry.grid.width) × (q < length self.entry.greys.now)) }
    {
        let q = p + self.grid.width as usize;
        (q < self.greys.len()).then_some(q)
    }

    // Whether a row starts at q.
    fn starts_row(self, q: usize) -> bool
        requires width_nonzero { 0 < self.grid.width }
        requires q_bound { q < 4294967296 }
        ensures { result ≡ eqb (q % self.entry.grid.width) 0 }
    {
        q as u32 % self.grid.width == 0
    }

    // Visits q: it is put into its queue unless it is met. The flood goes on there where it was not met and is brighter.
    fn visit(
        self,
        q: usize,
        p: usize,
        level: usize,
        queues: &mut Queues,
        ws: &mut [u32],
    ) -> Option<usize>
        requires { Visiting self.grid self.greys.now (lists_of ws.old queues.old) level p q }
        ensures { VisitedTo self.entry.grid self.entry.greys.now (lists_of ws.old queues.old) (lists_of ws.new queues.new) result p (eqb q) }
    {
        let n = self.greys.len();
        if met(n, q, ws) {
            return None;
        }
        let l = self.greys[q] as usize;
        let k = number_for(n, l, level, &mut queues.opened);
        queues.append(n, q, l, k, ws);
        (l > level).then_some(q)
    }

    // Visits the only pixel on a side, where there is one.
    fn visit_side(
        self,
        q: Option<usize>,
        p: usize,
        level: usize,
        queues: &mut Queues,
        ws: &mut [u32],
    ) -> Option<usize>
        requires standing { Standing self.grid self.greys.now (lists_of ws.old queues.old) level p }
        requires near { (k : ℕ) → q ≡ Some k → Visiting self.grid self.greys.now (lists_of ws.old queues.old) level p k }
        ensures { (side : Positions) → Only (length self.entry.greys.now) side q → VisitedTo self.entry.grid self.entry.greys.now (lists_of ws.old queues.old) (lists_of ws.new queues.new) result p side }
    {
        self.visit(q?, p, level, queues, ws)
    }

    // The pixel left of the base, which is p or the pixel above or below it. Whether a row starts at the base is asked only where that pixel
    // is not met: a remainder takes long, and most are met. It and `visit_right` stay two: one would be told both the pixel and where a row
    // would start, and say no less.
    fn visit_left(
        self,
        base: usize,
        p: usize,
        level: usize,
        queues: &mut Queues,
        ws: &mut [u32],
    ) -> Option<usize>
        requires standing { Standing self.grid self.greys.now (lists_of ws.old queues.old) level p }
        requires based { Based self.grid self.greys.now p base }
        ensures { VisitedTo self.entry.grid self.entry.greys.now (lists_of ws.old queues.old) (lists_of ws.new queues.new) result p (left_of self.entry.grid base) }
    {
        if base == 0 || met(self.greys.len(), base - 1, ws) || self.starts_row(base) {
            return None;
        }
        self.visit(base - 1, p, level, queues, ws)
    }

    // The pixel right of the base. After the last pixel a row would start.
    fn visit_right(
        self,
        base: usize,
        p: usize,
        level: usize,
        queues: &mut Queues,
        ws: &mut [u32],
    ) -> Option<usize>
        requires standing { Standing self.grid self.greys.now (lists_of ws.old queues.old) level p }
        requires based { Based self.grid self.greys.now p base }
        ensures { VisitedTo self.entry.grid self.entry.greys.now (lists_of ws.old queues.old) (lists_of ws.new queues.new) result p (right_of self.entry.grid base) }
    {
        let right = base + 1;
        if met(self.greys.len(), right, ws) || self.starts_row(right) {
            return None;
        }
        self.visit(right, p, level, queues, ws)
    }

    // The corners of p in the row above or below, beside the base: the pixel there in p's column, where there is one.
    fn visit_beside(
        self,
        base: Option<usize>,
        p: usize,
        level: usize,
        queues: &mut Queues,
        ws: &mut [u32],
    ) -> Option<usize>
        requires standing { Standing self.grid self.greys.now (lists_of ws.old queues.old) level p }
        requires based { (b : ℕ) → base ≡ Some b → Based self.grid self.greys.now p b }
        ensures { VisitedTo self.entry.grid self.entry.greys.now (lists_of ws.old queues.old) (lists_of ws.new queues.new) result p (beside_at self.entry.grid base) }
    {
        let base = base?;
        if let Some(left) = self.visit_left(base, p, level, queues, ws) {
            return Some(left);
        }
        self.visit_right(base, p, level, queues, ws)
    }

    // The corners of p, which are neighbours where 8 are named.
    fn visit_corners(
        self,
        p: usize,
        level: usize,
        queues: &mut Queues,
        ws: &mut [u32],
    ) -> Option<usize>
        requires { Standing self.grid self.greys.now (lists_of ws.old queues.old) level p }
        ensures { VisitedTo self.entry.grid self.entry.greys.now (lists_of ws.old queues.old) (lists_of ws.new queues.new) result p (corners self.entry.grid p) }
    {
        if self.grid.neighbours != 8 {
            return None;
        }
        if let Some(over) = self.visit_beside(self.above(p), p, level, queues, ws) {
            return Some(over);
        }
        self.visit_beside(self.below(p), p, level, queues, ws)
    }

    // The neighbour right of p, the last one. Where it is not met and of the same level, p is done, and it takes p's place at the head of the
    // level: so the flood goes along a row, and the pixels below it wait in their order.
    fn visit_last(
        self,
        p: usize,
        level: usize,
        queues: &mut Queues,
        ws: &mut [u32],
    ) -> Option<usize>
        requires standing { Standing self.grid self.greys.now (lists_of ws.old queues.old) level p }
        requires met_but { MetBut self.grid self.greys.now (lists_of ws.old queues.old) p (right_of self.grid p) }
        ensures { VisitedAround self.entry.grid self.entry.greys.now (lists_of ws.old queues.old) (lists_of ws.new queues.new) p result }
    {
        let n = self.greys.len();
        let q = p + 1;
        if met(n, q, ws) || self.starts_row(q) {
            return None;
        }
        if self.greys[q] as usize == level {
            let head = queues.heads[level];
            queues.opened.replace(n, q, level, head, ws);
            return Some(q);
        }
        self.visit(q, p, level, queues, ws)
    }

    // The neighbours of p, until the flood moves: up to one that is brighter and was not met, or on to the one on the right, which takes p's
    // place. Where it stays, all its neighbours are met.
    pub fn visit_around(
        self,
        p: usize,
        level: usize,
        queues: &mut Queues,
        ws: &mut [u32],
    ) -> Option<usize>
        requires { Standing self.grid self.greys.now (lists_of ws.old queues.old) level p }
        ensures { VisitedAround self.entry.grid self.entry.greys.now (lists_of ws.old queues.old) (lists_of ws.new queues.new) p result }
    {
        if let Some(up) = self.visit_side(self.above(p), p, level, queues, ws) {
            return Some(up);
        }
        if let Some(left) = self.visit_left(p, p, level, queues, ws) {
            return Some(left);
        }
        if let Some(down) = self.visit_side(self.below(p), p, level, queues, ws) {
            return Some(down);
        }
        if let Some(corner) = self.visit_corners(p, level, queues, ws) {
            return Some(corner);
        }
        self.visit_last(p, level, queues, ws)
    }
}
