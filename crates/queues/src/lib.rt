// The queues of the levels: each level has a run of part 3, a head and a tail in it, and the number of its open node.
#![tactic(auto)]

ghost use Rattle.std.specs.Prelude.{◌≡◌, ◌+◌, ◌<◌, ℕ, get_or, set};
ghost use Rattle.queues.specs.Marks.{Marked};
ghost use Rattle.queues.specs.Queues.{Nextable, NextNamed, Nameable, Naming, Puttable, pushed_words, Appendable};
ghost use Rattle.queues.specs.Queues.{Replaceable, Replacing, NextBelow, Closable, ClosedTo};

// The open nodes: the number of each level's, n where none of n pixels' nodes is open there (a word a level, where an Option would take two), the set of
// the open levels, one bit a level, how many numbers are taken, and how many nodes are closed.
#[derive(Drop)]
pub struct Opened {
    pub numbers: [usize; 256],
    pub levels: [usize; 4],
    pub taken: usize,
    pub closed: usize,
}

impl Opened {
    // Opens a node of level l, where none is open, under the next number.
    pub fn next_number(&mut self, l: usize) -> usize
        requires { Nextable l self.old }
        ensures number { result ≡ self.old.taken }
        ensures numbers { self.new.numbers ≡ set self.old.numbers l self.old.taken }
        ensures taken { self.new.taken ≡ self.old.taken + 1 }
        ensures closed { self.new.closed ≡ self.old.closed }
        ensures named { NextNamed l self.old result self.new }
    {
        let k = self.taken;
        self.numbers[l] = k;
        self.levels[l / 64] |= 1 << (l % 64);
        self.taken = k + 1;
        k
    }

    // The number of the open node of level l. Where none is open the next number opens one.
    pub fn take_number(&mut self, n: usize, l: usize) -> usize
        requires { Nameable n l self.old }
        ensures { Naming n l self.old result self.new }
    {
        let held = self.numbers[l];
        if held != n { held } else { self.next_number(l) }
    }

    // The brightest open level below the level named: the bits below it in its own word are looked at, then the darker words.
    fn open_below(&self, level: usize) -> Option<usize>
        requires { level < 256 }
        ensures { (n : ℕ) → Marked n self.now → NextBelow n self.now level result }
    {
        let word = level / 64;
        let own = self.levels[word] % (1 << (level % 64));
        if own != 0 {
            return Some(64 * word + own.ilog2() as usize);
        }
        for i in (0..word).rev() {
            if self.levels[i] != 0 {
                return Some(64 * i + self.levels[i].ilog2() as usize);
            }
        }
        None
    }

    // Closes the node of the level named: its number and its drop, how far its level lies above its parent's, are put in one word at the end of
    // the order of closing in part 2, and its parent's number, that of the open node of the brightest open level below, among its words. The
    // answer is that level. Where there is none the node is its own parent.
    pub fn close(&mut self, n: usize, level: usize, ws: &mut [u32]) -> Option<usize>
        requires { Closable n ws.old self.old level }
        ensures { ClosedTo n ws.old self.old ws.new self.new level result }
    {
        let below = self.open_below(level);
        let k = self.numbers[level];
        let i = self.closed;
        self.numbers[level] = n;
        self.levels[level / 64] -= 1 << (level % 64);
        self.closed = i + 1;
        let (parent, drop) = match below {
            Some(m) => (self.numbers[m], level - m),
            None => (k, 0),
        };
        ws[n + i] = (k * 256 + drop) as u32;
        ws[3 * n + 3 * k + 1] = parent as u32;
        below
    }

    // Puts q at the place t of the run of level l, at which a node is open, in place of the pixel that stands there, and notes the number of
    // that node.
    pub fn replace(&self, n: usize, q: usize, l: usize, t: usize, ws: &mut [u32])
        requires { Replaceable n q l t ws.old self.now }
        ensures { Replacing n q l t ws.old self.now ws.new }
    {
        put(n, q, self.numbers[l], t, ws);
    }
}

// Notes the number k of the pixel q in part 1, and puts q at the place t of the runs.
fn put(n: usize, q: usize, k: usize, t: usize, ws: &mut [u32])
    requires { Puttable n q k t ws.old }
    ensures { ws.new ≡ pushed_words n ws.old q k t }
{
    ws[q] = k as u32;
    ws[2 * n + t] = q as u32;
}

// The places of the heads and of the tails of the levels' queues in part 3, and the open nodes: tables of fixed length, since nothing is allocated. (The
// workspace is lent beside it: with that in a field, each contract would have to say too that it is the same one and as long.)
#[derive(Drop)]
pub struct Queues {
    pub heads: [usize; 256],
    pub tails: [usize; 256],
    pub opened: Opened,
}

impl Queues {
    // Puts the pixel q at the end of the run of level l, and notes the number k of its node.
    pub fn append(&mut self, n: usize, q: usize, l: usize, k: usize, ws: &mut [u32])
        requires { Appendable n q l k ws.old self.old.tails }
        ensures words { ws.new ≡ pushed_words n ws.old q k (get_or self.old.tails l 0) }
        ensures queues { self.new ≡ record self.old { tails = set self.old.tails l (get_or self.old.tails l 0 + 1) } }
    {
        let t = self.tails[l];
        self.tails[l] = t + 1;
        put(n, q, k, t, ws);
    }
}
