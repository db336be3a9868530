// The pass that writes the record of the tree from the words of the nodes, and notes the representatives in order of position.
#![tactic(auto)]

ghost use Rattle.std.specs.Prelude.{cond, ◌≡◌, ◌≤◌, eqb};
ghost use Rattle.causes.specs.Bounds.{most_pixels};
ghost use Rattle.representatives.specs.Representatives.{Writable, is_lowest, written_at, Representable, Represented};

// 1 if low is q, which is not below it, else 0. Here, in `chosen` and in `kept` there is arithmetic in place of an `if`, since a choice
// that depends on a load must not become a branch: the loads would follow it, and no processor can guess which pixels are representatives.
// The compiler makes one of `usize::from(low == q)` too: a quarter more branches are guessed wrong, and a build of noise takes 1.1 of the time.
fn one_if_same(low: usize, q: usize) -> usize
    requires low_le_q { low ≤ q }
    requires q_le_most_pixels { q ≤ most_pixels }
    ensures { result ≡ cond (eqb low q) 1 0 }
{
    (4294967296 - (q - low)) / 4294967296
}

// The word a for 1, the word b for 0: one product, taken within 32 bits.
fn chosen(one: usize, a: u32, b: u32) -> u32
    requires { one ≤ 1 }
    ensures { result ≡ cond (eqb one 1) a b }
{
    let from = b as usize;
    let to = a as usize;
    ((from + (4294967296 + to - from) * one) % 4294967296) as u32
}

// The word a for 1, 0 for 0: a mask of 32 ones or of none, which takes less time than a second product.
fn kept(one: usize, a: u32) -> u32
    requires { one ≤ 1 }
    ensures { result ≡ cond (eqb one 1) a 0 }
{
    let mask = (4294967296 - one) % 4294967296;
    (a as usize & mask) as u32
}

// The words of the pixel q, the first that is not written yet: the lowest own pixel of a node is its representative. Its parent word is
// its parent's representative and its attribute word the node's attribute; any other pixel has its representative and 0. The pixel
// is put at the end of the list in part 3. Each part is lent on for writing by itself. Answers 1 for a representative, else 0.
fn write_pixel(n: usize, q: usize, listed: usize, ws: &mut [u32]) -> usize
    requires { Writable n q listed ws.old }
    ensures value { result ≡ cond (is_lowest n ws.old q) 1 0 }
    ensures ws_after { ws.new ≡ written_at n q listed ws.old }
{
    let node = 3 * n + 3 * ws[q] as usize;
    let low = ws[node];
    let up = ws[node + 1] as usize;
    let held = ws[node + 2];
    let parent = ws[3 * n + 3 * up];
    let one = one_if_same(low as usize, q);
    parts::put_word(&mut ws[0..n], q, chosen(one, parent, low));
    parts::put_word(&mut ws[n..2 * n], q, kept(one, held));
    parts::put_word(&mut ws[2 * n..3 * n], listed, q as u32);
    one
}

// The words of the record, straight over the positions. Part 3 receives the representatives: the list's length grows by 1 for a
// representative and by 0 for any other pixel, whose place the next one takes. Answers the number of nodes.
pub fn write_record(n: usize, ws: &mut [u32]) -> usize
    requires { Representable n ws.old }
    ensures { Represented n ws.old ws.new result }
{
    let mut listed = 0;
    for q in 0..n {
        listed += write_pixel(n, q, listed, ws);
    }
    listed
}
