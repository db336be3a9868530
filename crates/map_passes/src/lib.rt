// The passes that give the maps of a picture: one over its nodes, from the last closed to the first and so from parents to children, which
// settles each node from its parent; one over the pixels, which holds the pair of each pixel's node in the index map; and, when the picture
// is needed no more, one that makes both maps of the pairs. A pair stands for a run of residues: end × 256 + total, where end is the place
// of its last residue. What a node holds stands in two words by its number: in part 3 its place word, how many steps it outlasts, until the
// node is settled, and then its run word, place × 65536 + the pair of the run of its own fall; in part 7 the pair of the run of largest total,
// 0 where no residue is. As there are at most 256 steps and greys, a pair has 16 bits; a node that never falls has 512 for its place, beyond
// every step and gap. The time grows neither with the number of steps nor with the gap. Pairs and runs stay packed: they stand in the words and in
// the index map that a call is lent, and nothing is allocated.
#![tactic(auto)]

ghost use Rattle.std.specs.Prelude.{◌≡◌, cond, ℕ, ◌≤◌, ◌<◌, ltb, length, get_or};
ghost use Rattle.sets.specs.Sets.{table};
ghost use Rattle.causes.specs.Bounds.{most_steps, most_gap};
ghost use Rattle.map_passes.specs.Settle.{total_in, index_in, place_of, shared_pair, Storable, stored, Settleable, settled_at};
ghost use Rattle.map_passes.specs.Passes.{Given, SettledFrom, Visitable, visited_at, pair_for, Paired, Holdable};

// The run word of a node that never falls.
const NEVER: u32 = 512 * 65536;

// The pair of the run of a node that falls at `place`, before its own fall: its parent's, from the parent's run word, if the parent falls at
// most the gap later, else a run that ends at its own place.
#[tactic(auto, unfolding(crate::specs::Settle::shared_pair, crate::specs::Settle::near))]
fn shared(gap: u32, place: u32, run: u32) -> u32
    requires { (gap ≤ most_gap) × (place < most_steps) }
    ensures { result ≡ shared_pair gap place run }
{
    if run / 65536 <= place + gap {
        run % 65536
    } else {
        place * 256
    }
}

// The first of two pairs if its total is more, else the second. Both are at hand, so nothing branches.
pub fn better(own: u32, pair: u32) -> u32
    ensures { result ≡ cond (ltb (total_in pair) (total_in own)) own pair }
{
    if pair % 256 < own % 256 { own } else { pair }
}

// Stores the two words of the node of number k.
#[tactic(auto, unfolding(crate::specs::Settle::stored))]
fn store(n: usize, k: usize, run: u32, pair: u32, ws: &mut [u32])
    requires { Storable n k ws.old }
    ensures { ws.new ≡ stored n k run pair ws.old }
{
    ws[2 * n + k] = run;
    ws[6 * n + k] = pair;
}

// Settles the node of number k, which falls at `place` and lies `down` above its parent, of number `up`, which is settled. The fall from its
// parent joins the parent's run if that falls at most the gap later, and the run wins only if its total is more than the parent's largest.
fn settle(gap: u32, place: u32, down: u32, n: usize, k: usize, up: usize, ws: &mut [u32])
    requires { Settleable gap place down n k up ws.old }
    ensures { ws.new ≡ settled_at gap place down n k up ws.old }
{
    let own = shared(gap, place, ws[2 * n + up]) + down;
    let pair = better(own, ws[6 * n + up]);
    store(n, k, place * 65536 + own, pair, ws);
}

// The place at which the node of number k falls: its place word, or `count`, the number of steps, if it is the root, which is its own parent
// and never falls.
#[tactic(auto, unfolding(crate::specs::Settle::place_of))]
fn place_of(count: u32, k: usize, up: usize, word: u32) -> u32
    ensures { result ≡ place_of count k up word }
{
    if up == k { count } else { word }
}

// Settles the node at place i of the order of closing.
fn visit(count: u32, gap: u32, n: usize, i: usize, ws: &mut [u32])
    requires { Visitable n gap count ws.old i }
    ensures { ws.new ≡ visited_at n gap count ws.old i }
{
    let word = ws[n + i];
    let k = (word / 256) as usize;
    let down = word % 256;
    let up = ws[3 * n + 3 * k + 1] as usize;
    let place = place_of(count, k, up, ws[2 * n + k]);
    if count <= place {
        store(n, k, NEVER, 0, ws)
    } else {
        settle(gap, place, down, n, k, up, ws)
    }
}

// Every node, the last closed first.
fn settle_nodes(count: u32, gap: u32, n: usize, nodes: usize, ws: &mut [u32])
    requires { Given n nodes gap count ws.old }
    ensures { SettledFrom n nodes gap count ws.old ws.new 0 }
{
    for i in (0..nodes).rev() {
        visit(count, gap, n, i, ws);
    }
}

// The pair of every node, from the words of the nodes, their place words among `count` steps too. Part 7 is free for the pass over them, and
// run words come to stand where the place words were.
pub fn settle_pairs(picture: &[u8], count: u32, gap: u32, nodes: usize, ws: &mut [u32])
    requires { Given (length picture.now) nodes gap count ws.old }
    ensures { Paired picture.now count gap nodes ws.old ws.new }
{
    settle_nodes(count, gap, picture.len(), nodes, ws);
}

// The pair of the node of pixel p.
pub fn pair_of(n: usize, ws: &[u32], p: usize) -> u32
    requires holdable { Holdable n ws.now n }
    requires p_lt_n { p < n }
    ensures { result ≡ pair_for n ws.now p }
{
    ws[6 * n + ws[p] as usize]
}

// Every pixel takes the pair of its node.
pub fn hold(n: usize, ws: &[u32], pairs: &mut [u16])
    requires { Holdable n ws.now (length pairs.old) }
    ensures { pairs.new ≡ table n (λ (q : ℕ). pair_for n ws.now q) }
{
    for (p, pair) in pairs.iter_mut().enumerate() {
        *pair = pair_of(n, ws, p) as u16;
    }
}

// Both maps, from the pairs that the index map holds. Rounded up, the pair over 256 is the index, 0 for no residue.
pub fn unpack(residues: &mut [u8], indices: &mut [u16])
    requires { length residues.old ≡ length indices.old }
    ensures residues { residues.new ≡ table (length indices.old) (λ (q : ℕ). total_in (get_or indices.old q 0)) }
    ensures indices { indices.new ≡ table (length indices.old) (λ (q : ℕ). index_in (get_or indices.old q 0)) }
{
    for (p, index) in indices.iter_mut().enumerate() {
        let pair = u32::from(*index);
        residues[p] = (pair % 256) as u8;
        *index = ((pair + 255) / 256) as u16;
    }
}
