// The pass over the descendants of the nodes: each node's accumulator is added to its parent's, and the attribute is read from it. It comes
// as its number, as in the definitions.
#![tactic(auto)]

ghost use Rattle.std.specs.Prelude.{◌≡◌};
ghost use Rattle.descendants.specs.Pouring.{Pour, poured_at, Pourable, Poured};

// Adds the accumulator of the node k, to which its children are added, to that of its parent p, and puts the node's attribute in its
// place, both among the words of the nodes. The root of the tree is its own parent.
fn pour(attribute: u32, k: usize, p: usize, words: &mut [u32])
    requires { Pour attribute k p words.old }
    ensures { words.new ≡ poured_at attribute k p words.old }
{
    let held = words[3 * k + 2];
    words[3 * k + 2] = accumulators::measure(attribute, held);
    if p != k {
        words[3 * p + 2] = accumulators::combine(attribute, words[3 * p + 2], held);
    }
}

// The attribute of each node: every node is added to its parent, in the order of closing. The words of the nodes, parts 4 to 6, are lent on.
pub fn descendants(picture: &[u8], attribute: u32, nodes: usize, ws: &mut [u32])
    requires { Pourable attribute picture.now ws.old nodes }
    ensures { Poured attribute picture.now ws.old ws.new nodes }
{
    let n = picture.len();
    for i in 0..nodes {
        let k = (ws[n + i] / 256) as usize;
        let p = ws[3 * n + 3 * k + 1] as usize;
        pour(attribute, k, p, &mut ws[3 * n..6 * n]);
    }
}
