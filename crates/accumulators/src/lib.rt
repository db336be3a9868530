// The accumulators of the attributes, one word each: of no pixel, of one, of a set on the frame, of two sets together, and the attribute that
// is read from one. They are plain words, as they stand in the workspace, so what is asked of them stands at each function: a type would have to be
// made of a word at every load. The attribute comes as its number, here and in the passes above, since the definitions are of any number.
#![tactic(auto)]

ghost use Rattle.std.specs.Prelude.{◌≡◌, ◌+◌, ◌/◌, ◌%◌, ◌<◌, min, max};
ghost use Rattle.causes.specs.Bounds.{longest_side};
ghost use Rattle.accumulators.specs.Accumulators.{packed, nothing, lone, framed, combined, measured, Small, Capped, InOrder};

// The accumulator of no pixel.
#[tactic(auto, unfolding(crate::specs::Accumulators::nothing))]
pub fn none(attribute: u32) -> u32
    ensures { result ≡ nothing attribute }
{
    match attribute {
        1 => 0,
        _ => causes::LONGEST_SIDE - 1,
    }
}

// The accumulator of one pixel by what is seen of it: its row for the height, its column for the width.
pub fn one(attribute: u32, side: u32) -> u32
    requires { side < longest_side }
    ensures { result ≡ lone attribute side }
{
    match attribute {
        1 => 1,
        _ => side * (causes::LONGEST_SIDE + 1),
    }
}

// The accumulator of a set that has a pixel on the frame, from what is seen of it.
#[tactic(auto, unfolding(crate::specs::Accumulators::framed))]
pub fn mark(attribute: u32, x: u32) -> u32
    ensures { result ≡ framed attribute x }
{
    match attribute {
        1 => causes::TOP_THRESHOLD,
        _ => causes::LONGEST_SIDE * causes::LONGEST_SIDE + x % causes::LONGEST_SIDE,
    }
}

// The greatest and the least row (column) of two sets.
fn outer_ends(x: u32, y: u32) -> u32
    requires small { Small x }
    requires small_2 { Small y }
    ensures { result ≡ packed (max (x / longest_side) (y / longest_side)) (min (x % longest_side) (y % longest_side)) }
{
    let last = (x / causes::LONGEST_SIDE).max(y / causes::LONGEST_SIDE);
    let first = (x % causes::LONGEST_SIDE).min(y % causes::LONGEST_SIDE);
    last * causes::LONGEST_SIDE + first
}

// The accumulator of two sets that do not meet.
#[tactic(auto, unfolding(crate::specs::Accumulators::combined))]
pub fn combine(attribute: u32, x: u32, y: u32) -> u32
    requires small { Small x }
    requires small_2 { Small y }
    ensures { result ≡ combined attribute x y }
{
    match attribute {
        1 => (x + y).min(causes::TOP_THRESHOLD),
        _ => outer_ends(x, y),
    }
}

// The same of areas that cannot reach beyond the top threshold. It stands beside `combine` for speed: it is done for every pixel, and a sum that
// stops at the threshold costs up to a millisecond a picture there.
#[tactic(auto, unfolding(crate::specs::Accumulators::combined))]
pub fn add(attribute: u32, x: u32, y: u32) -> u32
    requires small { Small x }
    requires small_2 { Small y }
    requires capped { Capped attribute (x + y) }
    ensures { result ≡ combined attribute x y }
{
    match attribute {
        1 => x + y,
        _ => outer_ends(x, y),
    }
}

// The attribute that is read from an accumulator.
#[tactic(auto, unfolding(crate::specs::Accumulators::measured))]
pub fn measure(attribute: u32, x: u32) -> u32
    requires { InOrder attribute x }
    ensures { result ≡ measured attribute x }
{
    let last = x / causes::LONGEST_SIDE;
    let first = x % causes::LONGEST_SIDE;
    match attribute {
        1 => x,
        _ if last < causes::LONGEST_SIDE => last - first + 1,
        _ => causes::TOP_THRESHOLD,
    }
}
