// Where nodes fall along a list of thresholds: the search for a threshold, with a table of what it finds for small attributes, and the pass
// that lowers the place words of the nodes to what it finds. That the thresholds do not fall is asked where they come in, and `Places` keeps it. Where
// several lists of thresholds apply, a pass for each leaves the least place.
#![tactic(auto)]

ghost use Rattle.std.specs.Prelude.{true, ◌≡◌, ◌≤◌, min};
ghost use Rattle.opening.specs.Residue.{not_falling};
ghost use Rattle.falls.specs.Falls.{places_before};
ghost use Rattle.places.specs.Places.{small_places, Lowerable, Lowered};

// How many thresholds of a list that does not fall stand before the first one above `a`.
// No `partition_point`: with it a map of many nodes of large attributes takes 1.3 times as long.
fn outlasted_by(steps: &[u32], a: u32) -> usize
    requires { not_falling 0 steps.now ≡ true }
    ensures { result ≡ places_before a steps.now }
{
    let mut low = 0;
    let mut high = steps.len();
    while low < high {
        let middle = low + (high - low) / 2;
        if a < steps[middle] {
            high = middle;
        } else {
            low = middle + 1;
        }
    }
    low
}

// The same for an attribute that is known to outlast `from` of them.
fn outlasted_from(steps: &[u32], from: usize, a: u32) -> usize
    requires rise { not_falling 0 steps.now ≡ true }
    requires outlasted { from ≤ places_before a steps.now }
    ensures { result ≡ places_before a steps.now }
{
    for i in from..steps.len() {
        if a < steps[i] {
            return i;
        }
    }
    steps.len()
}

// Thresholds that do not fall, with how many of them each attribute below 256 outlasts.
#[derive(Drop)]
struct Places<'a> {
    steps: &'a [u32],
    small: [usize; 256],
    ghost rise: { not_falling 0 steps.now ≡ true },
    ghost found: { small ≡ small_places steps.now },
}

impl<'a> Places<'a> {
    fn new(steps: &'a [u32]) -> Self
        requires { not_falling 0 steps.now ≡ true }
        ensures { result.steps.now ≡ steps.now }
    {
        // no `array::from_fn`: the library does not say that it calls this very closure. Each entry goes on from the one before: 256 searches take most of
        // the time of a map of a tiny picture
        let mut small = [0; 256];
        let mut outlasted = 0;
        for a in 0..256 {
            outlasted = outlasted_from(steps, outlasted, a as u32);
            small[a] = outlasted;
        }
        Places { steps, small }
    }

    // How many of them an attribute outlasts, from the table if it is small.
    fn of(&self, a: u32) -> usize
        ensures { result ≡ places_before a self.now.steps.now }
    {
        if a < 256 {
            self.small[a as usize]
        } else {
            outlasted_by(self.steps, a)
        }
    }
}

// Lowers the place word of each node to at most how many of the thresholds it outlasts by the attribute that it holds.
pub fn lower(n: usize, steps: &[u32], nodes: usize, ws: &mut [u32])
    requires { Lowerable n nodes steps.now ws.old }
    ensures { Lowered n nodes steps.now ws.old ws.new }
{
    let places = Places::new(steps);
    for k in 0..nodes {
        let place = places.of(ws[3 * n + 3 * k + 2]) as u32;
        ws[2 * n + k] = ws[2 * n + k].min(place);
    }
}
