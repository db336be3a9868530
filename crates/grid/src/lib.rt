// The grid of a picture, by value: what a call names of its pixels' places and neighbours. Definitions of neighbours and attributes, and their laws, are over it.
// And thresholds of all three attributes, by value.
#![tactic(auto)]

ghost use Rattle.std.specs.Prelude.{◌≡◌};
ghost use Rattle.grid.specs.Pixels.{pixels};

#[derive(Clone, Copy, Debug, PartialEq, Eq)]
pub struct Grid {
    pub width: u32,
    pub height: u32,
    // by its number, as a call names it: another than 4 and 8 is refused, after the attribute
    pub neighbours: u32,
}

// A step of three thresholds: what a node must have of each attribute to stay.
#[derive(Clone, Copy, Debug, PartialEq, Eq)]
pub struct Triple {
    pub area: u32,
    pub height: u32,
    pub width: u32,
}

impl Grid {
    // How many pixels a picture has. The product of any two sides fits 64 bits.
    pub fn pixels(self) -> usize
        ensures answer { result ≡ pixels self }
    {
        self.width as usize * self.height as usize
    }
}
