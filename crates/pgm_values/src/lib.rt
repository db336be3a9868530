// The values of a picture that the reader and the writer of its file judge alike: the maximum, the number of pixels, the samples.
#![tactic(auto)]

ghost use Rattle.std.specs.Prelude.{◌≡◌, true, ◌*◌};
ghost use Rattle.causes.specs.Sides.{sides_fit};
ghost use Rattle.pgm_values.specs.Values.{maximum_fits, largest, all_at_most};

const LARGEST_MAXIMUM: u32 = 255;

// Whether a picture may have this maximum.
pub fn allowed(maximum: u32) -> bool
    ensures answer { result ≡ maximum_fits maximum }
{
    (1..=LARGEST_MAXIMUM).contains(&maximum)
}

// The number of pixels of a picture whose sides fit, and so 32 bits hold it; `Grid::pixels` is of any sides. That they fit is asked, since a picture is
// made of any numbers in the definitions.
pub fn pixels(width: u32, height: u32) -> usize
    requires sides { sides_fit width height ≡ true }
    ensures number { result ≡ width * height }
{
    (width * height) as usize
}

// The largest sample, 0 where there is none.
fn most(samples: &[u8]) -> u8
    ensures { result ≡ largest samples.now }
{
    let mut best = 0;
    for &sample in samples {
        best = best.max(sample);
    }
    best
}

// Whether no sample is above the maximum.
pub fn within(samples: &[u8], maximum: u32) -> bool
    ensures answer { result ≡ all_at_most maximum samples.now }
{
    most(samples) as u32 <= maximum
}
