// The causes for which a call refuses its input, each with its number, and the bounds on a picture's sides that every call shares.
#![tactic(auto)]

ghost use Rattle.std.specs.Prelude.{◌≡◌};
ghost use Rattle.causes.specs.Causes.{number_of};
ghost use Rattle.causes.specs.Sides.{sides_fit};

// The bounds of specs/Bounds.antt.
pub const LONGEST_SIDE: u32 = 4096;

pub const MOST_PIXELS: u32 = 1048576;

pub const TOP_THRESHOLD: u32 = 1048577;

pub const MOST_STEPS: usize = 256;

pub const MOST_GAP: u32 = 256;

pub const WORDS_A_PIXEL: usize = 7;

#[derive(Clone, Copy, Debug, PartialEq, Eq, Hash)]
pub enum Cause {
    Sides,
    PictureLength,
    Attribute,
    Steps,
    Workspace,
    Output,
    Buffer,
    Sign,
    Header,
    Maximum,
    RasterLength,
    Sample,
    StepsFile,
    TooLarge,
    NotRead,
    View,
    Neighbours,
    PictureNumber,
    Gap,
}

// The number that a host is told.
impl From<Cause> for u32 {
    ghost from_gives = { λ cause number. number ≡ number_of cause };

    fn from(cause: Cause) -> u32 {
        match cause {
            Cause::Sides => 1,
            Cause::PictureLength => 2,
            Cause::Attribute => 3,
            Cause::Steps => 4,
            Cause::Workspace => 5,
            Cause::Output => 6,
            Cause::Buffer => 7,
            Cause::Sign => 8,
            Cause::Header => 9,
            Cause::Maximum => 10,
            Cause::RasterLength => 11,
            Cause::Sample => 12,
            Cause::StepsFile => 13,
            Cause::TooLarge => 14,
            Cause::NotRead => 15,
            Cause::View => 16,
            Cause::Neighbours => 17,
            Cause::PictureNumber => 18,
            Cause::Gap => 19,
        }
    }
}

// Whether a picture may have these sides. Each side is tested before the two are multiplied.
pub fn fit(width: u32, height: u32) -> bool
    ensures answer { result ≡ sides_fit width height }
{
    (1..=LONGEST_SIDE).contains(&width)
        && (1..=LONGEST_SIDE).contains(&height)
        && width * height <= MOST_PIXELS
}
