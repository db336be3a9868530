// A part of a list that is lent and comes back, with words stored in it or filled with one word: the laws, and the function that stores one
// word in a part that is lent to it by itself.
#![tactic(auto)]

ghost use Rattle.std.specs.Prelude.{◌≡◌, ◌<◌, length, set};

// Stores one word in a part of the workspace that is lent by itself.
pub fn put_word(part: &mut [u32], at: usize, word: u32)
    requires { at < length part.old }
    ensures { part.new ≡ set part.old at word }
{
    part[at] = word;
}
