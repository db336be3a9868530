// What stands on a line after its first word and tab: the attribute's name, or a step's number.
ghost use Rattle.std.specs.Prelude.{◌≡◌, true, cond, ◌&&◌, leb, eqb, Some, None};
ghost use Rattle.std.specs.List.{list_all};
ghost use Rattle.steps.specs.Fields.{field, is_number, value_after, attribute_of};

fn all_between(bytes: &[u8], low: u8, high: u8) -> bool
    ensures { result ≡ list_all (λ b. leb low b && leb b high) bytes.now }
{
    bytes.iter().all(|b| (low..=high).contains(b))
}

// Whether there are 1 to `longest` bytes, each of low to high.
#[tactic(auto, using(crate::proofs::Scanning::all_between_all), unfolding(crate::specs::Fields::field))]
pub fn field(bytes: &[u8], longest: usize, low: u8, high: u8) -> bool
    ensures { result ≡ field longest low high bytes.now }
{
    (1..=longest).contains(&bytes.len()) && all_between(bytes, low, high)
}

#[tactic(auto, using(crate::proofs::Shaping::field_some))]
pub fn is_number(bytes: &[u8]) -> bool
    ensures { result ≡ is_number bytes.now }
{
    field(bytes, 7, b'0', b'9') && (bytes.len() == 1 || bytes[0] != b'0')
}

// The number that up to 7 digits spell.
pub fn value(digits: &[u8]) -> u32
    requires { field 7 48 57 digits.now ≡ true }
    ensures { result ≡ value_after 0 digits.now }
{
    let mut v = 0;
    for digit in digits {
        v = v * 10 + u32::from(digit - b'0');
    }
    v
}

// The number of the attribute that a word names.
#[tactic(auto, using(crate::proofs::Scanning::same_word), unfolding(crate::specs::Fields::attribute_of))]
pub fn attribute_of(word: &[u8]) -> Option<u32>
    ensures { result ≡ cond (eqb (attribute_of word.now) 0) None (Some (attribute_of word.now)) }
{
    if word == b"area".as_slice() {
        Some(1)
    } else if word == b"height".as_slice() {
        Some(2)
    } else if word == b"width".as_slice() {
        Some(3)
    } else {
        None
    }
}
