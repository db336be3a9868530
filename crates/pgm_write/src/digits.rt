// Numbers in decimal, with no leading zeros. That they have seven digits at most is asked of each: a type for it would be made of plain numbers at
// every call, by the same proof.
ghost use Rattle.std.specs.Prelude.{◌≡◌, ◌+◌, ◌^◌, ◌≤◌, ◌<◌, length};
ghost use Rattle.std.proofs.lemmas.List.Edits.{sets};
ghost use Rattle.pgm_header.specs.Header.{most_digits};
ghost use Rattle.pgm_write.specs.Write.{digits_of};

// How many digits x has.
pub fn digit_total(x: u32) -> usize
    requires { x < 10 ^ most_digits }
    ensures { result ≡ length (digits_of x) }
{
    if x < 10 { 1 } else { digit_total(x / 10) + 1 }
}

// Stores the digits of x from `at` on, and answers the position after them.
pub fn put_number(buffer: &mut [u8], at: usize, x: u32) -> usize
    requires number { x < 10 ^ most_digits }
    requires room { at + length (digits_of x) ≤ length buffer.old }
    ensures next { result ≡ at + length (digits_of x) }
    ensures buffer { buffer.new ≡ sets buffer.old at (digits_of x) }
{
    if x < 10 {
        buffer[at] = b'0' + x as u8;
        at + 1
    } else {
        let last = put_number(buffer, at, x / 10);
        buffer[last] = b'0' + (x % 10) as u8;
        last + 1
    }
}
