// The 64 bits that a call of the C interface answers, from the number and the value of its answer.
#![tactic(auto)]

ghost use Rattle.std.specs.Prelude.{◌≡◌, [], ◌∷◌};
ghost use Rattle.causes.specs.Causes.{number_of};
ghost use Rattle.calls.specs.Judging.{verdict_numbers};
ghost use Rattle.calls.specs.Calls.{built_numbers};
ghost use Rattle.codes.specs.Codes.{code_of};

use causes::Cause;

// The limit of specs/Codes.antt.
const VALUE_LIMIT: u64 = 4294967296;

pub fn refused(cause: Cause) -> u64
    ensures answer { result ≡ code_of (number_of cause ∷ []) }
{
    u64::from(u32::from(cause)) * VALUE_LIMIT
}

// An answer without a value: 0 for "done".
pub fn done(answer: Result<(), Cause>) -> u64
    ensures answer { result ≡ code_of (verdict_numbers answer) }
{
    match answer {
        Ok(()) => 0,
        Err(cause) => refused(cause),
    }
}

// An answer of one value.
pub fn value(answer: Result<u32, Cause>) -> u64
    ensures answer { result ≡ code_of (built_numbers answer) }
{
    match answer {
        Ok(value) => u64::from(value),
        Err(cause) => refused(cause),
    }
}
