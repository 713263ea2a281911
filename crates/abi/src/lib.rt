// The calls for C and Rust: numbers, and slices as pointer and length. Each is a call of the crates below; a worker's
// record is eleven lent words, and an answer is one number. include/pannuqreik.h says the same for the caller.
#![tactic(auto)]

ghost use Rattle.std.specs.Prelude.{◌≡◌};
ghost use Rattle.refusal.specs.Said.{said};
ghost use Rattle.calls.specs.Numbers.{number};
ghost use Rattle.abi.specs.Values.{value_or};

use calls::numbers::FINE;
use refusal::Refusal;

pub mod between;
pub mod keys;
pub mod texts;
pub mod workers;

// A value goes into its lent place, and a refusal leaves that as it was; returns the answer's number.
fn hand_back<T: Copy>(answer: Result<T, Refusal>, place: &mut T) -> u64
    ensures number { result ≡ number (said answer) }
    ensures place { place.new ≡ value_or (said answer) place.old }
{
    match answer {
        Ok(value) => {
            *place = value;
            FINE
        }
        Err(e) => e.number(),
    }
}
