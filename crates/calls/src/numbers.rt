// The number of each answer, as C and the lent words have it. 1 to 13 are document 01's, 5 for Full among them.
ghost use Rattle.std.specs.Prelude.{◌≡◌};
ghost use Rattle.refusal.specs.Said.{said};
ghost use Rattle.protocol.specs.Says.{answer_says};
ghost use Rattle.calls.specs.Numbers.{verdict_number, number, sound_number};

use protocol::Answer;
use refusal::Refusal;

// Going, done, or a value that is handed back beside the number.
pub const FINE: u64 = 0;

pub const FULL: u64 = 5;

pub const YES: u64 = 16;

pub const NO: u64 = 17;

pub fn of_answer(a: Answer) -> u64
    ensures { result ≡ verdict_number (answer_says a) }
{
    match a {
        Answer::Going => FINE,
        Answer::Yes => YES,
        Answer::No => NO,
        Answer::Full => FULL,
        Answer::Refused(e) => e.number(),
    }
}

pub fn of_reply(a: Result<(), Refusal>) -> u64
    ensures { result ≡ number (said a) }
{
    match a {
        Ok(()) => FINE,
        Err(why) => why.number(),
    }
}

pub fn of_checked(a: Result<bool, Refusal>) -> u64
    ensures { result ≡ sound_number (said a) }
{
    match a {
        Ok(true) => YES,
        Ok(false) => NO,
        Err(e) => e.number(),
    }
}
