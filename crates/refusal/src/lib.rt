// Why a call refuses. A refusal changes nothing, and the number of each is document 01's.
#![tactic(auto)]

ghost use Rattle.std.specs.Prelude.{◌≡◌};
ghost use Rattle.refusal.specs.Said.{number};

use std::error::Error;
use std::fmt;

// The reasons, in the order of their numbers; where several hold, each call says which comes first.
#[derive(Clone, Copy, Debug, PartialEq, Eq, Hash)]
pub enum Refusal {
    Table = 1,
    State = 2,
    Range = 3,
    Busy = 4,
    Damaged = 6,
    Stored = 7,
    Working = 8,
    Readers = 9,
    Text = 10,
    Beyond = 11,
    Unknown = 12,
    None = 13,
}

impl Refusal {
    // Document 01's number.
    pub fn number(self) -> u64
        ensures { result ≡ number self }
    {
        self as u64
    }
}

impl From<Refusal> for u64 {
    ghost from_gives = { λ r n. n ≡ number r };

    fn from(r: Refusal) -> u64 {
        r.number()
    }
}

impl fmt::Display for Refusal {
    fn fmt<W: fmt::Write>(&self, f: &mut fmt::Formatter<W>) -> fmt::Result {
        let why = match self {
            Refusal::Table =>
                "the words are odd, under 4 or over 2,048, or the root's pair breaks a rule",
            Refusal::State => "start on a busy worker, or step or withdraw on an idle one",
            Refusal::Range => "a key that is not legal, or fields out of range",
            Refusal::Busy => "16 workers are busy",
            Refusal::Damaged => "the record or the table is damaged",
            Refusal::Stored => "the worker has stored already, and can no longer be withdrawn",
            Refusal::Working => "a worker is busy",
            Refusal::Readers => "16 readers hold the word; step again later",
            Refusal::Text =>
                "the text has none of the forms, or says a date or time that does not exist",
            Refusal::Beyond =>
                "place or length beyond the buffer, or more keys than the buffer holds",
            Refusal::Unknown => "the text says that the time is unknown",
            Refusal::None => "no key at or above that number",
        };
        write!(f, "refused {}: {why}", self.number())
    }
}

impl Error for Refusal {}
