// What a line calls the states of a slot, the kinds of work, the phases and the sides, and the numbers that the library
// has for them.
ghost use Rattle.std.specs.Prelude.{◌≡◌, Some};
ghost use Rattle.script.specs.Inverts.{Inverts};
ghost use Rattle.script.specs.Names.{state_name, kind_name, work_name, phase_name, side_name, state_number, work_number, phase_number, side_number};

use std::error::Error;
use std::fmt;
use std::str::FromStr;

// A word or a number that stands for nothing here.
#[derive(Clone, Copy, Debug, PartialEq, Eq)]
pub struct Unknown;

impl fmt::Display for Unknown {
    fn fmt<W: fmt::Write>(&self, f: &mut fmt::Formatter<W>) -> fmt::Result {
        f.write_str("it stands for nothing")
    }
}

impl Error for Unknown {}

// The state of a slot.
#[derive(Clone, Copy, Debug, PartialEq, Eq)]
pub enum State {
    Free = 0,
    Data = 1,
    Routing = 2,
    Deleted = 3,
}

impl FromStr for State {
    type Err = Unknown;

    ghost from_str_gives = { Inverts state_name };

    fn from_str(word: &str) -> Result<State, Unknown> {
        match word {
            "free" => Ok(State::Free),
            "data" => Ok(State::Data),
            "routing" => Ok(State::Routing),
            "deleted" => Ok(State::Deleted),
            _ => Err(Unknown),
        }
    }
}

impl fmt::Display for State {
    ghost output = { λ s. Some (state_name s) };

    fn fmt<W: fmt::Write>(&self, f: &mut fmt::Formatter<W>) -> fmt::Result {
        f.write_str(match self {
            State::Free => "free",
            State::Data => "data",
            State::Routing => "routing",
            State::Deleted => "deleted",
        })
    }
}

impl TryFrom<u64> for State {
    type Error = Unknown;

    ghost try_from_gives = { Inverts state_number };

    fn try_from(number: u64) -> Result<State, Unknown> {
        match number {
            0 => Ok(State::Free),
            1 => Ok(State::Data),
            2 => Ok(State::Routing),
            3 => Ok(State::Deleted),
            _ => Err(Unknown),
        }
    }
}

// A kind of work.
#[derive(Clone, Copy, Debug, PartialEq, Eq)]
pub enum Kind {
    Lookup = 1,
    Insert = 2,
    Remove = 3,
}

impl FromStr for Kind {
    type Err = Unknown;

    ghost from_str_gives = { Inverts kind_name };

    fn from_str(word: &str) -> Result<Kind, Unknown> {
        match word {
            "lookup" => Ok(Kind::Lookup),
            "insert" => Ok(Kind::Insert),
            "remove" => Ok(Kind::Remove),
            _ => Err(Unknown),
        }
    }
}

impl fmt::Display for Kind {
    ghost output = { λ k. Some (kind_name k) };

    fn fmt<W: fmt::Write>(&self, f: &mut fmt::Formatter<W>) -> fmt::Result {
        f.write_str(match self {
            Kind::Lookup => "lookup",
            Kind::Insert => "insert",
            Kind::Remove => "remove",
        })
    }
}

// What a worker is busy with, if it is.
#[derive(Clone, Copy, Debug, PartialEq, Eq)]
pub enum Work {
    Idle,
    Busy(Kind),
}

impl FromStr for Work {
    type Err = Unknown;

    ghost from_str_gives = { Inverts work_name };

    fn from_str(word: &str) -> Result<Work, Unknown> {
        match word {
            "idle" => Ok(Work::Idle),
            _ => Ok(Work::Busy(word.parse()?)),
        }
    }
}

impl fmt::Display for Work {
    ghost output = { λ w. Some (work_name w) };

    fn fmt<W: fmt::Write>(&self, f: &mut fmt::Formatter<W>) -> fmt::Result {
        match self {
            Work::Idle => write!(f, "idle"),
            Work::Busy(kind) => write!(f, "{kind}"),
        }
    }
}

impl From<Work> for u64 {
    ghost from_gives = { λ w n. n ≡ work_number w };

    fn from(work: Work) -> u64 {
        match work {
            Work::Idle => 0,
            Work::Busy(kind) => kind as u64,
        }
    }
}

impl TryFrom<u64> for Work {
    type Error = Unknown;

    ghost try_from_gives = { Inverts work_number };

    fn try_from(number: u64) -> Result<Work, Unknown> {
        match number {
            0 => Ok(Work::Idle),
            1 => Ok(Work::Busy(Kind::Lookup)),
            2 => Ok(Work::Busy(Kind::Insert)),
            3 => Ok(Work::Busy(Kind::Remove)),
            _ => Err(Unknown),
        }
    }
}

// The case that a work has come to.
#[derive(Clone, Copy, Debug, PartialEq, Eq)]
pub enum Phase {
    Walk = 0,
    OnRouting = 1,
    New = 2,
    Two = 3,
    One = 4,
    Leaf = 5,
    UnderData = 6,
    UnderRouting = 7,
}

impl FromStr for Phase {
    type Err = Unknown;

    ghost from_str_gives = { Inverts phase_name };

    fn from_str(word: &str) -> Result<Phase, Unknown> {
        match word {
            "walk" => Ok(Phase::Walk),
            "on-routing" => Ok(Phase::OnRouting),
            "new" => Ok(Phase::New),
            "two" => Ok(Phase::Two),
            "one" => Ok(Phase::One),
            "leaf" => Ok(Phase::Leaf),
            "under-data" => Ok(Phase::UnderData),
            "under-routing" => Ok(Phase::UnderRouting),
            _ => Err(Unknown),
        }
    }
}

impl fmt::Display for Phase {
    ghost output = { λ p. Some (phase_name p) };

    fn fmt<W: fmt::Write>(&self, f: &mut fmt::Formatter<W>) -> fmt::Result {
        f.write_str(match self {
            Phase::Walk => "walk",
            Phase::OnRouting => "on-routing",
            Phase::New => "new",
            Phase::Two => "two",
            Phase::One => "one",
            Phase::Leaf => "leaf",
            Phase::UnderData => "under-data",
            Phase::UnderRouting => "under-routing",
        })
    }
}

impl TryFrom<u64> for Phase {
    type Error = Unknown;

    ghost try_from_gives = { Inverts phase_number };

    fn try_from(number: u64) -> Result<Phase, Unknown> {
        match number {
            0 => Ok(Phase::Walk),
            1 => Ok(Phase::OnRouting),
            2 => Ok(Phase::New),
            3 => Ok(Phase::Two),
            4 => Ok(Phase::One),
            5 => Ok(Phase::Leaf),
            6 => Ok(Phase::UnderData),
            7 => Ok(Phase::UnderRouting),
            _ => Err(Unknown),
        }
    }
}

// A side of a slot.
#[derive(Clone, Copy, Debug, PartialEq, Eq)]
pub enum Side {
    Left = 0,
    Right = 1,
}

impl FromStr for Side {
    type Err = Unknown;

    ghost from_str_gives = { Inverts side_name };

    fn from_str(word: &str) -> Result<Side, Unknown> {
        match word {
            "left" => Ok(Side::Left),
            "right" => Ok(Side::Right),
            _ => Err(Unknown),
        }
    }
}

impl fmt::Display for Side {
    ghost output = { λ s. Some (side_name s) };

    fn fmt<W: fmt::Write>(&self, f: &mut fmt::Formatter<W>) -> fmt::Result {
        f.write_str(match self {
            Side::Left => "left",
            Side::Right => "right",
        })
    }
}

impl TryFrom<u64> for Side {
    type Error = Unknown;

    ghost try_from_gives = { Inverts side_number };

    fn try_from(number: u64) -> Result<Side, Unknown> {
        match number {
            0 => Ok(Side::Left),
            1 => Ok(Side::Right),
            _ => Err(Unknown),
        }
    }
}
