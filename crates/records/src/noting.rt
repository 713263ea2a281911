// From a record to its words: each phase notes what it has, and what it does not note is 0.
ghost use Rattle.std.specs.Prelude.{◌≡◌, true};
ghost use Rattle.records.specs.Records.{side_number, kind_number, work_number, is_remover, phase_flat, flat_of};

use super::{Flat, IDLE};
use crate::numbers::{
    INSERT, LEAF, LOOKUP, NEW, NO_WORK, ON_ROUTING, ONE, REMOVE, TWO, UNDER_DATA, UNDER_ROUTING,
    WALK,
};
use protocol::{Kind, Phase, Work, Worker};

// Kept: functions, not `From`: an impl of `From<Kind>` for a number must stand in `protocol`, which declares `Kind` and has no
// words of a record.

pub fn side_number(left: bool) -> u64
    ensures { result ≡ side_number left }
{
    u64::from(!left)
}

pub fn kind_number(kind: Kind) -> u64
    ensures { result ≡ kind_number kind }
{
    match kind {
        Kind::Lookup => LOOKUP,
        Kind::Insert => INSERT,
        Kind::Remove => REMOVE,
    }
}

fn work_number(work: Work) -> u64
    ensures { result ≡ work_number work }
{
    match work {
        Work::Idle => NO_WORK,
        Work::Busy(kind) => kind_number(kind),
    }
}

// A part of what a phase notes, put into the words that have none of it yet.
impl Flat {
    fn at(self, phase: u64, this: u64, done: u64) -> Flat
        ensures { result ≡ record self { phase = phase; this = this; done = done } }
    {
        Flat {
            phase,
            this,
            done,
            ..self
        }
    }

    fn under(self, prev: u64, side: bool) -> Flat
        ensures { result ≡ record self { prev = prev; side = side_number side } }
    {
        Flat {
            prev,
            side: side_number(side),
            ..self
        }
    }

    fn above(self, before: u64, up: bool) -> Flat
        ensures { result ≡ record self { before = before; up = side_number up } }
    {
        Flat {
            before,
            up: side_number(up),
            ..self
        }
    }

    fn beside(self, other: u64, toward: bool) -> Flat
        ensures { result ≡ record self { other = other; toward = side_number toward } }
    {
        Flat {
            other,
            toward: side_number(toward),
            ..self
        }
    }
}

// Of the phases in which a remover takes the locks of its case, and of the leaf.
fn remover_flat(work: u64, key: u64, p: Phase) -> Flat
    ensures { is_remover p ≡ true → result ≡ phase_flat work key p }
{
    let f = Flat { work, key, ..IDLE };
    match p {
        Phase::One {
            this,
            prev,
            side,
            child,
            toward,
            done,
        } => f
            .at(ONE, this, done)
            .under(prev, side)
            .beside(child, toward),
        Phase::Leaf {
            this,
            prev,
            side,
            before,
            up,
        } => f.at(LEAF, this, 0).under(prev, side).above(before, up),
        Phase::UnderData {
            this,
            prev,
            side,
            done,
        } => f.at(UNDER_DATA, this, done).under(prev, side),
        Phase::UnderRouting {
            this,
            prev,
            side,
            before,
            up,
            other,
            done,
        } => f
            .at(UNDER_ROUTING, this, done)
            .under(prev, side)
            .above(before, up)
            .beside(other, true),
        _ => f,
    }
}

fn phase_flat(work: u64, key: u64, p: Phase) -> Flat
    ensures { result ≡ phase_flat work key p }
{
    let f = Flat { work, key, ..IDLE };
    match p {
        Phase::Walk {
            at,
            prev,
            before,
            side,
            up,
        } => f.at(WALK, at, 0).under(prev, side).above(before, up),
        Phase::OnRouting { this, done } => f.at(ON_ROUTING, this, done),
        Phase::New { prev, side, done } => f.at(NEW, 0, done).under(prev, side),
        Phase::Two { this, done } => f.at(TWO, this, done),
        _ => remover_flat(work, key, p),
    }
}

impl From<Worker> for Flat {
    ghost from_gives = { λ w f. f ≡ flat_of w };

    #[tactic(auto, unfolding(crate::specs::Records::flat_of))]
    fn from(w: Worker) -> Flat {
        phase_flat(work_number(w.work), w.key, w.phase)
    }
}
