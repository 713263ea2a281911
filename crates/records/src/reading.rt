// From words to a record: whatever the numbers are, something is read.
ghost use Rattle.std.specs.Prelude.{◌≡◌, eqb};
ghost use Rattle.records.specs.Records.{work_at, under_at, worker_at};

use super::Flat;
use crate::numbers::{
    INSERT, LEAF, LOOKUP, NEW, ON_ROUTING, ONE, REMOVE, TWO, UNDER_DATA, UNDER_ROUTING,
};
use protocol::{Kind, Phase, Work, Worker};

fn is_left(side: u64) -> bool
    ensures { result ≡ eqb side 0 }
{
    side == 0
}

// Kept: a function, as those of noting.rt: `From` for `Work` must stand in `protocol`.
#[tactic(auto, unfolding(crate::specs::Records::work_at))]
fn work_at(n: u64) -> Work
    ensures { result ≡ work_at n }
{
    match n {
        LOOKUP => Work::Busy(Kind::Lookup),
        INSERT => Work::Busy(Kind::Insert),
        REMOVE => Work::Busy(Kind::Remove),
        _ => Work::Idle,
    }
}

// Kept: the phases are told by one test after the other, not by a `match`: a `match` hands its value on where its arms
// join, and `read` takes ten instructions more.

// A remover's phases under a parent; of any other number a walk.
fn under_of(f: Flat) -> Phase
    ensures { result ≡ under_at f.phase f.this f.prev (eqb f.side 0) f.before (eqb f.up 0) f.other f.done }
{
    if f.phase == UNDER_DATA {
        return Phase::UnderData {
            this: f.this,
            prev: f.prev,
            side: is_left(f.side),
            done: f.done,
        };
    }
    if f.phase == UNDER_ROUTING {
        return Phase::UnderRouting {
            this: f.this,
            prev: f.prev,
            side: is_left(f.side),
            before: f.before,
            up: is_left(f.up),
            other: f.other,
            done: f.done,
        };
    }
    Phase::Walk {
        at: f.this,
        prev: f.prev,
        before: f.before,
        side: is_left(f.side),
        up: is_left(f.up),
    }
}

// The phase that the words say, for a caller that needs no more of the record.
#[tactic(auto, unfolding(crate::specs::Records::worker_at, crate::specs::Records::phase_at))]
pub fn phase_of(f: Flat) -> Phase
    ensures { result ≡ (worker_at f).phase }
{
    if f.phase == ON_ROUTING {
        return Phase::OnRouting {
            this: f.this,
            done: f.done,
        };
    }
    if f.phase == NEW {
        return Phase::New {
            prev: f.prev,
            side: is_left(f.side),
            done: f.done,
        };
    }
    if f.phase == TWO {
        return Phase::Two {
            this: f.this,
            done: f.done,
        };
    }
    if f.phase == ONE {
        return Phase::One {
            this: f.this,
            prev: f.prev,
            side: is_left(f.side),
            child: f.other,
            toward: is_left(f.toward),
            done: f.done,
        };
    }
    if f.phase == LEAF {
        return Phase::Leaf {
            this: f.this,
            prev: f.prev,
            side: is_left(f.side),
            before: f.before,
            up: is_left(f.up),
        };
    }
    under_of(f)
}

impl From<Flat> for Worker {
    ghost from_gives = { λ f w. w ≡ worker_at f };

    #[tactic(auto, unfolding(crate::specs::Records::worker_at))]
    fn from(f: Flat) -> Worker {
        Worker {
            work: work_at(f.work),
            key: f.key,
            phase: phase_of(f),
        }
    }
}
