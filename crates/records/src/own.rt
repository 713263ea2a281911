// Which numbers are the words of a record, told without making the record's words again.
ghost use Rattle.std.specs.Prelude.{◌≡◌};
ghost use Rattle.records.specs.Records.{phase_own, flat_of, worker_at, same_flat};

use super::Flat;
use crate::numbers::{LEAF, NEW, ON_ROUTING, ONE, REMOVE, TWO, UNDER_DATA, UNDER_ROUTING, WALK};

// What the phase does not note is 0, and a side is 0 or 1; other numbers are no phase.
#[tactic(auto, unfolding(crate::specs::Records::phase_own))]
fn phase_own(f: Flat) -> bool
    ensures { result ≡ phase_own f.phase f.this f.prev f.side f.before f.up f.other f.toward f.done }
{
    match f.phase {
        WALK | LEAF => (f.side <= 1)
            & (f.up <= 1)
            & (f.other == 0)
            & (f.toward == 0)
            & (f.done == 0),
        ON_ROUTING | TWO => (f.prev == 0)
            & (f.side == 0)
            & (f.before == 0)
            & (f.up == 0)
            & (f.other == 0)
            & (f.toward == 0),
        NEW => (f.this == 0)
            & (f.side <= 1)
            & (f.before == 0)
            & (f.up == 0)
            & (f.other == 0)
            & (f.toward == 0),
        ONE => (f.side <= 1) & (f.before == 0) & (f.up == 0) & (f.toward <= 1),
        UNDER_DATA => (f.side <= 1)
            & (f.before == 0)
            & (f.up == 0)
            & (f.other == 0)
            & (f.toward == 0),
        UNDER_ROUTING => (f.side <= 1) & (f.up <= 1) & (f.toward == 0),
        _ => false,
    }
}

// Are they the words of a record? The work and the sides are numbers of their kind, and what the phase does not note is 0.
#[tactic(auto, using(crate::proofs::OwnWords::own_same))]
pub fn is_own(f: Flat) -> bool
    ensures { result ≡ same_flat f (flat_of (worker_at f)) }
{
    (f.work <= REMOVE) & phase_own(f)
}
