// The plan in code: the action at each place of each case, the count of actions done, and the rules of a record. Each
// promises the protocol's definition, or one of specs/ that is made of these.
#![tactic(auto)]

ghost use Rattle.std.specs.Prelude.{◌≡◌, true, ◌&&◌, ◌<◌};
ghost use Rattle.moment.specs.Key.{legal_of};
ghost use Rattle.table.specs.Pair.{slots_of};
ghost use Rattle.protocol.specs.Plan.{at_root, action_at, done_of, with_done, is_store};
ghost use Rattle.protocol.specs.Record.{roles, record_fine};
ghost use Rattle.protocol.specs.Calls.{stored};
ghost use Rattle.protocol.specs.declared.Kind.TheVariants.{Lookup};
ghost use Rattle.protocol.specs.declared.Phase.TheVariants.{Walk};
ghost use Rattle.plan.specs.Due.{due_of};
ghost use Rattle.plan.specs.First.{locks_of};
ghost use Rattle.plan.specs.Holds.{hold_in};
ghost use Rattle.plan.specs.Lifts.{Lifts};

use protocol::{Action, Kind, Phase};
use table::Which;

mod cases;
pub mod dues;
mod holds;
mod roles;

// As an expected state: not deleted.
// Kept: a number, not an `Option`: it stands in `Action::Lock`, where `protocol` has the number of a state.
pub const PRESENT: u64 = 0;

// How a lock is held.
const READ: bool = false;

const WRITE: bool = true;

// The plan: the action at a place.
#[tactic(auto, unfolding(protocol::specs::Plan::plan, protocol::specs::Plan::action_at))]
pub fn action_at(phase: Phase, i: u64) -> Action
    ensures { result ≡ action_at phase i }
{
    match phase {
        Phase::Walk {
            at,
            prev,
            before,
            side,
            up,
        } => cases::walk_at(at, prev, before, side, up, i),
        Phase::OnRouting { this, .. } => cases::on_routing_at(this, i),
        Phase::New { prev, side, .. } => cases::new_at(prev, side, i),
        Phase::Two { this, .. } => cases::two_at(this, i),
        Phase::Leaf {
            this,
            prev,
            side,
            before,
            up,
        } => cases::leaf_at(this, prev, side, before, up, i),
        Phase::UnderData {
            this,
            prev,
            side,
            ..
        } => cases::under_data_at(this, prev, side, i),
        _ => cases::lifting_at(phase, i),
    }
}

// The action that is due in a phase that neither walks nor looks, where its roles are fine.
#[tactic(auto, unfolding(crate::specs::Due::due_of, crate::specs::Due::due_at, protocol::specs::Record::roles))]
pub fn due(n: u64, kind: Kind, phase: Phase) -> Action
    ensures { result ≡ due_of n kind phase }
{
    match kind {
        Kind::Lookup => Action::Beyond,
        Kind::Insert => dues::insert_due(n, phase),
        Kind::Remove => dues::remove_due(n, phase),
    }
}

// Where a work begins, and begins again.
pub fn at_root() -> Phase
    ensures { result ≡ at_root }
{
    Phase::Walk {
        at: 0,
        prev: 0,
        before: 0,
        side: true,
        up: true,
    }
}

// How many of its actions are done.
pub fn done_of(phase: Phase) -> u64
    ensures { result ≡ done_of phase }
{
    match phase {
        Phase::OnRouting { done, .. } => done,
        Phase::New { done, .. } => done,
        Phase::Two { done, .. } => done,
        Phase::One { done, .. } => done,
        Phase::UnderData { done, .. } => done,
        Phase::UnderRouting { done, .. } => done,
        Phase::Walk { .. } | Phase::Leaf { .. } => 0,
    }
}

// The phase with n of its actions done.
pub fn with_done(mut phase: Phase, n: u64) -> Phase
    ensures { result ≡ with_done phase n }
{
    match &mut phase {
        Phase::OnRouting { done, .. } => *done = n,
        Phase::New { done, .. } => *done = n,
        Phase::Two { done, .. } => *done = n,
        Phase::One { done, .. } => *done = n,
        Phase::UnderData { done, .. } => *done = n,
        Phase::UnderRouting { done, .. } => *done = n,
        Phase::Walk { .. } | Phase::Leaf { .. } => {}
    }
    phase
}

// How many locks the case takes, before it stores.
pub fn locks_of(phase: Phase) -> u64
    ensures { result ≡ locks_of phase }
{
    match phase {
        Phase::OnRouting { .. } | Phase::Two { .. } => 1,
        Phase::New { .. } => 2,
        Phase::One { .. } | Phase::UnderData { .. } => 3,
        Phase::UnderRouting { .. } => 5,
        Phase::Walk { .. } | Phase::Leaf { .. } => 0,
    }
}

// What a lock holds: one lock of a slot, written or read.
#[derive(Clone, Copy)]
pub struct Hold {
    pub slot: u64,
    pub which: Which,
    pub write: bool,
}

// What the lock at a place holds, of a place before the stores.
#[tactic(auto, using(crate::proofs::HoldLaws::on_routing_held, crate::proofs::HoldLaws::two_held))]
pub fn hold_at(phase: Phase, i: u64) -> Hold
    ensures { i < locks_of phase → result ≡ hold_in (action_at phase i) }
{
    match phase {
        Phase::OnRouting { this, .. } => holds::state(this, WRITE),
        Phase::New { prev, side, .. } => holds::new_hold(prev, side, i),
        Phase::Two { this, .. } => holds::state(this, WRITE),
        Phase::One {
            this,
            prev,
            side,
            toward,
            ..
        } => holds::one_hold(this, prev, side, toward, i),
        Phase::UnderData {
            this,
            prev,
            side,
            ..
        } => holds::under_data_hold(this, prev, side, i),
        Phase::UnderRouting {
            this,
            prev,
            side,
            before,
            up,
            ..
        } => holds::under_routing_hold(this, prev, side, before, up, i),
        // They take no lock, and nobody asks.
        Phase::Walk { .. } | Phase::Leaf { .. } => holds::state(0, WRITE),
    }
}

fn is_store(a: Action) -> bool
    ensures { result ≡ is_store a }
{
    matches!(a, Action::Mark(..) | Action::Link(..) | Action::Take(..))
}

// Has one of the first `done` actions stored?
#[tactic(auto, using(protocol::proofs::LockLaws::stored_none, crate::proofs::StoreLaws::stored_by))]
pub fn has_stored(phase: Phase, done: u64) -> bool
    ensures { result ≡ stored phase done }
{
    for i in 0..done {
        if is_store(action_at(phase, i)) {
            return true;
        }
    }
    false
}

// Is a busy record undamaged, and a worker counted busy?
#[tactic(auto, unfolding(protocol::specs::Record::record_fine))]
pub fn record_fine(words: &[u64], kind: Kind, key: u64, phase: Phase) -> bool
    ensures { result ≡ record_fine words.now kind key phase }
{
    let n = table::slots(words);
    moment::legal(key) & roles::roles_fine(n, kind, phase) & (table::busy(words) != 0)
}

// The same of a record that walks, whatever its work and the sides.
#[tactic(auto, unfolding(protocol::specs::Record::record_fine))]
pub fn walk_fine(words: &[u64], key: u64, at: u64, prev: u64, before: u64) -> bool
    ensures { result ≡ record_fine words.now Lookup key (Walk at prev before true true) }
{
    walk_quick(words, key, at, prev, before) & (table::busy(words) != 0)
}

// The same but for the busy count, for a caller that has judged that with the table. It is inline: a call of it costs a step
// of a walk a fifth more.
#[inline(always)]
pub fn walk_quick(words: &[u64], key: u64, at: u64, prev: u64, before: u64) -> bool
    ensures { result ≡ (legal_of key && roles (slots_of words.now) Lookup (Walk at prev before true true)) }
{
    moment::legal(key) && roles::walk_roles(table::slots(words), at, prev, before)
}
