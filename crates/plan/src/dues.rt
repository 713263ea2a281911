// The action that is due, of a phase that is taken apart once: its roles are judged, and its action found, by its
// numbers. Each phase that counts its actions has a function by numbers: whoever has taken the phase apart asks it
// without the phase. What `_` leaves: phases that walk, that look, or that are of another kind of work; of these none
// is due.
// Kept: what a phase notes is handed on number by number, here as in `cases`, `holds` and `roles`: a step of a plan has the
// numbers in its words, and takes some fifty instructions more where it builds the phase first.
#![tactic(auto, unfolding(crate::specs::Due::due_of, crate::specs::Due::due_at, protocol::specs::Record::roles, protocol::specs::Plan::plan, protocol::specs::Plan::action_at))]

ghost use Rattle.std.specs.Prelude.{◌≡◌, cond};
ghost use Rattle.protocol.specs.declared.Kind.TheVariants.{Insert, Remove};
ghost use Rattle.protocol.specs.declared.Phase.TheVariants.{OnRouting, New, Two, One, UnderData, UnderRouting};
ghost use Rattle.protocol.specs.declared.Action.TheVariants.{Beyond};
ghost use Rattle.plan.specs.Due.{due_of};

use crate::{cases, roles};
use protocol::{Action, Phase};

fn due_if(fine: bool, a: Action) -> Action
    ensures { result ≡ cond fine a Beyond }
{
    if fine {
        return a;
    }
    Action::Beyond
}

pub fn on_routing_due(n: u64, this: u64, done: u64) -> Action
    ensures { result ≡ due_of n Insert (OnRouting this done) }
{
    due_if(
        roles::state_roles(n, this, done),
        cases::on_routing_at(this, done),
    )
}

pub fn new_due(n: u64, prev: u64, side: bool, done: u64) -> Action
    ensures { result ≡ due_of n Insert (New prev side done) }
{
    due_if(
        roles::new_roles(n, prev, done),
        cases::new_at(prev, side, done),
    )
}

pub fn insert_due(n: u64, phase: Phase) -> Action
    ensures { result ≡ due_of n Insert phase }
{
    match phase {
        Phase::OnRouting { this, done } => on_routing_due(n, this, done),
        Phase::New { prev, side, done } => new_due(n, prev, side, done),
        _ => Action::Beyond,
    }
}

pub fn two_due(n: u64, this: u64, done: u64) -> Action
    ensures { result ≡ due_of n Remove (Two this done) }
{
    due_if(roles::state_roles(n, this, done), cases::two_at(this, done))
}

pub fn one_due(
    n: u64,
    this: u64,
    prev: u64,
    side: bool,
    child: u64,
    toward: bool,
    done: u64,
) -> Action
    ensures { result ≡ due_of n Remove (One this prev side child toward done) }
{
    due_if(
        roles::one_roles(n, this, prev, child, done),
        cases::one_at(this, prev, side, child, toward, done),
    )
}

pub fn under_data_due(n: u64, this: u64, prev: u64, side: bool, done: u64) -> Action
    ensures { result ≡ due_of n Remove (UnderData this prev side done) }
{
    due_if(
        roles::under_data_roles(n, this, prev, done),
        cases::under_data_at(this, prev, side, done),
    )
}

pub fn under_routing_due(
    n: u64,
    this: u64,
    prev: u64,
    side: bool,
    before: u64,
    up: bool,
    other: u64,
    done: u64,
) -> Action
    ensures { result ≡ due_of n Remove (UnderRouting this prev side before up other done) }
{
    due_if(
        roles::under_routing_roles(n, this, prev, before, other, done),
        cases::under_routing_at(this, prev, side, before, up, other, done),
    )
}

pub fn remove_due(n: u64, phase: Phase) -> Action
    ensures { result ≡ due_of n Remove phase }
{
    match phase {
        Phase::Two { this, done } => two_due(n, this, done),
        Phase::One {
            this,
            prev,
            side,
            child,
            toward,
            done,
        } => one_due(n, this, prev, side, child, toward, done),
        Phase::UnderData {
            this,
            prev,
            side,
            done,
        } => under_data_due(n, this, prev, side, done),
        Phase::UnderRouting {
            this,
            prev,
            side,
            before,
            up,
            other,
            done,
        } => under_routing_due(n, this, prev, side, before, up, other, done),
        _ => Action::Beyond,
    }
}
