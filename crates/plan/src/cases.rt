// The plan of each case, one function a case in document 01's order.
#![tactic(auto, using(protocol::proofs::PlanLaws::past, protocol::proofs::PlanLaws::beyond), unfolding(protocol::specs::Plan::plan, protocol::specs::Plan::action_at))]

ghost use Rattle.std.specs.Prelude.{◌≡◌};
ghost use Rattle.table.specs.declared.Which.TheVariants.{State, Edge};
ghost use Rattle.protocol.specs.Plan.{present, action_at};
ghost use Rattle.protocol.specs.declared.Action.TheVariants.{Lock};
ghost use Rattle.protocol.specs.declared.Links.TheVariants.{Is};
ghost use Rattle.plan.specs.Lifts.{Lifts};
ghost use Rattle.protocol.specs.declared.Phase.TheVariants.{Walk, OnRouting, New, Two, One, Leaf, UnderData, UnderRouting};

use crate::{PRESENT, READ, WRITE};
use protocol::{Action, Links, Phase};
use table::{DATA, DELETED, ROUTING, Which};

// A lock on the edge to that child; its slot is not deleted.
fn edge(slot: u64, side: bool, write: bool, child: u64) -> Action
    ensures { result ≡ Lock slot (Edge side) write present (Is side child) }
{
    Action::Lock(
        slot,
        Which::Edge(side),
        write,
        PRESENT,
        Links::Is(side, child),
    )
}

// A lock on the state.
fn state(slot: u64, write: bool, state: u64, links: Links) -> Action
    ensures { result ≡ Lock slot State write state links }
{
    Action::Lock(slot, Which::State, write, state, links)
}

// The walk: one slot.
pub fn walk_at(at: u64, prev: u64, before: u64, side: bool, up: bool, i: u64) -> Action
    ensures { result ≡ action_at (Walk at prev before side up) i }
{
    match i {
        0 => Action::Visit(at, prev, before, side, up),
        _ => Action::Beyond,
    }
}

// Insert on routing.
pub fn on_routing_at(this: u64, i: u64) -> Action
    ensures { result ≡ action_at (OnRouting this 0) i }
{
    match i {
        0 => state(this, WRITE, ROUTING, Links::Any),
        1 => Action::Mark(this, DATA),
        2 => Action::End,
        _ => Action::Beyond,
    }
}

// Insert new.
pub fn new_at(prev: u64, side: bool, i: u64) -> Action
    ensures { result ≡ action_at (New prev side 0) i }
{
    match i {
        0 => edge(prev, side, WRITE, 0),
        1 => state(prev, READ, PRESENT, Links::Any),
        2 => Action::Take(prev, side),
        3 => Action::End,
        _ => Action::Beyond,
    }
}

// Remove, two children.
pub fn two_at(this: u64, i: u64) -> Action
    ensures { result ≡ action_at (Two this 0) i }
{
    match i {
        0 => state(this, WRITE, DATA, Links::Both),
        1 => Action::Mark(this, ROUTING),
        2 => Action::End,
        _ => Action::Beyond,
    }
}

// Remove, one child.
pub fn one_at(this: u64, prev: u64, side: bool, child: u64, toward: bool, i: u64) -> Action
    ensures { result ≡ action_at (One this prev side child toward 0) i }
{
    match i {
        0 => edge(this, toward, READ, child),
        1 => edge(prev, side, WRITE, this),
        2 => state(this, WRITE, DATA, Links::Is(!toward, 0)),
        3 => Action::Mark(this, DELETED),
        4 => Action::Link(prev, side, child),
        5 => Action::End,
        _ => Action::Beyond,
    }
}

// Remove, leaf: one step only reads previous.
pub fn leaf_at(this: u64, prev: u64, side: bool, before: u64, up: bool, i: u64) -> Action
    ensures { result ≡ action_at (Leaf this prev side before up) i }
{
    match i {
        0 => Action::Look(this, prev, side, before, up),
        _ => Action::Beyond,
    }
}

// Remove, leaf, previous data.
pub fn under_data_at(this: u64, prev: u64, side: bool, i: u64) -> Action
    ensures { result ≡ action_at (UnderData this prev side 0) i }
{
    match i {
        0 => edge(prev, side, WRITE, this),
        1 => state(this, WRITE, DATA, Links::Neither),
        2 => state(prev, READ, DATA, Links::Any),
        3 => Action::Mark(this, DELETED),
        4 => Action::Link(prev, side, 0),
        5 => Action::End,
        _ => Action::Beyond,
    }
}

// Remove, leaf, previous routing.
pub fn under_routing_at(
    this: u64,
    prev: u64,
    side: bool,
    before: u64,
    up: bool,
    other: u64,
    i: u64,
) -> Action
    ensures { result ≡ action_at (UnderRouting this prev side before up other 0) i }
{
    match i {
        0 => edge(prev, side, WRITE, this),
        1 => state(this, WRITE, DATA, Links::Neither),
        2 => edge(prev, !side, READ, other),
        3 => edge(before, up, WRITE, prev),
        4 => state(prev, WRITE, ROUTING, Links::Any),
        5 => Action::Mark(this, DELETED),
        6 => Action::Mark(prev, DELETED),
        7 => Action::Link(before, up, other),
        8 => Action::End,
        _ => Action::Beyond,
    }
}

// The action at a place, of a phase that lifts a child.
pub fn lifting_at(phase: Phase, i: u64) -> Action
    ensures { Lifts phase → result ≡ action_at phase i }
{
    match phase {
        Phase::One {
            this,
            prev,
            side,
            child,
            toward,
            ..
        } => one_at(this, prev, side, child, toward, i),
        Phase::UnderRouting {
            this,
            prev,
            side,
            before,
            up,
            other,
            ..
        } => under_routing_at(this, prev, side, before, up, other, i),
        _ => Action::Beyond,
    }
}
