// What the locks of a case hold, by its numbers. The plan's action tells it too, but is larger, with what the lock expects, and
// who gives locks up needs no more than this. No place past the locks is asked for: there any hold will do.
#![tactic(auto, unfolding(protocol::specs::Plan::plan, protocol::specs::Plan::action_at, crate::specs::Holds::hold_in))]

ghost use Rattle.std.specs.Prelude.{◌≡◌, ℕ, ◌<◌};
ghost use Rattle.protocol.specs.Plan.{action_at};
ghost use Rattle.protocol.specs.declared.Phase.TheVariants.{New, One, UnderData, UnderRouting};
ghost use Rattle.plan.specs.Holds.{edge_hold, state_hold, hold_in};

use crate::{Hold, READ, WRITE};
use table::Which;

fn edge(slot: u64, side: bool, write: bool) -> Hold
    ensures { result ≡ edge_hold slot side write }
{
    Hold {
        slot,
        which: Which::Edge(side),
        write,
    }
}

pub fn state(slot: u64, write: bool) -> Hold
    ensures { result ≡ state_hold slot write }
{
    Hold {
        slot,
        which: Which::State,
        write,
    }
}

// Insert new.
pub fn new_hold(prev: u64, side: bool, i: u64) -> Hold
    ensures { (done : ℕ) → i < 2 → result ≡ hold_in (action_at (New prev side done) i) }
{
    match i {
        0 => edge(prev, side, WRITE),
        _ => state(prev, READ),
    }
}

// Remove, one child.
pub fn one_hold(this: u64, prev: u64, side: bool, toward: bool, i: u64) -> Hold
    ensures { (child done : ℕ) → i < 3 → result ≡ hold_in (action_at (One this prev side child toward done) i) }
{
    match i {
        0 => edge(this, toward, READ),
        1 => edge(prev, side, WRITE),
        _ => state(this, WRITE),
    }
}

// Remove, leaf, previous data.
pub fn under_data_hold(this: u64, prev: u64, side: bool, i: u64) -> Hold
    ensures { (done : ℕ) → i < 3 → result ≡ hold_in (action_at (UnderData this prev side done) i) }
{
    match i {
        0 => edge(prev, side, WRITE),
        1 => state(this, WRITE),
        _ => state(prev, READ),
    }
}

// Remove, leaf, previous routing: the first two are as under data.
pub fn under_routing_hold(this: u64, prev: u64, side: bool, before: u64, up: bool, i: u64) -> Hold
    ensures { (other done : ℕ) → i < 5 → result ≡ hold_in (action_at (UnderRouting this prev side before up other done) i) }
{
    match i {
        2 => edge(prev, !side, READ),
        3 => edge(before, up, WRITE),
        4 => state(prev, WRITE),
        _ => under_data_hold(this, prev, side, i),
    }
}
