// Locks: taking one, and giving up all that are held. Each function takes any words and any numbers, and promises the protocol's
// definition, its part before a phase is settled (specs/Taking.antt), or that of one hold (specs/Holding.antt).
#![tactic(auto)]

ghost use Rattle.std.specs.Prelude.{◌≡◌};
ghost use Rattle.protocol.specs.Locks.{state_fits, links_fit, clear, holds, weight, crowded, granted, all_held, released};
ghost use Rattle.locks.specs.Holding.{held_by, freed_by};
ghost use Rattle.locks.specs.Taking.{given_up, take_lock, TakenBy};

use plan::{Hold, PRESENT};
use protocol::{Answer, Links, Phase};
use refusal::Refusal;
use table::{DELETED, Which};

// What an action that is not refused comes to by itself: it is done, its lock is denied, or the work ends with an answer. What
// becomes of the phase is settled after it, so no phase is handed down.
#[derive(Clone, Copy, Debug, PartialEq, Eq, Hash)]
pub enum Acted {
    Done,
    Denied,
    Finished(Answer),
}

#[tactic(auto, unfolding(protocol::specs::Locks::state_fits))]
fn state_fits(want: u64, s: u64) -> bool
    ensures { result ≡ state_fits want s }
{
    if want == PRESENT {
        s != DELETED
    } else {
        s == want
    }
}

#[tactic(auto, unfolding(protocol::specs::Locks::links_fit))]
fn links_fit(words: &[u64], slot: u64, links: Links) -> bool
    ensures { result ≡ links_fit words.now slot links }
{
    match links {
        Links::Any => true,
        Links::Is(side, child) => table::link(words, slot, side) == child,
        Links::Neither => (table::link(words, slot, true) == 0)
            & (table::link(words, slot, false) == 0),
        Links::Both => (table::link(words, slot, true) != 0)
            & (table::link(words, slot, false) != 0),
    }
}

// No lock conflicts: a writer does with all, a reader with a writer.
#[tactic(auto, unfolding(protocol::specs::Locks::clear))]
fn is_clear(write: bool, x: u64) -> bool
    ensures { result ≡ clear write x }
{
    if write { x == 0 } else { x != 1 }
}

#[tactic(auto, unfolding(protocol::specs::Locks::holds))]
fn is_held(write: bool, x: u64) -> bool
    ensures { result ≡ holds write x }
{
    if write { x == 1 } else { 2 <= x }
}

fn weight_of(write: bool) -> u64
    ensures { result ≡ weight write }
{
    if write { 1 } else { 2 }
}

#[tactic(auto, unfolding(protocol::specs::Locks::crowded))]
fn is_crowded(write: bool, x: u64) -> bool
    ensures { result ≡ crowded write x }
{
    !write & (32 <= x)
}

#[tactic(auto, unfolding(protocol::specs::Locks::granted))]
fn is_granted(words: &[u64], slot: u64, which: Which, write: bool, state: u64, links: Links) -> bool
    ensures { result ≡ granted words.now slot which write state links }
{
    let s = table::state(words, slot);
    let x = table::lock(words, slot, which);
    state_fits(state, s) & links_fit(words, slot, links) & is_clear(write, x)
}

#[tactic(auto, unfolding(crate::specs::Holding::held_by))]
fn held_one(words: &[u64], h: Hold) -> bool
    ensures { result ≡ held_by words.now h }
{
    let slot = h.slot;
    let which = h.which;
    let write = h.write;
    let x = table::lock(words, slot, which);
    table::pair_fine(words, slot) & is_held(write, x)
}

#[tactic(auto, unfolding(crate::specs::Holding::freed_by))]
fn release_one(words: &mut [u64], h: Hold)
    ensures { words.new ≡ freed_by words.old h }
{
    let slot = h.slot;
    let which = h.which;
    let write = h.write;
    let x = table::lock(words, slot, which);
    let y = x.saturating_sub(weight_of(write));
    table::set_lock(words, slot, which, y);
}

// Are the locks of the first `done` actions held, in pairs that are fine? The plan's locks come first: no action after them is
// asked for.
pub fn all_held(words: &[u64], phase: Phase, done: u64) -> bool
    ensures { result ≡ all_held words.now phase done }
{
    let asked = done.min(plan::locks_of(phase));
    for i in 0..asked {
        if !held_one(words, plan::hold_at(phase, i)) {
            return false;
        }
    }
    true
}

pub fn release_all(words: &mut [u64], phase: Phase, done: u64)
    ensures { words.new ≡ released words.old phase done }
{
    let held = done.min(plan::locks_of(phase));
    for i in 0..held {
        release_one(words, plan::hold_at(phase, i));
    }
}

// All locks held are judged, then all are given up: true; or one is not held, and nothing changes.
pub fn give_up(words: &mut [u64], phase: Phase, done: u64) -> bool
    ensures { (result ≡ all_held words.old phase done) × (words.new ≡ given_up words.old phase done) }
{
    if !all_held(words, phase, done) {
        return false;
    }
    release_all(words, phase, done);
    true
}

// The lock is taken, denied, or refused 9 where 16 readers hold it.
#[tactic(auto, using(table::proofs::PairLaws::lock_lt, protocol::proofs::LockLaws::weight_lt), unfolding(crate::specs::Taking::take_lock))]
pub fn take_lock(
    words: &mut [u64],
    slot: u64,
    which: Which,
    write: bool,
    state: u64,
    links: Links,
) -> Result<Acted, Refusal>
    ensures { (result ≡ (take_lock words.old slot which write state links).said) × (words.new ≡ (take_lock words.old slot which write state links).words) }
{
    if !is_granted(words, slot, which, write, state, links) {
        return Ok(Acted::Denied);
    }
    let x = table::lock(words, slot, which);
    if is_crowded(write, x) {
        return Err(Refusal::Readers);
    }
    let y = x + weight_of(write);
    table::set_lock(words, slot, which, y);
    Ok(Acted::Done)
}

// Takes the lock, or finds it denied, where the quick tests let the slot's pair through. Else, and where 16 readers hold it,
// nothing changes and the answer is None: the caller asks the exact way.
#[tactic(auto, using(table::proofs::PairLaws::lock_lt, protocol::proofs::LockLaws::weight_lt, crate::proofs::Quick::kept, crate::proofs::Quick::done), unfolding(crate::specs::Taking::take_lock))]
pub fn take_quick(
    words: &mut [u64],
    slot: u64,
    which: Which,
    write: bool,
    state: u64,
    links: Links,
) -> Option<Acted>
    ensures { TakenBy words.old slot which write state links result words.new }
{
    if !table::pair_quick(words, slot) {
        return None;
    }
    if !is_granted(words, slot, which, write, state, links) {
        return Some(Acted::Denied);
    }
    let held = table::lock(words, slot, which);
    if is_crowded(write, held) {
        return None;
    }
    let y = held + weight_of(write);
    table::set_lock(words, slot, which, y);
    Some(Acted::Done)
}
