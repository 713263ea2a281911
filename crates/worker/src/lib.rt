// Workers: one insert, remove or lookup, one step at a time. `start`, `step` and `withdraw` take any words and any record
// and come to an end; each promises the protocol's definition, refusals included.
#![tactic(auto)]

ghost use Rattle.std.specs.Prelude.{◌≡◌, true, Ok};
ghost use Rattle.refusal.specs.Said.{said, judged};
ghost use Rattle.protocol.specs.Walk.{visit};
ghost use Rattle.protocol.specs.Says.{answer_says};
ghost use Rattle.protocol.specs.Step.{step_of, idle_worker};
ghost use Rattle.protocol.specs.Calls.{idle, judge_start, start_of, judge_busy, judge_withdraw, withdraw_of};
ghost use Rattle.acting.specs.Moves.{moved_of, step_move};
ghost use Rattle.worker.specs.Moving.{left_by, walk_fine, walk_to};
ghost use Rattle.protocol.specs.declared.Work.TheVariants.{Busy};

use acting::Moved;
use protocol::{Answer, Kind, Phase, Replied, Stepped, Work, Worker};
use refusal::Refusal;

pub mod seats;

// The record of a worker that is not busy.
pub fn idle_worker() -> Worker
    ensures { result ≡ idle_worker }
{
    Worker {
        work: Work::Idle,
        key: 0,
        phase: plan::at_root(),
    }
}

// The seat is given up where the work is over.
#[tactic(auto, unfolding(crate::specs::Moving::left_by))]
pub fn leave_by(words: &mut [u64], m: Result<Moved, Refusal>)
    ensures { words.new ≡ left_by m words.old }
{
    match m {
        Ok(Moved::Over(_)) => seats::leave_seat(words),
        Ok(Moved::On | Moved::To(_)) | Err(_) => {}
    }
}

// One step, reported and not put into a record: for a caller that keeps its records in a form of its own. The seat is given
// up where the work is over.
pub fn move_on(words: &mut [u64], work: Work, key: u64, phase: Phase) -> Result<Moved, Refusal>
    ensures { (result ≡ (step_move words.old work key phase).said) × (words.new ≡ left_by result (step_move words.old work key phase).words) }
{
    let m = acting::step_on(words, work, key, phase);
    leave_by(words, m);
    m
}

// One step. A record that is idle or damaged is refused; that it belongs to another table is not seen.
pub fn step(words: &mut [u64], w: Worker) -> Stepped
    ensures { (answer_says result.answer ≡ (step_of words.old w).says) × (result.worker ≡ (step_of words.old w).worker) × (words.new ≡ (step_of words.old w).words) }
{
    match move_on(words, w.work, w.key, w.phase) {
        Ok(Moved::On) => Stepped {
            answer: Answer::Going,
            worker: Worker {
                phase: plan::with_done(w.phase, plan::done_of(w.phase) + 1),
                ..w
            },
        },
        Ok(Moved::To(phase)) => Stepped {
            answer: Answer::Going,
            worker: Worker { phase, ..w },
        },
        Ok(Moved::Over(a)) => Stepped {
            answer: a,
            worker: idle_worker(),
        },
        Err(e) => Stepped {
            answer: Answer::Refused(e),
            worker: w,
        },
    }
}

// The slot that a walk goes on to; None where it ends: on the slot of its key, or at nothing.
#[tactic(auto, unfolding(crate::specs::Moving::walk_to))]
pub fn walk_to(words: &[u64], key: u64, at: u64) -> Option<u64>
    ensures { result ≡ walk_to words.now key at }
{
    let k = table::key(words, at);
    if k == key {
        return None;
    }
    let next = table::link(words, at, key < k);
    if next == 0 { None } else { Some(next) }
}

// True only where rules 1 and 6 let a busy walk step, by the quick tests: else `walk_fine` says it. The root has no test of its
// own: rule 1 has judged it. For a caller that keeps its records in a form of its own: a walk that goes on, which most steps
// are, needs no more than this and `walk_to`.
#[tactic(auto, using(crate::proofs::WalkLaws::quick_fine, crate::proofs::WalkLaws::at_root_lem))]
pub fn walk_quick(words: &[u64], key: u64, at: u64, prev: u64, before: u64) -> bool
    ensures { result ≡ true → walk_fine words.now key at prev before ≡ true }
{
    if !table::table_quick(words) {
        return false;
    }
    if !plan::walk_quick(words, key, at, prev, before) {
        return false;
    }
    (at == 0) || table::pair_quick(words, at)
}

// Do rules 1 and 6 let a busy walk step?
#[tactic(auto, unfolding(crate::specs::Moving::walk_fine))]
pub fn walk_fine(words: &[u64], key: u64, at: u64, prev: u64, before: u64) -> bool
    ensures { result ≡ walk_fine words.now key at prev before }
{
    if !table::table_fine(words) {
        return false;
    }
    if !plan::walk_fine(words, key, at, prev, before) {
        return false;
    }
    table::pair_fine(words, at)
}

// The step of a walk of which rules 1 and 6 are judged, reported as `move_on` reports it.
pub fn visit_on(
    words: &mut [u64],
    kind: Kind,
    key: u64,
    at: u64,
    prev: u64,
    before: u64,
    side: bool,
    up: bool,
) -> Moved
    ensures { (result ≡ moved_of (visit words.old kind key at prev before side up)) × (words.new ≡ left_by (Ok result) words.old) }
{
    let m = acting::visited(words, kind, key, at, prev, before, side, up);
    leave_by(words, Ok(m));
    m
}

// Start and withdraw

fn is_idle(work: Work) -> bool
    ensures { result ≡ idle work }
{
    matches!(work, Work::Idle)
}

// Refused with 1, 2, 3 or 4, or not.
#[tactic(auto, unfolding(protocol::specs::Calls::judge_start))]
fn judge_start(words: &[u64], work: Work, key: u64) -> Result<(), Refusal>
    ensures { judged result ≡ judge_start words.now work key }
{
    if !table::table_fine(words) {
        return Err(Refusal::Table);
    }
    if !is_idle(work) {
        return Err(Refusal::State);
    }
    if !moment::legal(key) {
        return Err(Refusal::Range);
    }
    if table::widths::MOST_BUSY <= table::busy(words) {
        return Err(Refusal::Busy);
    }
    Ok(())
}

// Begins a work on a key: it takes a seat and stands at the root.
#[tactic(auto, unfolding(protocol::specs::Calls::start_of))]
pub fn start(words: &mut [u64], w: Worker, kind: Kind, key: u64) -> Replied
    ensures { (said result.reply ≡ (start_of words.old w kind key).says) × (result.worker ≡ (start_of words.old w kind key).worker) × (words.new ≡ (start_of words.old w kind key).words) }
{
    if let Err(e) = judge_start(words, w.work, key) {
        return Replied {
            reply: Err(e),
            worker: w,
        };
    }
    seats::take_seat(words);
    Replied {
        reply: Ok(()),
        worker: Worker {
            work: Work::Busy(kind),
            key,
            phase: plan::at_root(),
        },
    }
}

// Refused with 6 or 7, or not.
#[tactic(auto, unfolding(protocol::specs::Calls::judge_busy))]
fn judge_busy(words: &[u64], kind: Kind, key: u64, phase: Phase) -> Result<(), Refusal>
    ensures { judged result ≡ judge_busy words.now (Busy kind) key phase }
{
    if !plan::record_fine(words, kind, key, phase) {
        return Err(Refusal::Damaged);
    }
    let done = plan::done_of(phase);
    if !locks::all_held(words, phase, done) {
        return Err(Refusal::Damaged);
    }
    if plan::has_stored(phase, done) {
        return Err(Refusal::Stored);
    }
    Ok(())
}

// Refused with 1, 2, 6 or 7, or not.
#[tactic(auto, unfolding(protocol::specs::Calls::judge_withdraw, protocol::specs::Calls::judge_busy))]
fn judge_withdraw(words: &[u64], work: Work, key: u64, phase: Phase) -> Result<(), Refusal>
    ensures { judged result ≡ judge_withdraw words.now work key phase }
{
    if !table::table_fine(words) {
        return Err(Refusal::Table);
    }
    match work {
        Work::Idle => Err(Refusal::State),
        Work::Busy(kind) => judge_busy(words, kind, key, phase),
    }
}

// Gives up locks and seat of a work that has not stored yet.
#[tactic(auto, unfolding(protocol::specs::Calls::withdraw_of))]
pub fn withdraw(words: &mut [u64], w: Worker) -> Replied
    ensures { (said result.reply ≡ (withdraw_of words.old w).says) × (result.worker ≡ (withdraw_of words.old w).worker) × (words.new ≡ (withdraw_of words.old w).words) }
{
    if let Err(e) = judge_withdraw(words, w.work, w.key, w.phase) {
        return Replied {
            reply: Err(e),
            worker: w,
        };
    }
    let done = plan::done_of(w.phase);
    locks::release_all(words, w.phase, done);
    seats::leave_seat(words);
    Replied {
        reply: Ok(()),
        worker: idle_worker(),
    }
}
