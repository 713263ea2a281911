// A step of a phase that has a plan, on the record's words. The action that is due is found by the words' numbers, without
// building the phase. A lock or a store that the quick tests let through is done and counted in place; all else is a step of the
// record.
ghost use Rattle.std.specs.Prelude.{◌≡◌};
ghost use Rattle.table.specs.Pair.{slots_of};
ghost use Rattle.protocol.specs.Step.{step_of};
ghost use Rattle.plan.specs.Due.{due_of};
ghost use Rattle.records.specs.Records.{worker_at, worker_of};
ghost use Rattle.calls.specs.Numbers.{verdict_number};
ghost use Rattle.calls.specs.Workers.{Comes, due_in, Named, Ruled};
ghost use Rattle.protocol.specs.declared.Kind.TheVariants.{Insert, Remove};
ghost use Rattle.protocol.specs.declared.Action.TheVariants.{End};
ghost use Rattle.acting.specs.Moves.{leaves};
ghost use Rattle.worker.specs.Moving.{move_of};

use crate::numbers::{FINE, YES};
use crate::{put_moved, record_step, unread};
use acting::Moved;
use locks::Acted;
use plan::dues;
use protocol::Action;
use records::Flat;
use records::numbers::{INSERT, NEW, ON_ROUTING, ONE, REMOVE, TWO, UNDER_DATA, UNDER_ROUTING};
use refusal::Refusal;

#[tactic(auto, using(crate::proofs::DueWords::no_insert), unfolding(records::specs::Records::worker_at, records::specs::Records::phase_at))]
fn insert_due(n: u64, f: Flat) -> Action
    ensures { result ≡ due_of n Insert (worker_at f).phase }
{
    match f.phase {
        ON_ROUTING => dues::on_routing_due(n, f.this, f.done),
        NEW => dues::new_due(n, f.prev, f.side == 0, f.done),
        _ => Action::Beyond,
    }
}

#[tactic(auto, using(crate::proofs::DueWords::no_remove), unfolding(records::specs::Records::worker_at, records::specs::Records::phase_at))]
fn remove_due(n: u64, f: Flat) -> Action
    ensures { result ≡ due_of n Remove (worker_at f).phase }
{
    let left = f.side == 0;
    match f.phase {
        TWO => dues::two_due(n, f.this, f.done),
        ONE => dues::one_due(n, f.this, f.prev, left, f.other, f.toward == 0, f.done),
        UNDER_DATA => dues::under_data_due(n, f.this, f.prev, left, f.done),
        UNDER_ROUTING => dues::under_routing_due(
            n,
            f.this,
            f.prev,
            left,
            f.before,
            f.up == 0,
            f.other,
            f.done,
        ),
        _ => Action::Beyond,
    }
}

// The action that is due, where the roles are fine; of words that have no plan none is.
#[tactic(auto, unfolding(crate::specs::Workers::due_in, records::specs::Records::worker_at, records::specs::Records::work_at))]
fn due_of(n: u64, f: Flat) -> Action
    ensures { result ≡ due_in n (worker_at f) }
{
    match f.work {
        INSERT => insert_due(n, f),
        REMOVE => remove_due(n, f),
        _ => Action::Beyond,
    }
}

// The last step of a plan: all locks are judged, then all are given up, and the seat.
fn end_step(words: &mut [u64], lent: &mut [u64], f: Flat) -> u64
    requires named { Named lent.old f }
    requires ruled { Ruled words.old f.key }
    requires due { due_in (slots_of words.old) (worker_at f) ≡ End }
    ensures { Comes verdict_number words.old lent.old (step_of words.old (worker_of lent.old)) result lent.new words.new }
{
    let phase = records::phase_of(f);
    let done = plan::done_of(phase);
    if !locks::give_up(words, phase, done) {
        return Refusal::Damaged.number();
    }
    worker::seats::leave_seat(words);
    records::put_idle(lent);
    YES
}

// A work that begins again, or is over because there is no slot: all locks are judged, then all are given up. These are rare, so
// the record is read, and the usual steps need not keep its words for them.
fn leave_step(words: &mut [u64], lent: &mut [u64], then: Moved) -> u64
    requires { move_of words.old (worker_of lent.old) ≡ leaves words.old (worker_of lent.old).phase then }
    ensures { Comes verdict_number words.old lent.old (step_of words.old (worker_of lent.old)) result lent.new words.new }
{
    let Some(w) = records::read(lent) else {
        return unread(words).number();
    };
    let done = plan::done_of(w.phase);
    if !locks::give_up(words, w.phase, done) {
        return Refusal::Damaged.number();
    }
    worker::leave_by(words, Ok(then));
    put_moved(lent, w.work, w.key, Ok(then))
}

// A lock or a store. What the quick tests do not let through is a step of the record.
fn act_step(words: &mut [u64], lent: &mut [u64], f: Flat, a: Action) -> u64
    requires named { Named lent.old f }
    requires ruled { Ruled words.old f.key }
    requires due { a ≡ due_in (slots_of words.old) (worker_at f) }
    ensures { Comes verdict_number words.old lent.old (step_of words.old (worker_of lent.old)) result lent.new words.new }
{
    match acting::quick::act_quick(words, f.key, a) {
        Some(Acted::Done) => {
            records::count_on(lent);
            FINE
        }
        Some(Acted::Denied) => leave_step(words, lent, Moved::To(plan::at_root())),
        Some(Acted::Finished(answer)) => leave_step(words, lent, Moved::Over(answer)),
        None => record_step(words, lent),
    }
}

// One step of the record that has these words by name.
fn parts_step(words: &mut [u64], lent: &mut [u64], f: Flat) -> u64
    requires { Named lent.old f }
    ensures { Comes verdict_number words.old lent.old (step_of words.old (worker_of lent.old)) result lent.new words.new }
{
    if !table::table_quick(words) {
        return record_step(words, lent);
    }
    if !moment::legal(f.key) {
        return record_step(words, lent);
    }
    let a = due_of(table::slots(words), f);
    match a {
        Action::End => end_step(words, lent, f),
        _ => act_step(words, lent, f, a),
    }
}

// One step of any words.
pub fn plan_step(words: &mut [u64], lent: &mut [u64]) -> u64
    ensures { Comes verdict_number words.old lent.old (step_of words.old (worker_of lent.old)) result lent.new words.new }
{
    match records::take_apart(lent) {
        Some(f) => parts_step(words, lent, f),
        None => unread(words).number(),
    }
}
