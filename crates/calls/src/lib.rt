// The calls on a worker's record that is lent as eleven words, and the numbers of the answers: start, step and withdraw
// take any words, and say by one number what they came to.
#![tactic(auto)]

ghost use Rattle.std.specs.Prelude.{◌≡◌, true, get_or};
ghost use Rattle.refusal.specs.Said.{said, number as refusal_number};
ghost use Rattle.protocol.specs.Step.{step_of};
ghost use Rattle.protocol.specs.Calls.{start_of, withdraw_of};
ghost use Rattle.calls.specs.Numbers.{verdict_number, number};
ghost use Rattle.records.specs.Records.{worker_of, put_record};
ghost use Rattle.worker.specs.Moving.{move_says};
ghost use Rattle.calls.specs.Workers.{unread_number, Comes, put_moved, kind_at, OpensAtOnce, WalkEnds};

use acting::Moved;
use numbers::{FINE, NO, YES};
use protocol::{Kind, Replied, Work, Worker};
use records::numbers::{INSERT, LOOKUP};
use refusal::Refusal;
use table::DATA;

pub mod numbers;
mod plans;

// The refusal where the words are no record.
#[tactic(auto, unfolding(crate::specs::Workers::unread_number))]
fn unread(words: &[u64]) -> Refusal
    ensures { refusal_number result ≡ unread_number words.now }
{
    if table::table_fine(words) {
        Refusal::Damaged
    } else {
        Refusal::Table
    }
}

// The record goes back into its words; the reply's number.
fn put_reply(lent: &mut [u64], r: Replied) -> u64
    ensures { (result ≡ number (said r.reply)) × (lent.new ≡ put_record lent.old r.worker) }
{
    records::put(lent, r.worker);
    numbers::of_reply(r.reply)
}

// The record is moved on in its words as the step reports; returns the number of its answer. A step of the plan that goes on writes one word,
// a refused one none.
#[tactic(auto, unfolding(crate::specs::Workers::put_moved))]
fn put_moved(lent: &mut [u64], work: Work, key: u64, m: Result<Moved, Refusal>) -> u64
    ensures { (result ≡ verdict_number (move_says m)) × (lent.new ≡ put_moved lent.old work key m) }
{
    match m {
        Ok(Moved::On) => {
            records::count_on(lent);
            FINE
        }
        Ok(Moved::To(phase)) => {
            records::put(lent, Worker { work, key, phase });
            FINE
        }
        Ok(Moved::Over(answer)) => {
            records::put_idle(lent);
            numbers::of_answer(answer)
        }
        Err(e) => e.number(),
    }
}

// True only if the words are an idle record's zeros and the table is fine and has a seat.
fn opens_quick(words: &[u64], lent: &[u64]) -> bool
    ensures { result ≡ true → OpensAtOnce words.now lent.now }
{
    if !records::is_idle(lent) {
        return false;
    }
    table::table_open(words)
}

// A start of the record that the words are.
fn record_start(words: &mut [u64], lent: &mut [u64], kind: Kind, key: u64) -> u64
    ensures { Comes number words.old lent.old (start_of words.old (worker_of lent.old) kind key) result lent.new words.new }
{
    let Some(w) = records::read(lent) else {
        return unread(words).number();
    };
    let begun = worker::start(words, w, kind, key);
    put_reply(lent, begun)
}

// Begins a work of that kind on a key; or 1, 6 (no record), 2, 3, 4. A record that ended its work, or never had one, is not read.
pub fn start(words: &mut [u64], lent: &mut [u64], kind: Kind, key: u64) -> u64
    ensures { Comes number words.old lent.old (start_of words.old (worker_of lent.old) kind key) result lent.new words.new }
{
    if opens_quick(words, lent) {
        if !moment::legal(key) {
            return Refusal::Range.number();
        }
        worker::seats::take_seat(words);
        records::put_started(lent, kind, key);
        return FINE;
    }
    record_start(words, lent, kind, key)
}

// One step of the record that the words are.
fn record_step(words: &mut [u64], lent: &mut [u64]) -> u64
    ensures { Comes verdict_number words.old lent.old (step_of words.old (worker_of lent.old)) result lent.new words.new }
{
    let Some(w) = records::read(lent) else {
        return unread(words).number();
    };
    let m = worker::move_on(words, w.work, w.key, w.phase);
    put_moved(lent, w.work, w.key, m)
}

// The kind of work that a busy record's first word says.
#[tactic(auto, unfolding(crate::specs::Workers::kind_at))]
fn kind_of(n: u64) -> Kind
    ensures { result ≡ kind_at n }
{
    if n == LOOKUP {
        return Kind::Lookup;
    }
    if n == INSERT {
        return Kind::Insert;
    }
    Kind::Remove
}

// The end of a lookup of which all is judged: yes exactly on a data slot of the key.
fn lookup_end(words: &mut [u64], lent: &mut [u64]) -> u64
    requires ends { WalkEnds words.old lent.old }
    requires looks { get_or lent.old 0 0 ≡ 1 }
    ensures { Comes verdict_number words.old lent.old (step_of words.old (worker_of lent.old)) result lent.new words.new }
{
    let at = lent[3];
    let found = (table::key(words, at) == lent[1]) & (table::state(words, at) == DATA);
    worker::seats::leave_seat(words);
    records::put_idle(lent);
    if found { YES } else { NO }
}

// The last step of a walk of which all is judged.
fn walk_end(words: &mut [u64], lent: &mut [u64]) -> u64
    requires { WalkEnds words.old lent.old }
    ensures { Comes verdict_number words.old lent.old (step_of words.old (worker_of lent.old)) result lent.new words.new }
{
    if lent[0] == LOOKUP {
        return lookup_end(words, lent);
    }
    let kind = kind_of(lent[0]);
    let key = lent[1];
    let m = worker::visit_on(
        words,
        kind,
        key,
        lent[3],
        lent[4],
        lent[6],
        lent[5] == 0,
        lent[7] == 0,
    );
    put_moved(lent, Work::Busy(kind), key, Ok(m))
}

// One step of any words: of a plan's phase, of a walk that is judged exactly, else of the record that they are.
#[tactic(auto, using(crate::proofs::WalkCalls::six_number, crate::proofs::WalkCalls::six_record, crate::proofs::WalkCalls::six_words))]
fn other_step(words: &mut [u64], lent: &mut [u64]) -> u64
    ensures { Comes verdict_number words.old lent.old (step_of words.old (worker_of lent.old)) result lent.new words.new }
{
    if records::has_plan(lent) {
        return plans::plan_step(words, lent);
    }
    if !records::is_walk(lent) {
        return record_step(words, lent);
    }
    if !table::table_fine(words) {
        return Refusal::Table.number();
    }
    let key = lent[1];
    let at = lent[3];
    if !worker::walk_fine(words, key, at, lent[4], lent[6]) {
        return Refusal::Damaged.number();
    }
    match worker::walk_to(words, key, at) {
        None => walk_end(words, lent),
        Some(next) => {
            let left = key < table::key(words, at);
            records::walk_on(lent, next, left);
            FINE
        }
    }
}

// One step: 0 going, 16 yes, 17 no, 5 Full; or 1, 6 (no record), 2, 6, 9. A walk that goes on, which most steps are, is moved on in
// its words, and a walk that ends is not judged again. The slower ways are functions of two callers each, so that the compiler
// keeps them out of this one.
pub fn step(words: &mut [u64], lent: &mut [u64]) -> u64
    ensures { Comes verdict_number words.old lent.old (step_of words.old (worker_of lent.old)) result lent.new words.new }
{
    if !records::is_walk(lent) {
        if records::has_plan(lent) {
            return other_step(words, lent);
        }
        return record_step(words, lent);
    }
    let key = lent[1];
    let at = lent[3];
    if !worker::walk_quick(words, key, at, lent[4], lent[6]) {
        return other_step(words, lent);
    }
    let Some(next) = worker::walk_to(words, key, at) else {
        return walk_end(words, lent);
    };
    records::walk_on(lent, next, key < table::key(words, at));
    FINE
}

// Gives up locks and seat of a work that has not stored yet; or 1, 6 (no record), 2, 6, 7.
pub fn withdraw(words: &mut [u64], lent: &mut [u64]) -> u64
    ensures { Comes number words.old lent.old (withdraw_of words.old (worker_of lent.old)) result lent.new words.new }
{
    let Some(w) = records::read(lent) else {
        return unread(words).number();
    };
    let left = worker::withdraw(words, w);
    put_reply(lent, left)
}
