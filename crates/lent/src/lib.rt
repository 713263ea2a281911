// The calls of `worker` over a record that the caller lends: it is moved on in place. Each is one call by value, and one
// store of the record that it gives back; each promises the protocol's definition, refusals included.
#![tactic(auto)]

ghost use Rattle.refusal.specs.Said.{said};
ghost use Rattle.protocol.specs.Says.{answer_says};
ghost use Rattle.protocol.specs.Step.{step_of};
ghost use Rattle.protocol.specs.Calls.{start_of, withdraw_of};
ghost use Rattle.lent.specs.Did.{Did};

use protocol::{Answer, Kind, Worker};
use refusal::Refusal;

// Begins a work on a key: it takes a seat and stands at the root.
pub fn start(words: &mut [u64], worker: &mut Worker, kind: Kind, key: u64) -> Result<(), Refusal>
    ensures { Did (start_of words.old worker.old kind key) (said result) worker.new words.new }
{
    let started = worker::start(words, *worker, kind, key);
    *worker = started.worker;
    started.reply
}

// One step of a busy worker.
pub fn step(words: &mut [u64], worker: &mut Worker) -> Answer
    ensures { Did (step_of words.old worker.old) (answer_says result) worker.new words.new }
{
    let stepped = worker::step(words, *worker);
    *worker = stepped.worker;
    stepped.answer
}

// Gives up locks and seat of a work that has not stored yet; the record is idle then.
pub fn withdraw(words: &mut [u64], worker: &mut Worker) -> Result<(), Refusal>
    ensures { Did (withdraw_of words.old worker.old) (said result) worker.new words.new }
{
    let withdrawn = worker::withdraw(words, *worker);
    *worker = withdrawn.worker;
    withdrawn.reply
}
