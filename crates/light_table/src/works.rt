// A worker on a table, from its start to its end, as a viewer's event loop leads it.
use protocol::{Answer, Kind};
use refusal::Refusal;
use worker::idle_worker;

// A worker's life: it starts, and makes one step a turn until its work ends, for at most so many turns.
// Kept: `runs::by_value` makes the same steps in one call; README shows a worker's life by this function.
pub fn run(words: &mut [u64], kind: Kind, key: u64, most: u64) -> Answer {
    let mut worker = idle_worker();
    if let Err(why) = lent::start(words, &mut worker, kind, key) {
        return Answer::Refused(why);
    }
    for _ in 0..most {
        let answer = lent::step(words, &mut worker);
        if answer != Answer::Going {
            return answer;
        }
        // here the event loop draws the screen and moves the other workers on
    }
    Answer::Going
}

// Does a work end with this answer, after so many steps?
pub fn ends(words: &mut [u64], kind: Kind, key: u64, answer: Answer, steps: u64) -> bool {
    let ran = runs::by_value::whole(words, idle_worker(), kind, key);
    ran.answer == answer && ran.steps == steps
}

// So many workers start: what the last of them is told.
pub fn last_start(words: &mut [u64], key: u64, many: u64) -> Result<(), Refusal> {
    let mut told = Ok(());
    for _ in 0..many {
        told = worker::start(words, idle_worker(), Kind::Insert, key).reply;
    }
    told
}
