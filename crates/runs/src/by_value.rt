// A whole work by value: a start, and steps until one answers something else than Going. Of any words and any record.
ghost use Rattle.std.specs.Prelude.{◌≡◌};
ghost use Rattle.protocol.specs.Says.{answer_says};
ghost use Rattle.runs.specs.Whole.{most_steps, goes_on, steps_of, whole_of};
ghost use Rattle.runs.specs.Running.{Comes};

use protocol::{Answer, Kind, Worker};
use worker::{start, step};

// What steps came to: the last answer, the record after it, and how many steps were made.
#[derive(Clone, Copy, Debug, PartialEq, Eq, Hash)]
pub struct Ran {
    pub answer: Answer,
    pub worker: Worker,
    pub steps: u64,
}

// A worker alone takes at most so many steps, and one a slot.
const BESIDES: u64 = 10;

// The most steps that a worker alone takes.
pub fn most_steps(words: &[u64]) -> u64
    ensures { result ≡ most_steps words.now }
{
    table::slots(words) + BESIDES
}

fn goes_on(a: Answer) -> bool
    ensures { result ≡ goes_on (answer_says a) }
{
    matches!(a, Answer::Going)
}

// At most so many steps, until one answers something else than Going.
pub fn steps(words: &mut [u64], w: Worker, most: u64) -> Ran
    ensures { Comes (steps_of most words.old w) result.answer result.worker result.steps words.new }
{
    let mut worker = w;
    for made in 0..most {
        let s = step(words, worker);
        worker = s.worker;
        if !goes_on(s.answer) {
            return Ran {
                answer: s.answer,
                worker,
                steps: made + 1,
            };
        }
    }
    Ran {
        answer: Answer::Going,
        worker,
        steps: most,
    }
}

// A work from its start to its end. One that has not ended after the most steps of a worker alone is left busy, and answers
// Going.
pub fn whole(words: &mut [u64], w: Worker, kind: Kind, key: u64) -> Ran
    ensures { Comes (whole_of words.old w kind key) result.answer result.worker result.steps words.new }
{
    let begun = start(words, w, kind, key);
    match begun.reply {
        Ok(()) => steps(words, begun.worker, most_steps(words)),
        Err(e) => Ran {
            answer: Answer::Refused(e),
            worker: begun.worker,
            steps: 0,
        },
    }
}
