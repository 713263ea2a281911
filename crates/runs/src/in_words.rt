// A whole work on a record's words: a start, and steps until one answers something else than going.
ghost use Rattle.std.specs.Prelude.{◌≡◌};
ghost use Rattle.records.specs.Records.{worker_of};
ghost use Rattle.calls.specs.Numbers.{verdict_number};
ghost use Rattle.calls.specs.Workers.{Comes};
ghost use Rattle.runs.specs.Whole.{rest_of, whole_of};
ghost use Rattle.runs.specs.Running.{steps_made};

use crate::by_value::most_steps;
use calls::numbers::FINE;
use calls::{start, step};
use protocol::Kind;

// What steps came to: the number of the last answer, and how many steps were made.
#[derive(Clone, Copy, Debug, PartialEq, Eq, Hash)]
pub struct Ended {
    pub answer: u64,
    pub steps: u64,
}

// Steps a work in hand to its end, for at most as many steps as a worker alone takes: the numbers of a step, 0 where it has not
// ended.
pub fn to_end(words: &mut [u64], lent: &mut [u64]) -> Ended
    ensures { Comes verdict_number words.old lent.old (rest_of words.old (worker_of lent.old)).call result.answer lent.new words.new × (result.steps ≡ steps_made lent.old (rest_of words.old (worker_of lent.old))) }
{
    let most = most_steps(words);
    for made in 0..most {
        let answer = step(words, lent);
        if answer != FINE {
            return Ended {
                answer,
                steps: made + 1,
            };
        }
    }
    Ended {
        answer: FINE,
        steps: most,
    }
}

// A work from its start to its end: the numbers of a start that is refused, else those of a step.
pub fn whole(words: &mut [u64], lent: &mut [u64], kind: Kind, key: u64) -> u64
    ensures { Comes verdict_number words.old lent.old (whole_of words.old (worker_of lent.old) kind key).call result lent.new words.new }
{
    let begun = start(words, lent, kind, key);
    if begun != FINE {
        return begun;
    }
    to_end(words, lent).answer
}
