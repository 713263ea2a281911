// An action done in one go, where the quick tests let through all that it reads. A caller whose action is not done so asks
// `step_on`, which returns the reason: nothing has changed.
ghost use Rattle.acting.specs.Acts.{FrameBy, DoneBy};

use locks::Acted;
use protocol::{Action, Answer};

// A new frame's slot: the lowest that is free, where there is one and it is zero; or Full.
#[tactic(auto, using(protocol::proofs::LockLaws::lowest_free_lem, locks::proofs::Quick::kept, locks::proofs::Quick::done), unfolding(crate::specs::Acts::takes))]
fn take_quick(words: &mut [u64], key: u64, prev: u64, side: bool) -> Option<Acted>
    ensures { FrameBy words.old key prev side result words.new }
{
    let Some(f) = table::free::lowest_free(words) else {
        return Some(Acted::Finished(Answer::Full));
    };
    if !table::zero_pair(words, f) {
        return None;
    }
    crate::put_frame(words, f, key, prev, side);
    Some(Acted::Done)
}

// A lock or a store of the plan: what it came to (done, denied or Full), or None, and then nothing changed.
#[tactic(auto, using(std::proofs::lemmas::Option::IfSome_then, locks::proofs::Quick::done), unfolding(protocol::specs::Step::reads_fine, crate::specs::Acts::act_on))]
pub fn act_quick(words: &mut [u64], key: u64, a: Action) -> Option<Acted>
    ensures { DoneBy words.old key a result words.new }
{
    match a {
        Action::Lock(slot, which, write, state, links) => locks::take_quick(
            words, slot, which, write, state, links,
        ),
        Action::Mark(slot, to) => {
            if !table::pair_quick(words, slot) {
                return None;
            }
            table::set_state(words, slot, to);
            Some(Acted::Done)
        }
        Action::Link(from, side, to) => {
            if !table::pair_quick(words, from) {
                return None;
            }
            table::set_link(words, from, side, to);
            Some(Acted::Done)
        }
        Action::Take(prev, side) => {
            if !table::pair_quick(words, prev) {
                return None;
            }
            take_quick(words, key, prev, side)
        }
        _ => None,
    }
}
