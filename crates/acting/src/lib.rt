// What a step does in any phase: the rules, and the next action. The phase after it is reported, not built: a step of the plan that
// goes on only counts one more action.
#![tactic(auto)]

ghost use Rattle.std.specs.Prelude.{◌≡◌};
ghost use Rattle.table.specs.Pair.{set_link};
ghost use Rattle.protocol.specs.Stores.{lowest_fit, taken};
ghost use Rattle.protocol.specs.Walk.{visit};
ghost use Rattle.protocol.specs.Step.{reads_fine};
ghost use Rattle.acting.specs.Acts.{takes, act_on};
ghost use Rattle.acting.specs.Moves.{moved_of, then_of, leaves, settle, plan_move, busy_move, step_move};

use locks::Acted;
use protocol::{Action, Answer, Kind, Outcome, Phase, Work};
use refusal::Refusal;
use table::DATA;

pub mod quick;
mod walking;

// What a step that is not refused comes to: the phase has one more action done, or is another; or the work is over, with an answer.
// That answer is Yes, No or Full, and never a refusal (proofs/EndLaws.antt).
#[derive(Clone, Copy, Debug, PartialEq, Eq, Hash)]
pub enum Moved {
    On,
    To(Phase),
    Over(Answer),
}

// Slot f gets key and state data, and is linked.
#[tactic(auto, unfolding(protocol::specs::Stores::taken))]
fn put_frame(words: &mut [u64], f: u64, key: u64, prev: u64, side: bool)
    ensures { words.new ≡ set_link (taken words.old f key) prev side f }
{
    table::set_key(words, f, key);
    table::set_state(words, f, DATA);
    table::set_link(words, prev, side, f);
}

// A new frame's slot: the lowest that is free gets key and state data, and is linked.
#[tactic(auto, using(protocol::proofs::LockLaws::lowest_free_lem), unfolding(crate::specs::Acts::takes))]
fn take(words: &mut [u64], key: u64, prev: u64, side: bool) -> Result<Acted, Refusal>
    ensures { (result ≡ (takes words.old key prev side (lowest_fit words.old)).said) × (words.new ≡ (takes words.old key prev side (lowest_fit words.old)).words) }
{
    let Some(f) = table::free::lowest_free(words) else {
        return Ok(Acted::Finished(Answer::Full));
    };
    if !table::zero_pair(words, f) {
        return Err(Refusal::Damaged);
    }
    put_frame(words, f, key, prev, side);
    Ok(Acted::Done)
}

// An action by itself: a lock, a store, or the end.
#[tactic(auto, unfolding(crate::specs::Acts::act_on))]
fn act_on(words: &mut [u64], key: u64, a: Action) -> Result<Acted, Refusal>
    ensures { (result ≡ (act_on words.old key a).said) × (words.new ≡ (act_on words.old key a).words) }
{
    match a {
        Action::Lock(slot, which, write, state, links) => locks::take_lock(
            words, slot, which, write, state, links,
        ),
        Action::Mark(slot, to) => {
            table::set_state(words, slot, to);
            Ok(Acted::Done)
        }
        Action::Link(slot, side, to) => {
            table::set_link(words, slot, side, to);
            Ok(Acted::Done)
        }
        Action::Take(prev, side) => take(words, key, prev, side),
        Action::End => Ok(Acted::Finished(Answer::Yes)),
        Action::Visit(..) | Action::Look(..) | Action::Beyond => Err(Refusal::Damaged),
    }
}

// A work that is over or begins again gives up its locks.
#[tactic(auto, unfolding(crate::specs::Moves::leaves, locks::specs::Taking::given_up))]
fn give_up(words: &mut [u64], phase: Phase, acted: Acted) -> Result<Moved, Refusal>
    ensures { (result ≡ (leaves words.old phase (then_of acted)).said) × (words.new ≡ (leaves words.old phase (then_of acted)).words) }
{
    let done = plan::done_of(phase);
    if !locks::give_up(words, phase, done) {
        return Err(Refusal::Damaged);
    }
    match acted {
        Acted::Finished(answer) => Ok(Moved::Over(answer)),
        Acted::Done | Acted::Denied => Ok(Moved::To(plan::at_root())),
    }
}

// What becomes of the phase: one more action is done, or the locks are given up.
#[tactic(auto, unfolding(crate::specs::Moves::settle))]
fn settle_on(words: &mut [u64], phase: Phase, acted: Acted) -> Result<Moved, Refusal>
    ensures { (result ≡ (settle phase acted words.old).said) × (words.new ≡ (settle phase acted words.old).words) }
{
    match acted {
        Acted::Done => Ok(Moved::On),
        Acted::Denied | Acted::Finished(_) => give_up(words, phase, acted),
    }
}

// Is the pair that the action reads or stores to undamaged?
#[tactic(auto, unfolding(protocol::specs::Step::reads_fine))]
fn reads_fine(words: &[u64], a: Action) -> bool
    ensures { result ≡ reads_fine words.now a }
{
    match a {
        Action::Visit(slot, ..)
        | Action::Look(_, slot, ..)
        | Action::Lock(slot, ..)
        | Action::Mark(slot, _)
        | Action::Link(slot, ..)
        | Action::Take(slot, _) => table::pair_fine(words, slot),
        Action::End => true,
        Action::Beyond => false,
    }
}

// Rule 6 and the action that is due.
#[tactic(auto, using(refusal::proofs::SaidLaws::handed_on), unfolding(crate::specs::Moves::plan_move, crate::specs::Moves::settle_act, crate::specs::Moves::settle_said))]
fn plan_step(words: &mut [u64], kind: Kind, key: u64, phase: Phase) -> Result<Moved, Refusal>
    ensures { (result ≡ (plan_move words.old kind key phase).said) × (words.new ≡ (plan_move words.old kind key phase).words) }
{
    if !(moment::legal(key) & (table::busy(words) != 0)) {
        return Err(Refusal::Damaged);
    }
    let a = plan::due(table::slots(words), kind, phase);
    if !reads_fine(words, a) {
        return Err(Refusal::Damaged);
    }
    let acted = act_on(words, key, a)?;
    settle_on(words, phase, acted)
}

// What the walk or the leaf's look came to, as a move.
fn move_of(o: Outcome) -> Moved
    ensures { result ≡ moved_of o }
{
    match o {
        Outcome::Goes(p) => Moved::To(p),
        Outcome::Ends(a) => Moved::Over(a),
    }
}

// What a walk comes to at a slot, where the rules let it: for a caller that has judged them.
pub fn visited(
    words: &[u64],
    kind: Kind,
    key: u64,
    at: u64,
    prev: u64,
    before: u64,
    side: bool,
    up: bool,
) -> Moved
    ensures { result ≡ moved_of (visit words.now kind key at prev before side up) }
{
    move_of(walking::visited(words, kind, key, at, prev, before, side, up))
}

// Rule 6 and what the phase does. A walk, which most steps are, asks nothing of the plan.
#[tactic(auto, using(refusal::proofs::SaidLaws::handed_on, crate::proofs::ActLaws::any_work, crate::proofs::ActLaws::move_other, crate::proofs::ActLaws::looks), unfolding(crate::specs::Moves::busy_move))]
fn busy_step(words: &mut [u64], kind: Kind, key: u64, phase: Phase) -> Result<Moved, Refusal>
    ensures { (result ≡ (busy_move words.old kind key phase).said) × (words.new ≡ (busy_move words.old kind key phase).words) }
{
    match phase {
        Phase::Walk {
            at,
            prev,
            before,
            side,
            up,
        } => {
            let came = walking::visit_at(words, kind, key, at, prev, before, side, up)?;
            Ok(move_of(came))
        }
        Phase::Leaf {
            this,
            prev,
            side,
            before,
            up,
        } => {
            let came = walking::look_at(words, kind, key, this, prev, side, before, up)?;
            Ok(move_of(came))
        }
        _ => plan_step(words, kind, key, phase),
    }
}

// Rules 1 and 2 before.
#[tactic(auto, unfolding(crate::specs::Moves::step_move, crate::specs::Moves::work_move))]
pub fn step_on(words: &mut [u64], work: Work, key: u64, phase: Phase) -> Result<Moved, Refusal>
    ensures { (result ≡ (step_move words.old work key phase).said) × (words.new ≡ (step_move words.old work key phase).words) }
{
    if !table::table_fine(words) {
        return Err(Refusal::Table);
    }
    match work {
        Work::Idle => Err(Refusal::State),
        Work::Busy(kind) => busy_step(words, kind, key, phase),
    }
}
