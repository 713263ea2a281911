// The record of a worker, the plan's actions and the answers, as types. No function has a body here: what start, step
// and withdraw do stands in specs/ as definitions, and the laws of it in proofs/.
#![tactic(auto)]

use refusal::Refusal;
use table::Which;

// What a worker may be busy with.
#[derive(Clone, Copy, Debug, PartialEq, Eq, Hash)]
pub enum Kind {
    Lookup,
    Insert,
    Remove,
}

#[derive(Clone, Copy, Debug, PartialEq, Eq, Hash)]
pub enum Work {
    Idle,
    Busy(Kind),
}

// The case that a work has come to, with the slots and sides it noted and how many of the case's actions are done: so
// it carries the locks held. A slot is a plain number, 0 is the root, or none above it; a side is true for left.
// `side` is that of the link from `prev` to the slot itself, `up` that from `before` to `prev`, `toward` that to `child`.
#[derive(Clone, Copy, Debug, PartialEq, Eq, Hash)]
pub enum Phase {
    Walk {
        at: u64,
        prev: u64,
        before: u64,
        side: bool,
        up: bool,
    },
    OnRouting {
        this: u64,
        done: u64,
    },
    New {
        prev: u64,
        side: bool,
        done: u64,
    },
    Two {
        this: u64,
        done: u64,
    },
    One {
        this: u64,
        prev: u64,
        side: bool,
        child: u64,
        toward: bool,
        done: u64,
    },
    Leaf {
        this: u64,
        prev: u64,
        side: bool,
        before: u64,
        up: bool,
    },
    UnderData {
        this: u64,
        prev: u64,
        side: bool,
        done: u64,
    },
    UnderRouting {
        this: u64,
        prev: u64,
        side: bool,
        before: u64,
        up: bool,
        other: u64,
        done: u64,
    },
}

// The record that the caller keeps.
#[derive(Clone, Copy, Debug, PartialEq, Eq, Hash)]
pub struct Worker {
    pub work: Work,
    pub key: u64,
    pub phase: Phase,
}

// What a lock expects of its slot's links: nothing, this child on a side (0: none), no child, or two children.
#[derive(Clone, Copy, Debug, PartialEq, Eq, Hash)]
pub enum Links {
    Any,
    Is(bool, u64),
    Neither,
    Both,
}

// What one step does. By place:
// Visit: at, prev, before, side, up. Look: this, prev, side, before, up.
// Lock: slot, which lock, written (or read), the state expected (0: not deleted), the links expected.
// Mark: slot, the state stored. Link: slot, side, the child stored. Take: prev, side. Beyond: past a plan's end.
#[derive(Clone, Copy, Debug, PartialEq, Eq, Hash)]
pub enum Action {
    Visit(u64, u64, u64, bool, bool),
    Look(u64, u64, bool, u64, bool),
    Lock(u64, Which, bool, u64, Links),
    Mark(u64, u64),
    Link(u64, bool, u64),
    Take(u64, bool),
    End,
    Beyond,
}

// What a step answers: the work goes on, it has ended with yes, no or Full, or the step is refused, with its number.
// Kept: the specification names this form, one enum, for a step's answer alone; every other answer is a Result.
#[derive(Clone, Copy, Debug, PartialEq, Eq, Hash)]
pub enum Answer {
    Going,
    Yes,
    No,
    Full,
    Refused(Refusal),
}

// What an action comes to that is not refused: the work goes on in a phase, or ends with an answer.
#[derive(Clone, Copy, Debug, PartialEq, Eq, Hash)]
pub enum Outcome {
    Goes(Phase),
    Ends(Answer),
}

// What a step gives back.
#[derive(Clone, Copy, Debug, PartialEq, Eq, Hash)]
pub struct Stepped {
    pub answer: Answer,
    pub worker: Worker,
}

// What start and withdraw give back.
#[derive(Clone, Copy, Debug, PartialEq, Eq, Hash)]
pub struct Replied {
    pub reply: Result<(), Refusal>,
    pub worker: Worker,
}
