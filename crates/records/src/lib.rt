// A worker's record as eleven words, and back. Every record has its words, and no two records have the same.
#![tactic(auto)]

ghost use Rattle.std.specs.Prelude.{◌≡◌, true};
ghost use Rattle.protocol.specs.Plan.{at_root};
ghost use Rattle.protocol.specs.Step.{idle_worker};
ghost use Rattle.protocol.specs.declared.Work.TheVariants.{Busy};
ghost use Rattle.records.specs.Records.{named_of, parts_of, read_of, put_words, put_record, is_idle, is_walk, walk_on, has_plan, count_on};

use numbers::{INSERT, LEAF, LOOKUP, NO_WORK, REMOVE, WALK};
use protocol::{Kind, Worker};
pub use reading::phase_of;

mod noting;
pub mod numbers;
mod own;
mod reading;

// How many words a record has.
pub const WORDS: usize = 11;

// The words by name. What a phase does not note is 0; a side is 0 for left, 1 for right.
#[derive(Clone, Copy, Debug, PartialEq, Eq)]
pub struct Flat {
    pub work: u64,
    pub key: u64,
    pub phase: u64,
    pub this: u64,
    pub prev: u64,
    pub side: u64,
    pub before: u64,
    pub up: u64,
    pub other: u64,
    pub toward: u64,
    pub done: u64,
}

// An idle record's: a walk at the root, which notes nothing.
const IDLE: Flat = Flat {
    work: NO_WORK,
    key: 0,
    phase: WALK,
    this: 0,
    prev: 0,
    side: 0,
    before: 0,
    up: 0,
    other: 0,
    toward: 0,
    done: 0,
};

// Words that are lent, and what they are

// Eleven words by name, whatever they are. It is inline, so that a caller loads the words that it reads and no others.
#[tactic(auto, using(crate::proofs::Names::few, crate::proofs::Names::many, crate::proofs::Names::just), unfolding(crate::specs::Records::flat_at))]
#[inline(always)]
fn named(s: &[u64]) -> Option<Flat>
    ensures { result ≡ named_of s.now }
{
    let &[
        work,
        key,
        phase,
        this,
        prev,
        side,
        before,
        up,
        other,
        toward,
        done,
    ] = s
    else {
        return None;
    };
    Some(Flat {
        work,
        key,
        phase,
        this,
        prev,
        side,
        before,
        up,
        other,
        toward,
        done,
    })
}

// The words by name, where they are a record's: they are eleven, and the record's own. It is inline: handing eleven words on
// costs a step of a plan more than taking them apart.
#[tactic(auto, using(crate::proofs::TakenApart::no_parts, crate::proofs::TakenApart::own_parts))]
#[inline(always)]
pub fn take_apart(s: &[u64]) -> Option<Flat>
    ensures { result ≡ parts_of s.now }
{
    let f = named(s)?;
    own::is_own(f).then_some(f)
}

// The record that the words are.
#[tactic(auto, using(crate::proofs::TakenApart::parts_nothing, crate::proofs::TakenApart::parts_words), unfolding(crate::specs::Records::read_of))]
pub fn read(s: &[u64]) -> Option<Worker>
    ensures { result ≡ read_of s.now }
{
    Some(Worker::from(take_apart(s)?))
}

// Puts the words there; nothing where they do not fit exactly. It is inline, so that a word that stays is not stored again.
#[inline(always)]
fn put_words(d: &mut [u64], f: Flat)
    ensures { d.new ≡ put_words d.old f }
{
    if let Some(words) = d.as_mut_array::<WORDS>() {
        *words = [
            f.work, f.key, f.phase, f.this, f.prev, f.side, f.before, f.up, f.other, f.toward,
            f.done,
        ];
    }
}

// Puts the record's words there; nothing where they do not fit exactly.
#[tactic(auto, unfolding(crate::specs::Records::put_record, crate::specs::Records::words_of))]
pub fn put(d: &mut [u64], w: Worker)
    ensures { d.new ≡ put_record d.old w }
{
    put_words(d, Flat::from(w));
}

// An idle record's words.
#[tactic(auto, unfolding(crate::specs::Records::put_record, crate::specs::Records::words_of, crate::specs::Records::flat_of))]
pub fn put_idle(d: &mut [u64])
    ensures { d.new ≡ put_record d.old idle_worker }
{
    put_words(d, IDLE);
}

// Those of a work that begins: it stands at the root.
#[tactic(auto, unfolding(crate::specs::Records::put_record, crate::specs::Records::words_of, crate::specs::Records::flat_of))]
pub fn put_started(d: &mut [u64], kind: Kind, key: u64)
    ensures { d.new ≡ put_record d.old (record { work = Busy kind; key = key; phase = at_root }) }
{
    put_words(
        d,
        Flat {
            work: noting::kind_number(kind),
            key,
            ..IDLE
        },
    );
}

// Are they eleven zeros, as `put_idle` leaves them?
pub fn is_idle(s: &[u64]) -> bool
    ensures { result ≡ is_idle s.now }
{
    named(s) == Some(IDLE)
}

// A busy walk, which most steps meet

// Are the words a busy walk's?
#[tactic(auto, using(crate::proofs::Names::unnamed), unfolding(crate::specs::Records::is_walk))]
pub fn is_walk(s: &[u64]) -> bool
    ensures { result ≡ is_walk s.now }
{
    let Some(f) = named(s) else {
        return false;
    };
    (LOOKUP <= f.work)
        & (f.work <= REMOVE)
        & (f.phase == WALK)
        & (f.side <= 1)
        & (f.up <= 1)
        & (f.other == 0)
        & (f.toward == 0)
        & (f.done == 0)
}

// Moves them on to the next slot, on that side of the slot where the walk stood; nothing where they are not eleven.
#[tactic(auto, using(crate::proofs::Names::named_listed, crate::proofs::Names::unnamed), unfolding(crate::specs::Records::walk_on))]
pub fn walk_on(s: &mut [u64], next: u64, left: bool)
    ensures { s.new ≡ walk_on s.old next left }
{
    if let Some(f) = named(s) {
        put_words(
            s,
            Flat {
                this: next,
                prev: f.this,
                side: noting::side_number(left),
                before: f.prev,
                up: f.side,
                ..f
            },
        );
    }
}

// A phase of the plan

// Are they of an insert or a remove that neither walks nor looks? (If they are a record's.)
#[tactic(auto, using(crate::proofs::Names::unnamed), unfolding(crate::specs::Records::has_plan))]
pub fn has_plan(s: &[u64]) -> bool
    ensures { result ≡ has_plan s.now }
{
    let Some(f) = named(s) else {
        return false;
    };
    (INSERT <= f.work) & (f.work <= REMOVE) & (f.phase != WALK) & (f.phase != LEAF)
}

// Counts one more action as done. Nothing where the words are not eleven, walk or look, or count nine or more.
#[tactic(auto, using(crate::proofs::Names::named_listed, crate::proofs::Names::unnamed), unfolding(crate::specs::Records::count_on))]
pub fn count_on(s: &mut [u64])
    ensures { s.new ≡ count_on s.old }
{
    let Some(f) = named(s) else {
        return;
    };
    if (f.phase != WALK) & (f.phase != LEAF) & (f.done < 9) {
        put_words(
            s,
            Flat {
                done: f.done + 1,
                ..f
            },
        );
    }
}
