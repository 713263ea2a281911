// The search for a free slot. It looks at states alone: a slot is free where its second word is below TAKEN.
// Eight slots are passed at once where the AND of their second words, which is at most each of them, is not below it.
ghost use Rattle.std.specs.Prelude.{◌≡◌, ◌+◌, ◌-◌, ◌*◌, ◌<◌, ◌≤◌, length, MatchOption};
ghost use Rattle.table.specs.Free.{lowest_free, and_four, Sought};

use crate::widths::{TAKEN, WORDS};

// How many words a slot has, and eight slots.
const SLOT: usize = WORDS as usize;

const EIGHT: usize = 8 * SLOT;

// The second words of four slots ANDed, the first of them at `at`.
#[tactic(auto, unfolding(crate::specs::Free::and_four))]
fn and_four(t: &[u64], at: usize) -> u64
    requires { at + 6 < length t.now }
    ensures { result ≡ and_four t.now at }
{
    t[at] & t[at + SLOT] & t[at + 2 * SLOT] & t[at + 3 * SLOT]
}

// The first free slot of the eight from `first` on, if there is one. This and the two functions below stand whole in the step that inserts: a call
// there costs more than a table of a few slots.
#[inline(always)]
#[tactic(auto, using(crate::proofs::FreeLaws::one_more, crate::proofs::FreeLaws::ends_here))]
fn free_of_eight(t: &[u64], first: usize) -> Option<u64>
    requires { (0 < first) × (2 * first + 15 < length t.now) × Sought t.now (2 * first + 1) }
    ensures { MatchOption result (Sought t.now (2 * (first + 8) + 1)) (λ i. (i ≡ lowest_free t.now) × (0 < i)) }
{
    for i in first..first + 8 {
        if t[SLOT * i + 1] < TAKEN {
            return Some(i as u64);
        }
    }
    None
}

// The first free slot of so many eights, from slot 1 on, if there is one. Eight whose AND is below TAKEN may have no free slot: data and routing
// slots have no bit of the state in common.
#[inline(always)]
#[tactic(auto, using(crate::proofs::FreeLaws::begins))]
fn free_of_eights(t: &[u64], eights: usize) -> Option<u64>
    requires { 16 * eights ≤ length t.now - 2 }
    ensures { MatchOption result (Sought t.now (2 * (8 * eights + 1) + 1)) (λ i. (i ≡ lowest_free t.now) × (0 < i)) }
{
    for e in 0..eights {
        let first = 8 * e + 1;
        let at = SLOT * first + 1;
        if (and_four(t, at) & and_four(t, at + EIGHT / 2)) < TAKEN {
            if let Some(free) = free_of_eight(t, first) {
                return Some(free);
            }
        }
    }
    None
}

// The lowest free slot from 1 on, if there is one. Behind the last eight the slots are searched one by one.
#[inline(always)]
#[tactic(auto, using(crate::proofs::FreeLaws::one_more, crate::proofs::FreeLaws::ends_here, crate::proofs::FreeLaws::ends_at_none))]
pub fn lowest_free(t: &[u64]) -> Option<u64>
    ensures { MatchOption result (lowest_free t.now ≡ 0) (λ i. (i ≡ lowest_free t.now) × (0 < i)) }
{
    let n = t.len();
    let eights = n.saturating_sub(SLOT) / EIGHT;
    if let Some(slot) = free_of_eights(t, eights) {
        return Some(slot);
    }
    for slot in 8 * eights + 1..n / SLOT {
        if t[SLOT * slot + 1] < TAKEN {
            return Some(slot as u64);
        }
    }
    None
}
