// The bit rules of one word of fields, and the rule of a table's size.
ghost use Rattle.std.specs.Prelude.{◌≡◌, true, false, not, ◌&&◌, ◌≤◌, eqb};
ghost use Rattle.layout.specs.Layout.{fld};
ghost use Rattle.table.specs.Pair.{layout, state_f, busy_f, free, most_slots};
ghost use Rattle.table.specs.Rules.{locks_fine, word_fine, root_words, busy_from, size_fine};

use crate::ALL_ONES;
use crate::widths::{
    BUSY, BUSY_VALUES, FEWEST, LEFT, LEFT_LOCK, LINKS, LOCK_VALUES, LOCKS, MOST, REST, REST_LOCKED,
    RIGHT, RIGHT_LOCK, STATE, STATE_LOCK, TAKEN, WORDS,
};

// Bit x is set where a lock may be x: 0, 1, and the even numbers to 32.
const FINE: u64 = 0x1_5555_5557;

// The three locks. Nearly always none is held: one test of their bits.
#[tactic(auto, using(crate::proofs::RuleLaws::no_locks, crate::proofs::RuleLaws::locks_by))]
fn locks_fine(x: u64) -> bool
    ensures { result ≡ locks_fine x }
{
    if x / RIGHT_LOCK % LOCKS == 0 {
        return true;
    }
    let state = (FINE >> (x / STATE_LOCK % LOCK_VALUES)) % 2 == 1;
    let left = (FINE >> (x / LEFT_LOCK % LOCK_VALUES)) % 2 == 1;
    let right = (FINE >> (x / RIGHT_LOCK % LOCK_VALUES)) % 2 == 1;
    state & left & right
}

// The second word of a slot, the root or another, in a table of n slots. Nearly always all below the links is zero.
#[tactic(auto, using(crate::proofs::RuleLaws::no_rest), unfolding(crate::specs::Rules::word_fine))]
pub fn word_fine(x: u64, n: u64, root: bool) -> bool
    ensures { result ≡ word_fine x n root }
{
    if !((x / LEFT % LINKS < n) & (x / RIGHT % LINKS < n)) {
        return false;
    }
    if x % RIGHT == 0 {
        return true;
    }
    locks_fine(x) & (root | (x / BUSY % BUSY_VALUES == 0)) & (x % BUSY == 0)
}

// The root's words where at least that many workers are busy, and at most 15 more. Nearly always no lock is held: two
// compares and one mask.
#[tactic(auto, using(crate::proofs::QuickLaws::root_quick_lem, crate::proofs::QuickLaws::root_locked))]
pub fn root_quick(key: u64, x: u64, n: u64, least: u64) -> bool
    requires { (n ≤ most_slots) × (least ≤ 1) }
    ensures { result ≡ true → (root_words key x n && busy_from least (fld layout busy_f x)) ≡ true }
{
    if key != ALL_ONES {
        return false;
    }
    // state data, no link, no lock held
    let base = STATE + least * BUSY;
    if x < base {
        return false;
    }
    let t = x - base;
    if n * LEFT <= t {
        return false;
    }
    if t & REST == 0 {
        return true;
    }
    (t & REST_LOCKED == 0) & locks_fine(x)
}

// A pair's word of fields.
#[tactic(auto, using(crate::proofs::QuickLaws::pair_quick_lem, crate::proofs::QuickLaws::pair_locked))]
pub fn pair_quick(x: u64, n: u64) -> bool
    ensures { result ≡ true → (not (eqb (fld layout state_f x) free) && word_fine x n false) ≡ true }
{
    if x < TAKEN {
        return false;
    }
    if n <= x / LEFT % LINKS {
        return false;
    }
    if n <= x / RIGHT % LINKS {
        return false;
    }
    if x % RIGHT == 0 {
        return true;
    }
    (x % RIGHT_LOCK == 0) & locks_fine(x)
}

#[tactic(auto, unfolding(crate::specs::Rules::size_fine))]
pub fn size_fine(n: u64) -> bool
    ensures { result ≡ size_fine n }
{
    (n % WORDS == 0) & (FEWEST <= n) & (n <= MOST)
}
