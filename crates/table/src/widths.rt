// The layout of a slot's second word, from the top bit down: state, left and right link, the locks of the state and of the
// left and right edge, workers busy, zeros. All that follows from the widths stands here and nowhere else.
ghost use Rattle.std.specs.Prelude.{◌≡◌};
ghost use Rattle.layout.specs.Layout.{pos};
ghost use Rattle.table.specs.Pair.{layout, link_f, lock_f};

use crate::Which;

pub const STATE_BITS: u64 = 2;

pub const LINK_BITS: u64 = 10;

pub const LOCK_BITS: u64 = 6;

pub const BUSY_BITS: u64 = 5;

// Where the fields begin.
pub const STATE_AT: u64 = 64 - STATE_BITS;

pub const LEFT_AT: u64 = STATE_AT - LINK_BITS;

pub const RIGHT_AT: u64 = LEFT_AT - LINK_BITS;

pub const STATE_LOCK_AT: u64 = RIGHT_AT - LOCK_BITS;

pub const LEFT_LOCK_AT: u64 = STATE_LOCK_AT - LOCK_BITS;

pub const RIGHT_LOCK_AT: u64 = LEFT_LOCK_AT - LOCK_BITS;

pub const BUSY_AT: u64 = RIGHT_LOCK_AT - BUSY_BITS;

// One of each field.
pub const STATE: u64 = 1 << STATE_AT;

pub const LEFT: u64 = 1 << LEFT_AT;

pub const RIGHT: u64 = 1 << RIGHT_AT;

pub const STATE_LOCK: u64 = 1 << STATE_LOCK_AT;

pub const LEFT_LOCK: u64 = 1 << LEFT_LOCK_AT;

pub const RIGHT_LOCK: u64 = 1 << RIGHT_LOCK_AT;

pub const BUSY: u64 = 1 << BUSY_AT;

// How many values a field can hold, and the three locks together.
pub const LINKS: u64 = 1 << LINK_BITS;

pub const LOCK_VALUES: u64 = 1 << LOCK_BITS;

pub const LOCKS: u64 = LOCK_VALUES * LOCK_VALUES * LOCK_VALUES;

pub const BUSY_VALUES: u64 = 1 << BUSY_BITS;

// The words that a slot has, and the fewest and the most that a table has: a link names every slot.
pub const WORDS: u64 = 2;

pub const FEWEST: u64 = 4;

pub const MOST: u64 = WORDS * LINKS;

// The least second word that is no free slot's.
pub const TAKEN: u64 = STATE;

// The most workers that are busy.
pub const MOST_BUSY: u64 = 16;

// Of the root's word less a left link and the least workers: the bits that hold none of up to 15 workers more, and those of
// them that are no lock's.
pub const REST: u64 = LEFT - 1 - (MOST_BUSY - 1) * BUSY;

pub const REST_LOCKED: u64 = REST - (LOCKS - 1) * RIGHT_LOCK;

// Where a link begins, and where a lock does.
pub fn link_at(side: bool) -> u64
    ensures { result ≡ pos layout (link_f side) }
{
    if side { LEFT_AT } else { RIGHT_AT }
}

pub fn lock_at(which: Which) -> u64
    ensures { result ≡ pos layout (lock_f which) }
{
    match which {
        Which::State => STATE_LOCK_AT,
        Which::Edge(side) => { if side { LEFT_LOCK_AT } else { RIGHT_LOCK_AT } }
    }
}
