// The lent words: the fields of a pair by their place in one layout, the rules of a pair and of the root, and `fresh`.
// Every function takes any words, any slot and any value: what lies beyond the table reads as 0 and is not stored.
// Kept: words and slot are passed apart. A struct of both is no plainer: it would be two, one to read by and one to write by, and
// every definition and theorem speaks of words and of a slot.
#![tactic(auto)]

ghost use Rattle.std.specs.Prelude.{◌≡◌, true, not, ◌&&◌, ◌+◌, ◌<◌, ◌≤◌, leb, eqb};
ghost use Rattle.layout.specs.Word.{get};
ghost use Rattle.refusal.specs.Said.{said};
ghost use Rattle.table.specs.Pair.{slots_of, word_of, set_word, set_bits, key_of, set_key, state_of, link_of, lock_of, busy_of, set_state, set_link, set_lock, set_busy, zero_pair, zeroed};
ghost use Rattle.table.specs.Rules.{busy_from, bits_fine, pair_fine, root_fine, table_fine, fresh_says, fresh_words};

use refusal::Refusal;

pub mod free;
mod rules;
pub mod widths;

// Which of a pair's locks: of its state, or of the edge on a side (true: left).
// Kept: a side is a bool, since the definitions `link_of` and `lock_of`, and those of the crates above, name a side by true or false.
#[derive(Clone, Copy, Debug, PartialEq, Eq, Hash)]
pub enum Which {
    State,
    Edge(bool),
}

// The states.
// Kept: a state is a number, since `set_state` promises for every number (it stores none that does not fit), and the definition
// `state_of`, and those of the crates above, give numbers.
pub const FREE: u64 = 0;

pub const DATA: u64 = 1;

pub const ROUTING: u64 = 2;

pub const DELETED: u64 = 3;

// The root's key, which is no frame's.
pub const ALL_ONES: u64 = u64::MAX;

// How many slots the words make.
pub fn slots(t: &[u64]) -> u64
    ensures { result ≡ slots_of t.now }
{
    t.len() as u64 / widths::WORDS
}

// A slot is any number: the test comes first, so that the word's place does not wrap.
#[tactic(auto, using(crate::proofs::PairLaws::word_beyond), unfolding(crate::specs::Pair::word_of))]
fn word(t: &[u64], i: u64, k: u64) -> u64
    requires { k < 2 }
    ensures { result ≡ word_of t.now i k }
{
    let n = (t.len() as u64 + 1 - k) / widths::WORDS;
    if n <= i {
        return 0;
    }
    let at = (widths::WORDS * i + k) as usize;
    t[at]
}

#[tactic(auto, using(crate::proofs::PairLaws::set_word_beyond), unfolding(crate::specs::Pair::set_word))]
fn set_word(t: &mut [u64], i: u64, k: u64, v: u64)
    requires { k < 2 }
    ensures { t.new ≡ set_word t.old i k v }
{
    let n = (t.len() as u64 + 1 - k) / widths::WORDS;
    if n <= i {
        return;
    }
    let at = (widths::WORDS * i + k) as usize;
    t[at] = v;
}

// The field of w bits at p of the slot's second word.
// Kept: place and width are passed apart, since `widths::link_at` and `lock_at` promise the place alone.
fn field(t: &[u64], i: u64, p: u64, w: u64) -> u64
    requires { (p < 64) × (w < 64) }
    ensures { result ≡ get p w (word_of t.now i 1) }
{
    (word(t, i, 1) >> p) % (1 << w)
}

// Puts a value that fits into that field: the old one is taken off and the new one put on.
#[tactic(auto, using(crate::proofs::PairLaws::bits_big, crate::proofs::PairLaws::bits_fit, crate::proofs::PairLaws::size_of, crate::proofs::PairLaws::code_put))]
fn set_field(t: &mut [u64], i: u64, p: u64, w: u64, v: u64)
    requires { (p < 64) × (w < 64) × (p + w ≤ 64) }
    ensures { t.new ≡ set_bits t.old i p w v }
{
    let size = 1 << w;
    if size <= v {
        return;
    }
    let x = word(t, i, 1);
    let y = x - ((x >> p) % size << p) + (v << p);
    set_word(t, i, 1, y);
}

pub fn key(t: &[u64], i: u64) -> u64
    ensures { result ≡ key_of t.now i }
{
    word(t, i, 0)
}

// The word of fields.
pub fn fields(t: &[u64], i: u64) -> u64
    ensures { result ≡ word_of t.now i 1 }
{
    word(t, i, 1)
}

#[tactic(auto, unfolding(crate::specs::Pair::field_of))]
pub fn state(t: &[u64], i: u64) -> u64
    ensures { result ≡ state_of t.now i }
{
    field(t, i, widths::STATE_AT, widths::STATE_BITS)
}

#[tactic(auto, using(crate::proofs::PairLaws::link_wide_lem), unfolding(crate::specs::Pair::field_of))]
pub fn link(t: &[u64], i: u64, side: bool) -> u64
    ensures { result ≡ link_of t.now i side }
{
    field(t, i, widths::link_at(side), widths::LINK_BITS)
}

#[tactic(auto, using(crate::proofs::PairLaws::lock_wide_lem), unfolding(crate::specs::Pair::field_of))]
pub fn lock(t: &[u64], i: u64, which: Which) -> u64
    ensures { result ≡ lock_of t.now i which }
{
    field(t, i, widths::lock_at(which), widths::LOCK_BITS)
}

// How many workers are busy.
#[tactic(auto, unfolding(crate::specs::Pair::field_of))]
pub fn busy(t: &[u64]) -> u64
    ensures { result ≡ busy_of t.now }
{
    field(t, 0, widths::BUSY_AT, widths::BUSY_BITS)
}

pub fn set_key(t: &mut [u64], i: u64, k: u64)
    ensures { t.new ≡ set_key t.old i k }
{
    set_word(t, i, 0, k);
}

#[tactic(auto, using(crate::proofs::PairLaws::store_at))]
pub fn set_state(t: &mut [u64], i: u64, s: u64)
    ensures { t.new ≡ set_state t.old i s }
{
    set_field(t, i, widths::STATE_AT, widths::STATE_BITS, s);
}

#[tactic(auto, using(crate::proofs::PairLaws::store_at, crate::proofs::PairLaws::link_wide_lem))]
pub fn set_link(t: &mut [u64], i: u64, side: bool, c: u64)
    ensures { t.new ≡ set_link t.old i side c }
{
    let p = widths::link_at(side);
    set_field(t, i, p, widths::LINK_BITS, c);
}

#[tactic(auto, using(crate::proofs::PairLaws::store_at, crate::proofs::PairLaws::lock_wide_lem))]
pub fn set_lock(t: &mut [u64], i: u64, which: Which, x: u64)
    ensures { t.new ≡ set_lock t.old i which x }
{
    let p = widths::lock_at(which);
    set_field(t, i, p, widths::LOCK_BITS, x);
}

#[tactic(auto, using(crate::proofs::PairLaws::store_at))]
pub fn set_busy(t: &mut [u64], n: u64)
    ensures { t.new ≡ set_busy t.old n }
{
    set_field(t, 0, widths::BUSY_AT, widths::BUSY_BITS, n);
}

// Are all words of the slot zero?
#[tactic(auto, unfolding(crate::specs::Pair::zero_pair))]
pub fn zero_pair(t: &[u64], i: u64) -> bool
    ensures { result ≡ zero_pair t.now i }
{
    (word(t, i, 0) == 0) & (word(t, i, 1) == 0)
}

// Makes them zero.
#[tactic(auto, unfolding(crate::specs::Pair::zeroed))]
pub fn zero_slot(t: &mut [u64], i: u64)
    ensures { t.new ≡ zeroed t.old i }
{
    set_word(t, i, 0, 0);
    set_word(t, i, 1, 0);
}

#[tactic(auto, unfolding(crate::specs::Rules::bits_fine, crate::specs::Rules::word_fine, crate::specs::Pair::field_of))]
pub fn bits_fine(t: &[u64], i: u64) -> bool
    ensures { result ≡ bits_fine t.now i }
{
    rules::word_fine(fields(t, i), slots(t), i == 0)
}

// True only of a pair that is fine; false for the root while a worker is busy, which has a bit that no other pair has.
#[tactic(auto, using(crate::proofs::QuickLaws::pair_fine_lem))]
pub fn pair_quick(t: &[u64], i: u64) -> bool
    ensures { result ≡ true → pair_fine t.now i ≡ true }
{
    rules::pair_quick(fields(t, i), slots(t))
}

// May a step read, store to or unlock this pair?
#[tactic(auto, unfolding(crate::specs::Rules::pair_fine))]
pub fn pair_fine(t: &[u64], i: u64) -> bool
    ensures { result ≡ pair_fine t.now i }
{
    if pair_quick(t, i) {
        return true;
    }
    (state(t, i) != FREE) & bits_fine(t, i)
}

#[tactic(auto, unfolding(crate::specs::Rules::root_fine))]
fn root_fine(t: &[u64]) -> bool
    ensures { result ≡ root_fine t.now }
{
    if !((key(t, 0) == ALL_ONES) & (state(t, 0) == DATA) & (link(t, 0, false) == 0)) {
        return false;
    }
    bits_fine(t, 0) & (busy(t) <= widths::MOST_BUSY)
}

// True only of a table that is fine and where at least that many workers are busy, and at most 15 more.
#[tactic(auto, using(crate::proofs::QuickLaws::table_fine_lem, crate::proofs::QuickLaws::most_slots_lem))]
fn busy_quick(t: &[u64], least: u64) -> bool
    requires { least ≤ 1 }
    ensures { result ≡ true → (table_fine t.now && busy_from least (busy_of t.now)) ≡ true }
{
    let n = t.len() as u64;
    if !rules::size_fine(n) {
        return false;
    }
    rules::root_quick(key(t, 0), fields(t, 0), n / widths::WORDS, least)
}

// True only of a table that is fine and where a worker is busy.
#[tactic(auto, unfolding(crate::specs::Rules::busy_from))]
pub fn table_quick(t: &[u64]) -> bool
    ensures { result ≡ true → (table_fine t.now && not (eqb (busy_of t.now) 0)) ≡ true }
{
    busy_quick(t, 1)
}

// True only of a table that is fine and where one more worker may be busy.
#[tactic(auto, unfolding(crate::specs::Rules::busy_from))]
pub fn table_open(t: &[u64]) -> bool
    ensures { result ≡ true → (table_fine t.now && not (leb 16 (busy_of t.now))) ≡ true }
{
    busy_quick(t, 0)
}

// Rule 1.
#[tactic(auto, unfolding(crate::specs::Rules::table_fine))]
pub fn table_fine(t: &[u64]) -> bool
    ensures { result ≡ table_fine t.now }
{
    if table_quick(t) {
        return true;
    }
    let n = t.len() as u64;
    if !rules::size_fine(n) {
        return false;
    }
    root_fine(t)
}

// The words become the root with the rest zero, whatever the table held; or the call is refused with 1, and nothing changes.
#[tactic(auto, unfolding(crate::specs::Rules::fresh_says, crate::specs::Rules::fresh_words))]
pub fn fresh(t: &mut [u64]) -> Result<(), Refusal>
    ensures { (said result ≡ fresh_says t.old) × (t.new ≡ fresh_words t.old) }
{
    if !rules::size_fine(t.len() as u64) {
        return Err(Refusal::Table);
    }
    t.fill(0);
    set_key(t, 0, ALL_ONES);
    set_state(t, 0, DATA);
    Ok(())
}
