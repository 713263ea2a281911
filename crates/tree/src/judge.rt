// The test of a sound table. The bounds only narrow and the number of slots still allowed falls, so no slot fits at two
// places and nothing is noted of those that were visited.
ghost use Rattle.std.specs.Prelude.{◌≡◌, true};
ghost use Rattle.refusal.specs.Said.{gives, said};
ghost use Rattle.table.specs.Pair.{as_data};
ghost use Rattle.table.specs.Rules.{table_fine};
ghost use Rattle.tree.specs.Judge.{want, wanted, sound_of};
ghost use Rattle.tree.specs.Places.{room_of, tree_room};
ghost use Rattle.tree.specs.Answers.{fine_then, sound_then};

use refusal::Refusal;
use table::{DATA, DELETED, FREE, ROUTING};

// Is the slot a data slot with a key from low to high? The state lies between two bounds too, as in the definition.
#[tactic(auto, unfolding(crate::specs::Judge::wanted))]
pub fn is_listed(words: &[u64], slot: u64, low: u64, high: u64) -> bool
    ensures { result ≡ wanted words.now (want as_data as_data low high) slot }
{
    let k = table::key(words, slot);
    let s = table::state(words, slot);
    (DATA <= s) & (s <= DATA) & (low <= k) & (k <= high)
}

// What is left of `room` places after a reached slot with the key k, the state s and the links l and r, a deleted one taking
// none; or 0 where it is free, its key not between the bounds or not legal, or where it is routing and lacks a child.
#[tactic(auto, unfolding(crate::specs::Places::room_of))]
fn slot_room(k: u64, s: u64, l: u64, r: u64, lo: u64, hi: u64, room: u64) -> u64
    ensures { result ≡ room_of k s l r lo hi room }
{
    if !((s != FREE) & (lo < k) & (k < hi)) {
        return 0;
    }
    if !moment::legal(k) {
        return 0;
    }
    if !((s != ROUTING) | ((l != 0) & (r != 0))) {
        return 0;
    }
    if (s == DELETED) | (room == 0) {
        return room;
    }
    room - 1
}

// The same of all that hangs at the slot. A slot is judged before those below it, so that no damage makes it go round, and a
// side where nothing hangs costs no call.
#[tactic(auto, using(crate::proofs::Ways::of_tree_room))]
fn tree_room(words: &[u64], fuel: u64, slot: u64, lo: u64, hi: u64, room: u64) -> u64
    ensures { result ≡ tree_room words.now fuel slot lo hi room }
{
    if slot == 0 {
        return room;
    }
    if fuel == 0 {
        return 0;
    }
    let k = table::key(words, slot);
    let s = table::state(words, slot);
    let l = table::link(words, slot, true);
    let r = table::link(words, slot, false);
    let mut rest = slot_room(k, s, l, r, lo, hi, room);
    if rest == 0 {
        return 0;
    }
    if l != 0 {
        rest = tree_room(words, fuel - 1, l, lo, k, rest);
    }
    if r == 0 {
        return rest;
    }
    tree_room(words, fuel - 1, r, k, hi, rest)
}

// Is the table sound? The root's pair has passed rule 1. No other may break the bit rules, or be free and not zero. Of one more
// place than there are data and routing slots the tree leaves that one.
#[tactic(auto, using(crate::proofs::Ways::of_is_sound))]
pub fn is_sound(words: &[u64]) -> bool
    requires { table_fine words.now ≡ true }
    ensures { result ≡ sound_of words.now }
{
    let n = table::slots(words);
    let mut room: u64 = 1;
    for i in 1..n {
        if !table::bits_fine(words, i) {
            return false;
        }
        let s = table::state(words, i);
        if s == FREE {
            if !table::zero_pair(words, i) {
                return false;
            }
        }
        room += u64::from((s != FREE) & (s != DELETED));
    }
    let l = table::link(words, 0, true);
    let k = table::key(words, 0);
    tree_room(words, n, l, 0, k, room) == 1
}

// The call returns Ok where the table is sound, and is refused with 1 or 6 otherwise.
pub fn sound(words: &[u64]) -> Result<(), Refusal>
    ensures { said result ≡ fine_then words.now (sound_then words.now (gives tt)) }
{
    if !table::table_fine(words) {
        return Err(Refusal::Table);
    }
    if !is_sound(words) {
        return Err(Refusal::Damaged);
    }
    Ok(())
}
