// What a sweep asks of a table, and what it does to it.
ghost use Rattle.std.specs.Prelude.{◌≡◌};
ghost use Rattle.refusal.specs.Said.{said};
ghost use Rattle.table.specs.Pair.{slots_of};
ghost use Rattle.tree.specs.Places.{kept};
ghost use Rattle.tree.specs.Answers.{sweep_says, swept};

use crate::judge;
use refusal::Refusal;
use table::{DELETED, FREE, Which};

// Is no lock of the slot held, and does it, if it is data or routing, lead to no deleted slot?
#[tactic(auto, unfolding(crate::specs::Places::kept, crate::specs::Judge::unlocked))]
fn is_kept(words: &[u64], i: u64) -> bool
    ensures { result ≡ kept words.now i }
{
    let s = table::state(words, i);
    let l = table::state(words, table::link(words, i, true));
    let r = table::state(words, table::link(words, i, false));
    (table::lock(words, i, Which::State) == 0)
        & (table::lock(words, i, Which::Edge(true)) == 0)
        & (table::lock(words, i, Which::Edge(false)) == 0)
        & ((s == FREE) | (s == DELETED) | ((l != DELETED) & (r != DELETED)))
}

// The call returns Ok where the table may be swept, and is refused with 1, 8 or 6 otherwise. A deleted slot is reached only if one
// that is not deleted leads to one.
#[tactic(auto, using(crate::proofs::Ways::of_may_sweep), unfolding(crate::specs::Answers::sweep_says, crate::specs::Answers::sweepable))]
pub fn may_sweep(words: &[u64]) -> Result<(), Refusal>
    ensures { said result ≡ sweep_says words.now }
{
    if !table::table_fine(words) {
        return Err(Refusal::Table);
    }
    if table::busy(words) != 0 {
        return Err(Refusal::Working);
    }
    if !judge::is_sound(words) {
        return Err(Refusal::Damaged);
    }
    for i in 0..table::slots(words) {
        if !is_kept(words, i) {
            return Err(Refusal::Damaged);
        }
    }
    Ok(())
}

// Every deleted slot becomes free: its words are zero.
#[tactic(auto, using(crate::proofs::Ways::of_sweep_all))]
pub fn sweep_all(words: &mut [u64])
    ensures { words.new ≡ swept words.old (slots_of words.old) }
{
    for i in 0..table::slots(words) {
        if table::state(words, i) == DELETED {
            table::zero_slot(words, i);
        }
    }
}
