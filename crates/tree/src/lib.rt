// Between steps: check, list, first frame and sweep.
#![tactic(auto)]

ghost use Rattle.std.specs.Prelude.{◌≡◌, length, IfOk};
ghost use Rattle.refusal.specs.Said.{said, judged};
ghost use Rattle.tree.specs.Answers.{check_says, list_says, list_holds, list_front, list_number, first_says, sweep_says, sweep_words};

use refusal::Refusal;

mod freeing;
mod in_order;
mod judge;

// The call says whether the table is sound, or is refused with 1.
#[tactic(auto, unfolding(crate::specs::Answers::check_says))]
pub fn check(words: &[u64]) -> Result<bool, Refusal>
    ensures { said result ≡ check_says words.now }
{
    if !table::table_fine(words) {
        return Err(Refusal::Table);
    }
    Ok(judge::is_sound(words))
}

// The keys of the set from low to high go into the front of the buffer, smallest first, and its rest stays; the call returns how many
// they are. Or it is refused with 1, 6 or 11, and the buffer stays.
#[tactic(auto, using(crate::proofs::Ways::of_list_into))]
pub fn list_into(words: &[u64], low: u64, high: u64, out: &mut [u64]) -> Result<usize, Refusal>
    ensures { (said result ≡ list_says words.now low high (length out.old)) × (out.new ≡ list_holds words.now low high out.old) }
{
    in_order::may_list(words, low, high, out.len() as u64)?;
    let n = table::slots(words);
    let l = table::link(words, 0, true);
    Ok(in_order::fill(words, n, l, low, high, out, 0))
}

// The call hands back the filled front of the caller's buffer, or is refused with 1, 6 or 11.
#[tactic(auto, using(crate::proofs::Ways::of_list), unfolding(crate::specs::Answers::list_number))]
pub fn list<'a>(
    words: &[u64],
    low: u64,
    high: u64,
    out: &'a mut [u64],
) -> Result<&'a mut [u64], Refusal>
    ensures front { IfOk result (λ front. front.now ≡ list_front words.now low high out.old) }
    ensures number { judged result ≡ list_number words.now low high out.old }
{
    let n = list_into(words, low, high, out)?;
    Ok(&mut out[..n])
}

// The call returns the smallest key of the set at or above `from`, or is refused with 1, 6 or 13.
#[tactic(auto, using(crate::proofs::Ways::of_first), unfolding(crate::specs::Answers::first_says))]
pub fn first(words: &[u64], from: u64) -> Result<u64, Refusal>
    ensures { said result ≡ first_says words.now from }
{
    judge::sound(words)?;
    let n = table::slots(words);
    let l = table::link(words, 0, true);
    match in_order::least(words, n, l, from) {
        Some(slot) => Ok(table::key(words, slot)),
        None => Err(Refusal::None),
    }
}

// Every deleted slot becomes free; or the call is refused with 1, 8 or 6, and nothing changes.
#[tactic(auto, using(crate::proofs::Ways::of_sweep), unfolding(crate::specs::Answers::sweep_words))]
pub fn sweep(words: &mut [u64]) -> Result<(), Refusal>
    ensures { (said result ≡ sweep_says words.old) × (words.new ≡ sweep_words words.old) }
{
    freeing::may_sweep(words)?;
    freeing::sweep_all(words);
    Ok(())
}
