// The calls on a table: fresh, and what is asked between steps.
ghost use Rattle.std.specs.Prelude.{◌≡◌, length};
ghost use Rattle.table.specs.Rules.{fresh_says, fresh_words};
ghost use Rattle.tree.specs.Answers.{check_says, list_says, list_holds, first_says, sweep_says, sweep_words};
ghost use Rattle.calls.specs.Numbers.{number, sound_number};
ghost use Rattle.abi.specs.Values.{value_or};

use crate::hand_back;
use calls::numbers;

// The root and zeros; or 1.
pub fn pannuqreik_fresh(words: &mut [u64]) -> u64
    ensures { (result ≡ number (fresh_says words.old)) × (words.new ≡ fresh_words words.old) }
{
    let made = table::fresh(words);
    numbers::of_reply(made)
}

// 16 sound, 17 not; or 1.
pub fn pannuqreik_check(words: &[u64]) -> u64
    ensures { result ≡ sound_number (check_says words.now) }
{
    let found = tree::check(words);
    numbers::of_checked(found)
}

// The keys of the set from low to high in the front of `out`, and how many in `count`; or 1, 6, 11.
pub fn pannuqreik_list(words: &[u64], low: u64, high: u64, out: &mut [u64], count: &mut u64) -> u64
    ensures { (result ≡ number (list_says words.now low high (length out.old))) × (out.new ≡ list_holds words.now low high out.old) × (count.new ≡ value_or (list_says words.now low high (length out.old)) count.old) }
{
    let listed = tree::list_into(words, low, high, out);
    hand_back(listed.map(|n| n as u64), count)
}

// The smallest key of the set at or above `from`, in `key`; or 1, 6, 13.
pub fn pannuqreik_first(words: &[u64], from: u64, key: &mut u64) -> u64
    ensures { (result ≡ number (first_says words.now from)) × (key.new ≡ value_or (first_says words.now from) key.old) }
{
    hand_back(tree::first(words, from), key)
}

// Every deleted slot becomes free; or 1, 8, 6.
pub fn pannuqreik_sweep(words: &mut [u64]) -> u64
    ensures { (result ≡ number (sweep_says words.old)) × (words.new ≡ sweep_words words.old) }
{
    let swept = tree::sweep(words);
    numbers::of_reply(swept)
}
