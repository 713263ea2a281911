// The calls on a table, as exported: each is the call of the same name in `abi`, under the same promise.
ghost use Rattle.std.specs.Prelude.{◌≡◌, length};
ghost use Rattle.table.specs.Rules.{fresh_says, fresh_words};
ghost use Rattle.tree.specs.Answers.{check_says, list_says, list_holds, first_says, sweep_says, sweep_words};
ghost use Rattle.calls.specs.Numbers.{number, sound_number};
ghost use Rattle.abi.specs.Values.{value_or};

use abi::between;

// The root and zeros; or 1.
#[unsafe(no_mangle)]
pub extern "C" fn pannuqreik_fresh(words: &mut [u64]) -> u64
    ensures { (result ≡ number (fresh_says words.old)) × (words.new ≡ fresh_words words.old) }
{
    between::pannuqreik_fresh(words)
}

// 16 sound, 17 not; or 1.
#[unsafe(no_mangle)]
pub extern "C" fn pannuqreik_check(words: &[u64]) -> u64
    ensures { result ≡ sound_number (check_says words.now) }
{
    between::pannuqreik_check(words)
}

// The keys of the set from low to high in the front of `out`, and how many in `count`; or 1, 6, 11.
#[unsafe(no_mangle)]
pub extern "C" fn pannuqreik_list(
    words: &[u64],
    low: u64,
    high: u64,
    out: &mut [u64],
    count: &mut u64,
) -> u64
    ensures { (result ≡ number (list_says words.now low high (length out.old))) × (out.new ≡ list_holds words.now low high out.old) × (count.new ≡ value_or (list_says words.now low high (length out.old)) count.old) }
{
    between::pannuqreik_list(words, low, high, out, count)
}

// The smallest key of the set at or above `from`, in `key`; or 1, 6, 13.
#[unsafe(no_mangle)]
pub extern "C" fn pannuqreik_first(words: &[u64], from: u64, key: &mut u64) -> u64
    ensures { (result ≡ number (first_says words.now from)) × (key.new ≡ value_or (first_says words.now from) key.old) }
{
    between::pannuqreik_first(words, from, key)
}

// Every deleted slot becomes free; or 1, 8, 6.
#[unsafe(no_mangle)]
pub extern "C" fn pannuqreik_sweep(words: &mut [u64]) -> u64
    ensures { (result ≡ number (sweep_says words.old)) × (words.new ≡ sweep_words words.old) }
{
    between::pannuqreik_sweep(words)
}
