// The calls on a worker's record, which is eleven lent words.
ghost use Rattle.std.specs.Prelude.{◌≡◌};
ghost use Rattle.protocol.specs.Step.{step_of};
ghost use Rattle.protocol.specs.Calls.{start_of, withdraw_of};
ghost use Rattle.protocol.specs.declared.Kind.TheVariants.{Lookup, Insert, Remove};
ghost use Rattle.records.specs.Records.{worker_of};
ghost use Rattle.calls.specs.Numbers.{verdict_number, number};
ghost use Rattle.calls.specs.Workers.{Comes};

use protocol::Kind;

// Begins a lookup of a key; or 1, 6 (no record), 2, 3, 4.
pub fn pannuqreik_start_lookup(words: &mut [u64], lent: &mut [u64], key: u64) -> u64
    ensures { Comes number words.old lent.old (start_of words.old (worker_of lent.old) Lookup key) result lent.new words.new }
{
    calls::start(words, lent, Kind::Lookup, key)
}

// Begins an insert of a key; or 1, 6 (no record), 2, 3, 4.
pub fn pannuqreik_start_insert(words: &mut [u64], lent: &mut [u64], key: u64) -> u64
    ensures { Comes number words.old lent.old (start_of words.old (worker_of lent.old) Insert key) result lent.new words.new }
{
    calls::start(words, lent, Kind::Insert, key)
}

// Begins a remove of a key; or 1, 6 (no record), 2, 3, 4.
pub fn pannuqreik_start_remove(words: &mut [u64], lent: &mut [u64], key: u64) -> u64
    ensures { Comes number words.old lent.old (start_of words.old (worker_of lent.old) Remove key) result lent.new words.new }
{
    calls::start(words, lent, Kind::Remove, key)
}

// One step: 0 going, 16 yes, 17 no, 5 Full; or 1, 6 (no record), 2, 6, 9.
pub fn pannuqreik_step(words: &mut [u64], lent: &mut [u64]) -> u64
    ensures { Comes verdict_number words.old lent.old (step_of words.old (worker_of lent.old)) result lent.new words.new }
{
    calls::step(words, lent)
}

// Gives up locks and seat of a work that has not stored yet; or 1, 6 (no record), 2, 6, 7.
pub fn pannuqreik_withdraw(words: &mut [u64], lent: &mut [u64]) -> u64
    ensures { Comes number words.old lent.old (withdraw_of words.old (worker_of lent.old)) result lent.new words.new }
{
    calls::withdraw(words, lent)
}
