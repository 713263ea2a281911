// The seats: workers counted busy in the root's pair.
ghost use Rattle.std.specs.Prelude.{◌≡◌};
ghost use Rattle.protocol.specs.Step.{leave};
ghost use Rattle.protocol.specs.Calls.{seated};

#[tactic(auto, unfolding(protocol::specs::Step::leave))]
pub fn leave_seat(words: &mut [u64])
    ensures { words.new ≡ leave words.old }
{
    let b = table::busy(words);
    let c = b.saturating_sub(1);
    table::set_busy(words, c);
}

#[tactic(auto, using(table::proofs::PairLaws::field_lt), unfolding(protocol::specs::Calls::seated))]
pub fn take_seat(words: &mut [u64])
    ensures { words.new ≡ seated words.old }
{
    let b = table::busy(words);
    let c = b + 1;
    table::set_busy(words, c);
}
