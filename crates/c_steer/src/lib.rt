// A steering for C: docs/LAYOUT.md.
#![tactic(auto)]

ghost use Rattle.std.specs.Prelude.{◌≡◌};
ghost use Rattle.c_steer.specs.Steer.{steered_bits, steer_answer};

use c_answer::refusal_bits;
use steer_octets::steer_octets;
use tcap::Refusal;

// What is told of a steering: 64 for no rule, a link in the upper four octets, or the refusal.
#[tactic(auto, unfolding(crate::specs::Steer::steered_bits))]
fn steered_bits(steered: Result<Option<u32>, Refusal>) -> u64
    ensures { result ≡ steered_bits steered }
{
    match steered {
        Ok(None) => 64,
        Ok(Some(link)) => u64::from(link) << 32,
        Err(refusal) => refusal_bits(refusal),
    }
}

// The link of the first rule that fits a message, 64 if none does, or the reader's refusal.
#[tactic(auto, unfolding(crate::specs::Steer::steer_answer))]
pub fn steer_answer(message: &[u8], rules: &[u8]) -> u64
    ensures { result ≡ steer_answer message.now rules.now }
{
    steered_bits(steer_octets(message, rules))
}
