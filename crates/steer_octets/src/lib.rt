// Steering by rules as octets: the message is read once, for what the rules look at.
#![tactic(auto)]

ghost use Rattle.std.specs.Prelude.{◌≡◌};
ghost use Rattle.tcap.specs.Reading.{reading};
ghost use Rattle.steering.specs.Layout.{rules_in};
ghost use Rattle.steering.specs.Steering.{keyed, steering};

use steering::Key;
use steering::octets::first_in;
use tcap::Refusal;

// Reads a message, once, for what the rules look at.
#[tactic(auto, using(crate::proofs::First::key_told), unfolding(steering::specs::Steering::keyed))]
pub fn key_of(message: &[u8]) -> Result<Key, Refusal>
    ensures { result ≡ keyed (reading message.now) }
{
    let mut octets = [0; 428];
    read::read_octets(message, &mut octets)?;
    Ok(Key {
        tag: octets[0],
        first: steering::first_in(&octets),
    })
}

// The link of the first rule that fits the message, over rules as octets.
#[tactic(auto, unfolding(steering::specs::Steering::steering, steering::specs::Steering::steered_by))]
pub fn steer_octets(message: &[u8], rules: &[u8]) -> Result<Option<u32>, Refusal>
    ensures { result ≡ steering message.now (rules_in rules.now) }
{
    let key = key_of(message)?;
    Ok(first_in(rules, key.tag, key.first))
}
