// Steering by a slice of rules. The C calls know nothing of it: they take rules as octets.
#![tactic(auto)]

ghost use Rattle.std.specs.Prelude.{◌≡◌};
ghost use Rattle.steering.specs.Steering.{first_fit, steering};

use steer_octets::key_of;
use steering::{Rule, rule_fits};
use tcap::Refusal;

// The link of the first rule that fits.
fn first_fit(rules: &[Rule], tag: u8, first: Option<i32>) -> Option<u32>
    ensures { result ≡ first_fit rules.now tag first }
{
    rules
        .iter()
        .find(|rule| rule_fits(rule, tag, first))
        .map(|rule| rule.link)
}

// The link of the first rule that fits a message, "no rule", or the reader's refusal.
#[tactic(auto, unfolding(steering::specs::Steering::steering, steering::specs::Steering::steered_by))]
pub fn steer(message: &[u8], rules: &[Rule]) -> Result<Option<u32>, Refusal>
    ensures { result ≡ steering message.now rules.now }
{
    let key = key_of(message)?;
    Ok(first_fit(rules, key.tag, key.first))
}
