// Steering: the link that a list of rules gives a message. The first rule that fits gives it.
#![tactic(auto)]

pub mod octets;

ghost use Rattle.std.specs.Prelude.{◌≡◌, ◌≤◌, length};
ghost use Rattle.steering.specs.inner.Looked.{first_in};
ghost use Rattle.steering.specs.Steering.{kind_fits, code_fits, rule_fits};

use crate::octets::signed_in;

// The kind that asks for any.
const ANY_KIND: u8 = 0;

// In a row: an Invoke, and a local code.
const INVOKE: u8 = 0xA1;

const LOCAL: u8 = 0x02;

// The kind is 0 for any, or one of the five message tags; a rule with another fits nothing, and can be said (`strange_misses`): so it is a number.
// The code is the local operation code asked for, if any.
#[derive(Clone, Copy)]
pub struct Rule {
    pub kind: u8,
    pub code: Option<i32>,
    pub link: u32,
}

// What the rules look at in a message that was read: its tag, and the local code of its first component, if that is an Invoke with one.
#[derive(Clone, Copy)]
pub struct Key {
    pub tag: u8,
    pub first: Option<i32>,
}

// The local operation code of the first component, from the octets of a record. The count is asked first: where there is no component, the octets behind the head mean nothing.
#[tactic(auto, unfolding(crate::specs::inner::Looked::first_in))]
pub fn first_in(octets: &[u8]) -> Option<i32>
    requires { 56 ≤ length octets.now }
    ensures { result ≡ first_in octets.now }
{
    if octets[7] == 0 || octets[44] != INVOKE || octets[49] != LOCAL {
        return None;
    }
    Some(signed_in(&octets[52..56]))
}

// A message's tag is one of the five, so any other number fits nothing.
#[tactic(auto, unfolding(crate::specs::Steering::kind_fits))]
pub fn kind_fits(asked: u8, tag: u8) -> bool
    ensures { result ≡ kind_fits asked tag }
{
    asked == ANY_KIND || asked == tag
}

// A code is asked of an Invoke with a local code, and of nothing else.
#[tactic(auto, unfolding(crate::specs::Steering::code_fits))]
pub fn code_fits(asked: Option<i32>, first: Option<i32>) -> bool
    ensures { result ≡ code_fits asked first }
{
    match (asked, first) {
        (None, _) => true,
        (Some(wanted), Some(value)) => wanted == value,
        (Some(_), None) => false,
    }
}

// Whether a rule fits a message of this tag and first component.
#[tactic(auto, unfolding(crate::specs::Steering::rule_fits))]
pub fn rule_fits(rule: &Rule, tag: u8, first: Option<i32>) -> bool
    ensures { result ≡ rule_fits rule.now tag first }
{
    kind_fits(rule.kind, tag) && code_fits(rule.code, first)
}
