// Rules as octets, as a program in C passes them: 12 octets a rule, in the layout of docs/LAYOUT.md.
ghost use Rattle.std.specs.Prelude.{◌≡◌, ◌≤◌, length};
ghost use Rattle.primitive.specs.Primitive.{signed_of};
ghost use Rattle.steering.specs.Steering.{rule_fits, first_fit};
ghost use Rattle.steering.specs.Layout.{rule_size, kind_in, code_in, rule_of, rules_in};

use crate::{Rule, code_fits, kind_fits};

// Neither any kind nor one of the five.
const NO_KIND: u8 = 255;

// Four octets as a signed number.
#[tactic(auto, unfolding(primitive::specs::Primitive::signed_of))]
pub fn signed_in(four: &[u8]) -> i32
    requires { length four.now ≡ 4 }
    ensures { result ≡ signed_of four.now }
{
    i32::from_be_bytes([four[0], four[1], four[2], four[3]])
}

// Octets whose flag is neither 0 nor 1 are no rule: they get a kind that fits nothing.
#[tactic(auto, unfolding(crate::specs::Layout::kind_in))]
fn kind_in(kind: u8, flag: u8) -> u8
    ensures { result ≡ kind_in kind flag }
{
    if flag <= 1 { kind } else { NO_KIND }
}

// Flag 0 asks for any code, and the four octets are not used.
#[tactic(auto, unfolding(crate::specs::Layout::code_in))]
fn code_in(flag: u8, four: &[u8]) -> Option<i32>
    requires { length four.now ≡ 4 }
    ensures { result ≡ code_in flag four.now }
{
    if flag == 0 {
        None
    } else {
        Some(signed_in(four))
    }
}

// The rule that octets begin with.
pub fn rule_of(octets: &[u8]) -> Rule
    requires { rule_size ≤ length octets.now }
    ensures { result ≡ rule_of octets.now }
{
    let flag = octets[1];
    Rule {
        kind: kind_in(octets[0], flag),
        code: code_in(flag, &octets[4..8]),
        link: u32::from_be_bytes([octets[8], octets[9], octets[10], octets[11]]),
    }
}

// Whether the rule that octets begin with fits: its code is looked at only where its kind fits.
#[tactic(auto, unfolding(crate::specs::Steering::rule_fits, crate::specs::Layout::rule_of))]
fn fits_in(octets: &[u8], tag: u8, first: Option<i32>) -> bool
    requires { rule_size ≤ length octets.now }
    ensures { result ≡ rule_fits (rule_of octets.now) tag first }
{
    let flag = octets[1];
    kind_fits(kind_in(octets[0], flag), tag) && code_fits(code_in(flag, &octets[4..8]), first)
}

// The first rule that fits, over rules as octets.
pub fn first_in(octets: &[u8], tag: u8, first: Option<i32>) -> Option<u32>
    ensures { result ≡ first_fit (rules_in octets.now) tag first }
{
    let (rules, _) = octets.as_chunks::<12>();
    rules
        .iter()
        .find(|rule| fits_in(*rule, tag, first))
        .map(|rule| rule_of(rule).link)
}
