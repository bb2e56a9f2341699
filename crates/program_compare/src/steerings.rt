// Compares steering, by rules as octets and by rules as structs, with the cases of steer.bin. A case: message and rules, each after its length in
// two octets; the originating ID of a refusal after its length in one, 0 for none; then what is expected, in 13 octets as `expected_of` takes them.
ghost use Rattle.std.specs.Prelude.{◌≡◌, ◌≤◌, IfOk};
ghost use Rattle.program_parts.specs.Expected.{Tells};
ghost use Rattle.program_parts.specs.Strings.{Loses};
ghost use Rattle.steering.specs.Steering.{steering};
ghost use Rattle.program_compare.specs.Steerings.{SteeredIs, BothAre, rule_or, four_in, answer_in, expected_in, Compares};

use base::after;
use element::number_of;
use program_parts::cases::{Verdict, next_short_string, next_string};
use program_parts::ids::{id_of, same_orig};
use program_parts::input::read_full;
use std::io;
use std::io::Read;
use steer_octets::steer_octets;
use steer_rules::steer;
use steering::Rule;
use steering::octets::rule_of;
use tcap::{Answer, Refusal};

// What a case expects; the originating ID of a refusal stands beside it.
#[derive(Clone, Copy)]
enum Expected {
    NoRule,
    Link(u32),
    Refused {
        number: u8,
        place: usize,
        answer: Answer,
    },
}

// A standard answer, after 0 for a cause, which has no invoke ID, and 1 for a problem.
#[tactic(auto, unfolding(crate::specs::Steerings::answer_in))]
fn answer_of(kind: u8, value: u8, component: u8, id: Option<i8>) -> Option<Answer>
    ensures { result ≡ answer_in kind value component id }
{
    match (kind, id) {
        (0, None) => Some(Answer::AbortCause(value)),
        (1, id) => Some(Answer::RejectProblem {
            problem: value,
            component: usize::from(component),
            id,
        }),
        _ => None,
    }
}

// After 0 for no rule, 1 for a link, and 2 for a refusal; octets that say none of these expect what never comes.
#[tactic(auto, unfolding(crate::specs::Steerings::expected_in))]
fn expected_of(octets: &[u8; 13]) -> Option<Expected>
    ensures { result ≡ expected_in octets.now }
{
    let [
        outcome,
        a,
        b,
        c,
        d,
        number,
        high,
        low,
        kind,
        value,
        component,
        given,
        id,
    ] = *octets;
    match outcome {
        0 => Some(Expected::NoRule),
        1 => Some(Expected::Link(u32::from_be_bytes([a, b, c, d]))),
        2 => Some(Expected::Refused {
            number,
            place: usize::from(u16::from_be_bytes([high, low])),
            answer: answer_of(kind, value, component, id_of(given, id)?)?,
        }),
        _ => None,
    }
}

// `Answer` is the library's, and has no `==`.
fn same_answer(answer: Answer, expected: Answer) -> bool
    ensures { Tells result (answer ≡ expected) }
{
    match (answer, expected) {
        (Answer::AbortCause(cause), Answer::AbortCause(wanted)) => cause == wanted,
        (
            Answer::RejectProblem {
                problem,
                component,
                id,
            },
            Answer::RejectProblem {
                problem: wanted,
                component: place,
                id: given,
            },
        ) => problem == wanted && component == place && id == given,
        _ => false,
    }
}

#[tactic(auto, unfolding(crate::specs::Steerings::SteeredIs))]
fn same_steered(
    message: &[u8],
    steered: Result<Option<u32>, Refusal>,
    expected: Option<Expected>,
    orig: &[u8],
) -> bool
    ensures { Tells result (SteeredIs message.now steered expected orig.now) }
{
    match (steered, expected) {
        (Ok(None), Some(Expected::NoRule)) => true,
        (Ok(Some(link)), Some(Expected::Link(wanted))) => link == wanted,
        (
            Err(refusal),
            Some(
                Expected::Refused {
                    number,
                    place,
                    answer,
                },
            ),
        ) => {
            number_of(refusal.kind) == number
                && refusal.place == place
                && same_orig(message, refusal.orig, orig)
                && same_answer(refusal.answer, answer)
        }
        _ => false,
    }
}

// The rule at a place, or one that fits nothing where no whole rule stands.
#[tactic(auto, unfolding(crate::specs::Steerings::rule_or))]
fn rule_or_none(rules: &[u8], at: usize) -> Rule
    ensures { result ≡ rule_or rules.now at }
{
    match rules.get(at..) {
        Some(rest) if rest.len() >= 12 => rule_of(rest),
        _ => Rule {
            kind: 255,
            code: None,
            link: 0,
        },
    }
}

// A case has at most four rules.
#[tactic(auto, unfolding(crate::specs::Steerings::four_in))]
fn steer_structs(message: &[u8], rules: &[u8]) -> Result<Option<u32>, Refusal>
    ensures { result ≡ steering message.now (four_in rules.now) }
{
    let four = [0, 12, 24, 36].map(|at| rule_or_none(rules, at));
    steer(message, &four)
}

fn same_both(message: &[u8], rules: &[u8], expected: Option<Expected>, orig: &[u8]) -> bool
    ensures { Tells result (BothAre message.now rules.now expected orig.now) }
{
    let by_octets = steer_octets(message, rules);
    let by_structs = steer_structs(message, rules);
    same_steered(message, by_octets, expected, orig)
        && same_steered(message, by_structs, expected, orig)
}

// Reads the next case and compares it: where its last octets came, all of it did.
pub fn compare_next<R: Read>(input: &mut R) -> io::Result<Verdict>
    ensures verdict { IfOk result (λ v. Compares (R.remaining input.old) (R.remaining input.new) v) }
    ensures loses { Loses (R.remaining input.old) (R.remaining input.new) }
{
    let mut message = [0u8; 512];
    let size = next_string(input, &mut message)?;
    let mut rules = [0u8; 255];
    let length = next_string(input, &mut rules)?;
    let mut orig = [0u8; 255];
    let count = next_short_string(input, &mut orig)?;
    let mut octets = [0u8; 13];
    if read_full(input, &mut octets)? < octets.len() {
        return Ok(Verdict::Ended);
    }
    let equal = same_both(
        &message[..size],
        &rules[..length],
        expected_of(&octets),
        &orig[..count],
    );
    Ok(Verdict::from(equal))
}
