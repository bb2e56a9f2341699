// The fields of a record's head, and whether its choices are listed.
// That 44 octets are there each function asks, and no type says it: `read` and `write_octets` hold the whole slice and make each call once,
// and a view with this as its invariant was no plainer: what each call says would have to be carried back from the view to the slice.
ghost use Rattle.std.specs.Prelude.{◌≡◌, ◌≤◌, length, get_or};
ghost use Rattle.layout.specs.Layout.{span_at, is_message_tag, message_kind_in, orig_in, dest_in, is_source_tag, diagnostic_in, is_dialogue, pdu_in, outside_in, dialogue_in, is_head};

use crate::number::{optional_at, span_at};
use tcap::{
    DestTransactionId, Diagnostic, Dialogue, MessageKind, OrigTransactionId, TransactionId,
};

// Every octet stands for a kind, as `record_in` has it: whether it is listed is asked apart, by `is_head`.
#[tactic(auto, unfolding(layout::specs::Layout::message_kind_in))]
pub fn message_kind_in(tag: u8) -> MessageKind
    ensures { result ≡ message_kind_in tag }
{
    match tag {
        0x61 => MessageKind::Unidirectional,
        0x62 => MessageKind::Begin,
        0x64 => MessageKind::End,
        0x65 => MessageKind::Continue,
        _ => MessageKind::Abort,
    }
}

// The two IDs have types of their own, so that one is never taken for the other.
#[tactic(auto, unfolding(layout::specs::Layout::orig_in, layout::specs::Layout::optional_in))]
pub fn orig_in(octets: &[u8]) -> Option<OrigTransactionId>
    requires { 44 ≤ length octets.now }
    ensures { result ≡ orig_in (get_or octets.now 1 0) (span_at octets.now 8) }
{
    optional_at(octets, octets[1], 8).map(|octets| OrigTransactionId(TransactionId { octets }))
}

#[tactic(auto, unfolding(layout::specs::Layout::dest_in, layout::specs::Layout::optional_in))]
pub fn dest_in(octets: &[u8]) -> Option<DestTransactionId>
    requires { 44 ≤ length octets.now }
    ensures { result ≡ dest_in (get_or octets.now 2 0) (span_at octets.now 16) }
{
    optional_at(octets, octets[2], 16).map(|octets| DestTransactionId(TransactionId { octets }))
}

#[tactic(auto, unfolding(layout::specs::Layout::diagnostic_in))]
fn diagnostic_in(tag: u8, number: u8) -> Diagnostic
    ensures { result ≡ diagnostic_in tag number }
{
    if tag == 0xA1 {
        Diagnostic::ByUser(number)
    } else {
        Diagnostic::ByProvider(number)
    }
}

// A dialogue PDU, by its choice.
#[tactic(auto, unfolding(layout::specs::Layout::pdu_in))]
fn pdu_in(choice: u8, octets: &[u8]) -> Dialogue
    requires { 44 ≤ length octets.now }
    ensures { result ≡ pdu_in choice octets.now }
{
    let name = span_at(octets, 24);
    let info = optional_at(octets, octets[40], 32);
    match choice {
        2 => Dialogue::Request { name, info },
        3 => Dialogue::Response {
            name,
            result: octets[41],
            diagnostic: diagnostic_in(octets[42], octets[43]),
            info,
        },
        4 => Dialogue::DialogueAbort {
            source: octets[41],
            info,
        },
        _ => Dialogue::Unidialogue { name, info },
    }
}

// What stands under another name, by its choice.
#[tactic(auto, unfolding(layout::specs::Layout::outside_in))]
fn outside_in(choice: u8, octets: &[u8]) -> Dialogue
    requires { 44 ≤ length octets.now }
    ensures { result ≡ outside_in choice octets.now }
{
    let name = span_at(octets, 24);
    let held = span_at(octets, 32);
    if choice == 6 {
        Dialogue::OutsideElement {
            name,
            element: held,
        }
    } else {
        Dialogue::OutsideOctets { name, octets: held }
    }
}

#[tactic(auto, unfolding(layout::specs::Layout::dialogue_in))]
pub fn dialogue_in(choice: u8, octets: &[u8]) -> Dialogue
    requires { 44 ≤ length octets.now }
    ensures { result ≡ dialogue_in choice octets.now }
{
    match choice {
        0 => Dialogue::NoDialogue,
        1 => Dialogue::Cause(octets[41]),
        2..=5 => pdu_in(choice, octets),
        _ => outside_in(choice, octets),
    }
}

#[tactic(auto, unfolding(layout::specs::Layout::is_message_tag))]
fn is_message_tag(tag: u8) -> bool
    ensures { result ≡ is_message_tag tag }
{
    matches!(tag, 0x61 | 0x62 | 0x64 | 0x65 | 0x67)
}

fn is_source_tag(tag: u8) -> bool
    ensures { result ≡ is_source_tag tag }
{
    matches!(tag, 0xA1 | 0xA2)
}

// Only a dialogue PDU has user information.
#[tactic(auto, unfolding(layout::specs::Layout::is_dialogue))]
fn is_dialogue(choice: u8, octets: &[u8]) -> bool
    requires { 44 ≤ length octets.now }
    ensures { result ≡ is_dialogue choice octets.now }
{
    match choice {
        0 | 1 | 6 | 7 => octets[40] == 0,
        2..=5 => octets[40] <= 1 && (choice != 3 || is_source_tag(octets[42])),
        _ => false,
    }
}

#[tactic(auto, unfolding(layout::specs::Layout::is_head))]
pub fn is_head(octets: &[u8]) -> bool
    requires { 44 ≤ length octets.now }
    ensures { result ≡ is_head octets.now }
{
    is_message_tag(octets[0]) && octets[1] <= 1 && octets[2] <= 1 && is_dialogue(octets[3], octets)
}
