// The head of a record as its 44 octets: choices and count, transaction IDs, dialogue.
ghost use Rattle.std.specs.Prelude.{◌≡◌, [], ◌∷◌, ◌++◌, ◌+◌, ◌≤◌, length};
ghost use Rattle.base.specs.inner.Put.{Put};
ghost use Rattle.tcap.specs.Record.{message_tag};
ghost use Rattle.layout.specs.Layout.{orig_flag, orig_span, dest_flag, dest_span, span_octets, dialogue_number, pdu_octets, dialogue_octets, head_octets};

use crate::number::{NO_SPAN, flag, put_number, put_octets, put_span};
use tcap::{Diagnostic, Dialogue, Record, Span, message_tag};

#[tactic(auto, unfolding(layout::specs::Layout::dialogue_number))]
fn dialogue_number(dialogue: Dialogue) -> u8
    ensures { result ≡ dialogue_number dialogue }
{
    match dialogue {
        Dialogue::NoDialogue => 0,
        Dialogue::Cause(_) => 1,
        Dialogue::Request { .. } => 2,
        Dialogue::Response { .. } => 3,
        Dialogue::DialogueAbort { .. } => 4,
        Dialogue::Unidialogue { .. } => 5,
        Dialogue::OutsideElement { .. } => 6,
        Dialogue::OutsideOctets { .. } => 7,
    }
}

// Name and user information, then its flag, number, diagnostic source and diagnostic.
#[tactic(auto, using(crate::proofs::Rooms::put_room, base::proofs::Puts::put_then), unfolding(layout::specs::Layout::span_octets, base::specs::Number::octets_in))]
fn put_portion(out: &mut [u8], at: usize, name: Span, info: Span, choices: [u8; 4]) -> usize
    requires { at + 20 ≤ length out.old }
    ensures { Put out.old at (span_octets name ++ span_octets info ++ choices) result out.new }
{
    let a = put_span(out, at, name);
    let b = put_span(out, a, info);
    put_octets(out, b, choices)
}

#[tactic(auto, unfolding(layout::specs::Layout::portion_octets, layout::specs::Layout::optional_flag, layout::specs::Layout::optional_span))]
fn put_pdu(
    out: &mut [u8],
    at: usize,
    name: Span,
    info: Option<Span>,
    number: u8,
    source: u8,
    diagnostic: u8,
) -> usize
    requires { at + 20 ≤ length out.old }
    ensures { Put out.old at (pdu_octets name info number source diagnostic) result out.new }
{
    let choices = [flag(info), number, source, diagnostic];
    put_portion(out, at, name, info.unwrap_or(NO_SPAN), choices)
}

#[tactic(auto, unfolding(layout::specs::Layout::dialogue_octets, layout::specs::Layout::portion_octets, layout::specs::Layout::source_tag, layout::specs::Layout::diagnostic_number))]
fn put_dialogue(out: &mut [u8], at: usize, dialogue: Dialogue) -> usize
    requires { at + 20 ≤ length out.old }
    ensures { Put out.old at (dialogue_octets dialogue) result out.new }
{
    match dialogue {
        Dialogue::NoDialogue => put_portion(out, at, NO_SPAN, NO_SPAN, [0, 0, 0, 0]),
        Dialogue::Cause(n) => put_portion(out, at, NO_SPAN, NO_SPAN, [0, n, 0, 0]),
        Dialogue::Request { name, info } | Dialogue::Unidialogue { name, info } => {
            put_pdu(out, at, name, info, 0, 0, 0)
        }
        Dialogue::Response {
            name,
            result,
            diagnostic,
            info,
        } => match diagnostic {
            Diagnostic::ByUser(n) => put_pdu(out, at, name, info, result, 0xA1, n),
            Diagnostic::ByProvider(n) => put_pdu(out, at, name, info, result, 0xA2, n),
        },
        Dialogue::DialogueAbort { source, info } => put_pdu(out, at, NO_SPAN, info, source, 0, 0),
        Dialogue::OutsideElement {
            name,
            element: held,
        }
        | Dialogue::OutsideOctets { name, octets: held } => {
            put_portion(out, at, name, held, [0, 0, 0, 0])
        }
    }
}

// The count is told beside the record: one above 16 is laid out as 17.
#[tactic(auto, using(crate::proofs::Rooms::put_room, base::proofs::Puts::put_then), unfolding(layout::specs::Layout::span_octets, base::specs::Number::octets_in))]
pub fn put_head(out: &mut [u8], at: usize, held: &Record, count: usize) -> usize
    requires { at + 44 ≤ length out.old }
    ensures { Put out.old at (head_octets held.now.kind held.now.orig held.now.dest held.now.dialogue count) result out.new }
{
    let choices = [
        message_tag(held.kind),
        flag(held.orig),
        flag(held.dest),
        dialogue_number(held.dialogue),
    ];
    let a = put_octets(out, at, choices);
    let b = put_number(out, a, (count % 4294967296) as u32);
    let c = put_span(out, b, held.orig.map_or(NO_SPAN, |own| own.0.octets));
    let d = put_span(out, c, held.dest.map_or(NO_SPAN, |theirs| theirs.0.octets));
    put_dialogue(out, d, held.dialogue)
}
