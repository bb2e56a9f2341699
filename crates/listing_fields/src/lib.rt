// The fields of a line, each with the space before it; the kind of a message begins its line.
// The buffer is lent and may be too short: its length is counted past its end, so these are functions and no `Display`.
#![tactic(auto)]

ghost use Rattle.std.specs.Prelude.{◌≡◌, take, drop};
ghost use Rattle.base.specs.inner.Put.{Put};
ghost use Rattle.listing_fields.specs.Fields.{kind_text, dialogue_text, word_text, id_or, place_text, parameter_text, problem_text, string_text, transaction_text, ids_text, code_text};
ghost use Rattle.listing_fields.specs.inner.Known.{known_text};

use base::{put_octet, put_part};
use digits::{put_decimal, put_hex, put_number, put_signed, put_value};
use tcap::{
    Code, ComponentKind, DestTransactionId, Dialogue, MessageKind, OrigTransactionId, Problem,
    Span, TransactionId,
};

// The field where there is nothing.
pub const ABSENT: &[u8] = b" -";

#[tactic(auto, unfolding(crate::specs::Fields::kind_text))]
pub fn put_kind(out: &mut [u8], at: usize, kind: MessageKind) -> usize
    ensures { Put out.old at (kind_text kind) result out.new }
{
    let word: &[u8] = match kind {
        MessageKind::Unidirectional => b"unidirectional",
        MessageKind::Begin => b"begin",
        MessageKind::End => b"end",
        MessageKind::Continue => b"continue",
        MessageKind::Abort => b"abort",
    };
    put_part(out, at, word)
}

#[tactic(auto, unfolding(crate::specs::Fields::dialogue_text))]
pub fn put_dialogue(out: &mut [u8], at: usize, dialogue: Dialogue) -> usize
    ensures { Put out.old at (dialogue_text dialogue) result out.new }
{
    match dialogue {
        Dialogue::NoDialogue => put_part(out, at, b" none"),
        Dialogue::Cause(cause) => {
            let next = put_part(out, at, b" cause:");
            put_decimal(out, next, usize::from(cause))
        }
        Dialogue::Request { .. } => put_part(out, at, b" request"),
        Dialogue::Response { .. } => put_part(out, at, b" response"),
        Dialogue::DialogueAbort { .. } => put_part(out, at, b" abort"),
        Dialogue::Unidialogue { .. } => put_part(out, at, b" uni"),
        Dialogue::OutsideElement { .. } | Dialogue::OutsideOctets { .. } => {
            put_part(out, at, b" other")
        }
    }
}

#[tactic(auto, unfolding(crate::specs::Fields::word_text))]
pub fn put_word(out: &mut [u8], at: usize, kind: ComponentKind) -> usize
    ensures { Put out.old at (word_text kind) result out.new }
{
    let word: &[u8] = match kind {
        ComponentKind::Invoke { .. } => b" invoke",
        ComponentKind::ResultLast(_) => b" last",
        ComponentKind::ReturnError { .. } => b" error",
        ComponentKind::Reject(_) => b" reject",
        ComponentKind::ResultNotLast(_) => b" notlast",
    };
    put_part(out, at, word)
}

// An ID, or the word for none.
#[tactic(auto, unfolding(crate::specs::Fields::id_or))]
pub fn put_id(out: &mut [u8], at: usize, id: Option<i8>, none: &[u8]) -> usize
    ensures { Put out.old at (id_or none.now id) result out.new }
{
    match id {
        None => put_part(out, at, none),
        Some(value) => put_value(out, at, value),
    }
}

#[tactic(auto, unfolding(crate::specs::Fields::place_text))]
fn put_place(out: &mut [u8], at: usize, string: Span) -> usize
    ensures { Put out.old at (place_text string) result out.new }
{
    let a = put_number(out, at, string.place as usize);
    let b = put_octet(out, a, b'+');
    put_decimal(out, b, string.len as usize)
}

#[tactic(auto, unfolding(crate::specs::Fields::parameter_text))]
pub fn put_parameter(out: &mut [u8], at: usize, parameter: Option<Span>) -> usize
    ensures { Put out.old at (parameter_text parameter) result out.new }
{
    match parameter {
        None => put_part(out, at, ABSENT),
        Some(string) => put_place(out, at, string),
    }
}

#[tactic(auto, unfolding(crate::specs::Fields::problem_text, crate::specs::Fields::problem_of))]
pub fn put_problem(out: &mut [u8], at: usize, problem: Problem) -> usize
    ensures { Put out.old at (problem_text problem) result out.new }
{
    let (tag, number) = match problem {
        Problem::General(number) => (0, number),
        Problem::OfInvoke(number) => (1, number),
        Problem::OfResult(number) => (2, number),
        Problem::OfError(number) => (3, number),
    };
    let a = put_part(out, at, b" problem:");
    let b = put_decimal(out, a, tag);
    let c = put_octet(out, b, b':');
    put_decimal(out, c, usize::from(number))
}

// What of a string lies within the message.
fn within(message: &[u8], string: Span) -> &[u8]
    ensures { result.now ≡ take string.len (drop string.place message.now) }
{
    let from = message.len().min(string.place as usize);
    let rest = &message[from..];
    &rest[..rest.len().min(string.len as usize)]
}

#[tactic(auto, unfolding(crate::specs::Fields::string_text))]
fn put_string(out: &mut [u8], at: usize, message: &[u8], string: Span) -> usize
    ensures { Put out.old at (string_text message.now string) result out.new }
{
    put_hex(out, at, within(message, string))
}

#[tactic(auto, unfolding(crate::specs::inner::Known::known_text, crate::specs::Fields::transaction_text))]
fn put_transaction(out: &mut [u8], at: usize, message: &[u8], id: Option<TransactionId>) -> usize
    ensures { Put out.old at (known_text message.now id) result out.new }
{
    match id {
        None => put_part(out, at, ABSENT),
        Some(id) => {
            let next = put_octet(out, at, b' ');
            put_string(out, next, message, id.octets)
        }
    }
}

// Both transaction IDs.
pub fn put_ids(
    out: &mut [u8],
    at: usize,
    message: &[u8],
    orig: Option<OrigTransactionId>,
    dest: Option<DestTransactionId>,
) -> usize
    ensures { Put out.old at (ids_text message.now orig dest) result out.new }
{
    let next = put_transaction(out, at, message, orig.map(|own| own.0));
    put_transaction(out, next, message, dest.map(|theirs| theirs.0))
}

#[tactic(auto, unfolding(crate::specs::Fields::code_text))]
pub fn put_code(out: &mut [u8], at: usize, message: &[u8], code: Code) -> usize
    ensures { Put out.old at (code_text message.now code) result out.new }
{
    match code {
        Code::Local(value) => {
            let next = put_part(out, at, b" local:");
            put_signed(out, next, value)
        }
        Code::Global(string) => {
            let next = put_part(out, at, b" global:");
            put_string(out, next, message, string)
        }
    }
}
