// The lines of a listing: the head, one for each component, or the refusal.
#![tactic(auto)]

ghost use Rattle.std.specs.Prelude.{◌≡◌, take};
ghost use Rattle.base.specs.inner.Put.{Put};
ghost use Rattle.listing_fields.specs.Fields.{answer_text};
ghost use Rattle.listing_lines.specs.Lines.{coded_text, returned_text, reject_text, parts_text, row_text, rows_text, head_text, refusal_text};

use base::{put_octet, put_part};
use digits::{put_decimal, put_number};
use element::number_of;
use listing_fields::{
    ABSENT, put_code, put_dialogue, put_id, put_ids, put_kind, put_parameter, put_problem, put_word,
};
use tcap::{Answer, Code, ComponentKind, Problem, Record, Refusal, Row, Span};

// Linked ID, code and parameter.
fn put_coded(
    out: &mut [u8],
    at: usize,
    message: &[u8],
    linked: Option<i8>,
    code: Code,
    parameter: Option<Span>,
) -> usize
    ensures { Put out.old at (coded_text message.now linked code parameter) result out.new }
{
    let a = put_id(out, at, linked, ABSENT);
    let b = put_code(out, a, message, code);
    put_parameter(out, b, parameter)
}

#[tactic(auto, unfolding(crate::specs::Lines::returned_text))]
fn put_returned(out: &mut [u8], at: usize, message: &[u8], returned: Option<(Code, Span)>) -> usize
    ensures { Put out.old at (returned_text message.now returned) result out.new }
{
    match returned {
        None => put_part(out, at, b" - - -"),
        Some((code, parameter)) => put_coded(out, at, message, None, code, Some(parameter)),
    }
}

fn put_rejected(out: &mut [u8], at: usize, problem: Problem) -> usize
    ensures { Put out.old at (reject_text problem) result out.new }
{
    let a = put_part(out, at, ABSENT);
    let b = put_problem(out, a, problem);
    put_part(out, b, ABSENT)
}

// What follows the invoke ID.
#[tactic(auto, unfolding(crate::specs::Lines::parts_text))]
fn put_parts(out: &mut [u8], at: usize, message: &[u8], kind: ComponentKind) -> usize
    ensures { Put out.old at (parts_text message.now kind) result out.new }
{
    match kind {
        ComponentKind::Invoke {
            linked,
            code,
            parameter,
        } => put_coded(out, at, message, linked, code, parameter),
        ComponentKind::ResultLast(returned) | ComponentKind::ResultNotLast(returned) => {
            put_returned(out, at, message, returned)
        }
        ComponentKind::ReturnError { code, parameter } => {
            put_coded(out, at, message, None, code, parameter)
        }
        ComponentKind::Reject(problem) => put_rejected(out, at, problem),
    }
}

fn put_row(out: &mut [u8], at: usize, message: &[u8], index: usize, row: Row) -> usize
    ensures { Put out.old at (row_text message.now index row) result out.new }
{
    let a = put_decimal(out, at, index);
    let b = put_word(out, a, row.kind);
    let c = put_id(out, b, row.id, b" null");
    let d = put_parts(out, c, message, row.kind);
    put_octet(out, d, b'\n')
}

// The first `count` rows of the sixteen.
pub fn put_rows(out: &mut [u8], at: usize, message: &[u8], rows: [Row; 16], count: usize) -> usize
    ensures { Put out.old at (rows_text message.now 0 (take count rows)) result out.new }
{
    let mut next = at;
    for (index, row) in rows[..count.min(rows.len())].iter().enumerate() {
        next = put_row(out, next, message, index, *row);
    }
    next
}

pub fn put_head(out: &mut [u8], at: usize, message: &[u8], held: Record) -> usize
    ensures { Put out.old at (head_text message.now held) result out.new }
{
    let a = put_kind(out, at, held.kind);
    let b = put_number(out, a, message.len());
    let c = put_ids(out, b, message, held.orig, held.dest);
    let d = put_dialogue(out, c, held.dialogue);
    let e = put_number(out, d, held.count);
    put_octet(out, e, b'\n')
}

fn put_answer(out: &mut [u8], at: usize, answer: Answer) -> usize
    ensures { Put out.old at (answer_text answer) result out.new }
{
    match answer {
        Answer::AbortCause(cause) => {
            let a = put_part(out, at, b" cause");
            put_number(out, a, usize::from(cause))
        }
        Answer::RejectProblem {
            problem,
            component,
            ..
        } => {
            let a = put_part(out, at, b" problem");
            let b = put_number(out, a, usize::from(problem));
            let c = put_part(out, b, b" component");
            put_number(out, c, component)
        }
    }
}

pub fn put_refusal(out: &mut [u8], at: usize, refusal: Refusal) -> usize
    ensures { Put out.old at (refusal_text refusal) result out.new }
{
    let a = put_part(out, at, b"refused");
    let b = put_number(out, a, usize::from(number_of(refusal.kind)));
    let c = put_number(out, b, refusal.place);
    let d = put_answer(out, c, refusal.answer);
    put_octet(out, d, b'\n')
}
