// A row as its 24 octets: kind and IDs, then code, parameter or problem.
ghost use Rattle.std.specs.Prelude.{◌≡◌, ◌+◌, ◌≤◌, length};
ghost use Rattle.base.specs.inner.Put.{Put};
ghost use Rattle.layout.specs.Fits.{RowFits};
ghost use Rattle.layout.specs.Layout.{id_octet, ids_octets, parts_octets, optional_flag, optional_span, coded_octets, returned_octets, problem_octets, kind_octets, row_octets};

use crate::number::{NO_SPAN, flag, octet_of, put_octets, put_span};
use tcap::{Code, ComponentKind, Problem, Row, Span};

#[tactic(auto, unfolding(layout::specs::Layout::id_octet))]
fn id_octet(id: Option<i8>) -> u8
    ensures { result ≡ id_octet id }
{
    id.map_or(0, octet_of)
}

// The kind's tag, the invoke ID and the linked ID.
#[tactic(auto, unfolding(layout::specs::Layout::ids_octets, layout::specs::Layout::id_flag, layout::specs::Layout::linked_flag, layout::specs::Layout::linked_octet, layout::specs::Layout::id_octet))]
fn put_ids(out: &mut [u8], at: usize, tag: u8, id: Option<i8>, linked: Option<i8>) -> usize
    requires { at + 5 ≤ length out.old }
    ensures { Put out.old at (ids_octets tag id linked) result out.new }
{
    let octets = [tag, flag(id), id_octet(id), flag(linked), id_octet(linked)];
    put_octets(out, at, octets)
}

// What follows the IDs: the choice of code or problem, the parameter's flag, the problem, and two strings.
#[tactic(auto, using(crate::proofs::Rooms::put_room, base::proofs::Puts::put_then), unfolding(layout::specs::Layout::parts_octets, layout::specs::Layout::span_octets, base::specs::Number::octets_in))]
fn put_parts(
    out: &mut [u8],
    at: usize,
    tag: u8,
    number: u8,
    code: Span,
    parameter: Option<Span>,
) -> usize
    requires { at + 19 ≤ length out.old }
    ensures { Put out.old at (parts_octets tag (optional_flag parameter) number code (optional_span parameter)) result out.new }
{
    let a = put_octets(out, at, [tag, flag(parameter), number]);
    let b = put_span(out, a, code);
    put_span(out, b, parameter.unwrap_or(NO_SPAN))
}

// A local code stands in the octets of a string's place.
#[tactic(auto, unfolding(layout::specs::Layout::code_tag, layout::specs::Layout::code_span, layout::specs::Layout::coded_octets, base::specs::Number::bits_at, base::specs::Number::top_of))]
fn put_coded(out: &mut [u8], at: usize, code: Code, parameter: Option<Span>) -> usize
    requires { at + 19 ≤ length out.old }
    ensures { Put out.old at (coded_octets code parameter) result out.new }
{
    match code {
        Code::Local(value) => {
            let place = value.cast_unsigned();
            put_parts(out, at, 0x02, 0, Span { place, len: 0 }, parameter)
        }
        Code::Global(span) => put_parts(out, at, 0x06, 0, span, parameter),
    }
}

#[tactic(auto, unfolding(layout::specs::Layout::returned_octets, layout::specs::Layout::optional_flag, layout::specs::Layout::optional_span))]
fn put_returned(out: &mut [u8], at: usize, returned: Option<(Code, Span)>) -> usize
    requires { at + 19 ≤ length out.old }
    ensures { Put out.old at (returned_octets returned) result out.new }
{
    match returned {
        None => put_parts(out, at, 0, 0, NO_SPAN, None),
        Some((code, parameter)) => put_coded(out, at, code, Some(parameter)),
    }
}

#[tactic(auto, unfolding(layout::specs::Layout::problem_octets, layout::specs::Layout::problem_tag, layout::specs::Layout::problem_number, layout::specs::Layout::optional_flag, layout::specs::Layout::optional_span))]
fn put_problem(out: &mut [u8], at: usize, problem: Problem) -> usize
    requires { at + 19 ≤ length out.old }
    ensures { Put out.old at (problem_octets problem) result out.new }
{
    match problem {
        Problem::General(n) => put_parts(out, at, 0x80, n, NO_SPAN, None),
        Problem::OfInvoke(n) => put_parts(out, at, 0x81, n, NO_SPAN, None),
        Problem::OfResult(n) => put_parts(out, at, 0x82, n, NO_SPAN, None),
        Problem::OfError(n) => put_parts(out, at, 0x83, n, NO_SPAN, None),
    }
}

#[tactic(auto, using(crate::proofs::Rooms::rest_room))]
fn put_kind(out: &mut [u8], at: usize, id: Option<i8>, kind: ComponentKind) -> usize
    requires { at + 24 ≤ length out.old }
    ensures { Put out.old at (kind_octets id kind) result out.new }
{
    match kind {
        ComponentKind::Invoke {
            linked,
            code,
            parameter,
        } => {
            let next = put_ids(out, at, 0xA1, id, linked);
            put_coded(out, next, code, parameter)
        }
        ComponentKind::ResultLast(returned) => {
            let next = put_ids(out, at, 0xA2, id, None);
            put_returned(out, next, returned)
        }
        ComponentKind::ReturnError { code, parameter } => {
            let next = put_ids(out, at, 0xA3, id, None);
            put_coded(out, next, code, parameter)
        }
        ComponentKind::Reject(problem) => {
            let next = put_ids(out, at, 0xA4, id, None);
            put_problem(out, next, problem)
        }
        ComponentKind::ResultNotLast(returned) => {
            let next = put_ids(out, at, 0xA7, id, None);
            put_returned(out, next, returned)
        }
    }
}

// One row at a place.
pub fn put_row(out: &mut [u8], at: usize, row: Row) -> usize
    requires { at + 24 ≤ length out.old }
    ensures { Put out.old at (row_octets row) result out.new × RowFits row }
{
    put_kind(out, at, row.id, row.kind)
}
