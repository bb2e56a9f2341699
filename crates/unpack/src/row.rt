// A row from its 24 octets.
ghost use Rattle.std.specs.Prelude.{◌≡◌, ◌≤◌, length};
ghost use Rattle.layout.specs.Layout.{id_in, code_at, parameter_at, problem_in, returned_in, kind_in, row_in, rows_held};

use crate::number::{number_at, optional_at, span_at};
use primitive::signed_octet;
use tcap::{Code, ComponentKind, Problem, Row, Span, blank_row};

// An invoke ID or a linked one.
#[tactic(auto, unfolding(layout::specs::Layout::id_in, base::specs::Number::top_of))]
fn id_in(flag: u8, octet: u8) -> Option<i8>
    ensures { result ≡ id_in flag octet }
{
    if flag == 0 {
        None
    } else {
        Some(signed_octet(octet))
    }
}

#[tactic(auto, unfolding(layout::specs::Layout::code_in, layout::specs::Layout::span_at, base::specs::Number::top_of, base::specs::Number::signed_at))]
fn code_at(part: &[u8; 24]) -> Code
    ensures { result ≡ code_at part.now }
{
    if part[5] == 0x02 {
        Code::Local(number_at(part, 8).cast_signed())
    } else {
        Code::Global(span_at(part, 8))
    }
}

fn parameter_at(part: &[u8; 24]) -> Option<Span>
    ensures { result ≡ parameter_at part.now }
{
    optional_at(part, part[6], 16)
}

#[tactic(auto, unfolding(layout::specs::Layout::problem_in))]
fn problem_in(tag: u8, number: u8) -> Problem
    ensures { result ≡ problem_in tag number }
{
    match tag {
        0x80 => Problem::General(number),
        0x81 => Problem::OfInvoke(number),
        0x82 => Problem::OfResult(number),
        _ => Problem::OfError(number),
    }
}

#[tactic(auto, unfolding(layout::specs::Layout::returned_in))]
fn returned_in(part: &[u8; 24]) -> Option<(Code, Span)>
    ensures { result ≡ returned_in part.now }
{
    if part[5] == 0 {
        None
    } else {
        Some((code_at(part), span_at(part, 16)))
    }
}

#[tactic(auto, unfolding(layout::specs::Layout::kind_in, layout::specs::Layout::linked_in, layout::specs::Layout::id_in))]
fn kind_in(tag: u8, part: &[u8; 24]) -> ComponentKind
    ensures { result ≡ kind_in tag part.now }
{
    match tag {
        0xA1 => ComponentKind::Invoke {
            linked: id_in(part[3], part[4]),
            code: code_at(part),
            parameter: parameter_at(part),
        },
        0xA2 => ComponentKind::ResultLast(returned_in(part)),
        0xA3 => ComponentKind::ReturnError {
            code: code_at(part),
            parameter: parameter_at(part),
        },
        0xA4 => ComponentKind::Reject(problem_in(part[5], part[7])),
        _ => ComponentKind::ResultNotLast(returned_in(part)),
    }
}

// The row that the octets stand for, whether they are one or not.
#[tactic(auto, unfolding(layout::specs::Layout::row_in))]
fn row_in(part: &[u8; 24]) -> Row
    ensures { result ≡ row_in part.now }
{
    Row {
        id: id_in(part[1], part[2]),
        kind: kind_in(part[0], part),
    }
}

// The rows that octets hold, and blank rows behind them.
pub fn rows_in(octets: &[u8], count: usize) -> [Row; 16]
    requires { (384 ≤ length octets.now) × (count ≤ 16) }
    ensures { result ≡ rows_held count octets.now }
{
    let mut rows = [blank_row(); 16];
    let (parts, _) = octets.as_chunks::<24>();
    for (i, part) in parts[..count].iter().enumerate() {
        rows[i] = row_in(part);
    }
    rows
}
