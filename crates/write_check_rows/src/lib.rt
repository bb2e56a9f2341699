// The components of a record: each judged from the 24 octets of its row, with no row made; an octet that chooses and is not listed is a wrong part.
#![tactic(auto)]

ghost use Rattle.std.specs.Prelude.{◌≡◌, ◌&&◌, ◌≤◌, length, drop, get_or, eqb};
ghost use Rattle.layout.specs.Layout.{is_flag, linked_in, is_code_tag, code_at, parameter_at, is_problem_tag, problem_in, is_coded, is_returned, returned_in, is_unlinked, is_kind, kind_in, is_row, row_in, are_rows, rows_in};
ghost use Rattle.tcap.specs.declared.ComponentKind.{ComponentKind};
ghost use Rattle.write_check_row.specs.Judged.{listed, code_judged, parameter_judged, coded_judged, returned_judged, problem_judged, rest_judged, row_judged, rows_judged};

use primitive::{integer_size, signed};
use tcap::{
    LEFT_AT_4, LEFT_AT_5, MOST_ERROR_PROBLEM, MOST_GENERAL_PROBLEM, MOST_INVOKE_PROBLEM,
    MOST_RESULT_PROBLEM,
};
use unpack::number::{number_at, span_at};
use write_check_row::{Judged, Wrong, around, both, element_judged, name_judged, octet_judged};

// An operation or error code.
fn code_judged(part: &[u8; 24], material: &[u8]) -> Judged
    ensures { result ≡ listed (is_code_tag (get_or part.now 5 0)) (code_judged material.now (code_at part.now)) }
{
    match part[5] {
        0x02 => around(Ok(integer_size(signed(u32::MAX, number_at(part, 8))))),
        0x06 => around(name_judged(span_at(part, 8), material)),
        _ => Err(Wrong::WRONG_PARTS),
    }
}

// A parameter stands at level 4.
fn parameter_judged(part: &[u8; 24], material: &[u8]) -> Judged
    ensures { result ≡ listed (is_flag (get_or part.now 6 0)) (parameter_judged material.now (parameter_at part.now)) }
{
    match part[6] {
        0 => Ok(0),
        1 => element_judged(span_at(part, 16), material, LEFT_AT_4),
        _ => Err(Wrong::WRONG_PARTS),
    }
}

// A code, and the parameter behind it.
fn coded_judged(part: &[u8; 24], material: &[u8]) -> Judged
    ensures { result ≡ listed (is_coded part.now) (coded_judged material.now (code_at part.now) (parameter_at part.now)) }
{
    let code = code_judged(part, material);
    both(code, parameter_judged(part, material))
}

// What a return result holds: both or neither; its parameter stands at level 5.
fn returned_judged(part: &[u8; 24], material: &[u8]) -> Judged
    ensures { result ≡ listed (is_returned part.now) (returned_judged material.now (returned_in part.now)) }
{
    match (part[5], part[6]) {
        (0, 0) => Ok(0),
        (1..=255, 1) => {
            let code = code_judged(part, material);
            let parameter = span_at(part, 16);
            around(both(code, element_judged(parameter, material, LEFT_AT_5)))
        }
        _ => Err(Wrong::WRONG_PARTS),
    }
}

fn problem_judged(tag: u8, number: u8) -> Judged
    ensures { result ≡ listed (is_problem_tag tag) (problem_judged (problem_in tag number)) }
{
    match tag {
        0x80 => octet_judged(number, MOST_GENERAL_PROBLEM),
        0x81 => octet_judged(number, MOST_INVOKE_PROBLEM),
        0x82 => octet_judged(number, MOST_RESULT_PROBLEM),
        0x83 => octet_judged(number, MOST_ERROR_PROBLEM),
        _ => Err(Wrong::WRONG_PARTS),
    }
}

// A Reject has no parameter.
fn reject_judged(part: &[u8; 24]) -> Judged
    ensures { result ≡ listed (eqb (get_or part.now 6 0) 0 && is_problem_tag (get_or part.now 5 0)) (problem_judged (problem_in (get_or part.now 5 0) (get_or part.now 7 0))) }
{
    if part[6] != 0 {
        return Err(Wrong::WRONG_PARTS);
    }
    problem_judged(part[5], part[7])
}

// What an Invoke holds behind its ID.
fn invoke_judged(part: &[u8; 24], material: &[u8]) -> Judged
    ensures { result ≡ listed (is_flag (get_or part.now 3 0) && is_coded part.now) (rest_judged material.now (ComponentKind.Invoke (linked_in (get_or part.now 3 0) (get_or part.now 4 0)) (code_at part.now) (parameter_at part.now))) }
{
    match part[3] {
        0 => coded_judged(part, material),
        1 => both(Ok(3), coded_judged(part, material)),
        _ => Err(Wrong::WRONG_PARTS),
    }
}

// What any other component holds behind its ID.
fn unlinked_judged(tag: u8, part: &[u8; 24], material: &[u8]) -> Judged
    ensures { result ≡ listed (is_unlinked tag part.now) (rest_judged material.now (kind_in tag part.now)) }
{
    match tag {
        0xA2 | 0xA7 => returned_judged(part, material),
        0xA3 => coded_judged(part, material),
        0xA4 => reject_judged(part),
        _ => Err(Wrong::WRONG_PARTS),
    }
}

// Only an Invoke has a linked ID.
fn rest_judged(tag: u8, part: &[u8; 24], material: &[u8]) -> Judged
    ensures { result ≡ listed (is_kind tag part.now) (rest_judged material.now (kind_in tag part.now)) }
{
    match (tag, part[3]) {
        (0xA1, _) => invoke_judged(part, material),
        (_, 0) => unlinked_judged(tag, part, material),
        _ => Err(Wrong::WRONG_PARTS),
    }
}

// One component; its ID may be null in a Reject alone.
fn row_judged(part: &[u8; 24], material: &[u8]) -> Judged
    ensures { result ≡ listed (is_row part.now) (row_judged material.now (row_in part.now)) }
{
    // asked first: a row that is none is refused without a walk through its parameter
    if part[1] > 1 {
        return Err(Wrong::WRONG_PARTS);
    }
    let rest = rest_judged(part[0], part, material);
    match (part[0], part[1]) {
        (_, 1) => around(both(Ok(3), rest)),
        (0xA4, 0) => around(both(Ok(2), rest)),
        _ => Err(Wrong::WRONG_PARTS),
    }
}

// The components of the first `count` rows, one after the other. That a record's octets are there is asked here, in `back_rows`, `back_components` and
// `put_message`, and no type says it: their clauses, which docs/CHANGING.md names, are of the slice that `write_octets` was lent.
pub fn rows_judged(octets: &[u8], count: usize, material: &[u8]) -> Judged
    requires { (428 ≤ length octets.now) × (count ≤ 16) }
    ensures { result ≡ listed (are_rows count (drop 44 octets.now)) (rows_judged material.now (rows_in count (drop 44 octets.now))) }
{
    let (rows, _) = octets[44..].as_chunks::<24>();
    let mut all = Ok(0);
    for row in &rows[..count] {
        all = both(all, row_judged(row, material));
    }
    all
}
