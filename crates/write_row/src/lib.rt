// Components put from the octets of their rows, from the last to the first: each field is taken where it is put, and no row is made.
#![tactic(auto)]

ghost use Rattle.std.specs.Prelude.{◌≡◌, true, ◌≤◌, length, drop};
ghost use Rattle.base.specs.inner.Back.{Room, PutBack};
ghost use Rattle.element.specs.Form.{then, series_form};
ghost use Rattle.tcap.specs.Verdict.{every, option_lies, code_lies, returned_lies, row_lies};
ghost use Rattle.write_check_row.specs.Forms.{id_form, linked_form, code_form, parameter_form, returned_form, row_form, octets_of};
ghost use Rattle.layout.specs.Layout.{id_in, linked_in, code_at, parameter_at, returned_in, is_kind, kind_in, is_row, row_in, are_rows, rows_in};
ghost use Rattle.write_check_row.specs.Forms.{rest_form};

use base::back_octets;
use primitive::signed;
use unpack::number::{number_at, span_at};
use write_head::integer::back_integer;
use write_head::{back_head, back_span, back_string};

// The octet of an ID is put as it stands: one octet holds every number of eight bits.
fn back_id(out: &mut [u8], at: usize, flag: u8, octet: u8) -> usize
    requires { Room out.old at (octets_of (id_form (id_in flag octet))) }
    ensures { PutBack out.old at (octets_of (id_form (id_in flag octet))) result out.new }
{
    if flag == 0 {
        return back_octets(out, at, [0x05, 0]);
    }
    back_octets(out, at, [0x02, 1, octet])
}

fn back_linked(out: &mut [u8], at: usize, flag: u8, octet: u8) -> usize
    requires { Room out.old at (octets_of (linked_form (linked_in flag octet))) }
    ensures { PutBack out.old at (octets_of (linked_form (linked_in flag octet))) result out.new }
{
    if flag == 0 {
        return at;
    }
    back_octets(out, at, [0x80, 1, octet])
}

fn back_code(out: &mut [u8], at: usize, material: &[u8], part: &[u8; 24]) -> usize
    requires code_within { code_lies (length material.now) (code_at part.now) ≡ true }
    requires room { Room out.old at (octets_of (code_form material.now (code_at part.now))) }
    ensures { PutBack out.old at (octets_of (code_form material.now (code_at part.now))) result out.new }
{
    if part[5] == 0x02 {
        let value = signed(u32::MAX, number_at(part, 8));
        return back_integer(out, at, 0x02, value);
    }
    let string = span_at(part, 8);
    back_string(out, at, material, 0x06, string)
}

// A parameter is a whole element.
fn back_parameter(out: &mut [u8], at: usize, material: &[u8], part: &[u8; 24]) -> usize
    requires parameter_within { option_lies (length material.now) (parameter_at part.now) ≡ true }
    requires room { Room out.old at (octets_of (parameter_form material.now (parameter_at part.now))) }
    ensures { PutBack out.old at (octets_of (parameter_form material.now (parameter_at part.now))) result out.new }
{
    if part[6] == 0 {
        return at;
    }
    let string = span_at(part, 16);
    back_span(out, at, material, string)
}

fn back_coded(out: &mut [u8], at: usize, material: &[u8], part: &[u8; 24]) -> usize
    requires code_within { code_lies (length material.now) (code_at part.now) ≡ true }
    requires parameter_within { option_lies (length material.now) (parameter_at part.now) ≡ true }
    requires room { Room out.old at (octets_of (then (code_form material.now (code_at part.now)) (parameter_form material.now (parameter_at part.now)))) }
    ensures { PutBack out.old at (octets_of (then (code_form material.now (code_at part.now)) (parameter_form material.now (parameter_at part.now)))) result out.new }
{
    let next = back_parameter(out, at, material, part);
    back_code(out, next, material, part)
}

// 30 with code and parameter, both or neither.
fn back_returned(out: &mut [u8], at: usize, material: &[u8], part: &[u8; 24]) -> usize
    requires within { returned_lies (length material.now) (returned_in part.now) ≡ true }
    requires room { Room out.old at (octets_of (returned_form material.now (returned_in part.now))) }
    ensures { PutBack out.old at (octets_of (returned_form material.now (returned_in part.now))) result out.new }
{
    if part[5] == 0 {
        return at;
    }
    let string = span_at(part, 16);
    let next = back_span(out, at, material, string);
    let start = back_code(out, next, material, part);
    back_head(out, start, 0x30, at - start)
}

// What follows the invoke ID. The problem of a Reject stands in the row as it is put: its tag, then its number.
fn back_rest(out: &mut [u8], at: usize, material: &[u8], tag: u8, part: &[u8; 24]) -> usize
    requires kind_listed { is_kind tag part.now ≡ true }
    requires within { row_lies (length material.now) (kind_in tag part.now) ≡ true }
    requires room { Room out.old at (octets_of (rest_form material.now (kind_in tag part.now))) }
    ensures { PutBack out.old at (octets_of (rest_form material.now (kind_in tag part.now))) result out.new }
{
    match tag {
        0xA1 => {
            let next = back_coded(out, at, material, part);
            back_linked(out, next, part[3], part[4])
        }
        0xA3 => back_coded(out, at, material, part),
        0xA4 => back_octets(out, at, [part[5], 1, part[7]]),
        _ => back_returned(out, at, material, part),
    }
}

fn back_row(out: &mut [u8], at: usize, material: &[u8], part: &[u8; 24]) -> usize
    requires row_listed { is_row part.now ≡ true }
    requires within { row_lies (length material.now) (row_in part.now).kind ≡ true }
    requires room { Room out.old at (octets_of (row_form material.now (row_in part.now))) }
    ensures { PutBack out.old at (octets_of (row_form material.now (row_in part.now))) result out.new }
{
    let next = back_rest(out, at, material, part[0], part);
    let start = back_id(out, next, part[1], part[2]);
    back_head(out, start, part[0], at - start)
}

// The first `count` rows of a record.
pub fn back_rows(out: &mut [u8], at: usize, material: &[u8], octets: &[u8], count: usize) -> usize
    requires in_bounds { (428 ≤ length octets.now) × (count ≤ 16) }
    requires rows_listed { are_rows count (drop 44 octets.now) ≡ true }
    requires rows_within { every (λ w. row_lies (length material.now) w.kind) (rows_in count (drop 44 octets.now)) ≡ true }
    requires room { Room out.old at (octets_of (series_form (row_form material.now) (rows_in count (drop 44 octets.now)))) }
    ensures { PutBack out.old at (octets_of (series_form (row_form material.now) (rows_in count (drop 44 octets.now)))) result out.new }
{
    let (rows, _) = octets[44..].as_chunks::<24>();
    let mut o = at;
    for row in rows[..count].iter().rev() {
        o = back_row(out, o, material, row);
    }
    o
}
