// The fields of a component, laid out in its row as they are read: an answer is the place behind the field, or a fault.
#![tactic(auto)]

ghost use Rattle.std.specs.Prelude.{◌≡◌, ◌+◌, ◌/◌, ◌%◌, ◌≤◌, length};
ghost use Rattle.std.proofs.lemmas.List.Edits.{sets};
ghost use Rattle.base.specs.Number.{octets_in};
ghost use Rattle.read_place.specs.Places.{Tells, Leads, Reads, Finishes, Ready};
ghost use Rattle.read_place.specs.Leaves.{Leaves, LeavesAll, untold};
ghost use Rattle.read_place.specs.Laying.{lay_id, lay_reject_id, lay_code, lay_problem};
ghost use Rattle.read_part.specs.Parts.{lay_octet, parameter_body, lay_held};
ghost use Rattle.tcap.specs.Productions.{octet_item, id_item, id_or_null_item, problem_item, code_item};

use base::piece;
use primitive::{MOST_INTEGER_OCTETS, bits};
use read_field::{name_at, null_at, one_octet_at, small_at};
use read_place::{
    BAD_CONTENTS, CUT_OFF, FaultAt, MISSING, OPEN, ROW, bad_field, behind, count_at, ended, leave,
    put_text, stands, unfinished, walk_element,
};
use tcap::{MOST_ERROR_PROBLEM, MOST_GENERAL_PROBLEM, MOST_INVOKE_PROBLEM, MOST_RESULT_PROBLEM};

// A number of four octets, most significant first.
fn lay_number(out: &mut [u8], o: usize, n: u32)
    requires { o + 4 ≤ length out.old }
    ensures { out.new ≡ sets out.old o (octets_in 4 n) }
{
    out[o..o + 4].copy_from_slice(&n.to_be_bytes());
}

// An invoke ID.
pub fn invoke_id_at(m: &[u8], at: usize, stop: usize, row: &mut [u8; ROW]) -> Result<usize, FaultAt>
    requires { Ready m.now at stop }
    ensures reads { Tells result (λ r. Reads id_item m.now at stop r) }
    ensures leaves { Leaves lay_id untold id_item m.now at stop row.old row.new }
{
    let r = one_octet_at(m, at, stop, 0x02)?;
    row[1] = 1;
    row[2] = m[at + 2];
    Ok(r)
}

// A code: an object identifier if 06 stands here, else an integer.
pub fn code_at(m: &[u8], at: usize, stop: usize, row: &mut [u8; ROW]) -> Result<usize, FaultAt>
    requires { Ready m.now at stop }
    ensures reads { Tells result (λ r. Reads code_item m.now at stop r) }
    ensures leaves { Leaves lay_code untold code_item m.now at stop row.old row.new }
{
    if stands(m, at, stop, 0x06) {
        let r = name_at(m, at, stop)?;
        row[5] = 0x06;
        put_text(row, 8, at + 2, r - at - 2);
        return Ok(r);
    }
    let Some(n) = count_at(m, at, stop, 0x02, MOST_INTEGER_OCTETS) else {
        return Err(bad_field(m, at, stop, 0x02));
    };
    match primitive::integer_at(piece(m, at + 2, n), MOST_INTEGER_OCTETS) {
        None => Err(FaultAt(BAD_CONTENTS + at)),
        Some(value) => {
            row[5] = 0x02;
            lay_number(row, 8, bits(4294967295, value));
            Ok(at + 2 + n)
        }
    }
}

// A parameter, which must stand here or may be missing: the place behind the contents.
pub fn parameter_at(
    m: &[u8],
    at: usize,
    stop: usize,
    left: usize,
    must: bool,
    row: &mut [u8; ROW],
) -> Result<usize, FaultAt>
    requires { Ready m.now at stop × (1 ≤ left) }
    ensures finishes { Tells result (λ r. Finishes (parameter_body must left) m.now at stop r) }
    ensures leaves_all { LeavesAll (lay_held must) untold (parameter_body must left) m.now at stop row.old row.new }
{
    if ended(m, at, stop) {
        return if must {
            Err(FaultAt(MISSING + at))
        } else {
            Ok(behind(at, stop))
        };
    }
    if unfinished(m, at, stop) {
        return Err(FaultAt(CUT_OFF + at));
    }
    let r = walk_element(m, at, stop % OPEN, left)?;
    row[6] = 1;
    put_text(row, 16, at, r - at);
    leave(m, r, stop)
}

// The invoke ID of a Reject, or a null.
pub fn reject_id_at(m: &[u8], at: usize, stop: usize, row: &mut [u8; ROW]) -> Result<usize, FaultAt>
    requires { Ready m.now at stop }
    ensures reads { Tells result (λ r. Reads id_or_null_item m.now at stop r) }
    ensures leaves { Leaves lay_reject_id untold id_or_null_item m.now at stop row.old row.new }
{
    if stands(m, at, stop, 0x05) {
        return null_at(m, at, stop);
    }
    invoke_id_at(m, at, stop, row)
}

// A problem of this tag, 0 to `most`.
fn problem_of(
    m: &[u8],
    at: usize,
    stop: usize,
    tag: u8,
    most: u8,
    row: &mut [u8; ROW],
) -> Result<usize, FaultAt>
    requires { Ready m.now at stop × Leads tag × (tag / 32 % 2 ≡ 0) }
    ensures reads { Tells result (λ r. Reads (octet_item tag most) m.now at stop r) }
    ensures leaves { Leaves (lay_octet tag) untold (octet_item tag most) m.now at stop row.old row.new }
{
    let r = small_at(m, at, stop, tag, most)?;
    row[5] = tag;
    row[7] = m[at + 2];
    Ok(r)
}

// A problem.
pub fn problem_at(m: &[u8], at: usize, stop: usize, row: &mut [u8; ROW]) -> Result<usize, FaultAt>
    requires { Ready m.now at stop }
    ensures reads { Tells result (λ r. Reads problem_item m.now at stop r) }
    ensures leaves { Leaves lay_problem untold problem_item m.now at stop row.old row.new }
{
    if stands(m, at, stop, 0x81) {
        return problem_of(m, at, stop, 0x81, MOST_INVOKE_PROBLEM, row);
    }
    if stands(m, at, stop, 0x82) {
        return problem_of(m, at, stop, 0x82, MOST_RESULT_PROBLEM, row);
    }
    if stands(m, at, stop, 0x83) {
        return problem_of(m, at, stop, 0x83, MOST_ERROR_PROBLEM, row);
    }
    problem_of(m, at, stop, 0x80, MOST_GENERAL_PROBLEM, row)
}
