// A component, laid out in its row as it is read: an answer is the place behind what was read, or a fault.
#![tactic(auto)]

ghost use Rattle.std.specs.Prelude.{◌≡◌, true, false, ◌<◌, ◌≤◌, length};
ghost use Rattle.read_place.specs.Places.{Tells, until, Finishes, Ready};
ghost use Rattle.read_place.specs.Leaves.{LeavesAll, untold};
ghost use Rattle.read_place.specs.Laying.{lay_reject_id, lay_linked, lay_returned, lay_problem, lay_component};
ghost use Rattle.read_row.specs.Component.{coded_body, linked_body, rejected_body, component_body_of, lay_both, lay_coded, ReadsComponent, LeavesComponent};
ghost use Rattle.tcap.specs.Productions.{component_item, both_item, level_at};
ghost use Rattle.element.specs.Parts.{last_body};
ghost use Rattle.tcap.specs.WellFormed.{the93};

use read_field::one_octet_at;
use read_part::{code_at, invoke_id_at, parameter_at, problem_at, reject_id_at};
use read_place::{
    FaultAt, OPEN, ROW, UNKNOWN_COMPONENT, behind, ended, entry_at, leave, length_at, stands,
    start_of, wrong_at,
};
use tcap::{LEFT_AT_4, LEFT_AT_5};

// A code and a parameter, which must stand or may be missing.
fn coded_at(
    m: &[u8],
    at: usize,
    stop: usize,
    left: usize,
    must: bool,
    row: &mut [u8; ROW],
) -> Result<usize, FaultAt>
    requires { Ready m.now at stop × (1 ≤ left) }
    ensures finishes { Tells result (λ r. Finishes (coded_body must left) m.now at stop r) }
    ensures leaves_all { LeavesAll (lay_coded must) untold (coded_body must left) m.now at stop row.old row.new }
{
    let r = code_at(m, at, stop, row)?;
    parameter_at(m, r, stop, left, must, row)
}

// What stands behind the invoke ID of an Invoke: a linked ID or none, code and parameter.
fn linked_at(m: &[u8], at: usize, stop: usize, row: &mut [u8; ROW]) -> Result<usize, FaultAt>
    requires { Ready m.now at stop }
    ensures finishes { Tells result (λ r. Finishes linked_body m.now at stop r) }
    ensures leaves_all { LeavesAll (lay_both lay_linked (lay_coded false)) untold linked_body m.now at stop row.old row.new }
{
    if stands(m, at, stop, 0x80) {
        let r = one_octet_at(m, at, stop, 0x80)?;
        row[3] = 1;
        row[4] = m[at + 2];
        return coded_at(m, r, stop, LEFT_AT_4, false, row);
    }
    coded_at(m, at, stop, LEFT_AT_4, false, row)
}

// Code and parameter in 30, or nothing: what stands behind the invoke ID of a result.
fn result_at(m: &[u8], at: usize, stop: usize, row: &mut [u8; ROW]) -> Result<usize, FaultAt>
    requires { Ready m.now at stop }
    ensures finishes { Tells result (λ r. Finishes (last_body (level_at the93 4) (both_item the93)) m.now at stop r) }
    ensures leaves_all { LeavesAll lay_returned untold (last_body (level_at the93 4) (both_item the93)) m.now at stop row.old row.new }
{
    if ended(m, at, stop) {
        return Ok(behind(at, stop));
    }
    let inner = entry_at(m, at, stop, 0x30)?;
    let r = coded_at(m, start_of(m, at + 1), inner, LEFT_AT_5, true, row)?;
    leave(m, r, stop)
}

// The contents of a Reject.
fn reject_at(m: &[u8], at: usize, stop: usize, row: &mut [u8; ROW]) -> Result<usize, FaultAt>
    requires { Ready m.now at stop }
    ensures finishes { Tells result (λ r. Finishes rejected_body m.now at stop r) }
    ensures leaves_all { LeavesAll (lay_both lay_reject_id lay_problem) untold rejected_body m.now at stop row.old row.new }
{
    let r = reject_id_at(m, at, stop, row)?;
    let s = problem_at(m, r, stop, row)?;
    leave(m, s, stop)
}

// The contents of a component by its tag: an invoke ID, which a Reject may lack, and what follows it.
fn component_contents_at(
    m: &[u8],
    at: usize,
    stop: usize,
    tag: u8,
    row: &mut [u8; ROW],
) -> Result<usize, FaultAt>
    requires { Ready m.now at stop × ((component_item the93).mine tag ≡ true) }
    ensures finishes { Tells result (λ r. Finishes (component_body_of tag) m.now at stop r) }
    ensures leaves_all { LeavesAll lay_component untold (component_body_of tag) m.now at stop row.old row.new }
{
    row[0] = tag;
    if tag == 0xA4 {
        return reject_at(m, at, stop, row);
    }
    let r = invoke_id_at(m, at, stop, row)?;
    match tag {
        0xA1 => linked_at(m, r, stop, row),
        0xA3 => coded_at(m, r, stop, LEFT_AT_4, false, row),
        _ => result_at(m, r, stop, row),
    }
}

// Whether a first octet is the tag of a component.
pub fn is_component(first: u8) -> bool
    ensures { result ≡ (component_item the93).mine first }
{
    matches!(first, 0xA1..=0xA4 | 0xA7)
}

// A component that must stand here. The row is a slice: what a part of an array is left as is known of a slice alone.
pub fn component_at(m: &[u8], at: usize, stop: usize, row: &mut [u8]) -> Result<usize, FaultAt>
    requires { Ready m.now at stop × (at < until stop) × (length row.old ≡ 24) }
    ensures reads_component { Tells result (λ r. ReadsComponent m.now at stop r) }
    ensures leaves_component { LeavesComponent m.now at stop row.old row.new }
{
    let tag = m[at];
    if is_component(tag) {
        let inner = length_at(m, at, at + 1, stop % OPEN, true)?;
        let Some(row) = row.as_mut_array() else {
            unreachable!()
        };
        return component_contents_at(m, start_of(m, at + 1), inner, tag, row);
    }
    Err(wrong_at(m, at, stop, UNKNOWN_COMPONENT))
}
