// The loop over components, and what is told of a fault of theirs: an answer is the place behind what was read, or a fault.
#![tactic(auto)]

ghost use Rattle.std.specs.Prelude.{◌≡◌, ◌<◌, ◌≤◌, length};
ghost use Rattle.element.specs.Fault.{component};
ghost use Rattle.read_place.specs.Places.{Tells, until, Finishes, Ready};
ghost use Rattle.read_place.specs.Leaves.{LeavesAll};
ghost use Rattle.read_place.specs.Laying.{lay_components};
ghost use Rattle.read_place.specs.Blames.{Blames, owner_in, id_in};
ghost use Rattle.read_component.specs.Components.{CarriesHere, KnowsId, rows_body};

use read_field::one_octet_at;
use read_place::{
    CUT_OFF, FaultAt, MISSING, OF_COMPONENT, OF_PORTION, RECORD, ROW, SEVENTEENTH, asked_at,
    behind, ended, start_of, unfinished,
};
use read_row::{component_at, is_component};
use tcap::MOST_COMPONENTS;

// The invoke ID that goes with a fault of the component here, if it can be read: its octet.
fn known_id(m: &[u8], at: usize, stop: usize) -> Option<u8>
    requires { Ready m.now at stop × (at < until stop) }
    ensures { KnowsId m.now at stop result }
{
    let tag = m[at];
    if is_component(tag) {
        let Ok(inner) = asked_at(m, at, stop, tag, true) else {
            return None;
        };
        let first = start_of(m, at + 1);
        let Ok(_) = one_octet_at(m, first, inner, 0x02) else {
            return None;
        };
        return Some(m[first + 2]);
    }
    None
}

// A fault of component k, which stands here, told: whose it is, and the invoke ID that goes with it.
fn blame_component(m: &[u8], at: usize, stop: usize, k: usize, out: &mut [u8; RECORD])
    requires { Ready m.now at stop × (at < until stop) × (k ≤ 16) }
    ensures out_after { owner_in out.new ≡ component k }
    ensures carries_here { CarriesHere (id_in out.new) m.now at stop }
{
    out[0] = OF_COMPONENT;
    out[1] = k as u8;
    match known_id(m, at, stop) {
        None => {
            out[2] = 0;
            out[3] = 0;
        }
        Some(id) => {
            out[2] = 1;
            out[3] = id;
        }
    }
}

// One to 16 components, to the end of their contents.
pub fn rows_at(m: &[u8], from: usize, stop: usize, out: &mut [u8; RECORD]) -> Result<usize, FaultAt>
    requires { Ready m.now from stop }
    ensures finishes { Tells result (λ r. Finishes (rows_body 16 0) m.now from stop r) }
    ensures leaves_all { LeavesAll lay_components Blames (rows_body 16 0) m.now from stop out.old out.new }
{
    let mut at = from;
    let mut k: usize = 0;
    loop {
        if ended(m, at, stop) {
            if k == 0 {
                out[0] = OF_PORTION;
                return Err(FaultAt(MISSING + at));
            }
            out[7] = k as u8;
            return Ok(behind(at, stop));
        }
        if unfinished(m, at, stop) {
            out[0] = OF_PORTION;
            return Err(FaultAt(CUT_OFF + at));
        }
        if k == MOST_COMPONENTS {
            out[0] = OF_PORTION;
            return Err(FaultAt(SEVENTEENTH + at));
        }
        let o = 44 + ROW * k;
        match component_at(m, at, stop, &mut out[o..o + ROW]) {
            Err(fault) => {
                blame_component(m, at, stop, k, out);
                return Err(fault);
            }
            Ok(next) => at = next,
        }
        k += 1;
    }
}
