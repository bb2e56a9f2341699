// Messages: an answer is the place behind what was read, or the first fault. What is read is laid out in the octets lent, or whom the fault belongs to is told there.
#![tactic(auto)]

ghost use Rattle.std.specs.Prelude.{◌≡◌, true, ◌+◌, ◌/◌, ◌%◌, ◌<◌, ◌≤◌, length, set};
ghost use Rattle.element.specs.Parts.{then_body};
ghost use Rattle.read_place.specs.Places.{Tells, Leads, Reads, Finishes, Ready, nothing};
ghost use Rattle.read_place.specs.Leaves.{Left, Leaves, LeavesAll, unlaid};
ghost use Rattle.read_place.specs.Laying.{lay_dest, lay_components, lay_message, lay_accepted};
ghost use Rattle.read_place.specs.Blames.{Blames};
ghost use Rattle.read_pdu.specs.Pdus.{Passes};
ghost use Rattle.tcap.specs.WellFormed.{the93};
ghost use Rattle.tcap.specs.Reading.{located_up_to};
ghost use Rattle.tcap.specs.Productions.{level_at, dest_item, components_item, dialogue_item, tail_body, message_item};
ghost use Rattle.read_row.specs.Component.{lay_both};
ghost use Rattle.read_message.specs.Messages.{transaction_id_item, lay_id_at, components_body, ending_body, unidirectional_body, message_body_of, Answers, lay_listed, lay_tail, lay_last, LaysPast};

use read_component::rows_at;
use read_dialogue::dialogue_at;
use read_field::{small_at, transaction_id_at};
use read_place::{
    CUT_OFF, FaultAt, NO_MESSAGE, OCTETS_AFTER, OF_PORTION, OVERLONG, RECORD, behind, ended,
    entry_at, leave, length_at, put_text, stands, start_of,
};
use tcap::{MOST_CAUSE, MOST_OCTETS};

// A fault of the transaction portion, told so.
fn portion_fault(out: &mut [u8; RECORD], fault: FaultAt) -> FaultAt
    ensures value { result ≡ fault }
    ensures out_after { out.new ≡ set out.old 0 0 }
{
    out[0] = OF_PORTION;
    fault
}

// The end of contents of the transaction portion: what stands there instead is a fault of that portion.
fn end_at(m: &[u8], at: usize, stop: usize, out: &mut [u8; RECORD]) -> Result<usize, FaultAt>
    requires { Ready m.now at stop }
    ensures finishes { Tells result (λ r. Finishes nothing m.now at stop r) }
    ensures leaves_all { LeavesAll unlaid Blames nothing m.now at stop out.old out.new }
{
    // asked here too: most contents end where they are said to, and the answer of `leave` would be asked again
    if at == stop {
        return Ok(at);
    }
    match leave(m, at, stop) {
        Ok(r) => Ok(r),
        Err(fault) => Err(portion_fault(out, fault)),
    }
}

// A transaction ID by its tag; `flag` is the octet that says that it stands, `o` where its place and length are laid out.
fn transaction_id_into(
    m: &[u8],
    at: usize,
    stop: usize,
    tag: u8,
    flag: usize,
    o: usize,
    out: &mut [u8; RECORD],
) -> Result<usize, FaultAt>
    requires { Ready m.now at stop × Leads tag × (tag / 32 % 2 ≡ 0) × (flag < 428) × (o + 8 ≤ 428) }
    ensures reads { Tells result (λ r. Reads (transaction_id_item tag) m.now at stop r) }
    ensures leaves { Leaves (lay_id_at flag o) Blames (transaction_id_item tag) m.now at stop out.old out.new }
{
    let r = match transaction_id_at(m, at, stop, tag) {
        Ok(r) => r,
        Err(fault) => return Err(portion_fault(out, fault)),
    };
    out[flag] = 1;
    put_text(out, o, at + 2, r - at - 2);
    Ok(r)
}

// 6C around components.
fn components_at(m: &[u8], at: usize, stop: usize, out: &mut [u8; RECORD]) -> Result<usize, FaultAt>
    requires { Ready m.now at stop }
    ensures reads { Tells result (λ r. Reads (components_item the93) m.now at stop r) }
    ensures leaves { Leaves lay_components Blames (components_item the93) m.now at stop out.old out.new }
{
    let inner = match entry_at(m, at, stop, 0x6C) {
        Ok(inner) => inner,
        Err(fault) => return Err(portion_fault(out, fault)),
    };
    rows_at(m, start_of(m, at + 1), inner, out)
}

// The same or nothing, and nothing more: the place behind the contents.
fn last_components_at(
    m: &[u8],
    at: usize,
    stop: usize,
    out: &mut [u8; RECORD],
) -> Result<usize, FaultAt>
    requires { Ready m.now at stop }
    ensures finishes { Tells result (λ r. Finishes components_body m.now at stop r) }
    ensures leaves_all { LeavesAll lay_listed Blames components_body m.now at stop out.old out.new }
{
    if ended(m, at, stop) {
        return Ok(behind(at, stop));
    }
    let r = components_at(m, at, stop, out)?;
    end_at(m, r, stop, out)
}

// The place behind 6B, if it stands here.
fn past_dialogue(m: &[u8], at: usize, stop: usize, out: &mut [u8; RECORD]) -> Result<usize, FaultAt>
    requires { Ready m.now at stop }
    ensures passes { Tells result (λ r. Passes 0x6B (dialogue_item the93) m.now at stop r) }
    ensures lays_past { LaysPast m.now at stop out.old out.new }
{
    if stands(m, at, stop, 0x6B) {
        return dialogue_at(m, at, stop, out);
    }
    Ok(at)
}

// What follows the IDs: 6B or none, 6C or none.
fn tail_at(m: &[u8], at: usize, stop: usize, out: &mut [u8; RECORD]) -> Result<usize, FaultAt>
    requires { Ready m.now at stop }
    ensures finishes { Tells result (λ r. Finishes (tail_body the93) m.now at stop r) }
    ensures leaves_all { LeavesAll lay_tail Blames (tail_body the93) m.now at stop out.old out.new }
{
    let r = past_dialogue(m, at, stop, out)?;
    last_components_at(m, r, stop, out)
}

// The contents of a Unidirectional.
fn uni_at(m: &[u8], at: usize, stop: usize, out: &mut [u8; RECORD]) -> Result<usize, FaultAt>
    requires { Ready m.now at stop }
    ensures finishes { Tells result (λ r. Finishes unidirectional_body m.now at stop r) }
    ensures leaves_all { LeavesAll lay_tail Blames unidirectional_body m.now at stop out.old out.new }
{
    let r = past_dialogue(m, at, stop, out)?;
    let s = components_at(m, r, stop, out)?;
    end_at(m, s, stop, out)
}

// What an Abort ends with: a cause, 6B or nothing; the place behind the contents.
fn ending_at(m: &[u8], at: usize, stop: usize, out: &mut [u8; RECORD]) -> Result<usize, FaultAt>
    requires { Ready m.now at stop }
    ensures finishes { Tells result (λ r. Finishes ending_body m.now at stop r) }
    ensures leaves_all { LeavesAll lay_last Blames ending_body m.now at stop out.old out.new }
{
    if ended(m, at, stop) {
        return Ok(behind(at, stop));
    }
    if stands(m, at, stop, 0x6B) {
        let r = dialogue_at(m, at, stop, out)?;
        return end_at(m, r, stop, out);
    }
    let r = match small_at(m, at, stop, 0x4A, MOST_CAUSE) {
        Ok(r) => r,
        Err(fault) => return Err(portion_fault(out, fault)),
    };
    out[3] = 1;
    out[41] = m[at + 2];
    end_at(m, r, stop, out)
}

// The contents of an Abort.
fn abort_at(m: &[u8], at: usize, stop: usize, out: &mut [u8; RECORD]) -> Result<usize, FaultAt>
    requires { Ready m.now at stop }
    ensures finishes { Tells result (λ r. Finishes (then_body (level_at the93 2) dest_item ending_body) m.now at stop r) }
    ensures leaves_all { LeavesAll (lay_both lay_dest lay_last) Blames (then_body (level_at the93 2) dest_item ending_body) m.now at stop out.old out.new }
{
    let r = transaction_id_into(m, at, stop, 0x49, 2, 16, out)?;
    ending_at(m, r, stop, out)
}

// The contents of a message by its tag: its IDs, and what follows them.
fn message_contents_at(
    m: &[u8],
    at: usize,
    stop: usize,
    tag: u8,
    out: &mut [u8; RECORD],
) -> Result<usize, FaultAt>
    requires { Ready m.now at stop × ((message_item the93).mine tag ≡ true) }
    ensures finishes { Tells result (λ r. Finishes (message_body_of tag) m.now at stop r) }
    ensures leaves_all { LeavesAll lay_message Blames (message_body_of tag) m.now at stop out.old out.new }
{
    match tag {
        0x62 => {
            let r = transaction_id_into(m, at, stop, 0x48, 1, 8, out)?;
            tail_at(m, r, stop, out)
        }
        0x65 => {
            let r = transaction_id_into(m, at, stop, 0x48, 1, 8, out)?;
            let s = transaction_id_into(m, r, stop, 0x49, 2, 16, out)?;
            tail_at(m, s, stop, out)
        }
        0x64 => {
            let r = transaction_id_into(m, at, stop, 0x49, 2, 16, out)?;
            tail_at(m, r, stop, out)
        }
        0x67 => abort_at(m, at, stop, out),
        _ => uni_at(m, at, stop, out),
    }
}

// Whether a first octet is the tag of a message.
fn is_message(first: u8) -> bool
    ensures { result ≡ (message_item the93).mine first }
{
    matches!(first, 0x61 | 0x62 | 0x64 | 0x65 | 0x67)
}

// A message that is all there is, of any octets: how many there are, or the first fault.
pub fn message_at(m: &[u8], out: &mut [u8; RECORD]) -> Result<usize, FaultAt>
    ensures answers { Tells result (λ r. Answers m.now (located_up_to the93 m.now) r) }
    ensures left { Left lay_accepted Blames (located_up_to the93 m.now) out.old out.new }
{
    let len = m.len();
    if len > MOST_OCTETS {
        return Err(portion_fault(out, FaultAt(OVERLONG + MOST_OCTETS)));
    }
    if len == 0 {
        return Err(portion_fault(out, FaultAt(CUT_OFF)));
    }
    let tag = m[0];
    if is_message(tag) {
        let inner = match length_at(m, 0, 1, len, true) {
            Ok(inner) => inner,
            Err(fault) => return Err(portion_fault(out, fault)),
        };
        let r = message_contents_at(m, start_of(m, 1), inner, tag, out)?;
        if r == len {
            out[0] = tag;
            return Ok(r);
        }
        return Err(portion_fault(out, FaultAt(OCTETS_AFTER + r)));
    }
    Err(portion_fault(out, FaultAt(NO_MESSAGE)))
}
