// The dialogue portion: an answer is the place behind what was read, or a fault.
// Octets of the head (docs/LAYOUT.md): 0 whom a fault belongs to, 3 the kind of dialogue, 24 the name, 32 one element or octets; the PDU's are in read_pdu.
#![tactic(auto)]

ghost use Rattle.std.specs.Prelude.{◌≡◌, true, ◌+◌, length, take, drop};
ghost use Rattle.element.specs.Parts.{around_item, only_body};
ghost use Rattle.element.specs.Head.{end_of};
ghost use Rattle.read_place.specs.Places.{Tells, Reads, Ready, finite, part, stands_of};
ghost use Rattle.read_place.specs.Laying.{lay_span, lay_dialogue};
ghost use Rattle.read_place.specs.Leaves.{Leaves};
ghost use Rattle.read_place.specs.Blames.{Blames};
ghost use Rattle.tcap.specs.inner.Names.{name_kind};
ghost use Rattle.tcap.specs.WellFormed.{the93};
ghost use Rattle.tcap.specs.Productions.{level_at, parameter_item, external_body, dialogue_item};
ghost use Rattle.read_pdu.specs.Pdus.{Takes, TakesAll, pdu_item};
ghost use Rattle.read_dialogue.specs.Dialogues.{NameCounted, Holds, owner_mark};

use base::piece;
use primitive::MOST_IDENTIFIER_OCTETS;
use read_pdu::pdu_at;
use read_place::{
    BAD_CONTENTS, CUT_OFF, FaultAt, MISSING, OF_DIALOGUE, OF_PORTION, OPEN, RECORD, asked_at,
    bad_field, count_at, ended, entry_at, leave, length_at, put_text, stands, start_of, unfinished,
    walk_any,
};
use tcap::{LEFT_AT_5, name_kind};

// A0 around a PDU.
fn known_at(
    m: &[u8],
    at: usize,
    stop: usize,
    in_structured: bool,
    out: &mut [u8; RECORD],
) -> Result<usize, FaultAt>
    requires { Ready m.now at stop }
    ensures { Tells result (λ r. Takes lay_dialogue (around_item 0xA0 (only_body (level_at the93 5) (pdu_item in_structured))) m.now at stop r out.old out.new) }
{
    let inner = entry_at(m, at, stop, 0xA0)?;
    let r = pdu_at(m, start_of(m, at + 1), inner, in_structured, out)?;
    leave(m, r, inner)
}

// A0 around one element.
fn single_at(m: &[u8], at: usize, stop: usize, out: &mut [u8; RECORD]) -> Result<usize, FaultAt>
    requires { Ready m.now at stop }
    ensures { Tells result (λ r. Takes (lay_span 32) (around_item 0xA0 (only_body (level_at the93 5) (parameter_item the93 5))) m.now at stop r out.old out.new) }
{
    let inner = entry_at(m, at, stop, 0xA0)?;
    let from = start_of(m, at + 1);
    if ended(m, from, inner) {
        return Err(FaultAt(MISSING + from));
    }
    if unfinished(m, from, inner) {
        return Err(FaultAt(CUT_OFF + from));
    }
    let r = walk_any(m, from, inner % OPEN, LEFT_AT_5)?;
    put_text(out, 32, from, r - from);
    leave(m, r, inner)
}

// What stands behind another name: A0 around one element, or octets in 81.
fn encoding_at(m: &[u8], at: usize, stop: usize, out: &mut [u8; RECORD]) -> Result<usize, FaultAt>
    requires { Ready m.now at stop }
    ensures { Tells result (λ r. Holds m.now at stop r out.old out.new) }
{
    if stands(m, at, stop, 0xA0) {
        out[3] = 6;
        return single_at(m, at, stop, out);
    }
    let r = asked_at(m, at, stop, 0x81, false)?;
    out[3] = 7;
    let from = start_of(m, at + 1);
    put_text(out, 32, from, r - from);
    Ok(r)
}

// The contents of 28 under another name, of `n` octets, which must be a sound one.
fn outside_at(
    m: &[u8],
    at: usize,
    stop: usize,
    n: usize,
    out: &mut [u8; RECORD],
) -> Result<usize, FaultAt>
    requires { Ready m.now at stop × NameCounted m.now at stop n × (name_kind (take n (drop (at + 2) m.now)) ≡ 0) }
    ensures { Tells result (λ r. TakesAll lay_dialogue (external_body the93) m.now at stop r out.old out.new) }
{
    if primitive::identifier_ok(piece(m, at + 2, n)) {
        put_text(out, 24, at + 2, n);
        let r = encoding_at(m, at + 2 + n, stop, out)?;
        return leave(m, r, stop);
    }
    Err(FaultAt(BAD_CONTENTS + at))
}

// 28: a name, and what stands behind it.
fn external_at(m: &[u8], at: usize, stop: usize, out: &mut [u8; RECORD]) -> Result<usize, FaultAt>
    requires { Ready m.now at stop }
    ensures { Tells result (λ r. Takes lay_dialogue (around_item 0x28 (external_body the93)) m.now at stop r out.old out.new) }
{
    let inner = entry_at(m, at, stop, 0x28)?;
    let from = start_of(m, at + 1);
    let Some(n) = count_at(m, from, inner, 0x06, MOST_IDENTIFIER_OCTETS) else {
        return Err(bad_field(m, from, inner, 0x06));
    };
    let kind = name_kind(piece(m, from + 2, n));
    if kind == 0 {
        return outside_at(m, from, inner, n, out);
    }
    let r = known_at(m, from + 2 + n, inner, kind == 1, out)?;
    leave(m, r, inner)
}

// Whom a fault at this place in the contents of 6B belongs to: the portion, where they end or lack their end pair.
fn owner_at(m: &[u8], at: usize, stop: usize) -> u8
    requires { Ready m.now at stop }
    ensures { result ≡ owner_mark (end_of (finite stop) (part m.now at stop)) }
{
    if ended(m, at, stop) || unfinished(m, at, stop) {
        return OF_PORTION;
    }
    OF_DIALOGUE
}

// 6B around 28: the dialogue portion, or whom its fault belongs to.
pub fn dialogue_at(
    m: &[u8],
    at: usize,
    stop: usize,
    out: &mut [u8; RECORD],
) -> Result<usize, FaultAt>
    requires { Ready m.now at stop × (stands_of m.now at stop 0x6B ≡ true) }
    ensures reads { Tells result (λ r. Reads (dialogue_item the93) m.now at stop r) }
    ensures leaves { Leaves lay_dialogue Blames (dialogue_item the93) m.now at stop out.old out.new }
{
    let inner = match length_at(m, at, at + 1, stop % OPEN, true) {
        Ok(inner) => inner,
        Err(fault) => {
            out[0] = OF_PORTION;
            return Err(fault);
        }
    };
    let from = start_of(m, at + 1);
    let r = match external_at(m, from, inner, out) {
        Ok(r) => r,
        Err(fault) => {
            out[0] = owner_at(m, from, inner);
            return Err(fault);
        }
    };
    match leave(m, r, inner) {
        Ok(last) => Ok(last),
        Err(fault) => {
            out[0] = owner_at(m, r, inner);
            Err(fault)
        }
    }
}
