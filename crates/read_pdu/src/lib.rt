// The dialogue PDUs: an answer is the place behind what was read, or a fault.
// Octets of the head (docs/LAYOUT.md): 3 the kind of dialogue, 24 the name, 32 and 40 user information, 41 result or source, 42 and 43 the diagnostic.
#![tactic(auto)]

ghost use Rattle.std.specs.Prelude.{◌≡◌, true, ◌≤◌, ◌<◌, length};
ghost use Rattle.element.specs.Parts.{around_item};
ghost use Rattle.read_place.specs.Places.{Tells, Finishes, Ready, part};
ghost use Rattle.read_place.specs.Laying.{lay_name, lay_info, lay_diagnostic, lay_dialogue};
ghost use Rattle.tcap.specs.WellFormed.{the93};
ghost use Rattle.tcap.specs.Productions.{context_item, source_item, info_body};
ghost use Rattle.read_pdu.specs.Pdus.{built, Takes, TakesAll, externals_body, version_item, Passes, TakesNumber, asked_body, answered_body, aborted_body, pdu_item, contents_end, lay_asked, lay_answered, lay_aborted};

use read_field::{name_at, small_at};
use read_place::{
    ANOTHER, BAD_CONTENTS, FaultAt, OPEN, RECORD, bad_field, behind, count_at, ended, entry_at,
    leave, put_text, stands, start_of, walk_any, wrong_at,
};
use tcap::{
    LEFT_AT_7, MOST_ABORT_SOURCE, MOST_PROVIDER_DIAGNOSTIC, MOST_RESULT, MOST_USER_DIAGNOSTIC,
};

// The elements in BE, each 28, to the end of its contents.
fn externals_at(m: &[u8], from: usize, stop: usize) -> Result<usize, FaultAt>
    requires { Ready m.now from stop }
    ensures { Tells result (λ r. Finishes (externals_body (length (part m.now from stop))) m.now from stop r) }
{
    let mut at = from;
    loop {
        if ended(m, at, stop) {
            return Ok(behind(at, stop));
        }
        if stands(m, at, stop, 0x28) {
            let r = walk_any(m, at, stop % OPEN, LEFT_AT_7)?;
            at = r;
        } else {
            return Err(wrong_at(m, at, stop, ANOTHER));
        }
    }
}

// Where contents end that were read to `r`: there, or before their end pair.
fn end_before(inner: usize, r: usize) -> usize
    requires { 2 ≤ r }
    ensures { result ≡ contents_end inner r }
{
    if inner < OPEN {
        return r;
    }
    r - 2
}

// User information, if any, and nothing more: the place behind the contents.
fn info_at(m: &[u8], at: usize, stop: usize, out: &mut [u8; RECORD]) -> Result<usize, FaultAt>
    requires { Ready m.now at stop }
    ensures { Tells result (λ r. TakesAll lay_info (info_body the93) m.now at stop r out.old out.new) }
{
    if ended(m, at, stop) {
        return Ok(behind(at, stop));
    }
    let inner = entry_at(m, at, stop, 0xBE)?;
    let from = start_of(m, at + 1);
    let r = externals_at(m, from, inner)?;
    out[40] = 1;
    put_text(out, 32, from, end_before(inner, r) - from);
    leave(m, r, stop)
}

// The place behind the version, which is 1, if it stands here.
fn past_version(m: &[u8], at: usize, stop: usize) -> Result<usize, FaultAt>
    requires { Ready m.now at stop }
    ensures { Tells result (λ r. Passes 0x80 version_item m.now at stop r) }
{
    if stands(m, at, stop, 0x80) {
        let Some(n) = count_at(m, at, stop, 0x80, 2) else {
            return Err(bad_field(m, at, stop, 0x80));
        };
        if n == 1 || m[at + 2] != 0x07 || m[at + 3] != 0x80 {
            return Err(FaultAt(BAD_CONTENTS + at));
        }
        return Ok(at + 4);
    }
    Ok(at)
}

// A1 around one name.
fn context_at(m: &[u8], at: usize, stop: usize, out: &mut [u8; RECORD]) -> Result<usize, FaultAt>
    requires { Ready m.now at stop }
    ensures { Tells result (λ r. Takes lay_name (context_item the93) m.now at stop r out.old out.new) }
{
    let inner = entry_at(m, at, stop, 0xA1)?;
    let from = start_of(m, at + 1);
    let r = name_at(m, from, inner)?;
    put_text(out, 24, from + 2, r - from - 2);
    leave(m, r, inner)
}

// A constructor around 02 01 with 0 to `most`.
fn enclosed_number_at(
    m: &[u8],
    at: usize,
    stop: usize,
    tag: u8,
    most: u8,
    o: usize,
    out: &mut [u8; RECORD],
) -> Result<usize, FaultAt>
    requires { Ready m.now at stop × (built tag ≡ true) × (o < 428) }
    ensures { Tells result (λ r. TakesNumber o tag most m.now at stop r out.old out.new) }
{
    let inner = entry_at(m, at, stop, tag)?;
    let r = small_at(m, start_of(m, at + 1), inner, 0x02, most)?;
    out[o] = m[r - 1];
    leave(m, r, inner)
}

// A3 around a diagnostic: A1 by the user, A2 by the provider.
fn source_at(m: &[u8], at: usize, stop: usize, out: &mut [u8; RECORD]) -> Result<usize, FaultAt>
    requires { Ready m.now at stop }
    ensures { Tells result (λ r. Takes lay_diagnostic (source_item the93) m.now at stop r out.old out.new) }
{
    let inner = entry_at(m, at, stop, 0xA3)?;
    let from = start_of(m, at + 1);
    if stands(m, from, inner, 0xA1) {
        out[42] = 0xA1;
        let r = enclosed_number_at(m, from, inner, 0xA1, MOST_USER_DIAGNOSTIC, 43, out)?;
        return leave(m, r, inner);
    }
    out[42] = 0xA2;
    let s = enclosed_number_at(m, from, inner, 0xA2, MOST_PROVIDER_DIAGNOSTIC, 43, out)?;
    leave(m, s, inner)
}

// 60: a request or a unidialogue.
fn request_at(m: &[u8], at: usize, stop: usize, out: &mut [u8; RECORD]) -> Result<usize, FaultAt>
    requires { Ready m.now at stop }
    ensures { Tells result (λ r. Takes lay_asked (around_item 0x60 asked_body) m.now at stop r out.old out.new) }
{
    let inner = entry_at(m, at, stop, 0x60)?;
    let r = past_version(m, start_of(m, at + 1), inner)?;
    let s = context_at(m, r, inner, out)?;
    info_at(m, s, inner, out)
}

// 61: a response.
fn response_at(m: &[u8], at: usize, stop: usize, out: &mut [u8; RECORD]) -> Result<usize, FaultAt>
    requires { Ready m.now at stop }
    ensures { Tells result (λ r. Takes lay_answered (around_item 0x61 answered_body) m.now at stop r out.old out.new) }
{
    let inner = entry_at(m, at, stop, 0x61)?;
    let r = past_version(m, start_of(m, at + 1), inner)?;
    let s = context_at(m, r, inner, out)?;
    let t = enclosed_number_at(m, s, inner, 0xA2, MOST_RESULT, 41, out)?;
    let u = source_at(m, t, inner, out)?;
    info_at(m, u, inner, out)
}

// 64: an abort.
fn dialogue_abort_at(
    m: &[u8],
    at: usize,
    stop: usize,
    out: &mut [u8; RECORD],
) -> Result<usize, FaultAt>
    requires { Ready m.now at stop }
    ensures { Tells result (λ r. Takes lay_aborted (around_item 0x64 aborted_body) m.now at stop r out.old out.new) }
{
    let inner = entry_at(m, at, stop, 0x64)?;
    let r = small_at(m, start_of(m, at + 1), inner, 0x80, MOST_ABORT_SOURCE)?;
    out[41] = m[r - 1];
    info_at(m, r, inner, out)
}

// The PDU of the structured dialogue, or of the unstructured.
pub fn pdu_at(
    m: &[u8],
    at: usize,
    stop: usize,
    in_structured: bool,
    out: &mut [u8; RECORD],
) -> Result<usize, FaultAt>
    requires { Ready m.now at stop }
    ensures { Tells result (λ r. Takes lay_dialogue (pdu_item in_structured) m.now at stop r out.old out.new) }
{
    if in_structured {
        if stands(m, at, stop, 0x61) {
            out[3] = 3;
            return response_at(m, at, stop, out);
        }
        if stands(m, at, stop, 0x64) {
            out[3] = 4;
            return dialogue_abort_at(m, at, stop, out);
        }
        out[3] = 2;
    } else {
        out[3] = 5;
    }
    request_at(m, at, stop, out)
}
