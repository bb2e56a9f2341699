// The refusal of a message, from the number of its fault and what is told of it in the octets lent to its reader.
#![tactic(auto)]

ghost use Rattle.std.specs.Prelude.{◌≡◌, ◌≤◌, length};
ghost use Rattle.tcap.specs.WellFormed.{the93};
ghost use Rattle.tcap.specs.Record.{id_field};
ghost use Rattle.tcap.specs.Reading.{located_up_to, ground_of, by_owner, answer_for};
ghost use Rattle.read_place.specs.Places.{Far};
ghost use Rattle.read_place.specs.Blames.{owner_in, id_in};
ghost use Rattle.read_message.specs.Messages.{Answers};
ghost use Rattle.read_refusal.specs.Refusals.{id_sought, id_told, OrigTold, Blamed, RefusedAs};

use element::FaultKind;
use primitive::signed_octet;
use read_fault::kind_from;
use read_field::transaction_id_at;
use read_place::{FaultAt, OF_DIALOGUE, OF_PORTION, OPEN, asked_at, start_of};
use tcap::{Answer, Ground, MOST_OCTETS, OrigTransactionId, Refusal, Span, TransactionId};

// The ground of a refusal.
#[tactic(auto, unfolding(tcap::specs::Reading::ground_of))]
fn ground_of(kind: FaultKind) -> Ground
    ensures { result ≡ ground_of kind }
{
    match kind {
        FaultKind::NoMessage => Ground::UnknownMessage,
        FaultKind::Seventeenth => Ground::TooManyComponents,
        FaultKind::UnknownComponent => Ground::UnknownComponent,
        FaultKind::Missing | FaultKind::Another | FaultKind::TooMany | FaultKind::BadContents =>
            Ground::WrongPart,
        FaultKind::CutOff
        | FaultKind::BadTag
        | FaultKind::BadLength
        | FaultKind::PassesEnd
        | FaultKind::TooDeep
        | FaultKind::CodeZero
        | FaultKind::Overlong
        | FaultKind::OctetsAfter => Ground::BadForm,
    }
}

// The invoke ID told, if any.
fn told_id(flag: u8, octet: u8) -> Option<i8>
    ensures { result ≡ id_field (id_told flag octet) }
{
    if flag == 0 {
        return None;
    }
    Some(signed_octet(octet))
}

// The general problem of a Reject for a fault in a component, cause 3 inside 6B, the P-Abort cause everywhere else.
fn answer_by(problem: u8, cause: u8, out: &[u8]) -> Answer
    requires { 4 ≤ length out.now }
    ensures { result ≡ by_owner problem cause (owner_in out.now) (id_in out.now) }
{
    match out[0] {
        OF_PORTION => Answer::AbortCause(cause),
        OF_DIALOGUE => Answer::AbortCause(3),
        _ => Answer::RejectProblem {
            problem,
            component: out[1] as usize,
            id: told_id(out[2], out[3]),
        },
    }
}

// The standard answer, by ground and owner.
fn answer_of(ground: Ground, out: &[u8]) -> Answer
    requires { 4 ≤ length out.now }
    ensures { result ≡ answer_for ground (owner_in out.now) (id_in out.now) }
{
    match ground {
        Ground::UnknownMessage => Answer::AbortCause(0),
        Ground::TooManyComponents => Answer::AbortCause(4),
        Ground::UnknownComponent => answer_by(0, 2, out),
        Ground::WrongPart => answer_by(1, 3, out),
        Ground::BadForm => answer_by(2, 2, out),
    }
}

// Octets with this first one may tell an originating ID: a Begin, a Continue, a constructor that is no message and whose tag has one octet and is not 20.
#[tactic(auto, using(base::proofs::Tests::tests), unfolding(crate::specs::Refusals::id_sought, crate::specs::Refusals::constructor_tag))]
fn id_sought(tag: u8) -> bool
    ensures { result ≡ id_sought tag }
{
    match tag {
        0x62 | 0x65 => true,
        0x20 | 0x61 | 0x64 | 0x67 => false,
        _ => tag % 32 != 31 && tag / 32 % 2 == 1,
    }
}

// The originating ID that goes with a fault, if one stands first in the message and can be read: a second look at it.
fn orig_of(m: &[u8]) -> Option<OrigTransactionId>
    ensures { OrigTold result (located_up_to the93 m.now) }
{
    let len = m.len();
    if len == 0 || len > MOST_OCTETS {
        return None;
    }
    let tag = m[0];
    if !id_sought(tag) {
        return None;
    }
    let Ok(inner) = asked_at(m, 0, len, tag, true) else {
        return None;
    };
    let first = start_of(m, 1);
    let Ok(r) = transaction_id_at(m, first, inner, 0x48) else {
        return None;
    };
    // 48 and its length take an octet each: an ID has at most 4
    let place = first + 2;
    Some(OrigTransactionId(TransactionId {
        octets: Span {
            place: place as u32,
            len: (r - place) as u32,
        },
    }))
}

// The refusal of a fault, by its number and what is told in the octets lent to the reader.
pub fn refusal_of(m: &[u8], fault: FaultAt, out: &[u8]) -> Refusal
    requires in_bounds { (4 ≤ length out.now) × Far fault.0 }
    requires answers { Answers m.now (located_up_to the93 m.now) fault.0 × Blamed (located_up_to the93 m.now) out.now }
    ensures { RefusedAs result (located_up_to the93 m.now) }
{
    let kind = kind_from(fault);
    Refusal {
        kind,
        place: fault.0 % OPEN,
        orig: orig_of(m),
        answer: answer_of(ground_of(kind), out),
    }
}
