// Whether a record may be written, and how many octets the message has, told in one pass: the transaction IDs, and the message around its components.
#![tactic(auto)]

ghost use Rattle.std.specs.Prelude.{◌≡◌};
ghost use Rattle.tcap.specs.Verdict.{cause_there, parts_fit};
ghost use Rattle.write_check.specs.Judgements.{parts_judged, id_judged, portion_of, behind_judged, message_judged};

use tcap::{
    DestTransactionId, Dialogue, MOST_COMPONENTS, MOST_TRANSACTION_ID_OCTETS, MessageKind,
    OrigTransactionId, TransactionId,
};
use write_check::dialogue_judged;
use write_check_row::{Judged, Wrong, around, both, sized_judged};

// 48 or 49 and an ID.
fn id_judged(id: Option<TransactionId>, material: &[u8]) -> Judged
    ensures { result ≡ id_judged material.now id }
{
    match id {
        None => Ok(0),
        Some(id) => around(sized_judged(id.octets, MOST_TRANSACTION_ID_OCTETS, material)),
    }
}

// 6C around the components; no component, no 6C.
pub fn portion_judged(count: usize, components: Judged) -> Judged
    ensures { result ≡ portion_of count components }
{
    if count == 0 {
        return Ok(0);
    }
    around(components)
}

// The two IDs, and what follows them.
fn behind_judged(
    orig: Option<OrigTransactionId>,
    dest: Option<DestTransactionId>,
    rest: Judged,
    material: &[u8],
) -> Judged
    ensures { result ≡ behind_judged material.now orig dest rest }
{
    let own = id_judged(orig.map(|id| id.0), material);
    let theirs = id_judged(dest.map(|id| id.0), material);
    both(own, both(theirs, rest))
}

#[tactic(auto, unfolding(tcap::specs::Verdict::cause_there))]
fn cause_there(dialogue: Dialogue) -> bool
    ensures { result ≡ cause_there dialogue }
{
    matches!(dialogue, Dialogue::Cause(_))
}

// The IDs that a kind has; a cause is for an Abort, which has no component; a Unidirectional has one at least.
#[tactic(auto, unfolding(tcap::specs::Verdict::parts_fit))]
fn parts_fit(kind: MessageKind, own: bool, theirs: bool, cause: bool, count: usize) -> bool
    ensures { result ≡ parts_fit kind own theirs cause count }
{
    match (kind, own, theirs) {
        (MessageKind::Unidirectional, false, false) => !cause && count >= 1,
        (MessageKind::Begin, true, false) => !cause,
        (MessageKind::End, false, true) => !cause,
        (MessageKind::Continue, true, true) => !cause,
        (MessageKind::Abort, false, true) => count == 0,
        _ => false,
    }
}

// The parts that a kind has, and the count.
fn parts_judged(
    kind: MessageKind,
    orig: Option<OrigTransactionId>,
    dest: Option<DestTransactionId>,
    dialogue: Dialogue,
    count: usize,
) -> Judged
    ensures { result ≡ parts_judged kind orig dest dialogue count }
{
    if !parts_fit(
        kind,
        orig.is_some(),
        dest.is_some(),
        cause_there(dialogue),
        count,
    ) {
        return Err(Wrong::WRONG_PARTS);
    }
    if count > MOST_COMPONENTS {
        return Err(Wrong::OUT_OF_RANGE);
    }
    Ok(0)
}

// The message around its components. Kind, IDs and dialogue are passed one by one: a type of them would be made for this call, and taken apart in it.
pub fn message_judged(
    kind: MessageKind,
    orig: Option<OrigTransactionId>,
    dest: Option<DestTransactionId>,
    dialogue: Dialogue,
    count: usize,
    portion: Judged,
    material: &[u8],
) -> Judged
    ensures { result ≡ message_judged material.now kind orig dest dialogue count portion }
{
    let rest = both(dialogue_judged(dialogue, material), portion);
    let whole = around(behind_judged(orig, dest, rest, material));
    both(parts_judged(kind, orig, dest, dialogue, count), whole)
}
