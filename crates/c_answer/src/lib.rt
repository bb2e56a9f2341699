// What C is told of a refused message, as one number: docs/LAYOUT.md, "Answer".
#![tactic(auto)]

ghost use Rattle.std.specs.Prelude.{◌≡◌, ◌+◌, ◌*◌, ◌%◌, ◌^◌};
ghost use Rattle.layout.specs.Layout.{id_flag, id_octet};
ghost use Rattle.c_answer.specs.Answer.{orig_bits, send_bits, refusal_bits};

use tcap::{Answer, OrigTransactionId, Refusal, Span};

// The field of a transaction ID, by the place and length of its octets.
#[tactic(auto, unfolding(layout::specs::Layout::orig_span, crate::specs::Answer::orig_bits))]
fn orig_bits(orig: Option<OrigTransactionId>) -> u64
    ensures { result ≡ orig_bits orig }
{
    let Some(own) = orig else {
        return 0;
    };
    let Span { place, len } = own.0.octets;
    (u64::from(place % 0x1_0000) << 24) + (u64::from(len % 16) << 40)
}

// The fields of an invoke ID, if it was read.
#[tactic(auto, unfolding(layout::specs::Layout::id_flag, layout::specs::Layout::id_octet))]
fn id_bits(id: Option<i8>) -> u64
    ensures { result ≡ id_flag id * 2 ^ 55 + id_octet id % 2 ^ 8 * 2 ^ 56 }
{
    match id {
        None => 0,
        Some(value) => (1 << 55) + (u64::from(pack::number::octet_of(value)) << 56),
    }
}

// What to send.
#[tactic(auto, using(crate::proofs::Bits::id_small), unfolding(crate::specs::Answer::send_bits))]
fn send_bits(answer: Answer) -> u64
    ensures { result ≡ send_bits answer }
{
    match answer {
        Answer::AbortCause(cause) => u64::from(cause % 8) << 45,
        Answer::RejectProblem {
            problem,
            component,
            id,
        } => {
            let named = ((component % 128) as u64) << 48;
            (1 << 44) + (u64::from(problem % 8) << 45) + named + id_bits(id)
        }
    }
}

#[tactic(auto, using(crate::proofs::Bits::number_small, crate::proofs::Bits::orig_small, crate::proofs::Bits::send_small), unfolding(crate::specs::Answer::refusal_bits))]
pub fn refusal_bits(refusal: Refusal) -> u64
    ensures { result ≡ refusal_bits refusal }
{
    let kind = u64::from(element::number_of(refusal.kind));
    let place = ((refusal.place % 0x1_0000) as u64) << 8;
    kind + place + orig_bits(refusal.orig) + send_bits(refusal.answer)
}
