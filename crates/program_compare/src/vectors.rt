// Compares reading with the cases of read.bin. A case: message and listing, each after its length in two octets; the originating ID of a
// refusal after its length in one, 0 for none; 0 or 1 for an invoke ID in the standard answer, and the ID in two's complement.
ghost use Rattle.std.specs.Prelude.{◌≤◌, length, IfOk};
ghost use Rattle.program_parts.specs.Expected.{Tells};
ghost use Rattle.program_parts.specs.Strings.{Loses};
ghost use Rattle.program_compare.specs.Vectors.{AnswerIs, OutcomeIs, ReadingIs, Compares};

use program_parts::cases::{Verdict, next_short_string, next_string};
use program_parts::ids::{same_id, same_orig};
use program_parts::input::read_full;
use program_parts::same_listing;
use read::read;
use std::io;
use std::io::Read;
use tcap::{Answer, Record, Refusal};

#[tactic(auto, unfolding(crate::specs::Vectors::AnswerIs))]
fn same_answer(answer: Answer, given: u8, octet: u8) -> bool
    ensures { Tells result (AnswerIs answer given octet) }
{
    match answer {
        Answer::AbortCause(_) => given == 0,
        Answer::RejectProblem { id, .. } => same_id(id, given, octet),
    }
}

// A listing has neither of the two IDs that a refusal gives, so these are compared beside it.
#[tactic(auto, unfolding(crate::specs::Vectors::ReadingIs, crate::specs::Vectors::OutcomeIs))]
fn same_reading(
    message: &[u8],
    reading: Result<Record, Refusal>,
    text: &[u8],
    orig: &[u8],
    given: u8,
    octet: u8,
) -> bool
    requires { length text.now ≤ 4096 }
    ensures { Tells result (ReadingIs message.now reading text.now orig.now given octet) }
{
    let listed = same_listing(message, reading, text);
    match reading {
        Ok(_) => listed,
        Err(refusal) => {
            listed
                && same_orig(message, refusal.orig, orig)
                && same_answer(refusal.answer, given, octet)
        }
    }
}

// Reads the next case and compares it: where its last two octets came, all of it did.
pub fn compare_next<R: Read>(input: &mut R) -> io::Result<Verdict>
    ensures verdict { IfOk result (λ v. Compares (R.remaining input.old) (R.remaining input.new) v) }
    ensures loses { Loses (R.remaining input.old) (R.remaining input.new) }
{
    let mut message = [0u8; 4096];
    let size = next_string(input, &mut message)?;
    let mut text = [0u8; 4096];
    let length = next_string(input, &mut text)?;
    let mut orig = [0u8; 255];
    let count = next_short_string(input, &mut orig)?;
    let mut id = [0u8; 2];
    if read_full(input, &mut id)? < id.len() {
        return Ok(Verdict::Ended);
    }
    let [given, octet] = id;
    let equal = same_reading(
        &message[..size],
        read(&message[..size]),
        &text[..length],
        &orig[..count],
        given,
        octet,
    );
    Ok(Verdict::from(equal))
}
