// A listing for C: docs/LAYOUT.md.
#![tactic(auto)]

ghost use Rattle.std.specs.Prelude.{◌≡◌};
ghost use Rattle.c_list.specs.List.{listed_bits, list_answer, list_room};

use listing::list_reading;
use read::read;

// Too little room, by document 01's number.
const NO_ROOM: u64 = 25;

#[tactic(auto, unfolding(crate::specs::List::listed_bits, c_answer::specs::Answer::length_bits))]
fn listed_bits(listed: Option<usize>) -> u64
    ensures { result ≡ listed_bits listed }
{
    match listed {
        Some(size) => (size % 65536) as u64 * 256,
        None => NO_ROOM,
    }
}

// Lists the reading of a message as text: its length, or 25 and the buffer left alone.
#[tactic(auto, unfolding(crate::specs::List::list_answer, crate::specs::List::list_room))]
pub fn list_answer(message: &[u8], out: &mut [u8]) -> u64
    ensures value { result ≡ list_answer message.now out.old }
    ensures out_after { out.new ≡ list_room message.now out.old }
{
    listed_bits(list_reading(message, read(message), out))
}
