// A reading for C: docs/LAYOUT.md.
#![tactic(auto)]

ghost use Rattle.std.specs.Prelude.{◌≡◌};
ghost use Rattle.c_read.specs.Read.{read_answer, read_room};

use base::put_part;
use c_answer::refusal_bits;

// Reads a message into the room for a record: 0, or the refusal. Too little room is 25, before all else, and a refusal leaves the room alone.
pub fn read_answer(message: &[u8], room: &mut [u8]) -> u64
    ensures value { result ≡ read_answer message.now room.old }
    ensures room_after { room.new ≡ read_room message.now room.old }
{
    if room.len() < 428 {
        return 25;
    }
    let mut octets = [0; 428];
    match read::read_octets(message, &mut octets) {
        Ok(()) => {
            let count = octets[7] as usize;
            put_part(room, 0, &octets[..44 + count * 24]);
            0
        }
        Err(refusal) => refusal_bits(refusal),
    }
}
