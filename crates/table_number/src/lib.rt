// A step on the octets of a table, answered in one number, as C is told it: docs/LAYOUT.md.
#![tactic(auto)]

ghost use Rattle.std.specs.Prelude.{◌≡◌, ◌<◌};
ghost use Rattle.table_layout.specs.Octets.{replying, leaving, done_number, taken_number, reply_number, InTable};

use table_octets::step_octets;
use transaction_states::Taken;

// What was done in which room, above the status, which is 0.
fn done_number(what: u64, room: usize) -> u64
    requires { (what < 4) × (room < 64) }
    ensures { result ≡ done_number what room }
{
    what * 256 + room as u64 * 65536
}

fn taken_number(taken: Taken) -> u64
    requires { InTable (Ok taken) }
    ensures { result ≡ taken_number taken }
{
    match taken {
        Taken::Opened(room) => done_number(1, room),
        Taken::Kept(room) => done_number(2, room),
        Taken::Closed(room) => done_number(3, room),
    }
}

// A step on a table of octets, answered in one number: the status in its lowest octet, then what was done, then the entry.
pub fn step_number(table: &mut [u8], number: u8, ours: &[u8], partner: &[u8]) -> u64
    ensures value { result ≡ reply_number (replying table.old number ours.now partner.now) }
    ensures table_after { table.new ≡ leaving table.old number ours.now partner.now }
{
    match step_octets(table, number, ours, partner) {
        Ok(taken) => taken_number(taken),
        Err(fault) => fault.into(),
    }
}
