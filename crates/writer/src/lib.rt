// The writer: a record over the material beside it, into the shortest message, or the refusal.
#![tactic(auto)]

pub mod octets;

ghost use Rattle.std.specs.Prelude.{◌≡◌};
ghost use Rattle.writing.specs.Writing.{Writes};

use crate::octets::write_octets;
use tcap::Record;
pub use writing::WriteFault;

// The shortest message of a record, from the front of the buffer; a refusal leaves the buffer as it was.
pub fn write(held: Record, material: &[u8], out: &mut [u8]) -> Result<usize, WriteFault>
    ensures { Writes held material.now out.old result out.new }
{
    let mut octets = [0u8; 428];
    pack::put_record(&mut octets, held);
    write_octets(&octets, material, out)
}
