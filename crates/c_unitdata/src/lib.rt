// SCCP unitdata for C: docs/LAYOUT.md, "Unitdata".
#![tactic(auto)]

ghost use Rattle.std.specs.Prelude.{◌≡◌, ◌<◌, ◌^◌};
ghost use Rattle.c_unitdata.specs.Unitdata.{part_bits, unitdata_bits, unitdata_answer, unitdata_written_bits, unitdata_write_answer};
ghost use Rattle.sccp.specs.Writing.{leaves_unitdata};

use sccp::{Part, Unitdata, UnitdataFault, UnitdataWriteFault};
use sccp_read::{read_unitdata, unitdata_number};
use sccp_write::{unitdata_write_number, write_unitdata};

// Place and length side by side.
#[tactic(auto, unfolding(crate::specs::Unitdata::part_bits))]
fn part_bits(part: Part) -> u64
    ensures { (result ≡ part_bits part) × (result < 2 ^ 17) }
{
    (part.place % 512 + ((part.len % 256) << 9)) as u64
}

#[tactic(auto, unfolding(crate::specs::Unitdata::unitdata_bits))]
fn unitdata_bits(read: Result<Unitdata, UnitdataFault>) -> u64
    ensures { result ≡ unitdata_bits read }
{
    match read {
        Ok(unitdata) => {
            let called = part_bits(unitdata.called) << 8;
            let calling = part_bits(unitdata.calling) << 25;
            let userdata = part_bits(unitdata.userdata) << 42;
            called + calling + userdata
        }
        Err(fault) => u64::from(unitdata_number(fault)),
    }
}

// Where the parts of a unitdata stand, or the refusal.
#[tactic(auto, unfolding(crate::specs::Unitdata::unitdata_answer))]
pub fn unitdata_read_answer(message: &[u8]) -> u64
    ensures { result ≡ unitdata_answer message.now }
{
    unitdata_bits(read_unitdata(message))
}

#[tactic(auto, unfolding(crate::specs::Unitdata::unitdata_written_bits, c_answer::specs::Answer::length_bits))]
fn unitdata_written_bits(written: Result<usize, UnitdataWriteFault>) -> u64
    ensures { result ≡ unitdata_written_bits written }
{
    match written {
        Ok(size) => ((size % 65536) as u64) << 8,
        Err(fault) => u64::from(unitdata_write_number(fault)),
    }
}

// Writes a unitdata: its length, or the refusal and the buffer left alone.
#[tactic(auto, unfolding(crate::specs::Unitdata::unitdata_write_answer))]
pub fn unitdata_write_answer(
    class: u8,
    called: &[u8],
    calling: &[u8],
    userdata: &[u8],
    out: &mut [u8],
) -> u64
    ensures value { result ≡ unitdata_write_answer class called.now calling.now userdata.now out.old }
    ensures out_after { out.new ≡ leaves_unitdata class called.now calling.now userdata.now out.old }
{
    unitdata_written_bits(write_unitdata(class, called, calling, userdata, out))
}
