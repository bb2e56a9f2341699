// A writing for C: docs/LAYOUT.md.
#![tactic(auto)]

ghost use Rattle.std.specs.Prelude.{◌≡◌};
ghost use Rattle.writing.specs.Octets.{leaves_octets};
ghost use Rattle.c_write.specs.Write.{written_bits, write_answer};

use writing::WriteFault;

fn written_bits(written: Result<usize, WriteFault>) -> u64
    ensures { result ≡ written_bits written }
{
    match written {
        Ok(size) => (size % 65536) as u64 * 256,
        Err(fault) => u64::from(fault),
    }
}

// Writes the record that octets hold, over the material, as the shortest message: its length, or the refusal and the buffer left alone.
pub fn write_answer(octets: &[u8], material: &[u8], out: &mut [u8]) -> u64
    ensures value { result ≡ write_answer octets.now material.now out.old }
    ensures out_after { out.new ≡ leaves_octets octets.now material.now out.old }
{
    let written = writer::octets::write_octets(octets, material, out);
    written_bits(written)
}
