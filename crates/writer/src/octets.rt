// Writing a record that stands as octets, as a program in C passes it: docs/LAYOUT.md. Its rows are taken from the octets one by one, and no record is made.
ghost use Rattle.std.specs.Prelude.{◌≡◌, length};
ghost use Rattle.writing.specs.Octets.{writing_octets, leaves_octets};

use tcap::MOST_OCTETS;
use unpack::head::{dest_in, dialogue_in, is_head, message_kind_in, orig_in};
use unpack::number::number_at;
use unpack::rows_looked;
use write_check_message::{message_judged, portion_judged};
use write_check_rows::rows_judged;
use write_put::put_message;
use writing::WriteFault;

// What `write` answers and leaves for the record that the octets stand for; octets that are no record are wrong parts.
pub fn write_octets(octets: &[u8], material: &[u8], out: &mut [u8]) -> Result<usize, WriteFault>
    ensures value { result ≡ writing_octets octets.now material.now (length out.old) }
    ensures out_after { out.new ≡ leaves_octets octets.now material.now out.old }
{
    if octets.len() < 428 || !is_head(octets) {
        return Err(WriteFault::WrongParts);
    }
    let kind = message_kind_in(octets[0]);
    let orig = orig_in(octets);
    let dest = dest_in(octets);
    let dialogue = dialogue_in(octets[3], octets);
    let count = number_at(octets, 4) as usize;
    let looked = rows_looked(octets);
    let components = rows_judged(octets, looked, material);
    let portion = portion_judged(count, components);
    let size = message_judged(kind, orig, dest, dialogue, count, portion, material)?;
    if size > MOST_OCTETS.min(out.len()) {
        return Err(WriteFault::NoRoom);
    }
    put_message(
        out, size, material, kind, orig, dest, dialogue, octets, looked,
    );
    Ok(size)
}
