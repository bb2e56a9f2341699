// The calls for C, on octets and numbers: docs/LAYOUT.md. Each is one call, of the function that is proved in the crate it names.
#![tactic(auto)]

ghost use Rattle.std.specs.Prelude.{◌≡◌};
ghost use Rattle.c_read.specs.Read.{read_answer, read_room};
ghost use Rattle.c_write.specs.Write.{write_answer};
ghost use Rattle.c_steer.specs.Steer.{steer_answer};
ghost use Rattle.c_layout.specs.Sizes.{layout_bits};
ghost use Rattle.c_list.specs.List.{list_answer, list_room};
ghost use Rattle.c_unitdata.specs.Unitdata.{unitdata_answer, unitdata_write_answer};
ghost use Rattle.sccp.specs.Writing.{leaves_unitdata};
ghost use Rattle.table_layout.specs.Octets.{replying, leaving, reply_number};
ghost use Rattle.writing.specs.Octets.{leaves_octets};

// Reads a message into the room for a record: 0, or the refusal. Too little room is 25, before all else, and a refusal leaves the room alone.
#[unsafe(no_mangle)]
pub extern "C" fn goldenskep_read(message: &[u8], room: &mut [u8]) -> u64
    ensures value { result ≡ read_answer message.now room.old }
    ensures room_after { room.new ≡ read_room message.now room.old }
{
    c_read::read_answer(message, room)
}

// Writes the record that octets hold, over the material, as the shortest message: its length, or the refusal and the buffer left alone.
#[unsafe(no_mangle)]
pub extern "C" fn goldenskep_write(octets: &[u8], material: &[u8], out: &mut [u8]) -> u64
    ensures value { result ≡ write_answer octets.now material.now out.old }
    ensures out_after { out.new ≡ leaves_octets octets.now material.now out.old }
{
    c_write::write_answer(octets, material, out)
}

// The link of the first rule that fits a message, 64 if none does, or the reader's refusal.
#[unsafe(no_mangle)]
pub extern "C" fn goldenskep_steer(message: &[u8], rules: &[u8]) -> u64
    ensures { result ≡ steer_answer message.now rules.now }
{
    c_steer::steer_answer(message, rules)
}

// Lists the reading of a message as text: its length, or 25 and the buffer left alone.
#[unsafe(no_mangle)]
pub extern "C" fn goldenskep_list(message: &[u8], out: &mut [u8]) -> u64
    ensures value { result ≡ list_answer message.now out.old }
    ensures out_after { out.new ≡ list_room message.now out.old }
{
    c_list::list_answer(message, out)
}

// An event of an open transaction, by its number, in the table that octets hold and that is changed in place: what was done in which entry, or the refusal and the table left alone.
#[unsafe(no_mangle)]
pub extern "C" fn goldenskep_transaction(
    table: &mut [u8],
    event: u8,
    ours: &[u8],
    partner: &[u8],
) -> u64
    ensures value { result ≡ reply_number (replying table.old event ours.now partner.now) }
    ensures table_after { table.new ≡ leaving table.old event ours.now partner.now }
{
    table_number::step_number(table, event, ours, partner)
}

// Version, rule size and record size, to be held against the header.
#[unsafe(no_mangle)]
pub extern "C" fn goldenskep_layout() -> u32
    ensures { result ≡ layout_bits }
{
    c_layout::layout_answer()
}

// Where the parts of a unitdata stand, or the refusal.
#[unsafe(no_mangle)]
pub extern "C" fn goldenskep_unitdata_read(message: &[u8]) -> u64
    ensures { result ≡ unitdata_answer message.now }
{
    c_unitdata::unitdata_read_answer(message)
}

// Writes a unitdata: its length, or the refusal and the buffer left alone.
#[unsafe(no_mangle)]
pub extern "C" fn goldenskep_unitdata_write(
    class: u8,
    called: &[u8],
    calling: &[u8],
    userdata: &[u8],
    out: &mut [u8],
) -> u64
    ensures value { result ≡ unitdata_write_answer class called.now calling.now userdata.now out.old }
    ensures out_after { out.new ≡ leaves_unitdata class called.now calling.now userdata.now out.old }
{
    c_unitdata::unitdata_write_answer(class, called, calling, userdata, out)
}
