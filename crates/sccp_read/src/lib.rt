// A unitdata, read: its class, and where its three parts stand.
#![tactic(auto)]

ghost use Rattle.std.specs.Prelude.{◌≡◌};
ghost use Rattle.sccp.specs.Unitdata.{apart, separate, read_unitdata, unitdata_number};
ghost use Rattle.sccp.specs.inner.Parts.{part_read};

use sccp::{Part, Unitdata, UnitdataFault};

// The number of a refusal.
#[tactic(auto, unfolding(sccp::specs::Unitdata::unitdata_number))]
pub fn unitdata_number(fault: UnitdataFault) -> u8
    ensures { result ≡ unitdata_number fault }
{
    fault as u8
}

// The part that the pointer at a place names, if all of it lies in the message.
#[tactic(auto, unfolding(sccp::specs::inner::Parts::part_read))]
fn part_at(message: &[u8], at: usize) -> Option<Part>
    ensures { result ≡ part_read message.now at }
{
    let named = at + usize::from(*message.get(at)?);
    let len = usize::from(*message.get(named)?);
    let place = named + 1;
    (place + len <= message.len()).then_some(Part { place, len })
}

// The one that begins first ends before the other's length octet.
#[tactic(auto, unfolding(sccp::specs::Unitdata::apart))]
fn are_apart(one: Part, other: Part) -> bool
    ensures { result ≡ apart one other }
{
    if one.place < other.place {
        one.len < other.place - one.place
    } else {
        other.len < one.place - other.place
    }
}

#[tactic(auto, unfolding(sccp::specs::Unitdata::separate))]
fn are_separate(called: Part, calling: Part, userdata: Part) -> bool
    ensures { result ≡ separate called calling userdata }
{
    called.place > 5
        && calling.place > 5
        && userdata.place > 5
        && are_apart(called, calling)
        && are_apart(called, userdata)
        && are_apart(calling, userdata)
}

// A unitdata's class and where its three parts stand, or the refusal.
#[tactic(auto, unfolding(sccp::specs::Unitdata::read_unitdata, sccp::specs::Unitdata::judged, sccp::specs::inner::Parts::part_read))]
pub fn read_unitdata(message: &[u8]) -> Result<Unitdata, UnitdataFault>
    ensures { result ≡ read_unitdata message.now }
{
    if message.first() != Some(&9) {
        return Err(UnitdataFault::OtherType);
    }
    let called = part_at(message, 2).ok_or(UnitdataFault::PastEnd)?;
    let calling = part_at(message, 3).ok_or(UnitdataFault::PastEnd)?;
    let userdata = part_at(message, 4).ok_or(UnitdataFault::PastEnd)?;
    if !are_separate(called, calling, userdata) {
        return Err(UnitdataFault::Overlap);
    }
    if called.len == 0 || calling.len == 0 {
        return Err(UnitdataFault::EmptyAddress);
    }
    Ok(Unitdata {
        class: message[1],
        called,
        calling,
        userdata,
    })
}
