// A unitdata, written: called address, calling address and data, without gaps.
#![tactic(auto)]

ghost use Rattle.std.specs.Prelude.{◌≡◌, true, ◌<◌, length};
ghost use Rattle.base.specs.inner.Put.{Put};
ghost use Rattle.sccp.specs.Writing.{counted, in_range, unitdata_octets, writing_unitdata, leaves_unitdata, unitdata_write_number};

use base::{put_octet, put_octets, put_part};
use sccp::UnitdataWriteFault;

// The number of a refusal.
#[tactic(auto, unfolding(sccp::specs::Writing::unitdata_write_number))]
pub fn unitdata_write_number(fault: UnitdataWriteFault) -> u8
    ensures { result ≡ unitdata_write_number fault }
{
    fault as u8
}

// The addresses have an octet or more each, and at most 252 together; one chain of `&&` would cost a writing 22 instructions.
#[tactic(auto, unfolding(sccp::specs::Writing::in_range))]
fn is_in_range(called: usize, calling: usize, userdata: usize) -> bool
    ensures { result ≡ in_range called calling userdata }
{
    if called == 0 || calling == 0 || called > 252 || calling > 252 - called {
        return false;
    }
    userdata <= 255
}

// A part behind its length octet.
fn put_counted(out: &mut [u8], at: usize, part: &[u8]) -> usize
    requires { length part.now < 256 }
    ensures { Put out.old at (counted part.now) result out.new }
{
    let next = put_octet(out, at, part.len() as u8);
    put_part(out, next, part)
}

// The octets of a unitdata; each pointer is counted from its own octet.
#[tactic(auto, using(sccp::proofs::Ranges::ranged))]
fn put_unitdata(out: &mut [u8], class: u8, called: &[u8], calling: &[u8], userdata: &[u8]) -> usize
    requires { in_range (length called.now) (length calling.now) (length userdata.now) ≡ true }
    ensures { Put out.old 0 (unitdata_octets class called.now calling.now userdata.now) result out.new }
{
    let o = put_octets(out, 0, [9, class]);
    let both = called.len() + calling.len();
    let o = put_octets(out, o, [3, (3 + called.len()) as u8, (3 + both) as u8]);
    let o = put_counted(out, o, called);
    let o = put_counted(out, o, calling);
    put_counted(out, o, userdata)
}

// A unitdata from the front of the buffer; a refusal leaves the buffer as it was. The parts come one by one, as C lends them.
#[tactic(auto, using(sccp::proofs::Ranges::ranged, sccp::proofs::Ranges::octets_length), unfolding(sccp::specs::Writing::writing_unitdata, sccp::specs::Writing::leaves_unitdata, sccp::specs::Writing::behind))]
pub fn write_unitdata(
    class: u8,
    called: &[u8],
    calling: &[u8],
    userdata: &[u8],
    out: &mut [u8],
) -> Result<usize, UnitdataWriteFault>
    ensures value { result ≡ writing_unitdata class called.now calling.now userdata.now (length out.old) }
    ensures out_after { out.new ≡ leaves_unitdata class called.now calling.now userdata.now out.old }
{
    if !is_in_range(called.len(), calling.len(), userdata.len()) {
        return Err(UnitdataWriteFault::OutOfRange);
    }
    let size = called.len() + calling.len() + userdata.len() + 8;
    if out.len() < size {
        return Err(UnitdataWriteFault::NoRoom);
    }
    put_unitdata(out, class, called, calling, userdata);
    Ok(size)
}
