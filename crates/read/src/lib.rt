// The reader: one message into the octets of its record, or into its record, or the refusal.
#![tactic(auto)]

ghost use Rattle.tcap.specs.Reading.{outcome_of};
ghost use Rattle.std.specs.Prelude.{◌≡◌, replicate};
ghost use Rattle.tcap.specs.Reading.{reading};
ghost use Rattle.read.specs.Octets.{Held};

use base::after;
use read_message::message_at;
use read_place::RECORD;
use read_refusal::refusal_of;
use tcap::{Record, Refusal};
use unpack::head::{dest_in, dialogue_in, message_kind_in, orig_in};
use unpack::row::rows_in;
use unpack::rows_looked;

// Reads a message by document 01, and lays its record out in 428 octets that are 0: every octet string has a reading. Of a refused message they mean nothing.
pub fn read_octets(message: &[u8], out: &mut [u8; RECORD]) -> Result<(), Refusal>
    requires { out.old ≡ replicate 428 0 }
    ensures value { result ≡ outcome_of (reading message.now) }
    ensures held { Held (reading message.now) out.new }
{
    if let Err(fault) = message_at(message, out) {
        return Err(refusal_of(message, fault, out));
    }
    Ok(())
}

// The same as one record.
pub fn read(message: &[u8]) -> Result<Record, Refusal>
    ensures { result ≡ reading message.now }
{
    let mut octets = [0; RECORD];
    // no `?`: where an edit hands back something else of a refusal, the outcome keeps the name that the proof cites
    if let Err(refusal) = read_octets(message, &mut octets) {
        return Err(refusal);
    }
    let kind = message_kind_in(octets[0]);
    let orig = orig_in(&octets);
    let dest = dest_in(&octets);
    let dialogue = dialogue_in(octets[3], &octets);
    let count = rows_looked(&octets);
    let rows = rows_in(after(&octets, 44), count);
    Ok(Record {
        kind,
        orig,
        dest,
        dialogue,
        count,
        rows,
    })
}
