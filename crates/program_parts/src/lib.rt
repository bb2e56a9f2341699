// What the programs do with a reading: list it into a buffer, compare its listing with a text, and count the cases.
#![tactic(auto)]

pub mod cases;
pub mod ids;
pub mod input;

ghost use Rattle.std.specs.Prelude.{◌≡◌, true, cond, ◌≤◌, length, leb};
ghost use Rattle.program_parts.specs.Front.{IsPrefixLen};
ghost use Rattle.listing.specs.Listing.{listing_of, buffer_after};
ghost use Rattle.program_parts.specs.Tallied.{tallied};

use listing::list_reading;
use std::fmt;
use tcap::{Record, Refusal};

// How many octets at the front of the buffer are the listing: none where it has too little room.
pub fn list_into(message: &[u8], reading: Result<Record, Refusal>, out: &mut [u8]) -> usize
    ensures prefix_len { IsPrefixLen result out.new }
    ensures value { result ≡ cond (leb (length (listing_of message.now reading)) (length out.old)) (length (listing_of message.now reading)) 0 }
    ensures out_after { out.new ≡ buffer_after (listing_of message.now reading) out.old }
{
    list_reading(message, reading, out).unwrap_or(0)
}

// Whether a reading's listing is the expected text, which has at most 4,096 octets.
pub fn same_listing(message: &[u8], reading: Result<Record, Refusal>, expected: &[u8]) -> bool
    ensures reading_value { result ≡ true → listing_of message.now reading ≡ expected.now }
    ensures value { length expected.now ≤ 4096 → listing_of message.now reading ≡ expected.now → result ≡ true }
{
    let mut text = [0u8; 4096];
    match list_reading(message, reading, &mut text) {
        Some(size) => &text[..size] == expected,
        None => false,
    }
}

#[derive(Clone, Copy, Default)]
pub struct Tally {
    pub compared: u64,
    pub differ: u64,
}

impl Tally {
    // The tally after one more case, without wrapping.
    #[tactic(auto, unfolding(crate::specs::Tallied::tallied))]
    pub fn counted(self, equal: bool) -> Tally
        ensures { result ≡ tallied self equal }
    {
        let differ = if equal {
            self.differ
        } else {
            self.differ.saturating_add(1)
        };
        Tally {
            compared: self.compared.saturating_add(1),
            differ,
        }
    }
}

impl fmt::Display for Tally {
    fn fmt<W: fmt::Write>(&self, f: &mut fmt::Formatter<W>) -> fmt::Result {
        write!(f, "{} compared, {} differ", self.compared, self.differ)
    }
}
