// Lists a reading as text in a lent buffer.
#![tactic(auto)]

ghost use Rattle.std.specs.Prelude.{◌≡◌};
ghost use Rattle.base.specs.inner.Put.{Put};
ghost use Rattle.listing.specs.Listing.{listing_of, listed_of, buffer_after};

use listing_lines::{put_head, put_refusal, put_rows};
use tcap::{Record, Refusal};

#[tactic(auto, unfolding(crate::specs::Listing::listing_of, crate::specs::Listing::record_text))]
fn put_reading(out: &mut [u8], message: &[u8], reading: Result<Record, Refusal>) -> usize
    ensures { Put out.old 0 (listing_of message.now reading) result out.new }
{
    match reading {
        Ok(held) => {
            let next = put_head(out, 0, message, held);
            put_rows(out, next, message, held.rows, held.count)
        }
        Err(refusal) => put_refusal(out, 0, refusal),
    }
}

// Lists a reading over the octets of its message. The text is counted first, where there is no room for any of it: none is told where it has too little.
pub fn list_reading(
    message: &[u8],
    reading: Result<Record, Refusal>,
    out: &mut [u8],
) -> Option<usize>
    ensures value { result ≡ listed_of (listing_of message.now reading) out.old }
    ensures out_after { out.new ≡ buffer_after (listing_of message.now reading) out.old }
{
    let size = put_reading(&mut [], message, reading);
    if out.len() < size {
        return None;
    }
    put_reading(out, message, reading);
    Some(size)
}
