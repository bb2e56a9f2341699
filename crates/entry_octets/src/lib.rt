// An entry of the table of open transactions as 12 octets, in the layout of docs/LAYOUT.md: compared, and put.
#![tactic(auto)]

ghost use Rattle.std.specs.Prelude.{◌≡◌, ◌+◌, ◌<◌, ◌≤◌, length};
ghost use Rattle.base.specs.inner.Put.{Put};
ghost use Rattle.entry_octets.specs.Entries.{four_of, entry_octets, blank_octets};
ghost use Rattle.entry_octets.specs.inner.Words.{word_of, held_in, passed_in, partner_put};

use base::after;
use pack::number::put_octets;
use transaction_states::{State, is_open, octet_or_zero};

pub const ENTRY_SIZE: usize = 12;

// Whether an entry is open under the ID of this word and this length.
#[tactic(auto, unfolding(crate::specs::inner::Words::held_in))]
fn holds_in(entry: &[u8], word: usize, len: usize) -> bool
    requires { 12 ≤ length entry.now }
    ensures { result ≡ held_in entry.now word len }
{
    u32::from_le_bytes([entry[4], entry[5], entry[6], entry[7]]) as usize == word
        && usize::from(entry[1]) == len
        && is_open(State::from(entry[0]))
}

// How many of eight entries stand before the first under an ID; 8 if none is. The walk asks once for eight whether it is at its end.
pub fn passed_eight(part: &[u8], word: usize, len: usize) -> usize
    requires { 96 ≤ length part.now }
    ensures { result ≡ passed_in part.now word len 8 }
{
    for i in 0..8usize {
        if holds_in(after(part, i * ENTRY_SIZE), word, len) {
            return i;
        }
    }
    8
}

// An ID's four octets as one number, with zeros behind; of an ID of four octets they are read at once.
fn four_of(id: &[u8]) -> u32
    ensures { result ≡ word_of id.now }
{
    if let [a, b, c, d] = *id {
        return u32::from_le_bytes([a, b, c, d]);
    }
    u32::from_le_bytes([
        octet_or_zero(id, 0),
        octet_or_zero(id, 1),
        octet_or_zero(id, 2),
        octet_or_zero(id, 3),
    ])
}

pub fn id_word(id: &[u8]) -> usize
    ensures { result ≡ word_of id.now }
{
    four_of(id) as usize
}

// An ID in four octets, and the place after it.
fn put_id(out: &mut [u8], at: usize, id: &[u8]) -> usize
    requires { at + 4 ≤ length out.old }
    ensures { Put out.old at (four_of id.now) result out.new }
{
    put_octets(out, at, four_of(id).to_le_bytes())
}

// An entry, and the place after it. Where it goes is a place and no array of 12: docs/PROMISES.md promises these clauses of all three puts.
pub fn put_entry(out: &mut [u8], at: usize, state: State, ours: &[u8], partner: &[u8]) -> usize
    requires at_in_bounds { at + 12 ≤ length out.old }
    requires ours_len_bound { (length ours.now < 5) × (length partner.now < 5) }
    ensures { Put out.old at (entry_octets state ours.now partner.now) result out.new }
{
    let first = put_octets(
        out,
        at,
        [state.into(), ours.len() as u8, partner.len() as u8, 0],
    );
    let second = put_id(out, first, ours);
    put_id(out, second, partner)
}

// Active, with the partner's ID: ours stands there and is not put again.
pub fn put_partner(out: &mut [u8], at: usize, ours: &[u8], partner: &[u8])
    requires at_in_bounds { at + 12 ≤ length out.old }
    requires ours_len_bound { (length ours.now < 5) × (length partner.now < 5) }
    ensures { out.new ≡ partner_put out.old at ours.now partner.now }
{
    put_octets(
        out,
        at,
        [
            State::Active.into(),
            ours.len() as u8,
            partner.len() as u8,
            0,
        ],
    );
    put_id(out, at + 8, partner);
}

pub fn put_blank(out: &mut [u8], at: usize) -> usize
    requires { at + 12 ≤ length out.old }
    ensures { Put out.old at blank_octets result out.new }
{
    out[at..at + ENTRY_SIZE].fill(0);
    at + ENTRY_SIZE
}
