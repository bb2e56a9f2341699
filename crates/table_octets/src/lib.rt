// The table of open transactions as 768 octets that a program in C keeps, changed in place: 64 entries of 12, in the layout of docs/LAYOUT.md.
#![tactic(auto)]

ghost use Rattle.std.specs.Prelude.{◌≡◌, ℕ, ◌<◌, ◌≤◌, length, get_or};
ghost use Rattle.open_transactions.specs.inner.Steps.{Doable};
ghost use Rattle.table_layout.specs.Octets.{table_size, entries_in, octets_done, replying, leaving};
ghost use Rattle.table_layout.specs.inner.Steps.{HoldsOurs};

use base::after;
use entry_octets::{ENTRY_SIZE, id_word, passed_eight, put_blank, put_entry, put_partner};
use open_transactions::{Entries, choose};
use table_layout::StepFault;
use transaction_states::{Deed, Event, State, Taken, is_open, told_by};

const ENTRIES: usize = 64;

pub const TABLE_SIZE: usize = 768;

// The octets of a table, lent.
#[derive(Clone, Copy)]
struct Octets<'a> {
    octets: &'a [u8],
    ghost whole: { table_size ≤ length octets.now },
    ghost fits: { (i : ℕ) → get_or octets.now i 0 < 256 },
}

impl<'a> Entries for Octets<'a> {
    ghost entries = { λ t. entries_in t.octets.now };

    fn find(&self, id: &[u8]) -> Option<usize> {
        let word = id_word(id);
        for turn in 0..ENTRIES / 8 {
            let part = after(self.octets, turn * 8 * ENTRY_SIZE);
            let passed = passed_eight(part, word, id.len());
            if passed < 8 {
                return Some(turn * 8 + passed);
            }
        }
        None
    }

    fn free(&self) -> Option<usize> {
        for room in 0..ENTRIES {
            if !is_open(State::from(self.octets[room * ENTRY_SIZE])) {
                return Some(room);
            }
        }
        None
    }

    fn state_at(&self, room: usize) -> State {
        State::from(self.octets[room * ENTRY_SIZE])
    }
}

#[tactic(auto, unfolding(table_layout::specs::Octets::octets_done))]
fn carry_out_in(table: &mut [u8], deed: Deed, ours: &[u8], partner: &[u8])
    requires table_size_in_bounds { (table_size ≤ length table.old) × Doable ours.now partner.now (Ok deed) }
    requires holds_ours { HoldsOurs table.old ours.now (Ok deed) }
    ensures { table.new ≡ octets_done table.old ours.now partner.now (Ok deed) }
{
    match deed {
        Deed::Opens { room, state } => {
            put_entry(table, room * ENTRY_SIZE, state, ours, partner);
        }
        Deed::Keeps(_) => {}
        Deed::Activates(room) => table[room * ENTRY_SIZE] = State::Active.into(),
        Deed::Learns(room) => put_partner(table, room * ENTRY_SIZE, ours, partner),
        Deed::Closes(room) => {
            put_blank(table, room * ENTRY_SIZE);
        }
    }
}

// An event by its number, with our ID and the partner's: the answer, and the table changed in place.
#[tactic(auto, unfolding(table_layout::specs::Octets::replying, table_layout::specs::Octets::leaving, table_layout::specs::Octets::octets_done))]
pub fn step_octets(
    table: &mut [u8],
    number: u8,
    ours: &[u8],
    partner: &[u8],
) -> Result<Taken, StepFault>
    ensures value { result ≡ replying table.old number ours.now partner.now }
    ensures table_after { table.new ≡ leaving table.old number ours.now partner.now }
{
    if table.len() < TABLE_SIZE {
        return Err(StepFault::NoRoom);
    }
    let event = Event::from(number);
    let told = told_by(event, partner);
    let deed = choose(&Octets { octets: table }, event, ours, partner)?;
    carry_out_in(table, deed, ours, told);
    Ok(deed.into())
}
