// Open transactions, kept in a table of 64 entries: document 02, §10.
#![tactic(auto)]

ghost use Rattle.std.specs.Prelude.{◌≡◌, List, length, ◌<◌, get_or};
ghost use Rattle.std.specs.List.{position};
ghost use Rattle.open_transactions.specs.declared.Entry.{Entry};
ghost use Rattle.open_transactions.specs.Table.{blank_entry, empty_table, octets_for, same_id, holds, is_free, entry_for, partner_of, with_entry, deed_of, done, stepped};
ghost use Rattle.open_transactions.specs.inner.Steps.{Doable};

use tcap::{DestTransactionId, OrigTransactionId, Span, TransactionId};
use transaction_states::{
    Deed, begins_by, ids_ok, is_open, move_of, moving_in, octet_or_zero, opening_in, told_by,
};
pub use transaction_states::{Event, State, TableRefusal, Taken};

// Ours is the originating ID of what we send, the partner's the destination ID; both stand in the octets beside them, ours first.
#[derive(Clone, Copy)]
pub struct Entry {
    pub state: State,
    pub ours: OrigTransactionId,
    pub partner: Option<DestTransactionId>,
    pub octets: [u8; 8],
}

#[derive(Clone, Copy)]
pub struct Table {
    pub entries: [Entry; Table::CAPACITY],
}

// Of an event that is refused the table is as it was.
#[derive(Clone, Copy)]
pub struct Stepped {
    pub taken: Result<Taken, TableRefusal>,
    pub table: Table,
}

// A table of open transactions, however it keeps its entries.
pub trait Entries {
    ghost entries: { Self → List Entry };

    // The first open entry under an ID.
    fn find(&self, id: &[u8]) -> Option<usize>
        ensures { result ≡ position (holds id.now) (entries self.now) };

    // The first entry whose room is free.
    fn free(&self) -> Option<usize>
        ensures { result ≡ position is_free (entries self.now) };

    fn state_at(&self, room: usize) -> State
        requires { room < length (entries self.now) }
        ensures { result ≡ (get_or (entries self.now) room blank_entry).state };
}

// What an event is to do.
#[tactic(auto, using(crate::proofs::Finding::find_position), unfolding(crate::specs::Table::deed_of, crate::specs::Table::found_deed, crate::specs::Table::begin_deed, crate::specs::Table::other_deed))]
pub fn choose<T: Entries>(
    table: &T,
    event: Event,
    ours: &[u8],
    partner: &[u8],
) -> Result<Deed, TableRefusal>
    ensures { result ≡ deed_of (T.entries table.now) event ours.now partner.now }
{
    if !ids_ok(event, ours, partner) {
        return Err(TableRefusal::BadId);
    }
    match (table.find(ours), begins_by(event)) {
        (None, Some(state)) => opening_in(state, table.free()),
        (Some(_), Some(_)) => Err(TableRefusal::InUse),
        (None, None) => Err(TableRefusal::Unknown),
        (Some(room), None) => moving_in(room, move_of(event, table.state_at(room))),
    }
}

// Whether an entry is kept under an ID.
#[tactic(auto, unfolding(crate::specs::Table::same_id))]
fn same_id(entry: &Entry, id: &[u8]) -> bool
    ensures { result ≡ same_id entry.now id.now }
{
    entry.ours.0.octets.len as usize == id.len()
        && (0..4usize).all(|i| entry.octets[i] == octet_or_zero(id, i))
}

#[tactic(auto, unfolding(crate::specs::Table::holds))]
fn holds_id(entry: &Entry, id: &[u8]) -> bool
    ensures { result ≡ holds id.now entry.now }
{
    is_open(entry.state) && same_id(entry, id)
}

// Both IDs, each with zeros behind its octets. They are two slices and no struct of both: step and the call of C take them so.
fn octets_for(ours: &[u8], partner: &[u8]) -> [u8; 8]
    requires ours_len_bound { length ours.now < 5 }
    requires partner_len_bound { length partner.now < 5 }
    ensures { result ≡ octets_for ours.now partner.now }
{
    let mut octets = [0; 8];
    octets[..ours.len()].copy_from_slice(ours);
    octets[4..4 + partner.len()].copy_from_slice(partner);
    octets
}

// The entry of a transaction that is opened.
#[tactic(auto, unfolding(crate::specs::Table::entry_for))]
fn entry_for(state: State, ours: &[u8], partner: &[u8]) -> Entry
    requires ours_len_bound { length ours.now < 5 }
    requires partner_len_bound { length partner.now < 5 }
    ensures { result ≡ entry_for state ours.now partner.now }
{
    Entry {
        state,
        ours: OrigTransactionId(TransactionId {
            octets: Span {
                place: 0,
                len: ours.len() as u32,
            },
        }),
        partner: partner_of(partner.len() as u32),
        octets: octets_for(ours, partner),
    }
}

#[tactic(auto, unfolding(crate::specs::Table::partner_of))]
fn partner_of(len: u32) -> Option<DestTransactionId>
    ensures { result ≡ partner_of len }
{
    if len == 0 {
        return None;
    }
    Some(DestTransactionId(TransactionId {
        octets: Span { place: 4, len },
    }))
}

impl Entry {
    // Where there is no transaction.
    const BLANK: Entry = Entry {
        state: State::Idle,
        ours: OrigTransactionId(TransactionId {
            octets: Span { place: 0, len: 0 },
        }),
        partner: None,
        octets: [0; 8],
    };
}

impl Entries for Table {
    ghost entries = { λ t. t.entries };

    fn find(&self, id: &[u8]) -> Option<usize> {
        self.entries.iter().position(|entry| holds_id(entry, id))
    }

    #[tactic(auto, unfolding(crate::specs::Table::is_free))]
    fn free(&self) -> Option<usize> {
        self.entries.iter().position(|entry| !is_open(entry.state))
    }

    fn state_at(&self, room: usize) -> State {
        self.entries[room].state
    }
}

impl Table {
    pub const CAPACITY: usize = 64;

    pub fn empty() -> Table
        ensures { result ≡ empty_table }
    {
        Table {
            entries: [Entry::BLANK; Table::CAPACITY],
        }
    }

    fn with(mut self, room: usize, entry: Entry) -> Table
        requires { room < 64 }
        ensures { result ≡ with_entry self room entry }
    {
        self.entries[room] = entry;
        self
    }

    #[tactic(auto, unfolding(crate::specs::Table::done))]
    fn carry_out(self, deed: Deed, ours: &[u8], partner: &[u8]) -> Table
        requires { Doable ours.now partner.now (Ok deed) }
        ensures { result ≡ done self ours.now partner.now (Ok deed) }
    {
        match deed {
            Deed::Opens { room, state } => self.with(room, entry_for(state, ours, partner)),
            Deed::Keeps(_) => self,
            Deed::Activates(room) => {
                let entry = Entry {
                    state: State::Active,
                    ..self.entries[room]
                };
                self.with(room, entry)
            }
            Deed::Learns(room) => self.with(room, entry_for(State::Active, ours, partner)),
            Deed::Closes(room) => self.with(room, Entry::BLANK),
        }
    }

    // An event, with our ID and the partner's: the answer, and the table after it.
    #[tactic(auto, unfolding(crate::specs::Table::stepped, crate::specs::Table::done))]
    pub fn step(self, event: Event, ours: &[u8], partner: &[u8]) -> Stepped
        ensures { result ≡ stepped self event ours.now partner.now }
    {
        let told = told_by(event, partner);
        match choose(&self, event, ours, partner) {
            Ok(deed) => Stepped {
                taken: Ok(deed.into()),
                table: self.carry_out(deed, ours, told),
            },
            Err(refusal) => Stepped {
                taken: Err(refusal),
                table: self,
            },
        }
    }
}
