// What an event does to a transaction: the states and events of Q.774, and what is answered.
#![tactic(auto)]

ghost use Rattle.std.specs.Prelude.{◌≡◌, true, false, get_or};
ghost use Rattle.tcap.specs.WellFormed.{id_ok};
ghost use Rattle.transaction_states.specs.Events.{continuing, closing, move_of, begins_of, tells, told_by, ids_ok, is_open, opening, moving, taken_of, state_in, state_octet, event_in, refusal_number};

use tcap::MOST_TRANSACTION_ID_OCTETS;

// Idle is what free room is in.
#[derive(Clone, Copy)]
pub enum State {
    Idle,
    InitiationSent,
    InitiationReceived,
    Active,
}

// The nine events that the page names, and every other.
#[derive(Clone, Copy)]
pub enum Event {
    BeginSent,
    BeginReceived,
    ContinueSent,
    ContinueReceived,
    EndSent,
    EndReceived,
    AbortSent,
    AbortReceived,
    LocalClose,
    Other,
}

// What an event does to an open transaction.
#[derive(Clone, Copy)]
pub enum Move {
    Barred,
    Stay,
    Activate,
    Learn,
    Close,
}

// 40; 41 of a Begin and of the other events; 42; 43.
#[derive(Clone, Copy)]
pub enum TableRefusal {
    BadId,
    InUse,
    Unknown,
    NotAllowed,
    Full,
}

// What is to be done in which room.
#[derive(Clone, Copy)]
pub enum Deed {
    Opens { room: usize, state: State },
    Keeps(usize),
    Activates(usize),
    Learns(usize),
    Closes(usize),
}

// How an event was taken, and in which room.
#[derive(Clone, Copy)]
pub enum Taken {
    Opened(usize),
    Kept(usize),
    Closed(usize),
}

// 1, 2 and 3 are open; with another octet the room is free.
impl From<u8> for State {
    ghost from_gives = { λ octet state. state ≡ state_in octet };

    fn from(octet: u8) -> State {
        match octet {
            1 => State::InitiationSent,
            2 => State::InitiationReceived,
            3 => State::Active,
            _ => State::Idle,
        }
    }
}

impl From<State> for u8 {
    ghost from_gives = { λ state octet. octet ≡ state_octet state };

    fn from(state: State) -> u8 {
        match state {
            State::Idle => 0,
            State::InitiationSent => 1,
            State::InitiationReceived => 2,
            State::Active => 3,
        }
    }
}

// The page's order, each sent then received.
impl From<u8> for Event {
    ghost from_gives = { λ number event. event ≡ event_in number };

    #[tactic(auto, unfolding(crate::specs::Events::event_in))]
    fn from(number: u8) -> Event {
        match number {
            1 => Event::BeginSent,
            2 => Event::BeginReceived,
            3 => Event::ContinueSent,
            4 => Event::ContinueReceived,
            5 => Event::EndSent,
            6 => Event::EndReceived,
            7 => Event::AbortSent,
            8 => Event::AbortReceived,
            9 => Event::LocalClose,
            _ => Event::Other,
        }
    }
}

impl From<TableRefusal> for u64 {
    ghost from_gives = { λ refusal number. number ≡ refusal_number refusal };

    fn from(refusal: TableRefusal) -> u64 {
        match refusal {
            TableRefusal::BadId => 40,
            TableRefusal::InUse | TableRefusal::Unknown => 41,
            TableRefusal::NotAllowed => 42,
            TableRefusal::Full => 43,
        }
    }
}

impl From<Deed> for Taken {
    ghost from_gives = { λ deed taken. taken ≡ taken_of deed };

    fn from(deed: Deed) -> Taken {
        match deed {
            Deed::Opens { room, .. } => Taken::Opened(room),
            Deed::Keeps(room) | Deed::Activates(room) | Deed::Learns(room) => Taken::Kept(room),
            Deed::Closes(room) => Taken::Closed(room),
        }
    }
}

// An ID's octets are followed by zeros.
pub fn octet_or_zero(id: &[u8], i: usize) -> u8
    ensures { result ≡ get_or id.now i 0 }
{
    id.get(i).copied().unwrap_or(0)
}

pub fn is_open(state: State) -> bool
    ensures { result ≡ is_open state }
{
    !matches!(state, State::Idle)
}

// What an event other than Begin does in a state.
pub fn move_of(event: Event, state: State) -> Move
    ensures { result ≡ move_of event state }
{
    match event {
        Event::ContinueSent => continuing(true, state),
        Event::ContinueReceived => continuing(false, state),
        Event::EndSent | Event::AbortSent => closing(true, state),
        Event::EndReceived | Event::AbortReceived => closing(false, state),
        Event::LocalClose => Move::Close,
        Event::BeginSent | Event::BeginReceived | Event::Other => Move::Barred,
    }
}

// Continue, sent or received.
fn continuing(sent: bool, state: State) -> Move
    ensures { result ≡ continuing sent state }
{
    match (state, sent) {
        (State::InitiationSent, false) => Move::Learn,
        (State::InitiationReceived, true) => Move::Activate,
        (State::Active, _) => Move::Stay,
        _ => Move::Barred,
    }
}

// End and Abort: none can be sent in initiation sent, nor received in initiation received.
fn closing(sent: bool, state: State) -> Move
    ensures { result ≡ closing sent state }
{
    match (state, sent) {
        (State::InitiationSent, false) | (State::InitiationReceived, true) | (State::Active, _) =>
            Move::Close,
        _ => Move::Barred,
    }
}

// Whether an event carries the partner's ID.
fn tells_partner(event: Event) -> bool
    ensures { result ≡ tells event }
{
    matches!(event, Event::BeginReceived | Event::ContinueReceived)
}

// The partner's ID, or the no octets behind it: one pointer serves both.
pub fn told_by(event: Event, partner: &[u8]) -> &[u8]
    ensures { result.now ≡ told_by event partner.now }
{
    if tells_partner(event) {
        partner
    } else {
        &partner[partner.len()..]
    }
}

#[tactic(auto, unfolding(tcap::specs::WellFormed::id_ok))]
fn id_ok(id: &[u8]) -> bool
    ensures { result ≡ id_ok id.now }
{
    (1..=MOST_TRANSACTION_ID_OCTETS).contains(&id.len())
}

// 40: our ID, and the partner's where the event carries one.
#[tactic(auto, unfolding(crate::specs::Events::ids_ok))]
pub fn ids_ok(event: Event, ours: &[u8], partner: &[u8]) -> bool
    ensures { result ≡ ids_ok event ours.now partner.now }
{
    id_ok(ours) && (!tells_partner(event) || id_ok(partner))
}

pub fn begins_by(event: Event) -> Option<State>
    ensures { result ≡ begins_of event }
{
    match event {
        Event::BeginSent => Some(State::InitiationSent),
        Event::BeginReceived => Some(State::InitiationReceived),
        _ => None,
    }
}

// An opening takes the first free room; 43 where there is none.
pub fn opening_in(state: State, free: Option<usize>) -> Result<Deed, TableRefusal>
    ensures { result ≡ opening state free }
{
    let room = free.ok_or(TableRefusal::Full)?;
    Ok(Deed::Opens { room, state })
}

// An event of the open transaction in a room; 42 where it is barred.
pub fn moving_in(room: usize, step: Move) -> Result<Deed, TableRefusal>
    ensures { result ≡ moving room step }
{
    match step {
        Move::Barred => Err(TableRefusal::NotAllowed),
        Move::Stay => Ok(Deed::Keeps(room)),
        Move::Activate => Ok(Deed::Activates(room)),
        Move::Learn => Ok(Deed::Learns(room)),
        Move::Close => Ok(Deed::Closes(room)),
    }
}
