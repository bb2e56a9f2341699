// SCCP unitdata, message type 09 of Recommendation Q.713: what reading and writing one answers. The code is in sccp_read and sccp_write.
#![tactic(auto)]

// A part of a unitdata: its octets, without the length octet before them.
#[derive(Clone, Copy)]
pub struct Part {
    pub place: usize,
    pub len: usize,
}

#[derive(Clone, Copy)]
pub struct Unitdata {
    pub class: u8,
    pub called: Part,
    pub calling: Part,
    pub userdata: Part,
}

// Why octets are no unitdata, with the numbers of document 02.
#[derive(Clone, Copy)]
pub enum UnitdataFault {
    OtherType = 31,
    PastEnd = 32,
    Overlap = 33,
    EmptyAddress = 34,
}

// Why a unitdata is not written, with the numbers of document 02.
#[derive(Clone, Copy)]
pub enum UnitdataWriteFault {
    OutOfRange = 35,
    NoRoom = 25,
}
