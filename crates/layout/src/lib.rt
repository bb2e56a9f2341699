// Sizes of the fixed layout in which records and rules cross to C, and its version. Its definitions stand in specs/, its round trip in proofs/.
#![tactic(auto)]

pub const VERSION: u32 = 2;

pub const RULE_SIZE: u32 = 12;

pub const RECORD_SIZE: u32 = 428;
