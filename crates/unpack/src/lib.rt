// Octets as the parts of a record.
#![tactic(auto)]

pub mod head;
pub mod number;
pub mod row;

ghost use Rattle.std.specs.Prelude.{◌≡◌, ◌≤◌, length};
ghost use Rattle.layout.specs.Layout.{rows_looked};

use crate::number::number_at;

// How many rows are looked at: those below the count, of which there are sixteen.
pub fn rows_looked(octets: &[u8]) -> usize
    requires { 44 ≤ length octets.now }
    ensures { result ≡ rows_looked octets.now }
{
    (number_at(octets, 4) as usize).min(16)
}
