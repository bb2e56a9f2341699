// The fields that stand in a component, a dialogue or a message: an answer is the place behind the field, or a fault.
#![tactic(auto)]

ghost use Rattle.std.specs.Prelude.{◌≡◌, [], ◌/◌, ◌%◌};
ghost use Rattle.read_place.specs.Places.{Tells, Leads, Reads, Ready};
ghost use Rattle.base.specs.Value.{same};
ghost use Rattle.tcap.specs.WellFormed.{id_ok};
ghost use Rattle.tcap.specs.Productions.{octet_item, name_item};
ghost use Rattle.element.specs.Parts.{leaf_item, integer_item};

use base::piece;
use primitive::MOST_IDENTIFIER_OCTETS;
use read_place::{BAD_CONTENTS, FaultAt, asked_at, bad_field, count_at};
use tcap::MOST_TRANSACTION_ID_OCTETS;

// An object identifier.
pub fn name_at(m: &[u8], at: usize, stop: usize) -> Result<usize, FaultAt>
    requires { Ready m.now at stop }
    ensures { Tells result (λ r. Reads name_item m.now at stop r) }
{
    let Some(n) = count_at(m, at, stop, 0x06, MOST_IDENTIFIER_OCTETS) else {
        return Err(bad_field(m, at, stop, 0x06));
    };
    if primitive::identifier_ok(piece(m, at + 2, n)) {
        return Ok(at + 2 + n);
    }
    Err(FaultAt(BAD_CONTENTS + at))
}

// One octet, an ID.
pub fn one_octet_at(m: &[u8], at: usize, stop: usize, tag: u8) -> Result<usize, FaultAt>
    requires { Ready m.now at stop × Leads tag × (tag / 32 % 2 ≡ 0) }
    ensures { Tells result (λ r. Reads (integer_item tag 1) m.now at stop r) }
{
    let Some(_) = count_at(m, at, stop, tag, 1) else {
        return Err(bad_field(m, at, stop, tag));
    };
    Ok(at + 3)
}

// One octet, 0 to `most`.
pub fn small_at(m: &[u8], at: usize, stop: usize, tag: u8, most: u8) -> Result<usize, FaultAt>
    requires { Ready m.now at stop × Leads tag × (tag / 32 % 2 ≡ 0) }
    ensures { Tells result (λ r. Reads (octet_item tag most) m.now at stop r) }
{
    let Some(_) = count_at(m, at, stop, tag, 1) else {
        return Err(bad_field(m, at, stop, tag));
    };
    if m[at + 2] <= most {
        return Ok(at + 3);
    }
    Err(FaultAt(BAD_CONTENTS + at))
}

// A null.
pub fn null_at(m: &[u8], at: usize, stop: usize) -> Result<usize, FaultAt>
    requires { Ready m.now at stop }
    ensures { Tells result (λ r. Reads (leaf_item 0x05 (same [])) m.now at stop r) }
{
    let r = asked_at(m, at, stop, 0x05, false)?;
    if r == at + 2 {
        return Ok(r);
    }
    Err(FaultAt(BAD_CONTENTS + at))
}

// A transaction ID.
pub fn transaction_id_at(m: &[u8], at: usize, stop: usize, tag: u8) -> Result<usize, FaultAt>
    requires { Ready m.now at stop × Leads tag × (tag / 32 % 2 ≡ 0) }
    ensures { Tells result (λ r. Reads (leaf_item tag id_ok) m.now at stop r) }
{
    let Some(n) = count_at(m, at, stop, tag, MOST_TRANSACTION_ID_OCTETS) else {
        return Err(bad_field(m, at, stop, tag));
    };
    Ok(at + 2 + n)
}
