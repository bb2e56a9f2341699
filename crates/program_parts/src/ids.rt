// Whether the IDs that a refusal gives are those expected.
ghost use Rattle.std.specs.Prelude.{◌≡◌};
ghost use Rattle.program_parts.specs.Expected.{Tells, StringIs, OrigIs, IdIs, id_in};

use primitive::signed_octet;
use tcap::{OrigTransactionId, Span};

#[tactic(auto, unfolding(crate::specs::Expected::StringIs))]
fn same_string(message: &[u8], string: Span, expected: &[u8]) -> bool
    ensures { Tells result (StringIs message.now string expected.now) }
{
    let place = string.place as usize;
    message.get(place..place + string.len as usize) == Some(expected)
}

#[tactic(auto, unfolding(crate::specs::Expected::OrigIs))]
pub fn same_orig(message: &[u8], orig: Option<OrigTransactionId>, expected: &[u8]) -> bool
    ensures { Tells result (OrigIs message.now orig expected.now) }
{
    match orig {
        None => expected.is_empty(),
        Some(own) => !expected.is_empty() && same_string(message, own.0.octets, expected),
    }
}

// The invoke ID that a file gives, after 0 for none and 1 for one; nothing after another number.
#[tactic(auto, unfolding(crate::specs::Expected::id_in))]
pub fn id_of(given: u8, octet: u8) -> Option<Option<i8>>
    ensures { result ≡ id_in given octet }
{
    match given {
        0 => Some(None),
        1 => Some(Some(signed_octet(octet))),
        _ => None,
    }
}

#[tactic(auto, unfolding(crate::specs::Expected::IdIs, crate::specs::Expected::id_in))]
pub fn same_id(id: Option<i8>, given: u8, octet: u8) -> bool
    ensures { Tells result (IdIs id given octet) }
{
    id_of(given, octet) == Some(id)
}
