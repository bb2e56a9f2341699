// The contents of primitives: signed integers and object identifiers.
#![tactic(auto)]

ghost use Rattle.std.specs.Prelude.{◌≡◌, ◌≤◌, length, if◌then◌else◌};
ghost use Rattle.std.specs.Int.Signed.{mag};
ghost use Rattle.base.specs.Number.{signed_at, bits_at};
ghost use Rattle.primitive.specs.Primitive.{between, most_integer_octets, integer_octets, signed_of, identifier_ok};
ghost use Rattle.primitive.specs.inner.Answers.{integer_of};

// The most octets of a signed integer, and of an object identifier.
pub const MOST_INTEGER_OCTETS: usize = 4;

pub const MOST_IDENTIFIER_OCTETS: usize = 16;

// The signed number for which `bits` stands at the width whose largest number is `top`.
#[tactic(auto, unfolding(base::specs::Number::signed_at))]
pub fn signed(top: u32, bits: u32) -> i32
    requires { bits ≤ top }
    ensures { result ≡ signed_at top bits }
{
    if bits <= top / 2 {
        bits as i32
    } else {
        !((top - bits) as i32)
    }
}

// The same of one octet.
#[tactic(auto, unfolding(base::specs::Number::signed_at))]
pub fn signed_octet(octet: u8) -> i8
    ensures { result ≡ signed_at 255 octet }
{
    octet.cast_signed()
}

// The number that stands for `value` at that width.
#[tactic(auto, unfolding(base::specs::Number::bits_at))]
pub fn bits(top: u32, value: i32) -> u32
    requires { mag value ≤ top }
    ensures { result ≡ bits_at top value }
{
    if value >= 0 {
        value as u32
    } else {
        top - !value as u32
    }
}

// How many octets an integer takes: the fewest that hold it.
#[tactic(auto, using(crate::proofs::Integers::sizes))]
pub fn integer_size(value: i32) -> usize
    ensures { result ≡ length (integer_octets value) }
{
    if (-128..=127).contains(&value) {
        return 1;
    }
    if (-32768..=32767).contains(&value) {
        return 2;
    }
    if (-8388608..=8388607).contains(&value) {
        return 3;
    }
    4
}

// The number for which 1 to 4 octets stand.
#[tactic(auto, using(crate::proofs::Integers::values))]
fn value_of(contents: &[u8]) -> Option<i32>
    ensures { result ≡ (if between 1 most_integer_octets contents.now then Some (signed_of contents.now) else None) }
{
    match *contents {
        [a] => Some(signed_octet(a).into()),
        [a, b] => Some(signed(0xFFFF, u32::from_be_bytes([0, 0, a, b]))),
        [a, b, c] => Some(signed(0xFF_FFFF, u32::from_be_bytes([0, a, b, c]))),
        [a, b, c, d] => Some(signed(u32::MAX, u32::from_be_bytes([a, b, c, d]))),
        _ => None,
    }
}

// Contents as a signed integer of 1 to `most` octets, the fewest for their number: 00 7F is 127, which one octet holds.
#[tactic(auto, unfolding(crate::specs::inner::Answers::integer_of, crate::specs::Primitive::integer_ok))]
pub fn integer_at(contents: &[u8], most: usize) -> Option<i32>
    requires { most ≤ most_integer_octets }
    ensures { result ≡ integer_of most contents.now }
{
    if contents.len() > most {
        return None;
    }
    let value = value_of(contents)?;
    if integer_size(value) != contents.len() {
        return None;
    }
    Some(value)
}

// Whether contents are an object identifier: every number ends in an octet without bit H, and none begins with 80.
#[tactic(auto, unfolding(crate::specs::Primitive::identifier_ok, crate::specs::Primitive::numbers, crate::specs::inner::Answers::begins_at))]
pub fn identifier_ok(contents: &[u8]) -> bool
    ensures { result ≡ identifier_ok contents.now }
{
    if contents.is_empty() || contents.len() > MOST_IDENTIFIER_OCTETS {
        return false;
    }
    for (at, octet) in contents.iter().enumerate() {
        if *octet == 0x80 && (at == 0 || contents[at - 1] < 0x80) {
            return false;
        }
    }
    contents[contents.len() - 1] < 0x80
}
