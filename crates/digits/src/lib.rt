// Numbers and octets as text.
#![tactic(auto)]

ghost use Rattle.std.specs.Prelude.{◌≡◌, ◌<◌};
ghost use Rattle.base.specs.inner.Put.{Put};
ghost use Rattle.digits.specs.Digits.{decimal, signed, hex_digit, hex, number, value};

use base::{put_octet, put_octets};

// The digits of a number, most significant first.
#[tactic(auto, using(crate::proofs::Digits::decimal_low))]
pub fn put_decimal(out: &mut [u8], at: usize, whole: usize) -> usize
    ensures { Put out.old at (decimal whole) result out.new }
{
    if whole < 10 {
        return put_octet(out, at, b'0' + whole as u8);
    }
    let next = put_decimal(out, at, whole / 10);
    put_octet(out, next, b'0' + (whole % 10) as u8)
}

// A number as a field.
pub fn put_number(out: &mut [u8], at: usize, n: usize) -> usize
    ensures { Put out.old at (number n) result out.new }
{
    let next = put_octet(out, at, b' ');
    put_decimal(out, next, n)
}

#[tactic(auto, unfolding(crate::specs::Digits::signed))]
pub fn put_signed(out: &mut [u8], at: usize, value: i32) -> usize
    ensures { Put out.old at (signed value) result out.new }
{
    let digits = value.unsigned_abs() as usize;
    if value >= 0 {
        return put_decimal(out, at, digits);
    }
    let next = put_octet(out, at, b'-');
    put_decimal(out, next, digits)
}

// An ID as a field.
pub fn put_value(out: &mut [u8], at: usize, id: i8) -> usize
    ensures { Put out.old at (value id) result out.new }
{
    let next = put_octet(out, at, b' ');
    put_signed(out, next, id.into())
}

#[tactic(auto, unfolding(crate::specs::Digits::hex_digit))]
fn hex_digit(n: u8) -> u8
    requires { n < 16 }
    ensures { result ≡ hex_digit n }
{
    if n < 10 { b'0' + n } else { b'A' + (n - 10) }
}

// Every octet of a part in two digits.
pub fn put_hex(out: &mut [u8], at: usize, part: &[u8]) -> usize
    ensures { Put out.old at (hex part.now) result out.new }
{
    let mut next = at;
    for octet in part {
        next = put_octets(out, next, [hex_digit(octet / 16), hex_digit(octet % 16)]);
    }
    next
}
