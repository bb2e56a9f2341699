// Numbers and strings as octets, where there is room for them.
ghost use Rattle.std.specs.Prelude.{◌≡◌, [], ◌∷◌, ◌+◌, ◌≤◌, is_some, length};
ghost use Rattle.std.specs.Int.{from_bool};
ghost use Rattle.base.specs.Number.{octets_in, top_of, bits_at};
ghost use Rattle.base.specs.inner.Put.{Put};
ghost use Rattle.layout.specs.Layout.{span_octets};

use tcap::Span;

// What stands where there is no string.
pub(crate) const NO_SPAN: Span = Span { place: 0, len: 0 };

// 1 where there is a value, 0 where there is none.
pub(crate) fn flag<T: Copy>(held: Option<T>) -> u8
    ensures { result ≡ from_bool (is_some held) }
{
    u8::from(held.is_some())
}

// One octet that stands for a signed number.
#[tactic(auto, unfolding(base::specs::Number::bits_at, base::specs::Number::top_of))]
pub fn octet_of(value: i8) -> u8
    ensures { result ≡ bits_at (top_of 1) value }
{
    value.cast_unsigned()
}

pub fn put_octets<const N: usize>(out: &mut [u8], at: usize, octets: [u8; N]) -> usize
    requires { at + N ≤ length out.old }
    ensures { Put out.old at octets.entry result out.new }
{
    out[at..at + N].copy_from_slice(&octets);
    at + N
}

// A number, most significant octet first.
pub fn put_number(out: &mut [u8], at: usize, n: u32) -> usize
    requires { at + 4 ≤ length out.old }
    ensures { Put out.old at (octets_in 4 n) result out.new }
{
    put_octets(out, at, n.to_be_bytes())
}

#[tactic(auto, using(crate::proofs::Rooms::put_room, base::proofs::Puts::put_then), unfolding(layout::specs::Layout::span_octets, base::specs::Number::octets_in))]
pub fn put_span(out: &mut [u8], at: usize, span: Span) -> usize
    requires { at + 8 ≤ length out.old }
    ensures { Put out.old at (span_octets span) result out.new }
{
    let next = put_number(out, at, span.place);
    put_number(out, next, span.len)
}
