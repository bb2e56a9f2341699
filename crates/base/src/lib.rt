// What every layer above stands on: parts of a lent slice, octets put behind a place or before it, and an octet as a number.
#![tactic(auto)]

ghost use Rattle.std.specs.Prelude.{◌≡◌, ◌+◌, ◌<◌, ◌≤◌, [], ◌∷◌, length, drop, take};
ghost use Rattle.base.specs.inner.Put.{Put};
ghost use Rattle.base.specs.inner.Back.{Room, PutBack};

// The part from `at` on.
pub fn after(part: &[u8], at: usize) -> &[u8]
    requires { at ≤ length part.now }
    ensures { result.now ≡ drop at part.now }
{
    &part[at..]
}

// The `count` octets from `at` on.
pub fn piece(part: &[u8], at: usize, count: usize) -> &[u8]
    requires { at + count ≤ length part.now }
    ensures { result.now ≡ take count (drop at part.now) }
{
    &part[at..at + count]
}

// An octet as a count.
pub fn wide(octet: u8) -> usize
    ensures { (result ≡ octet) × (result < 256) }
{
    octet as usize
}

// One octet at a place, if the buffer reaches so far, and the place after it: with no room this counts, and a count never wraps.
pub fn put_octet(out: &mut [u8], at: usize, octet: u8) -> usize
    ensures { Put out.old at (octet ∷ []) result out.new }
{
    if at < out.len() {
        out[at] = octet;
        return at + 1;
    }
    at.saturating_add(1)
}

// All octets of a part, one after the other.
#[tactic(auto, using(crate::proofs::Puts::put_none, crate::proofs::Puts::put_length))]
fn put_each(out: &mut [u8], at: usize, part: &[u8]) -> usize
    ensures { Put out.old at part.now result out.new }
{
    let mut next = at;
    for octet in part {
        next = put_octet(out, next, *octet);
    }
    next
}

// All octets of a part, with the room asked for once. Octet by octet, here and in `back_part`: `copy_from_slice` calls memmove, which costs a short part
// more than its copy does, and which a host of the archive would have to bring beside memcpy and memset.
pub fn put_part(out: &mut [u8], at: usize, part: &[u8]) -> usize
    ensures { Put out.old at part.now result out.new }
{
    if at > out.len() || part.len() > out.len() - at {
        return put_each(out, at, part);
    }
    for (i, octet) in part.iter().enumerate() {
        out[at + i] = *octet;
    }
    at + part.len()
}

// The octets of an array, one after the other, with the room asked for once.
pub fn put_octets<const N: usize>(out: &mut [u8], at: usize, octets: [u8; N]) -> usize
    ensures { Put out.old at octets.entry result out.new }
{
    put_part(out, at, &octets)
}

// All octets of a part that end where `at` is; the place where they begin.
pub fn back_part(out: &mut [u8], at: usize, part: &[u8]) -> usize
    requires { Room out.old at part.now }
    ensures { PutBack out.old at part.now result out.new }
{
    let start = at - part.len();
    for (i, octet) in part.iter().enumerate() {
        out[start + i] = *octet;
    }
    start
}

// The octets of an array that end where `at` is.
pub fn back_octets<const N: usize>(out: &mut [u8], at: usize, octets: [u8; N]) -> usize
    requires { Room out.old at octets }
    ensures { PutBack out.old at octets.entry result out.new }
{
    back_part(out, at, &octets)
}
