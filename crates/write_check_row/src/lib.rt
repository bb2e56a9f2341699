// Whether the parts of a record may be written, and how many octets they take, told in one pass.
#![tactic(auto)]

ghost use Rattle.std.specs.Prelude.{◌≡◌, true, false, ◌+◌, min, length, IfOk, IfErr};
ghost use Rattle.tcap.specs.Verdict.{lies, is_element, is_series, string_octets};
ghost use Rattle.write_check_row.specs.Judged.{size_cap, worse, joined, wrapped, octet_judged, octets_judged, sized_judged, name_judged, element_judged, series_judged};

use base::piece;
use primitive::{MOST_IDENTIFIER_OCTETS, identifier_ok};
use tcap::{MOST_OCTETS, Span};
use walk::whole_at;

// Any size above the most octets that a message may have.
const SIZE_CAP: usize = MOST_OCTETS + 1;

// What is wrong with a part, by its rank, the worst the greatest. Parts are judged by the four below; joining takes every rank.
#[derive(Clone, Copy, PartialEq, Eq, PartialOrd, Ord)]
pub struct Wrong(pub u8);

// Document 01 numbers these 22, 21, 23 and 24.
impl Wrong {
    pub const UNSHAPED: Wrong = Wrong(1);

    pub const OUT_OF_MATERIAL: Wrong = Wrong(2);

    pub const OUT_OF_RANGE: Wrong = Wrong(3);

    pub const WRONG_PARTS: Wrong = Wrong(4);
}

// The size of a part that may be written, capped; or the worst that is wrong with it.
pub type Judged = Result<usize, Wrong>;

fn capped(size: usize) -> usize
    ensures { result ≡ min size size_cap }
{
    size.min(SIZE_CAP)
}

// A sum that does not wrap.
fn total(one: usize, other: usize) -> usize
    ensures { result ≡ min (one + other) size_cap }
{
    capped(one.saturating_add(other))
}

fn worse(one: Wrong, other: Wrong) -> Wrong
    ensures { result ≡ worse one other }
{
    one.max(other)
}

// Two parts, one after the other.
pub fn both(one: Judged, other: Judged) -> Judged
    ensures { result ≡ joined one other }
{
    match (one, other) {
        (Ok(a), Ok(b)) => Ok(total(a, b)),
        (Err(k), Err(l)) => Err(worse(k, l)),
        (Err(k), Ok(_)) => Err(k),
        (Ok(_), Err(l)) => Err(l),
    }
}

// Tag and length around contents.
pub fn around(contents: Judged) -> Judged
    ensures { result ≡ wrapped contents }
{
    let n = contents?;
    if n < 128 {
        return Ok(n + 2);
    }
    Ok(total(n, 3))
}

// The octets of a string that lies in the material.
pub fn octets_of(span: Span, material: &[u8]) -> &[u8]
    requires { lies (length material.now) span ≡ true }
    ensures { result.now ≡ string_octets material.now span }
{
    let place = span.place as usize;
    let len = span.len as usize;
    piece(material, place, len)
}

// The octets of any string; 21: place and length are 32 bits, so that their sum does not wrap.
fn octets_in(span: Span, material: &[u8]) -> Result<&[u8], Wrong>
    ensures ok { IfOk result (λ octets. (lies (length material.now) span ≡ true) × (octets.now ≡ string_octets material.now span)) }
    ensures err { IfErr result (λ wrong. (lies (length material.now) span ≡ false) × (wrong ≡ Wrong.OUT_OF_MATERIAL)) }
{
    let place = span.place as usize;
    let end = place + span.len as usize;
    material.get(place..end).ok_or(Wrong::OUT_OF_MATERIAL)
}

// Octets of any kind.
pub fn octets_judged(span: Span, material: &[u8]) -> Judged
    ensures { result ≡ octets_judged material.now span }
{
    let octets = octets_in(span, material)?;
    Ok(capped(octets.len()))
}

// 1 to `most` octets: a transaction ID.
pub fn sized_judged(span: Span, most: usize, material: &[u8]) -> Judged
    ensures { result ≡ sized_judged material.now most span }
{
    let len = span.len as usize;
    if len < 1 || len > most {
        return Err(Wrong::OUT_OF_RANGE);
    }
    octets_judged(span, material)
}

// An object identifier.
pub fn name_judged(span: Span, material: &[u8]) -> Judged
    ensures { result ≡ name_judged material.now span }
{
    let size = sized_judged(span, MOST_IDENTIFIER_OCTETS, material)?;
    if !identifier_ok(octets_of(span, material)) {
        return Err(Wrong::UNSHAPED);
    }
    Ok(size)
}

// Whether octets are just one element, for which `left` levels are left.
fn is_element(octets: &[u8], left: usize) -> bool
    ensures { result ≡ is_element left octets.now }
{
    whole_at(octets, 0, octets.len(), left) == Some(octets.len())
}

// Whether they are a series of 28: a turn passes a whole element, so that no iterator over octets fits.
fn is_series(octets: &[u8], left: usize) -> bool
    ensures { result ≡ is_series left octets.now }
{
    let mut at = 0;
    while at < octets.len() {
        if octets[at] != 0x28 {
            return false;
        }
        let Some(next) = whole_at(octets, at, octets.len(), left) else {
            return false;
        };
        at = next;
    }
    true
}

// Just one element, for which `left` levels are left.
pub fn element_judged(span: Span, material: &[u8], left: usize) -> Judged
    ensures { result ≡ element_judged material.now left span }
{
    let octets = octets_in(span, material)?;
    if !is_element(octets, left) {
        return Err(Wrong::UNSHAPED);
    }
    Ok(capped(octets.len()))
}

// A series of 28.
pub fn series_judged(span: Span, material: &[u8], left: usize) -> Judged
    ensures { result ≡ series_judged material.now left span }
{
    let octets = octets_in(span, material)?;
    if !is_series(octets, left) {
        return Err(Wrong::UNSHAPED);
    }
    Ok(capped(octets.len()))
}

// An element of one octet, 0 to `most`.
pub fn octet_judged(octet: u8, most: u8) -> Judged
    ensures { result ≡ octet_judged octet most }
{
    if octet > most {
        return Err(Wrong::OUT_OF_RANGE);
    }
    Ok(3)
}
