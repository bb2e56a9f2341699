// Where a reader stands, and what may stand there: ends, tags, lengths; `elements` walks those that may be any.
// Contents stand from a place to a `stop`: the place where they end, or, if they are indefinite, OPEN and the end of what is around them.
// Message, place and stop are three arguments, since a struct of them crosses each call by memory, and these cross by registers.
// An answer is the place behind what was read, or a stop, and below FAULT; or a fault: kind and place, each kind in a block of OPEN from FAULT on.
#![tactic(auto)]

pub mod elements;

ghost use Rattle.std.specs.Prelude.{Err, ◌≡◌, true, false, ◌+◌, ◌<◌, ◌≤◌, length, get_or};
ghost use Rattle.element.specs.Head.{end_of, tag_of, length_of};
ghost use Rattle.read_place.specs.Places.{Tells, part, finite, Stands, ended_of, unfinished_of, behind_of, tag_place, length_place, wrong_place, stands_of, entry_place, bad_place, count_of, CountIs, Finishes, nothing, until, Ready};
ghost use Rattle.element.specs.inner.Fronts.{span, long_read};
ghost use Rattle.read_place.specs.Laying.{lay_text};

pub use crate::elements::{walk_any, walk_element};
use walk::long_count;
pub use walk::start_of;

pub const OPEN: usize = 65536;

pub const FAULT: usize = 2 * OPEN;

pub const CUT_OFF: usize = 2 * OPEN;

pub const BAD_TAG: usize = 3 * OPEN;

pub const BAD_LENGTH: usize = 4 * OPEN;

pub const PASSES_END: usize = 5 * OPEN;

pub const TOO_DEEP: usize = 6 * OPEN;

pub const CODE_ZERO: usize = 7 * OPEN;

pub const OVERLONG: usize = 8 * OPEN;

pub const NO_MESSAGE: usize = 9 * OPEN;

pub const OCTETS_AFTER: usize = 10 * OPEN;

pub const MISSING: usize = 11 * OPEN;

pub const ANOTHER: usize = 12 * OPEN;

pub const TOO_MANY: usize = 13 * OPEN;

pub const BAD_CONTENTS: usize = 14 * OPEN;

pub const SEVENTEENTH: usize = 15 * OPEN;

pub const UNKNOWN_COMPONENT: usize = 16 * OPEN;

// The octets of a record, and those of one of its rows (docs/LAYOUT.md).
pub const RECORD: usize = 428;

pub const ROW: usize = 24;

// A fault, by kind and place in one word: so a Result crosses a call in two registers, which a kind beside a place does not.
#[derive(Clone, Copy)]
pub struct FaultAt(pub usize);

// Whom a fault belongs to, as it is told in the first of the octets lent to a reader; for a component its number follows. An enum would be turned into its octet here and back in read_refusal.
pub const OF_PORTION: u8 = 0;

pub const OF_DIALOGUE: u8 = 1;

pub const OF_COMPONENT: u8 = 2;

// Whether contents end here.
pub fn ended(m: &[u8], at: usize, stop: usize) -> bool
    requires { Ready m.now at stop }
    ensures { result ≡ ended_of (end_of (finite stop) (part m.now at stop)) }
{
    if stop < OPEN {
        return at == stop;
    }
    let left = stop - OPEN - at;
    left >= 2 && m[at] == 0 && m[at + 1] == 0
}

// Whether contents lack their end pair here.
pub fn unfinished(m: &[u8], at: usize, stop: usize) -> bool
    requires { Ready m.now at stop }
    ensures { result ≡ unfinished_of (end_of (finite stop) (part m.now at stop)) }
{
    if stop < OPEN {
        return false;
    }
    let left = stop - OPEN - at;
    left == 0 || left == 1 && m[at] == 0
}

// The place behind contents that end here.
pub fn behind(at: usize, stop: usize) -> usize
    requires { at ≤ 65535 }
    ensures { result ≡ behind_of at stop }
{
    if stop < OPEN {
        return at;
    }
    at + 2
}

// The place behind the tag here, octet by octet: a match on the slice asks for its length first, and proves each case once for each length.
pub fn tag_at(m: &[u8], at: usize, end: usize) -> Result<usize, FaultAt>
    requires { Stands m.now at end }
    ensures { Tells result (λ r. r ≡ tag_place at (tag_of (span m.now at end))) }
{
    let left = end - at;
    if left == 0 {
        return Err(FaultAt(CUT_OFF + at));
    }
    if m[at] % 32 != 31 {
        return Ok(at + 1);
    }
    if left <= 1 {
        return Err(FaultAt(CUT_OFF + at));
    }
    let one = m[at + 1];
    if one == 128 || one < 31 {
        return Err(FaultAt(BAD_TAG + at));
    }
    if one < 128 {
        return Ok(at + 2);
    }
    if left <= 2 {
        return Err(FaultAt(CUT_OFF + at));
    }
    if m[at + 2] < 128 {
        return Ok(at + 3);
    }
    if left <= 3 {
        return Err(FaultAt(CUT_OFF + at));
    }
    if m[at + 3] < 128 {
        return Ok(at + 4);
    }
    Err(FaultAt(BAD_TAG + at))
}

// The stop of contents whose length takes `k` octets behind `from`. Most take one.
fn long_length(m: &[u8], at: usize, from: usize, end: usize, k: usize) -> Result<usize, FaultAt>
    requires { Stands m.now from end × (from < end) × (1 ≤ k) × (at ≤ 65535) }
    ensures { Tells result (λ r. r ≡ length_place at from end (long_read (span m.now from end) k)) }
{
    if k > 126 {
        return Err(FaultAt(BAD_LENGTH + at));
    }
    let left = end - from - 1;
    if left < k {
        return Err(FaultAt(CUT_OFF + at));
    }
    let one = m[from + 1] as usize;
    if k == 1 {
        if one < 128 {
            return Err(FaultAt(BAD_LENGTH + at));
        }
        if one < left {
            return Ok(from + (2 + one));
        }
        return Err(FaultAt(PASSES_END + at));
    }
    if one == 0 {
        return Err(FaultAt(BAD_LENGTH + at));
    }
    let r = long_count(m, from, k, left - k, PASSES_END + at);
    if r >= FAULT {
        return Err(FaultAt(r));
    }
    Ok(r)
}

// The stop of contents whose length stands at `from`; the element stands at `at`.
pub fn length_at(
    m: &[u8],
    at: usize,
    from: usize,
    end: usize,
    constructor: bool,
) -> Result<usize, FaultAt>
    requires { Stands m.now from end × (at ≤ 65535) }
    ensures { Tells result (λ r. r ≡ length_place at from end (length_of (span m.now from end) constructor)) }
{
    if from < end {
        let b = m[from] as usize;
        if b < 128 {
            if from + (1 + b) <= end {
                return Ok(from + (1 + b));
            }
            return Err(FaultAt(PASSES_END + at));
        }
        if b == 128 {
            if constructor {
                return Ok(OPEN + end);
            }
            return Err(FaultAt(BAD_LENGTH + at));
        }
        return long_length(m, at, from, end, b - 128);
    }
    Err(FaultAt(CUT_OFF + at))
}

// What is wrong where none of the expected elements stands: the end (14), a missing end pair (1), a bad tag, code 0, else `other`.
// The level is not asked: what the page names stands at level 8 at most.
pub fn wrong_at(m: &[u8], at: usize, stop: usize, other: usize) -> FaultAt
    requires { Ready m.now at stop × (other ≤ 1048576) }
    ensures { result.0 ≡ wrong_place m.now at stop other }
{
    if ended(m, at, stop) {
        return FaultAt(MISSING + at);
    }
    if unfinished(m, at, stop) {
        return FaultAt(CUT_OFF + at);
    }
    match tag_at(m, at, stop % OPEN) {
        Err(fault) => fault,
        Ok(_) => {
            if m[at] == 0 || m[at] == 32 {
                return FaultAt(CODE_ZERO + at);
            }
            FaultAt(other + at)
        }
    }
}

// Nothing more may come: the place behind the contents.
fn left_at(m: &[u8], at: usize, stop: usize) -> Result<usize, FaultAt>
    requires { Ready m.now at stop }
    ensures { Tells result (λ r. Finishes nothing m.now at stop r) }
{
    if ended(m, at, stop) {
        return Ok(behind(at, stop));
    }
    Err(wrong_at(m, at, stop, TOO_MANY))
}

// The same; most contents end where they are said to.
pub fn leave(m: &[u8], at: usize, stop: usize) -> Result<usize, FaultAt>
    requires { Ready m.now at stop }
    ensures { Tells result (λ r. Finishes nothing m.now at stop r) }
{
    if at == stop {
        return Ok(at);
    }
    left_at(m, at, stop)
}

// Whether an element with this tag of one octet stands here.
pub fn stands(m: &[u8], at: usize, stop: usize, tag: u8) -> bool
    requires { Stands m.now at (until stop) }
    ensures { result ≡ stands_of m.now at stop tag }
{
    at != stop % OPEN && m[at] == tag
}

// A constructor of this tag must stand here: the stop of its contents. Most lengths take one octet.
pub fn entry_at(m: &[u8], at: usize, stop: usize, tag: u8) -> Result<usize, FaultAt>
    requires { Ready m.now at stop }
    ensures { Tells result (λ r. r ≡ entry_place true m.now at stop tag) }
{
    let end = stop % OPEN;
    if at + 2 <= end && m[at] == tag {
        let b = m[at + 1] as usize;
        if b == 128 {
            return Ok(OPEN + end);
        }
        if b < 128 && at + 2 + b <= end {
            return Ok(at + 2 + b);
        }
    }
    asked_at(m, at, stop, tag, true)
}

// A constructor or a primitive of this tag must stand here, by the questions in their order: the stop of its contents, which is the place behind a primitive.
pub fn asked_at(
    m: &[u8],
    at: usize,
    stop: usize,
    tag: u8,
    constructor: bool,
) -> Result<usize, FaultAt>
    requires { Ready m.now at stop }
    ensures { Tells result (λ r. r ≡ entry_place constructor m.now at stop tag) }
{
    if stands(m, at, stop, tag) {
        return length_at(m, at, at + 1, stop % OPEN, constructor);
    }
    Err(wrong_at(m, at, stop, ANOTHER))
}

// A primitive of this tag must stand here, and its contents are not as wanted.
pub fn bad_field(m: &[u8], at: usize, stop: usize, tag: u8) -> FaultAt
    requires { Ready m.now at stop }
    ensures { Tells (Err result) (λ r. r ≡ bad_place m.now at stop tag) }
{
    match asked_at(m, at, stop, tag, false) {
        Err(fault) => fault,
        Ok(_) => FaultAt(BAD_CONTENTS + at),
    }
}

// How many contents octets the primitive of this tag has, if they are 1 to `most`, at most 127.
pub fn count_at(m: &[u8], at: usize, stop: usize, tag: u8, most: usize) -> Option<usize>
    requires { Stands m.now at (until stop) }
    ensures { CountIs result (count_of (until stop) at (get_or m.now at 0) (get_or m.now (at + 1) 0) tag most) }
{
    let end = stop % OPEN;
    if end < at + 3 || m[at] != tag {
        return None;
    }
    let n = m[at + 1] as usize;
    if n == 0 || n > most || end < at + 2 + n {
        return None;
    }
    Some(n)
}

// A place and a length of at most 65,535 as they lie in a record's octets, where the upper two octets of each number are 0.
pub fn put_text(out: &mut [u8], o: usize, place: usize, len: usize)
    requires { o + 8 ≤ length out.old }
    ensures { out.new ≡ lay_text o place len out.old }
{
    out[o + 2] = (place / 256 % 256) as u8;
    out[o + 3] = (place % 256) as u8;
    out[o + 6] = (len / 256 % 256) as u8;
    out[o + 7] = (len % 256) as u8;
}
