// Elements that are walked to their bottom: the place behind them, or a fault.
ghost use Rattle.std.specs.Prelude.{◌≡◌};
ghost use Rattle.element.specs.Answers.{element_walk, series_walk};
ghost use Rattle.element.specs.inner.Fronts.{span};
ghost use Rattle.read_place.specs.Places.{Tells, part, finite, Stands, Walked, WalkedOut, until, Ready};

use crate::{
    CODE_ZERO, CUT_OFF, FaultAt, OPEN, TOO_DEEP, behind, ended, length_at, tag_at, unfinished,
};
use walk::start_of;

// Any element, walked to its bottom.
#[cycle(walk_any_walk_element_walk_series)]
pub fn walk_any(m: &[u8], at: usize, end: usize, left: usize) -> Result<usize, FaultAt>
    requires { Stands m.now at end }
    ensures { Tells result (λ r. Walked at end (element_walk 0 left at (span m.now at end)) r) }
{
    let next = tag_at(m, at, end)?;
    let first = m[at];
    if first == 0 || first == 32 {
        return Err(FaultAt(CODE_ZERO + at));
    }
    if left == 0 {
        return Err(FaultAt(TOO_DEEP + at));
    }
    if first / 32 % 2 == 0 {
        return length_at(m, at, next, end, false);
    }
    let stop = length_at(m, at, next, end, true)?;
    walk_series(m, start_of(m, next), stop, left - 1)
}

// The same; most elements are primitives, or empty, and their tag and length take an octet each.
#[cycle(walk_any_walk_element_walk_series)]
pub fn walk_element(m: &[u8], at: usize, end: usize, left: usize) -> Result<usize, FaultAt>
    requires { Stands m.now at end }
    ensures { Tells result (λ r. Walked at end (element_walk 0 left at (span m.now at end)) r) }
{
    if left > 0 && at + 2 <= end {
        let first = m[at];
        let n = m[at + 1] as usize;
        if first % 32 != 31 && first != 0 && first != 32 {
            if n == 0 {
                return Ok(at + 2);
            }
            if first / 32 % 2 == 0 && n < 128 && at + 2 + n <= end {
                return Ok(at + 2 + n);
            }
        }
    }
    walk_any(m, at, end, left)
}

// Elements to the end of their contents.
#[cycle(walk_any_walk_element_walk_series)]
fn walk_series(m: &[u8], from: usize, stop: usize, left: usize) -> Result<usize, FaultAt>
    requires { Ready m.now from stop }
    ensures { Tells result (λ r. WalkedOut (finite stop) from (until stop) (series_walk 0 left (finite stop) from (part m.now from stop)) r) }
{
    let mut at = from;
    loop {
        if ended(m, at, stop) {
            return Ok(behind(at, stop));
        }
        if unfinished(m, at, stop) {
            return Err(FaultAt(CUT_OFF + at));
        }
        at = walk_element(m, at, stop % OPEN, left)?;
    }
}
