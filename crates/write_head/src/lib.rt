// Elements of a record, put into a lent buffer from the back: what an element holds is there before its length is put.
// Each function takes the place where its octets end and answers the place where they begin. Buffer and place are passed apart: what there is room for, and
// which string lies in the material, differs at each call, so that no type of the two could say it, and a type without that is no plainer.
#![tactic(auto)]

pub mod integer;

ghost use Rattle.std.specs.Prelude.{◌≡◌, true, ◌∷◌, ◌<◌, length};
ghost use Rattle.base.specs.inner.Back.{Room, PutBack};
ghost use Rattle.element.specs.Form.{leaf, length_octets};
ghost use Rattle.tcap.specs.Verdict.{lies, string_octets};
ghost use Rattle.write_check_row.specs.Forms.{octets_of};

use base::{back_octets, back_part};
use tcap::Span;
use write_check_row::octets_of;

// Tag and length: never the indefinite form, and as few octets as there can be.
pub fn back_head(out: &mut [u8], at: usize, tag: u8, n: usize) -> usize
    requires room { Room out.old at (tag ∷ length_octets n) }
    requires n_bound { n < 65536 }
    ensures { PutBack out.old at (tag ∷ length_octets n) result out.new }
{
    if n < 128 {
        return back_octets(out, at, [tag, n as u8]);
    }
    if n < 256 {
        return back_octets(out, at, [tag, 0x81, n as u8]);
    }
    let next = back_octets(out, at, [(n / 256) as u8, (n % 256) as u8]);
    back_octets(out, next, [tag, 0x82])
}

// A primitive with these contents.
pub fn back_leaf(out: &mut [u8], at: usize, tag: u8, contents: &[u8]) -> usize
    requires { Room out.old at (octets_of (leaf tag contents.now)) }
    ensures { PutBack out.old at (octets_of (leaf tag contents.now)) result out.new }
{
    let next = back_part(out, at, contents);
    back_head(out, next, tag, contents.len())
}

pub fn back_span(out: &mut [u8], at: usize, material: &[u8], string: Span) -> usize
    requires string_within { lies (length material.now) string ≡ true }
    requires room { Room out.old at (string_octets material.now string) }
    ensures { PutBack out.old at (string_octets material.now string) result out.new }
{
    let octets = octets_of(string, material);
    back_part(out, at, octets)
}

// An element whose contents are a string.
pub fn back_string(out: &mut [u8], at: usize, material: &[u8], tag: u8, string: Span) -> usize
    requires string_within { lies (length material.now) string ≡ true }
    requires room { Room out.old at (octets_of (leaf tag (string_octets material.now string))) }
    ensures { PutBack out.old at (octets_of (leaf tag (string_octets material.now string))) result out.new }
{
    let octets = octets_of(string, material);
    back_leaf(out, at, tag, octets)
}
