// Signed integers in the fewest octets.
ghost use Rattle.std.specs.Prelude.{◌≡◌};
ghost use Rattle.base.specs.inner.Back.{Room, PutBack};
ghost use Rattle.tcap.specs.Meaning.{integer};
ghost use Rattle.write_check_row.specs.Forms.{octets_of};

use crate::back_leaf;
use base::back_octets;
use primitive::integer_size;

// Most are of one octet.
pub fn back_integer(out: &mut [u8], at: usize, tag: u8, value: i32) -> usize
    requires { Room out.old at (octets_of (integer tag value)) }
    ensures { PutBack out.old at (octets_of (integer tag value)) result out.new }
{
    let octets = value.to_be_bytes();
    let size = integer_size(value);
    if size == 1 {
        return back_octets(out, at, [tag, 1, octets[3]]);
    }
    back_leaf(out, at, tag, &octets[4 - size..])
}
