// Lays a record out as octets in a lent buffer: its head, and each row.
#![tactic(auto)]

pub mod head;
pub mod number;
pub mod row;

ghost use Rattle.std.specs.Prelude.{◌≤◌, length};
ghost use Rattle.base.specs.inner.Put.{Put};
ghost use Rattle.layout.specs.Fits.{RecordFits};
ghost use Rattle.layout.specs.Layout.{record_octets};
ghost use Rattle.pack.specs.LaidOut.{laid_out};

use crate::head::put_head;
use crate::row::put_row;
use tcap::Record;

// The whole record, from the front of the buffer; a count above 16 stands as 17.
// Its rows are read where they are: a call that takes them by value copies all sixteen.
pub fn put_record(out: &mut [u8], held: Record) -> usize
    requires { 428 ≤ length out.old }
    ensures { Put out.old 0 (record_octets (laid_out held)) result out.new × RecordFits (laid_out held) }
{
    let count = held.count.min(17);
    let mut o = put_head(out, 0, &held, count);
    for &row in &held.rows[..held.count.min(16)] {
        o = put_row(out, o, row);
    }
    o
}
