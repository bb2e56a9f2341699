// Transaction IDs: the originating one, 48, and the destination, 49.
ghost use Rattle.std.specs.Prelude.{◌≡◌, true, length, IfSome};
ghost use Rattle.base.specs.inner.Back.{Room, PutBack};
ghost use Rattle.tcap.specs.Verdict.{lies, orig_lies, dest_lies};
ghost use Rattle.write_check_row.specs.Forms.{orig_form, dest_form, octets_of};
ghost use Rattle.write_portion.specs.Transaction.{transaction_form};

use tcap::{DestTransactionId, OrigTransactionId, TransactionId};
use write_head::back_string;

fn back_transaction(
    out: &mut [u8],
    at: usize,
    material: &[u8],
    tag: u8,
    id: Option<TransactionId>,
) -> usize
    requires id_within { IfSome id (λ i. lies (length material.now) i.octets ≡ true) }
    requires room { Room out.old at (octets_of (transaction_form material.now tag id)) }
    ensures { PutBack out.old at (octets_of (transaction_form material.now tag id)) result out.new }
{
    match id {
        None => at,
        Some(id) => back_string(out, at, material, tag, id.octets),
    }
}

pub fn back_orig(
    out: &mut [u8],
    at: usize,
    material: &[u8],
    orig: Option<OrigTransactionId>,
) -> usize
    requires orig_within { orig_lies (length material.now) orig ≡ true }
    requires room { Room out.old at (octets_of (orig_form material.now orig)) }
    ensures { PutBack out.old at (octets_of (orig_form material.now orig)) result out.new }
{
    back_transaction(out, at, material, 0x48, orig.map(|id| id.0))
}

pub fn back_dest(
    out: &mut [u8],
    at: usize,
    material: &[u8],
    dest: Option<DestTransactionId>,
) -> usize
    requires dest_within { dest_lies (length material.now) dest ≡ true }
    requires room { Room out.old at (octets_of (dest_form material.now dest)) }
    ensures { PutBack out.old at (octets_of (dest_form material.now dest)) result out.new }
{
    back_transaction(out, at, material, 0x49, dest.map(|id| id.0))
}
