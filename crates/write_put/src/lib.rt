// The whole message, put from the back into a lent buffer that has room for it.
#![tactic(auto)]

ghost use Rattle.std.specs.Prelude.{◌≡◌, true, ◌≤◌, length, drop};
ghost use Rattle.base.specs.inner.Back.{Room, PutBack};
ghost use Rattle.tcap.specs.Verdict.{every, orig_lies, dest_lies, row_lies, dialogue_lies};
ghost use Rattle.write_check_row.specs.Forms.{rows_form, parts_form, octets_of};
ghost use Rattle.layout.specs.Layout.{are_rows, rows_in};

use tcap::{DestTransactionId, Dialogue, MessageKind, OrigTransactionId, message_tag};
use write_head::back_head;
use write_portion::back_dialogue;
use write_portion::transaction::{back_dest, back_orig};
use write_row::back_rows;

// 6C with the first `count` rows of a record; no component, no 6C.
fn back_components(out: &mut [u8], at: usize, material: &[u8], octets: &[u8], count: usize) -> usize
    requires in_bounds { (428 ≤ length octets.now) × (count ≤ 16) }
    requires rows_listed { are_rows count (drop 44 octets.now) ≡ true }
    requires rows_within { every (λ w. row_lies (length material.now) w.kind) (rows_in count (drop 44 octets.now)) ≡ true }
    requires room { Room out.old at (octets_of (rows_form material.now (rows_in count (drop 44 octets.now)))) }
    ensures { PutBack out.old at (octets_of (rows_form material.now (rows_in count (drop 44 octets.now)))) result out.new }
{
    if count == 0 {
        return at;
    }
    let next = back_rows(out, at, material, octets, count);
    back_head(out, next, 0x6C, at - next)
}

// A message with these parts and the first `count` rows of the record that `octets` are, which ends where `at` is.
pub fn put_message(
    out: &mut [u8],
    at: usize,
    material: &[u8],
    kind: MessageKind,
    orig: Option<OrigTransactionId>,
    dest: Option<DestTransactionId>,
    dialogue: Dialogue,
    octets: &[u8],
    count: usize,
) -> usize
    requires in_bounds { (428 ≤ length octets.now) × (count ≤ 16) }
    requires rows_listed { are_rows count (drop 44 octets.now) ≡ true }
    requires orig_within { orig_lies (length material.now) orig ≡ true }
    requires dest_within { dest_lies (length material.now) dest ≡ true }
    requires dialogue_within { dialogue_lies (length material.now) dialogue ≡ true }
    requires rows_within { every (λ w. row_lies (length material.now) w.kind) (rows_in count (drop 44 octets.now)) ≡ true }
    requires room { Room out.old at (octets_of (parts_form material.now kind orig dest dialogue (rows_in count (drop 44 octets.now)))) }
    ensures { PutBack out.old at (octets_of (parts_form material.now kind orig dest dialogue (rows_in count (drop 44 octets.now)))) result out.new }
{
    let a = back_components(out, at, material, octets, count);
    let b = back_dialogue(out, a, material, dialogue);
    let c = back_dest(out, b, material, dest);
    let next = back_orig(out, c, material, orig);
    back_head(out, next, message_tag(kind), at - next)
}
