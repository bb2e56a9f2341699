// The dialogue portion, 6B, or the P-Abort cause in its place, put from the back: what a constructor holds is there before its length is put.
#![tactic(auto)]

pub mod transaction;

ghost use Rattle.std.specs.Prelude.{◌≡◌, true, length};
ghost use Rattle.base.specs.inner.Back.{Room, PutBack};
ghost use Rattle.element.specs.Form.{leaf, around, then};
ghost use Rattle.tcap.specs.Meaning.{octet, context_form, source_form, external};
ghost use Rattle.tcap.specs.Verdict.{lies, option_lies, dialogue_lies, string_octets};
ghost use Rattle.write_check_row.specs.Forms.{info_form, asked_form, dialogue_form, octets_of};
ghost use Rattle.write_portion.specs.Enclosed.{named, opened, Encloses, Enclosed};

use base::back_octets;
use tcap::{Diagnostic, Dialogue, Span};
use write_check_row::octets_of;
use write_head::{back_head, back_leaf, back_string};

// User information, BE.
fn back_info(out: &mut [u8], at: usize, material: &[u8], info: Option<Span>) -> usize
    requires info_within { option_lies (length material.now) info ≡ true }
    requires room { Room out.old at (octets_of (info_form material.now info)) }
    ensures { PutBack out.old at (octets_of (info_form material.now info)) result out.new }
{
    match info {
        None => at,
        Some(string) => back_string(out, at, material, 0xBE, string),
    }
}

// The application context name, A1 holding 06.
fn back_context(out: &mut [u8], at: usize, material: &[u8], name: Span) -> usize
    requires name_within { lies (length material.now) name ≡ true }
    requires room { Room out.old at (octets_of (context_form (string_octets material.now name))) }
    ensures { PutBack out.old at (octets_of (context_form (string_octets material.now name))) result out.new }
{
    let next = back_string(out, at, material, 0x06, name);
    back_head(out, next, 0xA1, at - next)
}

// 6B, 28 and the name, before what stands from `start` to `at`.
fn back_naming(out: &mut [u8], start: usize, at: usize, name: &[u8]) -> usize
    requires { Encloses (named name.now) at start out.old }
    ensures { Enclosed (named name.now) at start out.old result out.new }
{
    let a = back_leaf(out, start, 0x06, name);
    let b = back_head(out, a, 0x28, at - a);
    back_head(out, b, 0x6B, at - b)
}

// The same, then A0 and the tag of a PDU, before its fields.
fn back_opening(out: &mut [u8], start: usize, at: usize, name: &[u8], tag: u8) -> usize
    requires { Encloses (opened name.now tag) at start out.old }
    ensures { Enclosed (opened name.now tag) at start out.old result out.new }
{
    let a = back_head(out, start, tag, at - start);
    let b = back_head(out, a, 0xA0, at - a);
    back_naming(out, b, at, name)
}

// A request or a unidialogue, as the name says. The version is the default and is never written.
fn back_asked(
    out: &mut [u8],
    at: usize,
    material: &[u8],
    known: &[u8],
    name: Span,
    info: Option<Span>,
) -> usize
    requires name_within { lies (length material.now) name ≡ true }
    requires info_within { option_lies (length material.now) info ≡ true }
    requires room { Room out.old at (octets_of (external known.now (asked_form material.now name info))) }
    ensures { PutBack out.old at (octets_of (external known.now (asked_form material.now name info))) result out.new }
{
    let a = back_info(out, at, material, info);
    let b = back_context(out, a, material, name);
    back_opening(out, b, at, known, 0x60)
}

// Who diagnosed, and what, under A3.
fn back_diagnostic(out: &mut [u8], at: usize, diagnostic: Diagnostic) -> usize
    requires { Room out.old at (octets_of (around 0xA3 (source_form diagnostic))) }
    ensures { PutBack out.old at (octets_of (around 0xA3 (source_form diagnostic))) result out.new }
{
    match diagnostic {
        Diagnostic::ByUser(n) => back_octets(out, at, [0xA3, 5, 0xA1, 3, 0x02, 1, n]),
        Diagnostic::ByProvider(n) => back_octets(out, at, [0xA3, 5, 0xA2, 3, 0x02, 1, n]),
    }
}

// Result and diagnostic of a response, and its user information.
fn back_result(
    out: &mut [u8],
    at: usize,
    material: &[u8],
    res: u8,
    diagnostic: Diagnostic,
    info: Option<Span>,
) -> usize
    requires info_within { option_lies (length material.now) info ≡ true }
    requires room { Room out.old at (octets_of (then (around 0xA2 (octet 0x02 res)) (then (around 0xA3 (source_form diagnostic)) (info_form material.now info)))) }
    ensures { PutBack out.old at (octets_of (then (around 0xA2 (octet 0x02 res)) (then (around 0xA3 (source_form diagnostic)) (info_form material.now info)))) result out.new }
{
    let a = back_info(out, at, material, info);
    let b = back_diagnostic(out, a, diagnostic);
    back_octets(out, b, [0xA2, 3, 0x02, 1, res])
}

fn back_response(
    out: &mut [u8],
    at: usize,
    material: &[u8],
    name: Span,
    res: u8,
    diagnostic: Diagnostic,
    info: Option<Span>,
) -> usize
    requires info_within { dialogue_lies (length material.now) (Dialogue.Response name res diagnostic info) ≡ true }
    requires room { Room out.old at (octets_of (dialogue_form material.now (Dialogue.Response name res diagnostic info))) }
    ensures { PutBack out.old at (octets_of (dialogue_form material.now (Dialogue.Response name res diagnostic info))) result out.new }
{
    let a = back_result(out, at, material, res, diagnostic, info);
    let b = back_context(out, a, material, name);
    back_opening(out, b, at, b"\x00\x11\x86\x05\x01\x01\x01", 0x61)
}

fn back_abort(out: &mut [u8], at: usize, material: &[u8], source: u8, info: Option<Span>) -> usize
    requires info_within { dialogue_lies (length material.now) (Dialogue.DialogueAbort source info) ≡ true }
    requires room { Room out.old at (octets_of (dialogue_form material.now (Dialogue.DialogueAbort source info))) }
    ensures { PutBack out.old at (octets_of (dialogue_form material.now (Dialogue.DialogueAbort source info))) result out.new }
{
    let a = back_info(out, at, material, info);
    let b = back_octets(out, a, [0x80, 1, source]);
    back_opening(out, b, at, b"\x00\x11\x86\x05\x01\x01\x01", 0x64)
}

// Under another name: A0 with an element, or 81 with octets.
fn back_outside(
    out: &mut [u8],
    at: usize,
    material: &[u8],
    name: Span,
    tag: u8,
    string: Span,
) -> usize
    requires name_within { lies (length material.now) name ≡ true }
    requires string_within { lies (length material.now) string ≡ true }
    requires room { Room out.old at (octets_of (external (string_octets material.now name) (leaf tag (string_octets material.now string)))) }
    ensures { PutBack out.old at (octets_of (external (string_octets material.now name) (leaf tag (string_octets material.now string)))) result out.new }
{
    let next = back_string(out, at, material, tag, string);
    let octets = octets_of(name, material);
    back_naming(out, next, at, octets)
}

pub fn back_dialogue(out: &mut [u8], at: usize, material: &[u8], dialogue: Dialogue) -> usize
    requires dialogue_within { dialogue_lies (length material.now) dialogue ≡ true }
    requires room { Room out.old at (octets_of (dialogue_form material.now dialogue)) }
    ensures { PutBack out.old at (octets_of (dialogue_form material.now dialogue)) result out.new }
{
    match dialogue {
        Dialogue::NoDialogue => at,
        Dialogue::Cause(cause) => back_octets(out, at, [0x4A, 1, cause]),
        Dialogue::Request { name, info } => back_asked(
            out,
            at,
            material,
            b"\x00\x11\x86\x05\x01\x01\x01",
            name,
            info,
        ),
        Dialogue::Response {
            name,
            result,
            diagnostic,
            info,
        } => back_response(out, at, material, name, result, diagnostic, info),
        Dialogue::DialogueAbort { source, info } => back_abort(out, at, material, source, info),
        Dialogue::Unidialogue { name, info } => back_asked(
            out,
            at,
            material,
            b"\x00\x11\x86\x05\x01\x02\x01",
            name,
            info,
        ),
        Dialogue::OutsideElement { name, element } => back_outside(
            out, at, material, name, 0xA0, element,
        ),
        Dialogue::OutsideOctets { name, octets } => back_outside(
            out, at, material, name, 0x81, octets,
        ),
    }
}
