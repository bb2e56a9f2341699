// Whether a dialogue portion may be written, and how many octets it has, told in one pass.
#![tactic(auto)]

ghost use Rattle.std.specs.Prelude.{◌≡◌};
ghost use Rattle.tcap.specs.declared.Dialogue.{Dialogue};
ghost use Rattle.write_check.specs.Judgements.{external_judged, pdu_judged, number_judged, source_judged, info_judged, context_judged, outside_judged, answer_judged, dialogue_judged};

use tcap::{
    Diagnostic, Dialogue, LEFT_AT_5, LEFT_AT_7, MOST_ABORT_SOURCE, MOST_CAUSE,
    MOST_PROVIDER_DIAGNOSTIC, MOST_RESULT, MOST_USER_DIAGNOSTIC, Span, name_kind,
};
use write_check_row::{
    Judged, Wrong, around, both, element_judged, name_judged, octet_judged, octets_judged,
    octets_of, series_judged,
};

// BE around a series of 28, which stand at level 7.
fn info_judged(info: Option<Span>, material: &[u8]) -> Judged
    ensures { result ≡ info_judged material.now info }
{
    match info {
        None => Ok(0),
        Some(span) => around(series_judged(span, material, LEFT_AT_7)),
    }
}

// A1 around the application context name.
fn context_judged(name: Span, material: &[u8]) -> Judged
    ensures { result ≡ context_judged material.now name }
{
    around(around(name_judged(name, material)))
}

// A name that is neither of the two, which have PDUs of their own.
fn outside_judged(name: Span, material: &[u8]) -> Judged
    ensures { result ≡ outside_judged material.now name }
{
    let size = name_judged(name, material)?;
    if name_kind(octets_of(name, material)) != 0 {
        return Err(Wrong::UNSHAPED);
    }
    Ok(size)
}

// 6B around 28 around the name and what it holds.
fn external_judged(name: Judged, held: Judged) -> Judged
    ensures { result ≡ external_judged name held }
{
    around(around(both(around(name), held)))
}

// A constructor around 02 01 and one octet, 0 to `most`.
fn number_judged(octet: u8, most: u8) -> Judged
    ensures { result ≡ number_judged octet most }
{
    around(octet_judged(octet, most))
}

// A3 around who diagnosed.
fn source_judged(diagnostic: Diagnostic) -> Judged
    ensures { result ≡ source_judged diagnostic }
{
    match diagnostic {
        Diagnostic::ByUser(n) => around(number_judged(n, MOST_USER_DIAGNOSTIC)),
        Diagnostic::ByProvider(n) => around(number_judged(n, MOST_PROVIDER_DIAGNOSTIC)),
    }
}

// A0 around a PDU, behind one of the two names, which have 7 octets each.
fn pdu_judged(fields: Judged) -> Judged
    ensures { result ≡ pdu_judged fields }
{
    external_judged(Ok(7), around(around(fields)))
}

// A request, or a unidialogue, which is as long.
fn request_judged(name: Span, info: Option<Span>, material: &[u8]) -> Judged
    ensures { result ≡ dialogue_judged material.now (Dialogue.Request name info) }
{
    pdu_judged(both(context_judged(name, material), info_judged(info, material)))
}

// What a response has behind the name.
fn answer_judged(res: u8, diagnostic: Diagnostic, info: Option<Span>, material: &[u8]) -> Judged
    ensures { result ≡ answer_judged material.now res diagnostic info }
{
    let diagnosed = both(source_judged(diagnostic), info_judged(info, material));
    both(number_judged(res, MOST_RESULT), diagnosed)
}

fn response_judged(
    name: Span,
    res: u8,
    diagnostic: Diagnostic,
    info: Option<Span>,
    material: &[u8],
) -> Judged
    ensures { result ≡ dialogue_judged material.now (Dialogue.Response name res diagnostic info) }
{
    let answer = answer_judged(res, diagnostic, info, material);
    pdu_judged(both(context_judged(name, material), answer))
}

fn abort_judged(source: u8, info: Option<Span>, material: &[u8]) -> Judged
    ensures { result ≡ dialogue_judged material.now (Dialogue.DialogueAbort source info) }
{
    pdu_judged(both(
        octet_judged(source, MOST_ABORT_SOURCE),
        info_judged(info, material),
    ))
}

// A0 around one element, which stands at level 5.
fn outside_element_judged(name: Span, element: Span, material: &[u8]) -> Judged
    ensures { result ≡ dialogue_judged material.now (Dialogue.OutsideElement name element) }
{
    let held = around(element_judged(element, material, LEFT_AT_5));
    external_judged(outside_judged(name, material), held)
}

// 81 and octets of any kind.
fn outside_octets_judged(name: Span, octets: Span, material: &[u8]) -> Judged
    ensures { result ≡ dialogue_judged material.now (Dialogue.OutsideOctets name octets) }
{
    let held = around(octets_judged(octets, material));
    external_judged(outside_judged(name, material), held)
}

pub fn dialogue_judged(dialogue: Dialogue, material: &[u8]) -> Judged
    ensures { result ≡ dialogue_judged material.now dialogue }
{
    match dialogue {
        Dialogue::NoDialogue => Ok(0),
        Dialogue::Cause(n) => octet_judged(n, MOST_CAUSE),
        Dialogue::Request { name, info } | Dialogue::Unidialogue { name, info } => {
            request_judged(name, info, material)
        }
        Dialogue::Response {
            name,
            result,
            diagnostic,
            info,
        } => response_judged(name, result, diagnostic, info, material),
        Dialogue::DialogueAbort { source, info } => abort_judged(source, info, material),
        Dialogue::OutsideElement { name, element } => outside_element_judged(
            name, element, material,
        ),
        Dialogue::OutsideOctets { name, octets } => outside_octets_judged(name, octets, material),
    }
}
