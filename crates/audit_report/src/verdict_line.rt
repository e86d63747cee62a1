ghost use Rattle.std.specs.Prelude.{◌≡◌, ◌++◌, IfOk, OnOk};
ghost use Rattle.audit_report.specs.Lines.{cause_text, verdict_words, verdict_text, change_words, change_text};

use crate::push::{push_id_number, push_words_id};
use checker::{Cause, ChangeVerdict, Verdict};
use std::alloc::{AllocError, Global};

// Code, name and argument of a cause.
fn push_cause(out: &mut Vec<u8>, cause: Cause) -> Result<(), AllocError>
    ensures { OnOk result (out.new.items ≡ out.old.items ++ cause_text cause) }
{
    match cause {
        Cause::EntryDiffers => out.extend_from_slice(b"REFUSED K1 EntryDiffers"),
        Cause::CeilingAbove => out.extend_from_slice(b"REFUSED K2 CeilingAbove"),
        Cause::KeyingsAbove => out.extend_from_slice(b"REFUSED K3 KeyingsAbove"),
        Cause::GroupsDiffer => out.extend_from_slice(b"REFUSED K15 GroupsDiffer"),
        Cause::EntryNotCovered => out.extend_from_slice(b"REFUSED K4 EntryNotCovered"),
        Cause::NoFrame(id) => push_words_id(out, b"REFUSED K5 NoFrame ", id),
        Cause::ClosedFrame(id) => push_words_id(out, b"REFUSED K6 ClosedFrame ", id),
        Cause::Price(id) => push_words_id(out, b"REFUSED K7 Price ", id),
        Cause::RankAbove(id) => push_words_id(out, b"REFUSED K8 RankAbove ", id),
        Cause::Touches(id, at) => push_id_number(out, b"REFUSED K9 Touches ", id, at as u64),
        Cause::CursorDiffers(id) => push_words_id(out, b"REFUSED K10 CursorDiffers ", id),
        Cause::RouteNotCovered(id, digit) => push_id_number(
            out,
            b"REFUSED K11 RouteNotCovered ",
            id,
            u64::from(digit.get()),
        ),
        Cause::NextNotCovered(id) => push_words_id(out, b"REFUSED K12 NextNotCovered ", id),
        Cause::RankZero(id) => push_words_id(out, b"REFUSED K13 RankZero ", id),
        Cause::NoWayDown(id) => push_words_id(out, b"REFUSED K14 NoWayDown ", id),
    }
}

fn push_verdict(out: &mut Vec<u8>, verdict: &Verdict) -> Result<(), AllocError>
    ensures { OnOk result (out.new.items ≡ out.old.items ++ verdict_words verdict.now) }
{
    match verdict {
        Verdict::Cleared => out.extend_from_slice(b"CLEARED"),
        Verdict::Refused(cause) => push_cause(out, *cause),
    }
}

/// The line of a verdict.
pub fn verdict_text(alloc: Global, verdict: &Verdict) -> Result<Vec<u8>, AllocError>
    ensures { IfOk result (λ text. text.items ≡ verdict_text verdict.now) }
{
    let mut text = Vec::new(alloc);
    push_verdict(&mut text, verdict)?;
    text.push(b'\n')?;
    Ok(text)
}

// The edition that is refused, and why.
fn push_edition(out: &mut Vec<u8>, edition: &[u8], cause: Cause) -> Result<(), AllocError>
    ensures { OnOk result (out.new.items ≡ out.old.items ++ (edition.now ++ cause_text cause)) }
{
    out.extend_from_slice(edition)?;
    push_cause(out, cause)
}

fn push_change(out: &mut Vec<u8>, verdict: &ChangeVerdict) -> Result<(), AllocError>
    ensures { OnOk result (out.new.items ≡ out.old.items ++ change_words verdict.now) }
{
    match verdict {
        ChangeVerdict::Cleared => out.extend_from_slice(b"CLEARED"),
        ChangeVerdict::Old(cause) => push_edition(out, b"OLD ", *cause),
        ChangeVerdict::New(cause) => push_edition(out, b"NEW ", *cause),
        ChangeVerdict::EntryMoved => out.extend_from_slice(b"REFUSED E1 EntryMoved"),
        ChangeVerdict::NoLongerCovered(id) => {
            push_words_id(out, b"REFUSED E2 NoLongerCovered ", *id)
        }
    }
}

/// The line of the verdict on a change of edition.
pub fn change_text(alloc: Global, verdict: &ChangeVerdict) -> Result<Vec<u8>, AllocError>
    ensures { IfOk result (λ text. text.items ≡ change_text verdict.now) }
{
    let mut text = Vec::new(alloc);
    push_change(&mut text, verdict)?;
    text.push(b'\n')?;
    Ok(text)
}
