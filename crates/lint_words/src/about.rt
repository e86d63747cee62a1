ghost use Rattle.std.specs.Prelude.{◌≡◌, IfOk, option_map};
ghost use Rattle.page_ids.specs.Keys.{key_word, keys_text};
ghost use Rattle.lint_words.specs.Lines.{line_of};
ghost use Rattle.lint_words.specs.AboutOf as spec;

use crate::line::Line;
use base_faults::{Fault, FaultKind};
use base_text::{Detail, TextFault, WholeFault};
use page_ids::{FrameId, Key, push_key, push_keys};
use std::alloc::{AllocError, Global};
use std::marker::Model;

/// What a finding is about, for programs.
#[derive(Debug, Drop)]
pub struct About {
    /// The frame at fault, if its id reads.
    pub frame: Option<FrameId>,
    /// The key that is pressed, else the key of the text.
    pub key: Option<Line>,
    /// The keys that show a fault of an audit; there are none at the entry page.
    pub keys: Option<Line>,
}

impl Model for About {
    ghost use Rattle.lint_words.specs.AboutOf.{AboutView};

    ghost Value = { AboutView };

    ghost view = { λ a. record { frame = a.frame; key = a.key; keys = a.keys } };
}

impl About {
    ghost use Rattle.std.specs.Prelude.{◌≡◌, IfOk};
    ghost use Rattle.lint_words.specs.AboutOf.{about_frame, about_key};

    pub(crate) fn frame(frame: Option<FrameId>) -> About
        ensures { result ≡ about_frame frame }
    {
        About {
            frame,
            key: None,
            keys: None,
        }
    }

    pub(crate) fn key(alloc: Global, frame: Option<FrameId>, key: &str) -> Result<About, AllocError>
        ensures { IfOk result (λ about. about ≡ about_key frame key.now) }
    {
        Ok(About {
            frame,
            key: Some(Line::of(alloc, key.as_bytes())?),
            keys: None,
        })
    }
}

// The key of the text that a fault is about, if it is one.
fn detail_key(detail: &Detail) -> Option<&str>
    ensures { option_map (λ key. key.now) result ≡ spec.detail_key detail.now }
{
    match detail {
        Detail::UnknownKey(_, key) => Some(key.as_str()),
        Detail::Absent(field)
        | Detail::WrongKind(field, _)
        | Detail::WrongItem(field, _, _)
        | Detail::Number(field, _)
        | Detail::ItemNumber(field, _, _) => Some(field.name()),
        Detail::Lead(_) => Some("lead"),
        Detail::BodyCode(_, _) | Detail::MoreBodyCodes(_, _) => Some("body"),
        Detail::BodyAndRows => None,
        Detail::TooManyRows(_)
        | Detail::RowTooLong(_, _)
        | Detail::RowCode(_, _, _)
        | Detail::MoreRowCodes(_, _, _) => Some("rows"),
        Detail::BadFrame(_) => Some("id"),
    }
}

pub fn text_about(alloc: Global, fault: &TextFault) -> Result<About, AllocError>
    ensures { IfOk result (λ about. about ≡ spec.text_about fault.now) }
{
    match detail_key(&fault.detail) {
        None => Ok(About::frame(fault.id)),
        Some(key) => About::key(alloc, fault.id, key),
    }
}

pub fn whole_about(alloc: Global, fault: &WholeFault) -> Result<About, AllocError>
    ensures { IfOk result (λ about. about ≡ spec.whole_about fault.now) }
{
    match fault {
        WholeFault::TooManyFrames(_) => About::key(alloc, None, "frame"),
        WholeFault::TooManyOutside(_) | WholeFault::OutsideInside(_) => {
            About::key(alloc, None, "outside")
        }
        WholeFault::BodyTooLong { id, .. } => Ok(About::frame(Some(*id))),
        WholeFault::NextAfterZ { id, .. } => About::key(alloc, Some(*id), "next"),
        WholeFault::Duplicate { id, .. } => About::key(alloc, Some(*id), "id"),
    }
}

fn kind_key(kind: FaultKind) -> Option<&'static str>
    ensures { option_map (λ key. key.now) result ≡ spec.kind_key kind }
{
    match kind {
        FaultKind::EntryMissing => Some("entry"),
        FaultKind::EntryClosed => Some("group"),
        FaultKind::Price => Some("price"),
        _ => None,
    }
}

fn line_of_key(alloc: Global, key: Key) -> Result<Line, AllocError>
    ensures { IfOk result (λ line. line ≡ line_of (key_word key)) }
{
    let mut word = Vec::new(alloc);
    push_key(&mut word, key)?;
    Line::of(alloc, &word)
}

fn line_of_keys(alloc: Global, keys: &[Key]) -> Result<Line, AllocError>
    ensures { IfOk result (λ line. line ≡ line_of (keys_text keys.now)) }
{
    let mut word = Vec::new(alloc);
    push_keys(&mut word, keys)?;
    Line::of(alloc, &word)
}

// The key that is pressed, else the key of the text.
fn pressed_key(alloc: Global, fault: &Fault) -> Result<Option<Line>, AllocError>
    ensures { IfOk result (λ key. key ≡ option_map line_of (spec.pressed_key fault.now.key fault.now.kind)) }
{
    match (fault.key, kind_key(fault.kind)) {
        (Some(key), _) => Ok(Some(line_of_key(alloc, key)?)),
        (None, Some(key)) => Ok(Some(Line::of(alloc, key.as_bytes())?)),
        (None, None) => Ok(None),
    }
}

pub fn fault_about(alloc: Global, fault: &Fault) -> Result<About, AllocError>
    ensures { IfOk result (λ about. about ≡ spec.fault_about fault.now) }
{
    Ok(About {
        frame: Some(fault.frame),
        key: pressed_key(alloc, fault)?,
        keys: Some(line_of_keys(alloc, fault.script.as_slice())?),
    })
}
