//! What words name.

ghost use Rattle.std.specs.Prelude.{◌≡◌, ◌≤◌, IfSome, length, false};

use audit_report::{FromRead, read_whole};
use base_text::{MOST_TEXT, RowCells, base_read};
use checker::Policy;
use frame_records::{Base, Groups, Pence};
use page_ids::{FrameId, KeyList, PageNo, keys_read};
use pageaudit::{FileKind, Form, Target, View};
use std::alloc::{AllocError, Global};
use std::fs;
use std::slice::Iter;
use test_support::{FakeSink, FakeSource};

/// Words that haven't been taken yet. Each function takes the next one, or more; `None` if it is missing or names nothing.
pub type Words<'a> = Iter<'a, String>;

pub fn word<'a>(words: &mut Words<'a>, _rt: &HostRuntime) -> Option<&'a str> {
    Some(words.next()?.as_str())
}

pub fn number(words: &mut Words, rt: &HostRuntime) -> Option<u32> {
    word(words, rt)?.parse::<u32>().ok()
}

/// Groups, as `7,9`; `-` for none.
pub fn groups(words: &mut Words, rt: &HostRuntime) -> Option<Groups> {
    match word(words, rt)? {
        "-" => Some(Groups::none()),
        list => Groups::read(list).ok(),
    }
}

/// Keys, as `1#*#`.
pub fn keys(words: &mut Words, rt: &HostRuntime) -> Option<KeyList> {
    keys_read(rt.alloc(), word(words, rt)?).ok()
}

/// A ceiling, keyings and groups.
pub fn policy(words: &mut Words, rt: &HostRuntime) -> Option<Policy> {
    Some(Policy {
        ceiling: Pence::new(u16::try_from(number(words, rt)?).ok()?)?,
        keyings: u16::try_from(number(words, rt)?).ok()?,
        groups: groups(words, rt)?,
    })
}

/// A frame, as `123a`.
pub fn frame(words: &mut Words, rt: &HostRuntime) -> Option<FrameId> {
    FrameId::read(word(words, rt)?).ok()
}

/// A screen: that of the entry frame, `-`, the one after keys, as `:1#`, or that of a frame.
pub fn target(words: &mut Words, rt: &HostRuntime) -> Option<Target> {
    let word = word(words, rt)?;
    match word.strip_prefix(":") {
        Some(keys) => Some(Target::Keys(keys_read(rt.alloc(), keys).ok()?)),
        None if word == "-" => Some(Target::Entry),
        None => Some(Target::Frame(FrameId::read(word).ok()?)),
    }
}

/// The form of a screen.
pub fn form(words: &mut Words, rt: &HostRuntime) -> Option<Form> {
    match word(words, rt)? {
        "text" => Some(Form::Text),
        "ansi" => Some(Form::Ansi),
        "svg" => Some(Form::Svg),
        "cells" => Some(Form::Cells),
        _ => None,
    }
}

/// What the file of a screen holds.
pub fn kind(words: &mut Words, rt: &HostRuntime) -> Option<FileKind> {
    match word(words, rt)? {
        "cells" => Some(FileKind::Cells),
        "stream" => Some(FileKind::Stream),
        _ => None,
    }
}

/// An entry page; `-` for none.
pub fn entry(words: &mut Words, rt: &HostRuntime) -> Option<Option<PageNo>> {
    match word(words, rt)? {
        "-" => Some(None),
        page => Some(Some(PageNo::new(page.parse::<u32>().ok()?)?)),
    }
}

/// A page from which a map is drawn; `-` for all of it.
pub fn view(words: &mut Words, rt: &HostRuntime) -> Option<View> {
    match word(words, rt)? {
        "-" => Some(View::Whole),
        page => Some(View::From(PageNo::new(page.parse::<u32>().ok()?)?, None)),
    }
}

/// All words that are left, at most 22, as rows of cells.
pub fn rows(words: &mut Words, rt: &HostRuntime) -> Option<Vec<RowCells>>
    ensures { IfSome result (λ rows. length rows.items ≤ 22) }
{
    let mut rows = Vec::new(rt.alloc());
    for word in words {
        rows.push(RowCells::new(word.as_bytes())?).ok()?;
    }
    if rows.len() <= 22 { Some(rows) } else { None }
}

/// The bytes of a file, up to one more than a base's text may have.
pub fn bytes(words: &mut Words, rt: &HostRuntime) -> Option<Vec<u8>> {
    let file = fs::open(rt, word(words, rt)?).ok()?;
    read_whole(rt.alloc(), &mut FromRead::new(file), MOST_TEXT + 1).ok()
}

pub fn base(words: &mut Words, rt: &HostRuntime) -> Option<Base> {
    base_read(rt.alloc(), bytes(words, rt)?.as_slice()).ok()
}

/// A file, and how it is read.
pub fn file<'a>(words: &mut Words<'a>, rt: &HostRuntime) -> Option<Pieces<'a>> {
    let text = bytes(words, rt)?;
    let how = word(words, rt)?;
    Some(Pieces { text, how })
}

/// A file that comes in pieces of this many bytes; after a `/`, the number of bytes after which it fails.
#[derive(Drop)]
pub struct Pieces<'a> {
    text: Vec<u8>,
    how: &'a str,
}

impl Pieces<'_> {
    pub fn source(&self) -> FakeSource
        ensures { result.failed ≡ false }
    {
        let (piece, kept) = self.how.split_once('/').unwrap_or((self.how, ""));
        let piece = piece.parse::<usize>().unwrap_or(1).max(1);
        match kept.parse::<usize>() {
            Ok(kept) => FakeSource::broken(self.text.as_slice(), piece, kept),
            Err(_) => FakeSource::of(self.text.as_slice(), piece),
        }
    }
}

/// An output, with memory for a million bytes: `full/K` fails after K bytes, `stalling/K` takes none after K bytes, and
/// `unflushed` fails to send on what it took. Another one never fails.
pub fn output(alloc: Global, how: &str) -> Result<FakeSink, AllocError> {
    let (name, room) = how.split_once('/').unwrap_or((how, ""));
    let room = room.parse::<usize>().unwrap_or(0);
    let mut sink = match name {
        "full" => FakeSink::full(alloc, 7, room),
        "stalling" => FakeSink::stalling(alloc, 7, room),
        "unflushed" => FakeSink::unflushed(alloc, 7),
        _ => FakeSink::of(alloc, 7),
    };
    sink.taken.reserve(1_000_000)?;
    Ok(sink)
}
