//! The places of a base's keys in its text.

ghost use Rattle.std.specs.Prelude.{◌≡◌, ◌<◌, ◌++◌, ◌∷◌, [], List, true, Some, None, option_map, string_bytes, length, IfOk, OnOk, IsSome};
ghost use Rattle.std.specs.Option.{option_copied};
ghost use Rattle.toml_parser.specs.Reading.{key_view, path_view};
ghost use Rattle.toml.specs.Parse.{parse_document};
ghost use Rattle.toml_places.specs.Places as spec;
ghost use Rattle.toml_places.specs.Places.{Keeps, is_key_part, routes_key, first_at, first_spot, header_place, key_place, route_place, kept_key, kept_route};
ghost use Rattle.toml_places.specs.Loops.{frame_count, section_view, frames_after, IsOpen, Walks};

use crate::lines::{KeyLine, Sort, read_line, skip_bom};
use crate::spans::KeyPlace;
use crate::tables::{KeyPlaces, TablePlaces, WrittenKey, note, part, parts_of};
use std::alloc::{AllocError, Global};
use std::collections::BTreeMap;
use toml_parser::ParseError;
use toml_parser::text::skip_blank;

/// The places of a base's text: where its keys are first written, frame by frame.
#[derive(Drop)]
pub struct Places {
    top: KeyPlaces,
    frames: Vec<TablePlaces>,
}

// The table that the latest header names: whether it lies in the latest frame, and its keys in there or in the top.
#[derive(Drop)]
pub struct Section {
    in_frame: bool,
    path: Vec<String>,
}

// Whether a header with these parts, in double brackets, opens a frame.
fn is_frame(parts: &[String]) -> bool
    ensures { result ≡ spec.is_frame (path_view parts.now) }
{
    parts.len() == 1 && parts[0].as_str() == "frame"
}

fn is_frame_key(part: Option<&String>) -> bool
    ensures { result ≡ is_key_part (option_map string_bytes (option_copied part.entry)) spec.frame_key }
{
    match part {
        Some(part) => part.as_str() == "frame",
        None => false,
    }
}

fn offset_of(spot: Option<KeyPlace>) -> Option<usize>
    ensures { result ≡ option_map (λ s. s.at) spot }
{
    match spot {
        Some(spot) => Some(spot.at),
        None => None,
    }
}

impl Places {
    fn new(alloc: Global) -> Places
        ensures keeps { Keeps result [] }
        ensures frames { frame_count result ≡ 0 }
    {
        Places {
            top: BTreeMap::new(alloc),
            frames: Vec::new(alloc),
        }
    }

    // The section of a header with these parts.
    fn section_at(&self, parts: Vec<String>) -> Section
        ensures { section_view (frame_count self.now) result ≡
            spec.section_at (frame_count self.now) (path_view parts.items) }
    {
        let mut path = parts;
        let in_frame = !self.frames.is_empty() && is_frame_key(path.first());
        if in_frame {
            path.remove(0);
        }
        Section { in_frame, path }
    }

    // Enters the section of a header with these parts, and opens the next frame if it is a header `[[frame]]`.
    fn enter(
        &mut self,
        alloc: Global,
        sort: Sort,
        parts: Vec<String>,
    ) -> Result<Section, AllocError>
        ensures keeps { OnOk result ((ms : List spec.Mark) → Keeps self.old ms → Keeps self.new ms) }
        ensures frames { OnOk result (frame_count self.new ≡
            frames_after sort (path_view parts.items) (frame_count self.old)) }
        ensures section { IfOk result (λ s. section_view (frame_count self.new) s ≡
            spec.section_at (frame_count self.new) (path_view parts.items)) }
    {
        if matches!(sort, Sort::ArrayTable) && is_frame(&parts) {
            self.frames.push(TablePlaces::new(alloc))?;
        }
        Ok(self.section_at(parts))
    }

    // Notes an expression in a section, which has these keys of its own there.
    fn note(
        &mut self,
        alloc: Global,
        section: &Section,
        own: &[String],
        written: WrittenKey,
    ) -> Result<(), AllocError>
        requires { IsOpen (section_view (frame_count self.old) section.now) }
        ensures keeps { OnOk result ((ms : List spec.Mark) → Keeps self.old ms
            → Keeps self.new (ms ++
            spec.mark_in (section_view (frame_count self.old) section.now) (path_view own.now)
            (written.at, written.parts) ∷ [])) }
        ensures frames { OnOk result (frame_count self.new ≡ frame_count self.old) }
    {
        let one = part(&section.path, own, 0);
        let two = part(&section.path, own, 1);
        let len = section.path.len() + own.len();
        if section.in_frame {
            let last = self.frames.len() - 1;
            self.frames[last].note(alloc, one, two, len, written)
        } else if let Some(key) = one {
            note(alloc, &mut self.top, key, written.spot(len, 0))
        } else {
            Ok(())
        }
    }

    // Notes one expression.
    fn write(
        &mut self,
        alloc: Global,
        section: &mut Section,
        line: KeyLine,
        at: usize,
    ) -> Result<(), AllocError>
        requires { IsOpen (section_view (frame_count self.old) section.old) }
        ensures keeps { OnOk result ((ms : List spec.Mark) → Keeps self.old ms
            → Keeps self.new (ms ++
            spec.mark_in (section_view (frame_count self.new) section.new)
            (spec.own_parts (key_view line.key) line.sort) (at, length (spec.parts (key_view line.key))) ∷ [])) }
        ensures section { OnOk result (section_view (frame_count self.new) section.new
            ≡ spec.section_after (section_view (frame_count self.old) section.old) (key_view line.key) line.sort) }
    {
        let KeyLine { key, sort } = line;
        let path = parts_of(key)?;
        let parts = path.len();
        let written = WrittenKey { at, parts };
        if sort == Sort::Pair {
            return self.note(alloc, section, &path, written);
        }
        *section = self.enter(alloc, sort, path)?;
        self.note(alloc, section, &[], written)
    }

    // Notes each expression of a text.
    fn walk(&mut self, alloc: Global, text: &str) -> Result<(), ParseError>
        requires kept { Keeps self.old [] }
        requires none { frame_count self.old ≡ 0 }
        ensures { Walks result text.now self.new }
    {
        let mut section = Section {
            in_frame: false,
            path: Vec::new(alloc),
        };
        let mut rest = skip_bom(text);
        'lines: loop {
            let start = skip_blank(rest, true);
            if start.is_empty() {
                return Ok(());
            }
            let (found, after) = read_line(alloc, start)?;
            self.write(alloc, &mut section, found, text.len() - start.len())?;
            rest = after;
        }
    }

    /// The places of a text that is TOML.
    pub fn of(alloc: Global, text: &str) -> Result<Places, AllocError>
        ensures { IfOk result (λ p. IsSome (parse_document text.now) → Keeps p (spec.marks text.now)) }
    {
        let mut places = Places::new(alloc);
        match places.walk(alloc, text) {
            Err(ParseError::OutOfMemory) => Err(AllocError),
            _ => Ok(places),
        }
    }

    /// The offset of a frame's header. A frame in an inline array has none.
    pub fn header(&self, frame: usize) -> Option<usize>
        ensures { (ms : List spec.Mark) → Keeps self.now ms → result ≡ first_at ms (Some frame) [] }
    {
        match self.frames.get(frame) {
            Some(places) => places.header(),
            None => None,
        }
    }

    // Where a key of a frame is first written.
    fn frame_key(&self, frame: usize, key: &str) -> Option<KeyPlace>
        ensures spot { (ms : List spec.Mark) → Keeps self.now ms → result ≡ first_spot ms (Some frame) (key.now ∷ []) }
        ensures kept { result ≡ kept_key self.now (Some frame) key.now }
    {
        match self.frames.get(frame) {
            Some(places) => places.key(key),
            None => None,
        }
    }

    /// Where a key of a frame that has a header, or of the top, is first written.
    pub fn key(&self, frame: Option<usize>, key: &str) -> Option<KeyPlace>
        ensures spot { (ms : List spec.Mark) → Keeps self.now ms → result ≡ first_spot ms frame (key.now ∷ []) }
        ensures kept { result ≡ kept_key self.now frame key.now }
    {
        match frame {
            Some(frame) => self.frame_key(frame, key),
            None => self.top.get(key).copied(),
        }
    }

    /// Where a key below `routes` of a frame is first written as a dotted key or a header.
    pub fn route(&self, frame: usize, sub: &str) -> Option<KeyPlace>
        ensures spot { (ms : List spec.Mark) → Keeps self.now ms → result ≡
            first_spot ms (Some frame) (routes_key ∷ sub.now ∷ []) }
        ensures kept { result ≡ kept_route self.now frame sub.now }
    {
        match self.frames.get(frame) {
            Some(places) => places.route(sub),
            None => None,
        }
    }

    // The offset of the first expression that writes a key.
    fn first(&self, frame: Option<usize>, key: &str) -> Option<usize>
        ensures { (ms : List spec.Mark) → Keeps self.now ms → result ≡ first_at ms frame (key.now ∷ []) }
    {
        offset_of(self.key(frame, key))
    }

    // The same of a key below `routes` of a frame.
    fn first_route(&self, frame: usize, sub: &str) -> Option<usize>
        ensures { (ms : List spec.Mark) → Keeps self.now ms → result ≡
            first_at ms (Some frame) (routes_key ∷ sub.now ∷ []) }
    {
        offset_of(self.route(frame, sub))
    }

    /// The offset of a frame's header `[[frame]]`; of a frame in an inline array, that of the key `frame`.
    pub fn of_header(&self, frame: usize) -> usize
        ensures { (ms : List spec.Mark) → Keeps self.now ms → result ≡ header_place ms frame }
    {
        self.header(frame)
            .or(self.first(None, "frame"))
            .unwrap_or(0)
    }

    /// The offset of the first expression that writes a key of a frame, or of the top. If none does, the frame's, or 0.
    pub fn of_key(&self, frame: Option<usize>, key: &str) -> usize
        ensures { (ms : List spec.Mark) → Keeps self.now ms → result ≡ key_place ms frame key.now }
    {
        match frame {
            None => self.first(None, key).unwrap_or(0),
            Some(frame) => match self.first(Some(frame), key) {
                Some(at) => at,
                None => self.of_header(frame),
            },
        }
    }

    /// The offset of the first expression that writes a key below `routes` of a frame. If none does, that of `routes`.
    pub fn of_route(&self, frame: usize, sub: &str) -> usize
        ensures { (ms : List spec.Mark) → Keeps self.now ms → result ≡ route_place ms frame sub.now }
    {
        match self.first_route(frame, sub) {
            Some(at) => at,
            None => self.of_key(Some(frame), "routes"),
        }
    }
}
