//! Where a text writes its tables, the top and the frames.

ghost use Rattle.std.specs.Prelude.{◌≡◌, ℕ, List, slice_get, IfOk, OnOk, Some, codes, is_some};
ghost use Rattle.std.specs.List.{prefix_len};
ghost use Rattle.toml_places.specs.Places.{Mark, Keeps, key_in, route_in};
ghost use Rattle.lint.specs.Tables as spec;
ghost use Rattle.lint.specs.Loops as loops;
ghost use Rattle.lint.specs.Loops.{InlineKeeps, KnowsTables, IsTable, seen_keys, table_seen};

use std::alloc::{AllocError, Global};
use toml_places::{
    KeyPlace, Places, Span, TablePlaces, element_spans, frame_span, pair_span, value_span,
};

// The keys of a table: of the top, or of the frame of an index.
#[derive(Drop)]
pub struct TableKeys<'a> {
    places: &'a Places,
    frame: Option<usize>,
    // The keys of a frame that is an inline table.
    inline: Option<TablePlaces>,
}

// A table, with what its spans are read from.
#[derive(Drop)]
pub struct TableSpots<'a> {
    text: &'a str,
    whole: Span,
    keys: TableKeys<'a>,
    // The pairs of `routes = { .. }`.
    routes: Option<TablePlaces>,
    // The elements of its list.
    items: Vec<Span>,
}

// The tables of a text.
#[derive(Drop)]
pub struct TextTables<'a> {
    text: &'a str,
    places: &'a Places,
    // The elements of an array `frame = [..]`.
    frames: Vec<Span>,
}

// Whether a byte is no line end or a part of one.
fn is_in_line(byte: u8) -> bool
    ensures { result ≡ spec.is_in_line byte }
{
    byte != b'\n' && byte != b'\r'
}

fn line_len(bytes: &[u8]) -> usize
    ensures { result ≡ prefix_len spec.is_in_line bytes.now }
{
    bytes.iter().take_while(|byte| is_in_line(**byte)).count()
}

// Line 1, without its end.
fn line_one(text: &str) -> Span
    ensures { result ≡ spec.line_one text.now }
{
    let end = line_len(text.as_bytes());
    Span { begin: 0, end }
}

fn value_at(text: &str, spot: Option<KeyPlace>) -> Option<Span>
    ensures { result ≡ spec.value_at text.now spot }
{
    value_span(text, spot?)
}

// The elements of the array at a key.
fn elements_at(alloc: Global, text: &str, spot: Option<KeyPlace>) -> Result<Vec<Span>, AllocError>
    ensures { IfOk result (λ spans. (k : ℕ) → slice_get spans.items k ≡ spec.element_at text.now spot k) }
{
    match value_at(text, spot) {
        Some(value) => element_spans(alloc, text, value.begin),
        None => Ok(Vec::new(alloc)),
    }
}

// The places of the inline table of a span.
fn inline_table(
    alloc: Global,
    text: &str,
    span: Option<Span>,
) -> Result<Option<TablePlaces>, AllocError>
    ensures { IfOk result (λ t. InlineKeeps text.now span t) }
{
    match span {
        Some(span) => Ok(Some(TablePlaces::of(alloc, text, span.begin)?)),
        None => Ok(None),
    }
}

fn key_in(table: &Option<TablePlaces>, key: &str) -> Option<KeyPlace>
    ensures { result ≡ key_in table.now key.now }
{
    match table {
        Some(table) => table.key(key),
        None => None,
    }
}

fn route_in(table: &Option<TablePlaces>, key: &str) -> Option<KeyPlace>
    ensures { result ≡ route_in table.now key.now }
{
    match table {
        Some(table) => table.route(key),
        None => None,
    }
}

fn route_kept(places: &Places, frame: Option<usize>, key: &str) -> Option<KeyPlace>
    ensures { result ≡ loops.route_kept places.now frame key.now }
{
    match frame {
        Some(frame) => places.route(frame, key),
        None => None,
    }
}

impl<'a> TableKeys<'a> {
    fn key(&self, key: &str) -> Option<KeyPlace>
        ensures { result ≡ (seen_keys self.now).key key.now }
    {
        self.places
            .key(self.frame, key)
            .or(key_in(&self.inline, key))
    }

    // Where a key below `routes` is first written as a dotted key or a header.
    fn dotted(&self, key: &str) -> Option<KeyPlace>
        ensures { result ≡ (seen_keys self.now).dotted key.now }
    {
        route_kept(self.places, self.frame, key).or(route_in(&self.inline, key))
    }

    fn frame(&self) -> Option<usize>
        ensures { result ≡ (seen_keys self.now).frame }
    {
        self.frame
    }
}

// The pair of the rows, else of the body.
fn picture_pair(text: &str, keys: &TableKeys<'_>) -> Option<Span>
    ensures { result ≡ loops.picture_seen text.now (seen_keys keys.now) }
{
    let spot = keys.key("rows").or(keys.key("body"))?;
    pair_span(text, spot)
}

// The value of the id.
fn id_value(text: &str, keys: &TableKeys<'_>) -> Option<Span>
    ensures { result ≡ loops.id_seen text.now (seen_keys keys.now) }
{
    value_at(text, keys.key("id"))
}

impl<'a> TableSpots<'a> {
    pub fn text(&self) -> &str
        ensures { result.now ≡ (table_seen self.now).text }
    {
        self.text
    }

    // The frame of the table, by its index; none is the top.
    pub fn frame(&self) -> Option<usize>
        ensures { result ≡ (table_seen self.now).frame }
    {
        self.keys.frame()
    }

    // The table as a whole: of the top line 1, of a frame its header or its braces.
    pub fn whole(&self) -> Span
        ensures { result ≡ (table_seen self.now).whole }
    {
        self.whole
    }

    pub fn key(&self, key: &str) -> Option<KeyPlace>
        ensures { result ≡ (table_seen self.now).key key.now }
    {
        self.keys.key(key)
    }

    // Where a key below `routes` is first written.
    pub fn route(&self, key: &str) -> Option<KeyPlace>
        ensures { result ≡ (table_seen self.now).route key.now }
    {
        self.keys.dotted(key).or(key_in(&self.routes, key))
    }

    // An element of its list, by its index.
    pub fn item(&self, index: usize) -> Option<Span>
        ensures { result ≡ (table_seen self.now).item index }
    {
        self.items.get(index).copied()
    }
}

fn list_key(frame: Option<usize>) -> &'static str
    ensures { result.now ≡ spec.list_key frame }
{
    match frame {
        Some(_) => "rows",
        None => "outside",
    }
}

impl<'a> TextTables<'a> {
    pub fn of(
        alloc: Global,
        text: &'a str,
        places: &'a Places,
    ) -> Result<TextTables<'a>, AllocError>
        ensures text { IfOk result (λ t. t.text.now ≡ text.now) }
        ensures knows { IfOk result (λ t. (ms : List Mark) → Keeps places.now ms → KnowsTables ms t) }
    {
        let frames = elements_at(alloc, text, places.key(None, "frame"))?;
        Ok(TextTables {
            text,
            places,
            frames,
        })
    }

    // The table of a frame in an array.
    fn element(&self, frame: Option<usize>) -> Option<Span>
        ensures { (ms : List Mark) → KnowsTables ms self.now → result ≡ spec.frame_element self.now.text.now ms frame }
    {
        match frame {
            Some(frame) => self.frames.get(frame).copied(),
            None => None,
        }
    }

    fn header(&self, frame: usize) -> Option<Span>
        ensures { (ms : List Mark) → KnowsTables ms self.now → result ≡ spec.header_span self.now.text.now ms frame }
    {
        frame_span(self.text, self.places.header(frame)?)
    }

    // The header of a frame, or its braces.
    pub fn frame_whole(&self, frame: usize) -> Span
        ensures { (ms : List Mark) → KnowsTables ms self.now → result ≡ spec.frame_whole self.now.text.now ms frame }
    {
        let at = self.places.of_header(frame);
        self.header(frame)
            .or(self.element(Some(frame)))
            .unwrap_or(Span { begin: at, end: at })
    }

    // Where the id of a frame is written, or its table in an array.
    pub fn id_place(&self, frame: usize) -> usize
        ensures { (ms : List Mark) → KnowsTables ms self.now → result ≡ spec.id_place self.now.text.now ms frame }
    {
        match self.places.key(Some(frame), "id") {
            Some(spot) => spot.at,
            None => self.frame_whole(frame).begin,
        }
    }

    fn whole(&self, frame: Option<usize>) -> Span
        ensures { (ms : List Mark) → KnowsTables ms self.now → result ≡ spec.whole self.now.text.now ms frame }
    {
        match frame {
            Some(frame) => self.frame_whole(frame),
            None => line_one(self.text),
        }
    }

    fn keys(&self, alloc: Global, frame: Option<usize>) -> Result<TableKeys<'a>, AllocError>
        ensures { IfOk result (λ keys. (ms : List Mark) → KnowsTables ms self.now → seen_keys keys
            ≡ loops.keys_of self.now.text.now ms frame) }
    {
        Ok(TableKeys {
            places: self.places,
            frame,
            inline: inline_table(alloc, self.text, self.element(frame))?,
        })
    }

    // The pair that writes what a frame shows: its rows, else its body.
    pub fn picture(&self, alloc: Global, frame: usize) -> Result<Option<Span>, AllocError>
        ensures { IfOk result (λ span. (ms : List Mark) → KnowsTables ms self.now
            → span ≡ spec.picture_span self.now.text.now ms frame) }
    {
        let keys = self.keys(alloc, Some(frame))?;
        Ok(picture_pair(self.text, &keys))
    }

    // The value of a frame's id; of a frame without one its header, or its braces.
    pub fn id_span(&self, alloc: Global, frame: usize) -> Result<Span, AllocError>
        ensures { IfOk result (λ span. (ms : List Mark) → KnowsTables ms self.now
            → span ≡ spec.id_span self.now.text.now ms frame) }
    {
        let keys = self.keys(alloc, Some(frame))?;
        Ok(id_value(self.text, &keys).unwrap_or(self.frame_whole(frame)))
    }

    // Whether a frame is given as rows.
    pub fn has_rows(&self, alloc: Global, frame: usize) -> Result<bool, AllocError>
        ensures { IfOk result (λ has. (ms : List Mark) → KnowsTables ms self.now
            → has ≡ is_some (spec.key_spot self.now.text.now ms (Some frame) (codes "rows"))) }
    {
        let keys = self.keys(alloc, Some(frame))?;
        Ok(keys.key("rows").is_some())
    }

    // The top, or the table of a frame.
    pub fn table(&self, alloc: Global, frame: Option<usize>) -> Result<TableSpots<'a>, AllocError>
        ensures { IfOk result (λ table. (ms : List Mark) → KnowsTables ms self.now → table_seen table
            ≡ spec.table_at self.now.text.now ms frame) }
    {
        let keys = self.keys(alloc, frame)?;
        let routes = inline_table(alloc, self.text, value_at(self.text, keys.key("routes")))?;
        let items = elements_at(alloc, self.text, keys.key(list_key(frame)))?;
        Ok(TableSpots {
            text: self.text,
            whole: self.whole(frame),
            keys,
            routes,
            items,
        })
    }

    // Goes to the table of a frame, if this one isn't it.
    pub fn turn(
        &self,
        alloc: Global,
        table: &mut TableSpots<'a>,
        frame: Option<usize>,
    ) -> Result<(), AllocError>
        ensures turned { OnOk result ((ms : List Mark) → KnowsTables ms self.now
            → IsTable self.now.text.now ms (table_seen table.old)
            → table_seen table.new ≡ spec.table_at self.now.text.now ms frame) }
    {
        if table.frame() != frame {
            *table = self.table(alloc, frame)?;
        }
        Ok(())
    }
}
