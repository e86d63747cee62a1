//! The places of a table's keys.

ghost use Rattle.std.specs.Prelude.{slice_get, ◌≡◌, ℕ, ◌<◌, ◌≤◌, ◌++◌, ◌∷◌, [], List, None, map, length, option_map, IfOk, IfSome, OnOk};
ghost use Rattle.std.specs.Option.{option_or, option_copied};
ghost use Rattle.std.specs.Str.{bytes_eq};
ghost use Rattle.std.specs.BTreeMap.{get_by_text};
ghost use Rattle.toml_parser.specs.Reading.{key_view, path_view};
ghost use Rattle.toml_places.specs.Values as values;
ghost use Rattle.toml_places.specs.Places as spec;
ghost use Rattle.toml_places.specs.Places.{NotesTable, TableKeeps, at_if, routes_key, first_spot, spot_at};
ghost use Rattle.toml_places.specs.Loops.{pair_view};

use crate::spans::{KeyPlace, from_offset};
use crate::values::{after_element, after_value, key_equals};
use std::alloc::{AllocError, Global};
use std::collections::BTreeMap;
use toml_parser::text::{first, skip, skip_blank};
use toml_parser::{Key, ParseError, RECURSION_LIMIT};

pub type KeyPlaces = BTreeMap<String, KeyPlace>;

/// Where the keys of a table are first written, and those of its table `routes`.
#[derive(Drop)]
pub struct TablePlaces {
    header: Option<usize>,
    keys: KeyPlaces,
    routes: KeyPlaces,
}

// An expression, or a pair of an inline table: its offset, and how many parts its key has.
#[derive(Clone, Copy)]
pub struct WrittenKey {
    pub at: usize,
    pub parts: usize,
}

impl WrittenKey {
    // Where it writes the key of an index in a path of `len` keys, of which the last are its own.
    pub fn spot(self, len: usize, index: usize) -> KeyPlace
        ensures { result ≡ spot_at self.at self.parts len index }
    {
        KeyPlace {
            at: self.at,
            part: self.parts.saturating_sub(len.saturating_sub(index)),
        }
    }
}

// Notes a spot at a key that has none.
pub fn note(
    alloc: Global,
    spots: &mut KeyPlaces,
    key: &str,
    spot: KeyPlace,
) -> Result<(), AllocError>
    ensures { OnOk result ((q : List ℕ) → get_by_text spots.new q ≡
        option_or (get_by_text spots.old q) (at_if (bytes_eq q key.now) spot)) }
{
    if !spots.contains_key(key) {
        spots.insert(String::from_str(alloc, key)?, spot)?;
    }
    Ok(())
}

// All parts of a key.
pub fn parts_of(key: Key) -> Result<Vec<String>, AllocError>
    ensures { IfOk result (λ v. path_view v.items ≡ spec.parts (key_view key)) }
{
    let Key { mut path, last } = key;
    path.push(last)?;
    Ok(path)
}

// The part at an index of a path.
pub fn part<'a>(path: &'a [String], own: &'a [String], index: usize) -> Option<&'a str>
    ensures { option_copied result ≡ slice_get (path_view path.now ++ path_view own.now) index }
{
    let text = if index < path.len() {
        path.get(index)
    } else {
        own.get(index - path.len())
    };
    match text {
        Some(text) => Some(text.as_str()),
        None => None,
    }
}

// A pair of an inline table: all parts of its key, the text from it on, and the text from the next one on.
#[derive(Drop)]
struct Pair<'a> {
    path: Vec<String>,
    start: &'a str,
    next: &'a str,
}

// The text from the next pair on, after a value.
#[tactic(auto, unfolding(crate::specs::Values::pair_after))]
fn pair_after(text: &str) -> Option<&str>
    ensures value { option_copied result ≡ values.pair_after text.now }
    ensures within { IfSome result (λ rest. length rest.now ≤ length text.now) }
{
    after_element(after_value(text, RECURSION_LIMIT)?, b'}')
}

// The pair at a key that was read.
fn pair_at<'a>(key: Key, start: &'a str, value: &'a str) -> Result<Option<Pair<'a>>, AllocError>
    requires { length value.now < length start.now }
    ensures value { IfOk result (λ p. option_map pair_view p ≡ values.pair_at (key_view key) start.now value.now) }
    ensures within { IfOk result (λ p. IfSome p (λ x. (x.start.now ≡ start.now) ×
        (length x.next.now < length start.now))) }
{
    match pair_after(value) {
        Some(next) => {
            let path = parts_of(key)?;
            Ok(Some(Pair { path, start, next }))
        }
        None => Ok(None),
    }
}

#[tactic(auto, unfolding(crate::specs::Values::next_pair))]
fn next_pair(alloc: Global, text: &str) -> Result<Option<Pair<'_>>, AllocError>
    ensures value { IfOk result (λ p. option_map pair_view p ≡ values.next_pair text.now) }
    ensures within { IfOk result (λ p. IfSome p (λ x. (length x.start.now ≤ length text.now) ×
        (length x.next.now < length text.now))) }
{
    let start = skip_blank(text, true);
    if first(start) == b'}' {
        return Ok(None);
    }
    match key_equals(alloc, start) {
        Ok((key, value)) => pair_at(key, start, value),
        Err(ParseError::OutOfMemory) => Err(AllocError),
        Err(_) => Ok(None),
    }
}

impl TablePlaces {
    pub fn new(alloc: Global) -> TablePlaces
        ensures header { result.header ≡ None }
        ensures keys { (q : List ℕ) → get_by_text result.keys q ≡ None }
        ensures routes { (q : List ℕ) → get_by_text result.routes q ≡ None }
    {
        TablePlaces {
            header: None,
            keys: BTreeMap::new(alloc),
            routes: BTreeMap::new(alloc),
        }
    }

    // Notes an expression, whose path of `len` keys begins with these two.
    pub fn note(
        &mut self,
        alloc: Global,
        one: Option<&str>,
        two: Option<&str>,
        len: usize,
        written: WrittenKey,
    ) -> Result<(), AllocError>
        ensures { OnOk result (NotesTable self.old self.new (option_copied one.entry)
            (option_copied two.entry) written.at
            (spot_at written.at written.parts len 0) (spot_at written.at written.parts len 1)) }
    {
        self.header = self.header.or(Some(written.at));
        let Some(key) = one else {
            return Ok(());
        };
        note(alloc, &mut self.keys, key, written.spot(len, 0))?;
        match two {
            Some(sub) if key == "routes" => {
                note(alloc, &mut self.routes, sub, written.spot(len, 1))
            }
            _ => Ok(()),
        }
    }

    // Notes a pair of an inline table.
    fn note_pair(&mut self, alloc: Global, path: &[String], at: usize) -> Result<(), AllocError>
        ensures { OnOk result ((ms : List spec.Mark) → TableKeeps self.old ms →
            TableKeeps self.new (ms ++ spec.inline_mark at (path_view path.now) ∷ [])) }
    {
        let one = part(&[], path, 0);
        let two = part(&[], path, 1);
        let parts = path.len();
        self.note(alloc, one, two, parts, WrittenKey { at, parts })
    }

    // Notes the pairs of an inline table in a text of `size` bytes, from the first on.
    fn note_pairs(&mut self, alloc: Global, pairs: &str, size: usize) -> Result<(), AllocError>
        requires { length pairs.now ≤ size }
        ensures { OnOk result ((ms : List spec.Mark) (n : ℕ) → length pairs.now < n → TableKeeps self.old ms
            → TableKeeps self.new (ms ++ map (spec.pair_mark size) (values.pairs_from n pairs.now))) }
    {
        let mut rest = pairs;
        'pairs: loop {
            let Some(pair) = next_pair(alloc, rest)? else {
                return Ok(());
            };
            self.note_pair(alloc, &pair.path, size - pair.start.len())?;
            rest = pair.next;
        }
    }

    // Notes the pairs of an inline table.
    #[tactic(auto, unfolding(crate::specs::Values::pairs))]
    fn note_table(&mut self, alloc: Global, table: &str, size: usize) -> Result<(), AllocError>
        requires { length table.now ≤ size }
        ensures { OnOk result ((ms : List spec.Mark) → TableKeeps self.old ms →
            TableKeeps self.new (ms ++ map (spec.pair_mark size) (values.pairs table.now))) }
    {
        if first(table) == b'{' {
            self.note_pairs(alloc, skip(table, 1), size)
        } else {
            Ok(())
        }
    }

    /// The places of the inline table at an offset. If none is there, they are empty.
    pub fn of(alloc: Global, text: &str, at: usize) -> Result<TablePlaces, AllocError>
        ensures { IfOk result (λ t. TableKeeps t (spec.table_marks at text.now)) }
    {
        let mut places = TablePlaces::new(alloc);
        match from_offset(text, at) {
            Some(table) => {
                places.note_table(alloc, table, text.len())?;
                Ok(places)
            }
            None => Ok(places),
        }
    }

    // The offset of the table's header.
    pub fn header(&self) -> Option<usize>
        ensures { result ≡ self.now.header }
    {
        self.header
    }

    /// Where a key is first written.
    pub fn key(&self, key: &str) -> Option<KeyPlace>
        ensures spot { (ms : List spec.Mark) → TableKeeps self.now ms → result ≡ first_spot ms None (key.now ∷ []) }
        ensures kept { result ≡ get_by_text self.now.keys key.now }
    {
        self.keys.get(key).copied()
    }

    /// Where a key below `routes` is first written as a dotted key or a header: the pairs of `routes = { .. }` have a table of
    /// their own.
    pub fn route(&self, key: &str) -> Option<KeyPlace>
        ensures spot { (ms : List spec.Mark) → TableKeeps self.now ms → result ≡
            first_spot ms None (routes_key ∷ key.now ∷ []) }
        ensures kept { result ≡ get_by_text self.now.routes key.now }
    {
        self.routes.get(key).copied()
    }
}
