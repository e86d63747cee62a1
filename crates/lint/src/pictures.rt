//! Where a text writes what its frames show.

ghost use Rattle.std.specs.Prelude.{◌≡◌, List, IfOk, IsSome, map};
ghost use Rattle.toml.specs.Parse.{parse_document};
ghost use Rattle.toml_places.specs.Places.{Mark, marks};
ghost use Rattle.page_ids.specs.Ids.{Id};
ghost use Rattle.lint.specs.Lookups.{KnowsValues, value_of};
ghost use Rattle.lint.specs.Loops.{KnowsTables};
ghost use Rattle.lint.specs.Pictures as spec;

use crate::lookup::Lookup;
use crate::tables::TextTables;
use base_text::Listed;
use frame_records::Lead;
use page_ids::FrameId;
use std::alloc::{AllocError, Global};
use toml_places::{Places, Span};

/// How a frame of a text begins, and where what it shows is written.
#[derive(Debug, Clone, Copy, PartialEq, Eq)]
pub struct PicturePlace {
    pub lead: Lead,
    /// The key `rows` or `body` with its value.
    pub span: Option<Span>,
}

// The place of a frame, with its id.
fn placed_picture(
    alloc: Global,
    tables: &TextTables<'_>,
    listed: &Listed,
) -> Result<(FrameId, PicturePlace), AllocError>
    ensures { IfOk result (λ pair. (ms : List Mark) → KnowsTables ms tables.now
        → pair ≡ spec.placed_picture tables.now.text.now ms listed.now) }
{
    let span = tables.picture(alloc, listed.table)?;
    let lead = listed.frame.lead;
    Ok((listed.frame.id, PicturePlace { lead, span }))
}

// The places of frames, with their ids.
fn placed_pictures(
    alloc: Global,
    tables: &TextTables<'_>,
    frames: &[Listed],
) -> Result<Vec<(FrameId, PicturePlace)>, AllocError>
    ensures { IfOk result (λ pairs. (ms : List Mark) → KnowsTables ms tables.now
        → pairs.items ≡ map (spec.placed_picture tables.now.text.now ms) frames.now) }
{
    let mut pairs = Vec::new(alloc);
    for listed in frames {
        pairs.push(placed_picture(alloc, tables, listed)?)?;
    }
    Ok(pairs)
}

// The places of the frames of a text, with their ids.
fn places_of(
    alloc: Global,
    text: &str,
    frames: &[Listed],
) -> Result<Vec<(FrameId, PicturePlace)>, AllocError>
    ensures { IfOk result (λ pairs. IsSome (parse_document text.now)
        → pairs.items ≡ map (spec.placed_picture text.now (marks text.now)) frames.now) }
{
    let places = Places::of(alloc, text)?;
    let tables = TextTables::of(alloc, text, &places)?;
    placed_pictures(alloc, &tables, frames)
}

// The places that are known of ids.
fn places_among(
    alloc: Global,
    known: &Lookup<PicturePlace>,
    ids: &[FrameId],
) -> Result<Vec<Option<PicturePlace>>, AllocError>
    ensures { IfOk result (λ places. (pairs : List (Id × PicturePlace)) → KnowsValues pairs known.now
        → places.items ≡ map (value_of pairs) ids.now) }
{
    let mut places = Vec::new(alloc);
    for id in ids {
        places.push(known.get(*id))?;
    }
    Ok(places)
}

/// Where a text writes what the frames of these ids show, in the order of the ids; `None` if the text has no such frame. The frames of
/// the text are those of its draft. The text is read once.
pub fn picture_places(
    alloc: Global,
    text: &str,
    frames: &[Listed],
    ids: &[FrameId],
) -> Result<Vec<Option<PicturePlace>>, AllocError>
    ensures { IfOk result (λ places. IsSome (parse_document text.now)
        → places.items ≡ map (spec.written_picture text.now frames.now) ids.now) }
{
    let pairs = places_of(alloc, text, frames)?;
    let known = Lookup::of(alloc, pairs.as_slice())?;
    places_among(alloc, &known, ids)
}
