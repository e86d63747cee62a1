//! What becomes of each frame.

ghost use Rattle.std.specs.Prelude.{◌≡◌, IfOk, OnOk};
ghost use Rattle.frame_edits.specs.declared.intake.Fate.TheVariants as fate;
ghost use Rattle.frame_edits.specs.Merging as spec;

use crate::shown::is_shown;
use frame_records::{Base, Lead};
use lint::PicturePlace;
use page_ids::FrameId;
use screen_files::{Filed, push_rows};
use std::alloc::{AllocError, Global};
use std::marker::Model;
use text_edits::Replacement;
use toml_places::Span;

// What becomes of a frame.
#[derive(Clone, Copy)]
pub enum Fate {
    // The base doesn't have it.
    Added,
    // The base's frame stays as it is, since its rows aren't all that a caller sees.
    Left,
    // The base's frame stays as it is, since it shows the screen.
    Same,
    // Its rows take the place of what is written here.
    Replaced(Span),
}

// What the frames so far come to.
#[derive(Drop)]
pub struct Intake {
    pub edits: Vec<Replacement>,
    pub replaced: Vec<FrameId>,
    pub added: Vec<Filed>,
    pub left: Vec<FrameId>,
    pub same: Vec<FrameId>,
}

impl Model for Intake {
    ghost use Rattle.frame_edits.specs.Merging.{IntakeView};

    ghost Value = { IntakeView };

    ghost view = { λ i.
        record {
          edits = i.edits.items;
          replaced = i.replaced.items;
          added = i.added.items;
          left = i.left.items;
          same = i.same.items;
        } };
}

// By where the base's text writes what the frame shows, and whether that is the screen.
fn fate_of(place: Option<PicturePlace>, is_shown: bool) -> Fate
    ensures { result ≡ spec.fate_of place is_shown }
{
    let Some(place) = place else {
        return Fate::Added;
    };
    match (place.lead, place.span) {
        (Lead::Clear, Some(span)) => {
            if is_shown {
                Fate::Same
            } else {
                Fate::Replaced(span)
            }
        }
        _ => Fate::Left,
    }
}

// The key `rows` with the rows of a screen.
fn rows_pair(alloc: Global, codes: &[u8; 960]) -> Result<Vec<u8>, AllocError>
    ensures { IfOk result (λ text. text.items ≡ spec.rows_pair codes.now) }
{
    let mut text = Vec::new(alloc);
    push_rows(&mut text, codes)?;
    text.pop();
    Ok(text)
}

impl Intake {
    fn new(alloc: Global) -> Intake
        ensures { result ≡ spec.nothing_taken }
    {
        Intake {
            edits: Vec::new(alloc),
            replaced: Vec::new(alloc),
            added: Vec::new(alloc),
            left: Vec::new(alloc),
            same: Vec::new(alloc),
        }
    }

    // Takes a frame whose rows are new.
    fn replace(&mut self, alloc: Global, filed: &Filed, span: Span) -> Result<(), AllocError>
        ensures { OnOk result (self.new ≡ spec.taken_by self.old filed.now (fate.Replaced span)) }
    {
        let edit = Replacement {
            begin: span.begin,
            end: span.end,
            text: rows_pair(alloc, &filed.frame.codes)?,
        };
        self.edits.push(edit)?;
        self.replaced.push(filed.frame.id)?;
        Ok(())
    }

    // Takes a frame.
    fn take(
        &mut self,
        alloc: Global,
        base: &Base,
        filed: &Filed,
        place: Option<PicturePlace>,
    ) -> Result<(), AllocError>
        ensures { OnOk result (self.new
            ≡ spec.taken_by self.old filed.now (spec.fate_of place (spec.is_shown base.now filed.now.frame))) }
    {
        match fate_of(place, is_shown(base, &filed.frame)) {
            Fate::Added => self.added.extend_from_slice(&[*filed]),
            Fate::Left => self.left.extend_from_slice(&[filed.frame.id]),
            Fate::Same => self.same.extend_from_slice(&[filed.frame.id]),
            Fate::Replaced(span) => self.replace(alloc, filed, span),
        }
    }

    // Takes all frames, whose places in the text of a base are these.
    pub fn of(
        alloc: Global,
        base: &Base,
        places: &[Option<PicturePlace>],
        frames: &[Filed],
    ) -> Result<Intake, AllocError>
        ensures { IfOk result (λ intake. intake ≡ spec.intake_from base.now spec.nothing_taken places.now frames.now) }
    {
        let mut intake = Intake::new(alloc);
        let mut rest = frames;
        let mut their_places = places;
        while let Some((filed, more)) = rest.split_first() {
            let Some((place, others)) = their_places.split_first() else {
                return Ok(intake);
            };
            intake.take(alloc, base, filed, *place)?;
            rest = more;
            their_places = others;
        }
        Ok(intake)
    }
}
