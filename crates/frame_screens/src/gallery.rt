//! The screens of all frames of a base.

ghost use Rattle.std.specs.Prelude.{◌≡◌, ◌<◌, IfOk, IfSome, length};
ghost use Rattle.std.specs.Option.{is_some};
ghost use Rattle.finder.specs.Finds.{IsFinding};
ghost use Rattle.frame_screens.specs.Frames.{IsWay, place_of};
ghost use Rattle.frame_screens.specs.Gallery.{way_in};
ghost use Rattle.frame_screens.specs.Screens.{screen_codes};

use crate::header::screen;
use crate::list::FrameList;
use crate::painter::Painter;
use crate::places::FramePlaces;
use finder::Survey;
use frame_records::{Base, Groups};
use page_ids::FrameId;
use std::alloc::{AllocError, Global};
use std::marker::Model;

/// The screens of all frames of a base: each that a caller reaches after the keys that `list` prints, each other one by itself. The
/// time for all grows with their number. Contracts see the base, the caller's groups and the frames that are reached.
#[derive(Drop)]
pub struct Gallery<'a> {
    base: &'a Base,
    places: FramePlaces,
    painter: Painter<'a>,
}

impl<'a> Model for Gallery<'a> {
    ghost use Rattle.finder.specs.Survey.{SurveyView};
    ghost use Rattle.frame_screens.specs.Gallery.{IsGallery};

    ghost Value = { SurveyView };

    ghost view = { λ g. g.painter };

    ghost invariant = { λ g. IsGallery g.base.now g.painter g.places };
}

impl<'a> Gallery<'a> {
    /// The screens of the frames of the base that was surveyed, for its caller.
    pub fn over(alloc: Global, survey: Survey<'a>) -> Result<Gallery<'a>, AllocError>
        requires { IsFinding survey.groups survey.base survey.found }
        ensures { IfOk result (λ gallery. gallery ≡ survey.entry) }
    {
        let base = survey.base();
        let places = FramePlaces::of(alloc, &survey)?;
        let painter = Painter::of(alloc, survey)?;
        Ok(Gallery {
            base,
            places,
            painter,
        })
    }

    /// The screens of a base's frames, for a caller of these groups.
    pub fn of(alloc: Global, base: &'a Base, groups: &'a Groups) -> Result<Gallery<'a>, AllocError>
        ensures base { IfOk result (λ gallery. gallery.base ≡ base.now) }
        ensures groups { IfOk result (λ gallery. gallery.groups ≡ groups.now) }
        ensures found { IfOk result (λ gallery. IsFinding groups.now base.now gallery.found) }
    {
        let survey = Survey::of(alloc, base, groups)?;
        Gallery::over(alloc, survey)
    }

    // Where a frame is in the list of those that are reached.
    fn place(&self, id: FrameId) -> Option<usize>
        ensures value { result ≡ place_of self.now.found id }
        ensures within { IfSome result (λ place. place < length self.now.found) }
    {
        self.places.place(id)
    }

    /// Whether a key reaches a frame.
    pub fn is_reached(&self, id: FrameId) -> bool
        ensures { result ≡ is_some (place_of self.now.found id) }
    {
        self.place(id).is_some()
    }

    /// The 960 codes of the screen of a frame, with the centre's rows. The frames on the way are those of [`way_to`](crate::way_to).
    pub fn screen(&self, alloc: Global, id: FrameId) -> Result<[u8; 960], AllocError>
        ensures value { IfOk result (λ codes. codes ≡ screen_codes self.now.base (way_in self.now id)) }
        ensures way { IsWay self.now.groups self.now.base id (way_in self.now id) }
    {
        match self.place(id) {
            Some(place) => Ok(self.painter.screen(place)),
            None => {
                let alone = FrameList::of(alloc, id)?;
                Ok(screen(self.base, &alone))
            }
        }
    }
}
