//! The screens of all frames that are reached.

ghost use Rattle.std.specs.Prelude.{◌≡◌, ◌<◌, ◌≤◌, IfOk, Some, length, slice_get};
ghost use Rattle.finder.specs.Finds.{FindsReached};
ghost use Rattle.frame_screens.specs.Screens.{screen_codes};
ghost use Rattle.frame_screens.specs.Painted.{frames_to, IsAfter, IsKept, AreKept};
ghost use Rattle.frame_screens.specs.Loops.{IsTerminalBefore};

use crate::header::screen_with;
use crate::sending::send;
use crate::way::reached_at;
use finder::Survey;
use frame_records::Lead;
use std::alloc::{AllocError, Global};
use std::marker::Model;
use terminal_codes::Terminal;

/// Makes the screens of the frames that are reached, each from the terminal after its parent: so the time for the screens of all
/// frames grows with their number, however long the ways to them are. A kilobyte is taken for each frame with lead `keep`.
///
/// Contracts see the survey.
#[derive(Drop)]
pub struct Painter<'a> {
    survey: Survey<'a>,
    // For each place the terminal after its frame; none if the frame clears, so that nothing sent before it counts.
    kept: Vec<Option<Box<Terminal>>>,
}

impl<'a> Model for Painter<'a> {
    ghost use Rattle.finder.specs.Survey.{SurveyView};
    ghost use Rattle.frame_screens.specs.Painted.{CanPaint};

    ghost Value = { SurveyView };

    ghost view = { λ p. p.survey };

    ghost invariant = { λ p. CanPaint p.survey p.kept.items };
}

fn kept_of(kept: &[Option<Box<Terminal>>], place: usize) -> &Option<Box<Terminal>>
    requires { place < length kept.now }
    ensures { slice_get kept.now place ≡ Some result.now }
{
    &kept[place]
}

// A terminal after the frame at a place.
fn terminal_after(survey: &Survey<'_>, kept: &[Option<Box<Terminal>>], place: usize) -> Terminal
    requires finds { FindsReached survey.now.groups survey.now.base survey.now.found }
    requires within { place < length kept.now }
    requires found { place < length survey.now.found }
    requires kept { AreKept survey.now kept.now }
    ensures { IsAfter survey.now place result }
{
    match kept_of(kept, place) {
        Some(terminal) => terminal.copy(),
        None => {
            let mut terminal = Terminal::new();
            send(&mut terminal, survey.frame(place));
            terminal
        }
    }
}

// A terminal before the frame at a place is sent.
fn terminal_before(survey: &Survey<'_>, kept: &[Option<Box<Terminal>>], place: usize) -> Terminal
    requires finds { FindsReached survey.now.groups survey.now.base survey.now.found }
    requires before { place ≤ length kept.now }
    requires found { place < length survey.now.found }
    requires kept { AreKept survey.now kept.now }
    ensures { IsTerminalBefore survey.now place result }
{
    match reached_at(survey, place).parent {
        Some(parent) => terminal_after(survey, kept, parent as usize),
        None => Terminal::new(),
    }
}

// The terminal that is kept for the frame at a place, if one is.
fn kept_at(
    alloc: Global,
    survey: &Survey<'_>,
    kept: &[Option<Box<Terminal>>],
    place: usize,
) -> Result<Option<Box<Terminal>>, AllocError>
    requires finds { FindsReached survey.now.groups survey.now.base survey.now.found }
    requires before { place ≤ length kept.now }
    requires found { place < length survey.now.found }
    requires kept { AreKept survey.now kept.now }
    ensures { IfOk result (λ o. IsKept survey.now place o) }
{
    let frame = survey.frame(place);
    match frame.lead {
        Lead::Clear => Ok(None),
        Lead::Keep => {
            let mut terminal = terminal_before(survey, kept, place);
            send(&mut terminal, frame);
            Ok(Some(Box::new(alloc, terminal)?))
        }
    }
}

impl<'a> Painter<'a> {
    /// Makes the painter of the frames that a survey found.
    pub fn of(alloc: Global, survey: Survey<'a>) -> Result<Painter<'a>, AllocError>
        requires { FindsReached survey.groups survey.base survey.found }
        ensures { IfOk result (λ painter. painter ≡ survey.entry) }
    {
        let count = survey.found().as_slice().len();
        let mut kept = Vec::with_capacity(alloc, count)?;
        for place in 0..count {
            let terminal = kept_at(alloc, &survey, kept.as_slice(), place)?;
            kept.push(terminal)?;
        }
        Ok(Painter { survey, kept })
    }

    /// The frames that are reached, in the order of their places.
    pub fn survey(&self) -> &Survey<'a>
        ensures { result.now ≡ self.now }
    {
        &self.survey
    }

    /// The 960 codes of the screen of the frame at a place, with the centre's rows, as [`screen`](crate::screen) makes them of the
    /// way there.
    pub fn screen(&self, place: usize) -> [u8; 960]
        requires { place < length self.now.found }
        ensures { result ≡ screen_codes self.now.base (frames_to self.now place) }
    {
        let terminal = terminal_after(&self.survey, self.kept.as_slice(), place);
        screen_with(Some(self.survey.frame(place)), &terminal)
    }
}
