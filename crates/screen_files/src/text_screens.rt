//! The frames of a text with screens.

ghost use Rattle.std.specs.Prelude.{◌≡◌, ◌++◌, OnOk, IfOk};
ghost use Rattle.std.specs.List.{flat_map};
ghost use Rattle.screen_forms.specs.Addresses.{linked_screens};
ghost use Rattle.screen_forms.specs.Sheets.{sheet_screens};
ghost use Rattle.screen_files.specs.Files as spec;
ghost use Rattle.screen_files.specs.Loops as loops;

use crate::file::{FoundScreens, FramesFault, ScreenFault};
use crate::filed::{Filed, Origin, ScreenPlace};
use crate::frame::ScreenFrame;
use crate::head::{name_id, screen_head};
use page_ids::FrameId;
use screen_forms::{TextScreen, TextScreensFault, linked_screens, sheet_screens};
use std::alloc::{AllocError, Global};

// The id of a screen: the one beside an address, else the one in the file's name, in row 0 or in the page number.
fn text_screen_id(name: &Option<FrameId>, screen: &TextScreen) -> Option<FrameId>
    ensures { result ≡ spec.text_screen_id name.now screen.now }
{
    let shown = screen_head(&screen.codes).id.or(screen.number);
    screen.beside.or(name.or(shown))
}

// Adds the frame of a screen, if it has an id.
fn push_text_screen(
    filed: &mut Vec<Filed>,
    file: usize,
    name: &Option<FrameId>,
    screen: &TextScreen,
) -> Result<(), AllocError>
    ensures { OnOk result (filed.new.items ≡ filed.old.items ++ spec.filed_text file name.now screen.now) }
{
    let Some(id) = text_screen_id(name, screen) else {
        return Ok(());
    };
    let frame = ScreenFrame {
        id,
        price: screen_head(&screen.codes).price,
        codes: screen.codes,
    };
    let place = ScreenPlace::Line(screen.line);
    let origin = Origin { file, place };
    filed.extend_from_slice(&[Filed { origin, frame }])
}

// The frames of the screens that have ids.
fn filed_texts(
    alloc: Global,
    file: usize,
    name: &Option<FrameId>,
    screens: &[TextScreen],
) -> Result<Vec<Filed>, AllocError>
    ensures { IfOk result (λ filed. filed.items ≡ flat_map (spec.filed_text file name.now) screens.now) }
{
    let mut filed = Vec::new(alloc);
    for screen in screens {
        push_text_screen(&mut filed, file, name, screen)?;
    }
    Ok(filed)
}

// The line of the first screen without an id.
#[tactic(auto, unfolding(crate::specs::Files::nameless_line))]
fn nameless_line(name: &Option<FrameId>, screens: &[TextScreen]) -> Option<usize>
    ensures { result ≡ spec.nameless_line name.now screens.now }
{
    let mut left = screens;
    while let Some((screen, rest)) = left.split_first() {
        if text_screen_id(name, screen).is_none() {
            return Some(screen.line);
        }
        left = rest;
    }
    None
}

// The name of a file counts if it has one screen.
fn name_of_one(path: &str, screens: &[TextScreen]) -> Option<FrameId>
    ensures { result ≡ spec.name_of_one path.now screens.now }
{
    if screens.len() == 1 {
        name_id(path)
    } else {
        None
    }
}

// The frames of screens, if all have ids.
fn found_text_screens(
    alloc: Global,
    path: &str,
    file: usize,
    screens: &[TextScreen],
) -> Result<FoundScreens, FramesFault>
    ensures { loops.IsFound (spec.found_text_screens path.now file screens.now) result }
{
    let name = name_of_one(path, screens);
    if let Some(line) = nameless_line(&name, screens) {
        return Err(FramesFault::Screen(ScreenFault::NoIdAt(line)));
    }
    let filed = filed_texts(alloc, file, &name, screens)?;
    let unnamed = Vec::new(alloc);
    Ok(FoundScreens { filed, unnamed })
}

// The frames of a text with addresses.
pub fn found_links(
    alloc: Global,
    path: &str,
    file: usize,
    text: &[u8],
) -> Result<FoundScreens, FramesFault>
    ensures { loops.IsFound (spec.found_texts path.now file (linked_screens text.now)) result }
{
    match linked_screens(alloc, text) {
        Ok(screens) => found_text_screens(alloc, path, file, screens.as_slice()),
        Err(TextScreensFault::Line(fault)) => Err(FramesFault::Screen(ScreenFault::Text(fault))),
        Err(TextScreensFault::Memory) => Err(FramesFault::Memory),
    }
}

// The frames of a text of the form TTI.
pub fn found_pages(
    alloc: Global,
    path: &str,
    file: usize,
    text: &[u8],
) -> Result<FoundScreens, FramesFault>
    ensures { loops.IsFound (spec.found_texts path.now file (sheet_screens text.now)) result }
{
    match sheet_screens(alloc, text) {
        Ok(screens) => found_text_screens(alloc, path, file, screens.as_slice()),
        Err(TextScreensFault::Line(fault)) => Err(FramesFault::Screen(ScreenFault::Text(fault))),
        Err(TextScreensFault::Memory) => Err(FramesFault::Memory),
    }
}
