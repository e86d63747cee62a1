//! What `list` and `map` have of a base.

ghost use Rattle.std.specs.Prelude.{ℕ, List, IfOk, option_map};
ghost use Rattle.page_ids.specs.Ids.{IsLetter};
ghost use Rattle.frame_records.specs.declared.frame.Frame.{Frame};
ghost use Rattle.frame_records.specs.Bases.{BaseView};
ghost use Rattle.finder.specs.declared.found.Discovered.{Discovered};
ghost use Rattle.finder.specs.Finds.{FindsReached, IsNear};
ghost use Rattle.audit_report.specs.Listing.{IsListing, ListsEveryFrame, AreOneLines};
ghost use Rattle.base_map.specs.Map.{IsMap, AreEdges, KeysLeadOn};

use audit_report::{ListForm, Listing, frames_are_lines, list, lists_every_frame};
use base_map::{edges_are_ways, map_text};
use finder::{Direction, Part, within};
use frame_records::{Base, Groups};
use indexmap::IndexSet;
use page_ids::FrameId;
use std::alloc::{AllocError, Global};

// A line for each frame: those that walks reach, and then exactly the others.
fn listed<'a>(
    alloc: Global,
    form: ListForm,
    base: &'a Base,
    groups: &'a Groups,
) -> Result<Listing<'a>, AllocError>
    ensures { IfOk result (IsListing groups.now form base.now) }
{
    list(alloc, form, base, groups)
}

fn every_frame()
    ensures { (caller : List ℕ) (base : BaseView) (found : List Discovered) → FindsReached caller base found →
        ListsEveryFrame caller base found }
{
    lists_every_frame();
}

fn one_line_each()
    ensures { (f : Frame) → IsLetter f.id.letter → AreOneLines f }
{
    frames_are_lines();
}

// A map draws exactly what ways seek, with exactly their keys.
fn mapped(alloc: Global, base: &Base, groups: &Groups, part: &Part) -> Result<Vec<u8>, AllocError>
    ensures { IfOk result (λ text. IsMap base.now groups.now part.now text.items) }
{
    map_text(alloc, base, groups, part)
}

fn drawn_ways()
    ensures { (f : Frame) → AreEdges f × KeysLeadOn f }
{
    edges_are_ways();
}

// Exactly the frames within a number of keys.
fn near(
    alloc: Global,
    base: &Base,
    groups: &Groups,
    direction: Direction,
    id: FrameId,
    most: Option<u16>,
) -> Result<Option<IndexSet<FrameId>>, AllocError>
    ensures { IfOk result (λ near. IsNear groups.now base.now direction id most (option_map (λ ids. ids.keys) near)) }
{
    within(alloc, base, groups, direction, id, most)
}
