ghost use Rattle.std.specs.Prelude.{◌≡◌, ◌<◌, ◌≤◌, ◌↔◌, [], IfOk, Some, length, slice_get};
ghost use Rattle.frame_records.specs.Ways.{destination};
ghost use Rattle.finder.specs.declared.found.Discovered.{Discovered};
ghost use Rattle.finder.specs.Loops.Entries.{IsEntryNode};
ghost use Rattle.finder.specs.Finds.{IsFinding, FindsReached, RanksAreLeast, ScriptsLead, EntryIsFound};
ghost use Rattle.finder.specs.Loops.{IsFromEntry};
ghost use Rattle.finder.specs.Survey.{IsFrameAt};

use crate::direction::Direction;
use crate::discover::{Discovery, discover};
use crate::found::{Discovered, Found};
use crate::graph::Graph;
use crate::notes::Notes;
use crate::table::WayTable;
use frame_records::{Base, Destination, Frame, Groups};
use indexmap::IndexSet;
use page_ids::Way;
use std::alloc::{AllocError, Global};
use std::marker::Model;

/// The discovered frames of a base, with the destination of each of their ways. Contracts see the base, the caller's
/// groups and the list.
#[derive(Drop)]
pub struct Survey<'a> {
    table: WayTable<'a>,
    order: IndexSet<u16>,
    found: Found,
}

impl<'a> Model for Survey<'a> {
    ghost use Rattle.finder.specs.Survey.{AreNamed, SurveyView};

    ghost Value = { SurveyView };

    ghost view = { λ s. record { base = s.table.base.now; groups = s.table.groups.now; found = s.found } };

    ghost invariant = { λ s. AreNamed s.table.base.now.frames s.order.keys s.found };
}

// The entry node, if its frame is found.
fn entry_node(notes: &Notes<'_>) -> Option<u16>
    ensures { IsEntryNode notes.now.groups.now notes.now.base.now result }
{
    match notes.target_by_id(&notes.base.entry_frame()) {
        Some(target) => target.node(),
        None => None,
    }
}

impl<'a> Survey<'a> {
    // If the entry frame isn't found, no frame is.
    fn empty(alloc: Global, table: WayTable<'a>) -> Survey<'a>
        ensures base { result.base ≡ table.entry.base.now }
        ensures groups { result.groups ≡ table.entry.groups.now }
        ensures found { result.found ≡ [] }
    {
        Survey {
            table,
            order: IndexSet::new(alloc),
            found: Found::empty(alloc),
        }
    }

    // The frames that are reached from an entry frame that is found.
    fn of_graph(alloc: Global, graph: Graph<'a>) -> Result<Survey<'a>, AllocError>
        requires found { EntryIsFound graph.table.groups.now graph.table.base.now }
        requires entry { IsFromEntry graph }
        ensures base { IfOk result (λ s. s.base ≡ graph.entry.table.base.now) }
        ensures groups { IfOk result (λ s. s.groups ≡ graph.entry.table.groups.now) }
        ensures found { IfOk result (λ s. IsFinding graph.entry.table.groups.now graph.entry.table.base.now s.found) }
    {
        let Discovery { order, found, .. } = discover(alloc, &graph)?;
        let Graph { table, .. } = graph;
        Ok(Survey {
            table,
            order,
            found,
        })
    }

    /// Finds the frames that a caller of exactly these groups can reach, in the order of discovery, and the
    /// destination of each of their ways; each way is looked up once.
    pub fn of(alloc: Global, base: &'a Base, groups: &'a Groups) -> Result<Survey<'a>, AllocError>
        ensures base { IfOk result (λ s. s.base ≡ base.now) }
        ensures groups { IfOk result (λ s. s.groups ≡ groups.now) }
        ensures found { IfOk result (λ s. IsFinding groups.now base.now s.found) }
    {
        let notes = Notes::of(alloc, base, groups)?;
        let entry = entry_node(&notes);
        let table = WayTable::of(alloc, notes)?;
        let Some(entry) = entry else {
            return Ok(Survey::empty(alloc, table));
        };
        let graph = Graph {
            table,
            start: entry,
            direction: Direction::To,
        };
        Survey::of_graph(alloc, graph)
    }

    /// The base.
    pub fn base(&self) -> &'a Base
        ensures { result.now ≡ self.now.base }
    {
        self.table.base
    }

    /// The caller's groups.
    pub fn groups(&self) -> &'a Groups
        ensures { result.now ≡ self.now.groups }
    {
        self.table.groups
    }

    /// The list alone.
    pub fn into_found(self) -> Found
        ensures { result ≡ self.entry.found }
    {
        self.found
    }

    /// The discovered frames.
    pub fn found(&self) -> &Found
        ensures { result.now ≡ self.now.found }
    {
        &self.found
    }

    /// The discovered frame at an index of the list.
    pub fn discovered_at(&self, index: u32) -> &Discovered
        requires { index < length self.now.found }
        ensures { slice_get self.now.found index ≡ Some result.now }
    {
        &self.found.as_slice()[index as usize]
    }

    /// The record of the discovered frame at an index of the list.
    pub fn frame(&self, index: usize) -> &Frame
        requires { index < length self.now.found }
        ensures { IsFrameAt self.now index result.now }
    {
        &self.table.base.frames()[self.order[index] as usize]
    }

    /// The destination of a way of the discovered frame at an index of the list, as `Base::follow` gives it. Nothing is sought
    /// again.
    pub fn follow(&self, index: usize, way: &Way) -> Destination
        requires { index < length self.now.found }
        ensures { (d : Discovered) → slice_get self.now.found index ≡ Some d →
            result ≡ destination self.now.groups self.now.base d.id way.now }
    {
        self.table.follow(self.order[index], way)
    }
}

/// The frames that a caller of exactly these groups can reach, in the order of discovery: the entry frame first; then for
/// each listed frame in turn the keys `0` to `9` and `#` are tried, and each open frame found that isn't yet listed goes
/// last.
///
/// The list is empty if the entry frame is missing or closed.
pub fn find(alloc: Global, base: &Base, groups: &Groups) -> Result<Found, AllocError>
    ensures reached { IfOk result (λ found. FindsReached groups.now base.now found) }
    ensures rank { IfOk result (λ found. RanksAreLeast groups.now base.now found) }
    ensures scripts { IfOk result (λ found. ScriptsLead groups.now base.now found) }
    ensures empty { IfOk result (λ found. found ≡ [] ↔ (EntryIsFound groups.now base.now → ⊥)) }
    ensures few { IfOk result (λ found. length found ≤ length base.now.frames) }
{
    let survey = Survey::of(alloc, base, groups)?;
    Ok(survey.into_found())
}
