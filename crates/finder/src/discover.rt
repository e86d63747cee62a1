ghost use Rattle.std.specs.Prelude.{◌≡◌, ◌<◌, ◌≤◌, ◌+◌, ◌*◌, ◌⊎◌, ◌++◌, ◌∷◌, [], ℕ, Some, None, true, false, Contains, OnOk, IfOk, IfSome, IfNone, slice_get, set, length, get_or};
ghost use Rattle.finder.specs.Loops.{AreRanks, IsFromEntry, IsDiscoveredSoFar};
ghost use Rattle.finder.specs.Survey.{AreNamed};
ghost use Rattle.finder.specs.Loops.Entries.{discovered_of};
ghost use Rattle.finder.specs.Finds.{FindsReached, RanksAreLeast, EntryIsFound};

use crate::found::Found;
use crate::graph::Graph;
use crate::ranks::{rank_at, ranks_of};
use indexmap::IndexSet;
use page_ids::{FrameId, Way};
use std::alloc::{AllocError, Global};

// The frames that are listed by now, in the order of discovery.
#[derive(Drop)]
pub struct Discovery {
    // Their nodes.
    pub order: IndexSet<u16>,
    pub found: Found,
    // For each node whether it is listed.
    listed: Vec<bool>,
}

// Adds a new node at the end.
fn enter(order: &mut IndexSet<u16>, node: u16) -> Result<(), AllocError>
    requires { Contains order.old.keys node → ⊥ }
    ensures { OnOk result (order.new.keys ≡ order.old.keys ++ node ∷ []) }
{
    match order.insert(node) {
        Ok(_) => Ok(()),
        Err(_) => Err(AllocError),
    }
}

impl Discovery {
    // The node at an index, if there is one and not every node is listed.
    fn waiting(&self, graph: &Graph<'_>, index: u16) -> Option<u16>
        ensures some { IfSome result (λ node. slice_get self.now.order.keys index ≡ Some node) }
        ensures none { IfNone result ((length self.now.order.keys ≤ index)
            ⊎ (graph.now.table.count ≤ length self.now.order.keys)) }
    {
        if self.order.len() >= graph.table.count as usize {
            return None;
        }
        self.order.get_index(index as usize).copied()
    }

    // Whether a node is listed.
    fn is_listed(&self, node: u16) -> bool
        requires { node < length self.now.listed.items }
        ensures { result ≡ get_or self.now.listed.items node false }
    {
        self.listed[node as usize]
    }

    // Lists a new node at the end, with its frame's id and rank, and the index of the frame and the number of the way that led
    // to it.
    fn list(
        &mut self,
        node: u16,
        id: FrameId,
        rank: Option<u16>,
        origin: Option<(u16, u8)>,
    ) -> Result<(), AllocError>
        requires within { node < length self.old.listed.items }
        requires new { Contains self.old.order.keys node → ⊥ }
        ensures order { OnOk result (self.new.order.keys ≡ self.old.order.keys ++ node ∷ []) }
        ensures found { OnOk result (self.new.found ≡ self.old.found ++ discovered_of id rank origin ∷ []) }
        ensures listed { OnOk result (self.new.listed.items ≡ set self.old.listed.items node true) }
    {
        self.listed[node as usize] = true;
        enter(&mut self.order, node)?;
        self.found.push(id, rank, origin)?;
        Ok(())
    }

    // Tries a way of the node at an index: the node to which it leads goes last, if it isn't listed.
    fn try_way(
        &mut self,
        graph: &Graph<'_>,
        ranks: &[Option<u16>],
        index: u16,
        from: u16,
        way: u8,
    ) -> Result<(), AllocError>
        requires is_way { way < 11 }
        requires placed { slice_get self.old.order.keys index ≡ Some from }
        requires len { length ranks.now ≡ graph.now.table.count }
        requires ranks { AreRanks graph.now ranks.now }
        requires listed { IsDiscoveredSoFar graph.now (index * 11 + way) self.old }
        ensures placed { OnOk result (slice_get self.new.order.keys index ≡ Some from) }
        ensures listed { OnOk result (IsDiscoveredSoFar graph.now (index * 11 + way + 1) self.new) }
    {
        let Some(node) = graph.target(from, way) else {
            return Ok(());
        };
        if self.is_listed(node) {
            return Ok(());
        }
        self.list(
            node,
            graph.id(node),
            rank_at(ranks, node),
            Some((index, way)),
        )?;
        Ok(())
    }

    // Tries each way of the node at an index.
    fn try_ways(
        &mut self,
        graph: &Graph<'_>,
        ranks: &[Option<u16>],
        index: u16,
        from: u16,
    ) -> Result<(), AllocError>
        requires placed { slice_get self.old.order.keys index ≡ Some from }
        requires len { length ranks.now ≡ graph.now.table.count }
        requires ranks { AreRanks graph.now ranks.now }
        requires listed { IsDiscoveredSoFar graph.now (index * 11) self.old }
        ensures { OnOk result (IsDiscoveredSoFar graph.now ((index + 1) * 11) self.new) }
    {
        for way in 0..Way::COUNT {
            self.try_way(graph, ranks, index, from, way)?;
        }
        Ok(())
    }

    // The entry node alone.
    fn new(alloc: Global, graph: &Graph<'_>, ranks: &[Option<u16>]) -> Result<Discovery, AllocError>
        requires entry { IsFromEntry graph.now }
        requires len { length ranks.now ≡ graph.now.table.count }
        requires ranks { AreRanks graph.now ranks.now }
        ensures { IfOk result (IsDiscoveredSoFar graph.now 0) }
    {
        let count = graph.table.count as usize;
        let mut discovery = Discovery {
            order: IndexSet::with_capacity(alloc, count)?,
            found: Found::with_capacity(alloc, count)?,
            listed: vec![in alloc; false; count]?,
        };
        discovery.list(
            graph.start,
            graph.id(graph.start),
            rank_at(ranks, graph.start),
            None,
        )?;
        Ok(discovery)
    }
}

// The frames that are reached from the entry frame, in the order of discovery: the entry frame first; then for each listed
// frame in turn its ways are tried in order, and each frame found that isn't yet listed goes last.
pub fn discover(alloc: Global, graph: &Graph<'_>) -> Result<Discovery, AllocError>
    requires found { EntryIsFound graph.now.table.groups.now graph.now.table.base.now }
    requires entry { IsFromEntry graph.now }
    ensures reached { IfOk result (λ d. FindsReached graph.now.table.groups.now graph.now.table.base.now d.found) }
    ensures ranks { IfOk result (λ d. RanksAreLeast graph.now.table.groups.now graph.now.table.base.now d.found) }
    ensures named { IfOk result (λ d. AreNamed graph.now.table.base.now.frames d.order.keys d.found) }
    ensures few { IfOk result (λ d. length d.found ≤ graph.now.table.count) }
{
    let ranks = ranks_of(alloc, graph)?;
    let mut discovery = Discovery::new(alloc, graph, ranks.as_slice())?;
    for index in 0..graph.table.count {
        let Some(from) = discovery.waiting(graph, index) else {
            return Ok(discovery);
        };
        discovery.try_ways(graph, ranks.as_slice(), index, from)?;
    }
    Ok(discovery)
}
