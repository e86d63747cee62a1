ghost use Rattle.std.specs.Prelude.{◌≡◌, ◌<◌, ◌≤◌, ◌+◌, ◌*◌, ◌⊎◌, ℕ, Some, None, is_some, OnOk, IfOk, IfSome, IfNone, slice_get, length, get_or};
ghost use Rattle.finder.specs.Loops.Walks.{IsNodeRank, IsStep};
ghost use Rattle.finder.specs.Loops.{HasRank, IsSearch, AreNeighbours};

use crate::graph::Graph;
use crate::neighbours::Neighbours;
use std::alloc::{AllocError, Global};

// A node and its rank: the least number of ways by which a search gets there.
#[derive(Clone, Copy)]
pub struct Ranked {
    pub node: u16,
    pub rank: u16,
}

// The ranked nodes in the order of their ranks, and the rank of each node that has one.
#[derive(Drop)]
struct Ranking {
    queue: Vec<Ranked>,
    ranks: Vec<Option<u16>>,
}

impl Ranking {
    // Whether a node has a rank.
    fn is_ranked(&self, node: u16) -> bool
        requires { node < length self.now.ranks.items }
        ensures { result ≡ is_some (get_or self.now.ranks.items node None) }
    {
        self.ranks[node as usize].is_some()
    }

    // The node at an index of the queue, if there is one and not every node has a rank.
    fn waiting(&self, graph: &Graph<'_>, index: u16) -> Option<Ranked>
        ensures some { IfSome result (λ to. slice_get self.now.queue.items index ≡ Some to) }
        ensures none { IfNone result ((length self.now.queue.items ≤ index)
            ⊎ (graph.now.table.count ≤ length self.now.queue.items)) }
    {
        if self.queue.len() >= graph.table.count as usize {
            return None;
        }
        self.queue.get(index as usize).copied()
    }

    // Ranks a neighbour of the node at an index of the queue.
    fn mark(
        &mut self,
        graph: &Graph<'_>,
        done: u16,
        to: Ranked,
        node: u16,
    ) -> Result<(), AllocError>
        requires search { IsSearch graph.now done self.old.queue.items self.old.ranks.items }
        requires waits { slice_get self.old.queue.items done ≡ Some to }
        requires leads { IsStep graph.now to.node node }
        ensures search { OnOk result (IsSearch graph.now done self.new.queue.items self.new.ranks.items) }
        ensures waits { OnOk result (slice_get self.new.queue.items done ≡ Some to) }
        ensures marked { OnOk result (HasRank self.new.ranks.items node (to.rank + 1)) }
        ensures kept { OnOk result ((f n : ℕ) → HasRank self.old.ranks.items f n → HasRank self.new.ranks.items f n) }
    {
        if self.is_ranked(node) {
            return Ok(());
        }
        let rank = to.rank + 1;
        self.ranks[node as usize] = Some(rank);
        self.queue.push(Ranked { node, rank })?;
        Ok(())
    }

    // Ranks each neighbour of the node at an index of the queue.
    fn mark_all(
        &mut self,
        graph: &Graph<'_>,
        neighbours: &Neighbours,
        done: u16,
        to: Ranked,
    ) -> Result<(), AllocError>
        requires search { IsSearch graph.now done self.old.queue.items self.old.ranks.items }
        requires waits { slice_get self.old.queue.items done ≡ Some to }
        requires neighbours { AreNeighbours graph.now (graph.now.table.count * 11) neighbours.now.lists.items }
        ensures { OnOk result (IsSearch graph.now (done + 1) self.new.queue.items self.new.ranks.items) }
    {
        let nodes = neighbours.from(to.node);
        for node in nodes {
            self.mark(graph, done, to, *node)?;
        }
        Ok(())
    }

    // The node alone at which the search starts.
    fn new(alloc: Global, graph: &Graph<'_>) -> Result<Ranking, AllocError>
        ensures { IfOk result (λ s. IsSearch graph.now 0 s.queue.items s.ranks.items) }
    {
        let mut ranks = vec![in alloc; None; graph.table.count as usize]?;
        let mut queue = Vec::with_capacity(alloc, graph.table.count as usize)?;
        ranks[graph.start as usize] = Some(0);
        queue.push(Ranked {
            node: graph.start,
            rank: 0,
        })?;
        Ok(Ranking { queue, ranks })
    }
}

// The rank of a node.
pub fn rank_at(ranks: &[Option<u16>], node: u16) -> Option<u16>
    requires { node < length ranks.now }
    ensures { result ≡ get_or ranks.now node None }
{
    ranks[node as usize]
}

// The rank of each node.
pub fn ranks_of(alloc: Global, graph: &Graph<'_>) -> Result<Vec<Option<u16>>, AllocError>
    ensures len { IfOk result (λ ranks. length ranks.items ≡ graph.now.table.count) }
    ensures ranks { IfOk result (λ ranks. (f : ℕ) → IsNodeRank graph.now f (get_or ranks.items f None)) }
{
    let neighbours = Neighbours::of(alloc, graph)?;
    let mut search = Ranking::new(alloc, graph)?;
    for done in 0..graph.table.count {
        let Some(to) = search.waiting(graph, done) else {
            return Ok(search.ranks);
        };
        search.mark_all(graph, &neighbours, done, to)?;
    }
    Ok(search.ranks)
}
