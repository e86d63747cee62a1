//! The frames of a base as a graph, with the ways that find open frames: a node is a frame's position in the base.

ghost use Rattle.std.specs.Prelude.{◌≡◌, ◌<◌, ℕ, Some, IfSome, IfNone};
ghost use Rattle.finder.specs.Survey.{id_at};

use crate::direction::Direction;
use crate::table::WayTable;
use page_ids::FrameId;

// The table of a base, the node at which a search starts, and its direction.
#[derive(Drop)]
pub struct Graph<'a> {
    pub table: WayTable<'a>,
    pub start: u16,
    pub direction: Direction,
    pub ghost started: { start < table.count },
}

impl Graph<'_> {
    ghost use Rattle.finder.specs.Loops.Walks.{Goes};

    // The node to which a way of a node leads.
    pub fn target(&self, from: u16, way: u8) -> Option<u16>
        requires is_node { from < self.now.table.count }
        requires is_way { way < 11 }
        ensures leads { IfSome result (Goes self.now from way) }
        ensures lost { IfNone result ((g : ℕ) → Goes self.now from way g → ⊥) }
    {
        let node = self.table.node_to(from, way);
        if node < self.table.count {
            Some(node)
        } else {
            None
        }
    }

    // The id of a node's frame.
    pub fn id(&self, node: u16) -> FrameId
        requires { node < self.now.table.count }
        ensures { id_at self.now.table.base.now.frames node ≡ Some result }
    {
        self.table.ids[node as usize]
    }
}
