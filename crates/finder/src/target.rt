ghost use Rattle.std.specs.Prelude.{◌≡◌};
ghost use Rattle.finder.specs.Loops.WayTargets.{aim_at, node_of};

use crate::aim::Aim;

/// The result of a way of a frame; a frame that is found is named by its node, its position in the base.
#[derive(Clone, Copy)]
pub enum WayTarget {
    NotOffered,
    Found(u16),
    Closed,
    Missing,
    Outside,
}

impl WayTarget {
    // The target without its node.
    pub fn aim(self) -> Aim
        ensures { result ≡ aim_at self }
    {
        match self {
            WayTarget::NotOffered => Aim::NotOffered,
            WayTarget::Found(_) => Aim::Found,
            WayTarget::Closed => Aim::Closed,
            WayTarget::Missing => Aim::Missing,
            WayTarget::Outside => Aim::Outside,
        }
    }

    // The node that is found.
    pub fn node(self) -> Option<u16>
        ensures { result ≡ node_of self }
    {
        match self {
            WayTarget::Found(node) => Some(node),
            _ => None,
        }
    }
}
