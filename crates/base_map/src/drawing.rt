ghost use Rattle.std.specs.Prelude.{◌≡◌};
ghost use Rattle.finder.specs.Finds.{has_id};
ghost use Rattle.base_map.specs.Edges.{is_lacked, has_node};

use finder::Part;
use frame_records::{Base, Groups};
use indexmap::IndexSet;
use page_ids::FrameId;
use std::marker::Model;

// What a map is drawn of. Contracts see the base, the caller's groups, the frames that the caller reaches, and the part.
#[derive(Drop)]
pub struct MapDrawing<'a> {
    pub base: &'a Base,
    pub groups: &'a Groups,
    pub reached: IndexSet<FrameId>,
    pub part: &'a Part,
}

impl<'a> Model for MapDrawing<'a> {
    ghost use Rattle.base_map.specs.Edges.{MapView};

    ghost Value = { MapView };

    ghost view = { λ d. record { base = d.base.now; caller = d.groups.now; reached = d.reached.keys; part = d.part.now } };
}

impl<'a> MapDrawing<'a> {
    // Whether the caller reaches a frame.
    pub fn reaches(&self, id: FrameId) -> bool
        ensures { result ≡ has_id self.now.reached id }
    {
        self.reached.contains(&id)
    }

    // Whether the base lacks a frame.
    pub fn lacks(&self, id: FrameId) -> bool
        ensures { result ≡ is_lacked self.now.base id }
    {
        self.base.find(id).is_none()
    }

    // Whether the map has a node for what a way seeks: it shows the frame, or the base lacks it.
    pub fn has_node(&self, id: FrameId) -> bool
        ensures { result ≡ has_node self.now id }
    {
        self.part.shows(id) || self.lacks(id)
    }
}
