ghost use Rattle.std.specs.Prelude.{◌≡◌, Some, None};
ghost use Rattle.finder.specs.Parts.{part_shows};

use indexmap::IndexSet;
use page_ids::FrameId;
use std::marker::Model;

/// Some frames of a base, or all. Contracts see their ids, or `None` for all.
#[derive(Drop)]
pub struct Part {
    only: Option<IndexSet<FrameId>>,
}

impl Model for Part {
    ghost use Rattle.std.specs.Prelude.{List, Option, option_map};
    ghost use Rattle.page_ids.specs.Ids.{Id};

    ghost Value = { Option (List Id) };

    ghost view = { λ p. option_map (λ ids. ids.keys) p.only };
}

impl Part {
    /// All frames.
    pub fn whole() -> Part
        ensures { result ≡ None }
    {
        Part { only: None }
    }

    // The frames of these ids.
    pub(crate) fn of(ids: IndexSet<FrameId>) -> Part
        ensures { result ≡ Some ids.keys }
    {
        Part { only: Some(ids) }
    }

    /// Whether it has the frame of an id.
    pub fn shows(&self, id: FrameId) -> bool
        ensures { result ≡ part_shows self.now id }
    {
        match &self.only {
            Some(ids) => ids.contains(&id),
            None => true,
        }
    }
}
