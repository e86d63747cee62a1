ghost use Rattle.std.specs.Prelude.{◌≡◌, IfOk, IsErr, OnOk};
ghost use Rattle.near_words.specs.Near.{offered, is_nearer, search_of};

use std::alloc::{AllocError, Global};
use std::marker::Model;
use strsim::osa_distance;

// A near name is fewer steps away than this.
const FAR: usize = 3;

/// A search for the name that was meant by a word. Contracts see the word and how many steps away the nearest name was so far:
/// a nearer one is below that number, which is 3 at first.
#[derive(Drop)]
pub struct Search<'w> {
    word: &'w str,
    below: usize,
}

impl<'w> Model for Search<'w> {
    ghost use Rattle.near_words.specs.Near.{SearchView};

    ghost Value = { SearchView };

    ghost view = { λ s. record { word = s.word.now; below = s.below } };
}

impl<'w> Search<'w> {
    /// No name was offered yet.
    pub fn of(word: &'w str) -> Search<'w>
        ensures { result ≡ search_of word.now }
    {
        Search { word, below: FAR }
    }

    /// Whether the name is near, and nearer than all that were offered before. The case of letters counts.
    ///
    /// If a growth is refused, the name counts as not offered.
    pub fn offer(&mut self, alloc: Global, name: &str) -> Result<bool, AllocError>
        ensures value { IfOk result (λ is. is ≡ is_nearer self.old name.now) }
        ensures after { OnOk result (self.new ≡ offered self.old name.now) }
        ensures refused { IsErr result → self.new ≡ self.old }
    {
        let steps = osa_distance(alloc, self.word, name)?;
        let is_nearer = steps < self.below && steps < name.len();
        if is_nearer {
            self.below = steps;
        }
        Ok(is_nearer)
    }
}
