//! Abstract cursors: sets of positions and pending flags that fit into a few bytes.

ghost use Rattle.std.specs.Prelude.{◌≡◌, ◌↔◌, IsTrue};
ghost use Rattle.abstract_paint.specs.Paint.{place_test, pend_test, stands, Stands};

/// The positions at which painting can end.
#[derive(Debug, Clone, Copy, PartialEq, Eq)]
pub enum Place {
    /// Each of the 960.
    Any,
    /// Those of a column, 0 to 39, in all rows. A greater number stands for no position.
    Col(u16),
    /// One position, 0 to 959. A greater number stands for no position.
    Spot(u16),
}

/// Whether an escape is pending when painting ends.
#[derive(Debug, Clone, Copy, PartialEq, Eq)]
pub enum Pend {
    /// No escape is pending.
    No,
    /// An escape is pending.
    Yes,
    /// An escape may or may not be pending.
    Maybe,
}

/// The positions and pending flags at which painting a frame can end.
#[derive(Debug, Clone, Copy, PartialEq, Eq)]
pub struct AbsCursor {
    pub place: Place,
    pub pend: Pend,
}

impl Place {
    // Whether it holds a position of the screen.
    fn has(self, at: u16) -> bool
        ensures { result ≡ place_test self at }
    {
        match self {
            Place::Any => true,
            Place::Col(column) => at % 40 == column,
            Place::Spot(spot) => at == spot,
        }
    }
}

impl Pend {
    // Whether it holds the flag.
    fn has(self, pending: bool) -> bool
        ensures { result ≡ pend_test self pending }
    {
        match self {
            Pend::No => !pending,
            Pend::Yes => pending,
            Pend::Maybe => true,
        }
    }
}

impl AbsCursor {
    /// Whether a terminal at the position, with an escape pending or not, is one that the cursor stands for.
    ///
    /// No cursor stands for a position past the screen's end.
    #[tactic(auto, using(crate::proofs::Unique::is_test))]
    pub fn stands(self, at: u16, pending: bool) -> bool
        ensures computed { result ≡ stands self at pending }
        ensures meaning { IsTrue result ↔ Stands self at pending }
    {
        at < 960 && self.place.has(at) && self.pend.has(pending)
    }
}
