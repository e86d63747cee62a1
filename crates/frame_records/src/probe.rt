//! The binary search that counts what it compares.

ghost use Rattle.std.specs.Prelude.{◌≡◌, ◌≢◌, ℕ, ◌<◌, ◌≤◌, ◌+◌, List, length, slice_get, IfSome, IfNone, Some};
ghost use Rattle.std.specs.declared.cmp.Ordering.TheVariants.{Equal};
ghost use Rattle.frame_records.specs.declared.limits.TheConstants.{MOST_LISTED};
ghost use Rattle.frame_records.specs.Bases.{IsSearchable, comparisons};

use std::cmp::Ordering;

/// Entries that are compared with what is wanted. Contracts see how each one compares, and the number of comparisons so far.
pub trait Probe {
    ghost use Rattle.std.specs.declared.cmp.Ordering.{Ordering as Comparison};

    /// How each entry compares with what is wanted, in order.
    ghost orderings: { Self → List Comparison };

    /// How many entries were compared.
    ghost count: { Self → ℕ };

    /// How many entries there are.
    fn len(&self) -> usize
        ensures { result ≡ length (orderings self.now) };

    /// How many entries were compared.
    fn asked(&self) -> u32
        ensures { result ≡ count self.now };

    /// How the i-th entry, from 0, compares with what is wanted. It counts as one comparison.
    fn ask(&mut self, i: usize) -> Ordering
        requires in_range { i < length (orderings self.old) }
        requires room { count self.old < MOST_LISTED }
        ensures answer { slice_get (orderings self.old) i ≡ Some result }
        ensures same { orderings self.new ≡ orderings self.old }
        ensures counted { count self.new ≡ count self.old + 1 };
}

/// The index of the entry that is equal to what is wanted, by binary search: at most 16 comparisons. Takes no memory.
///
/// The entries are in order: those that are less, then at most one that is equal, then those that are greater.
pub fn search<P: Probe>(probe: &mut P) -> Option<usize>
    requires fresh { P.count probe.old ≡ 0 }
    requires few { length (P.orderings probe.old) ≤ MOST_LISTED }
    requires searchable { IsSearchable (P.orderings probe.old) }
    ensures found { IfSome result (λ i. slice_get (P.orderings probe.old) i ≡ Some Equal) }
    ensures none { IfNone result ((i : ℕ) → slice_get (P.orderings probe.old) i ≢ Some Equal) }
    ensures same { P.orderings probe.new ≡ P.orderings probe.old }
    ensures exact { P.count probe.new ≡ comparisons (P.orderings probe.old) }
    ensures most { P.count probe.new ≤ 16 }
    ensures least { 0 < length (P.orderings probe.old) → 1 ≤ P.count probe.new }
{
    let mut low = 0;
    let mut high = probe.len();
    while low < high {
        let middle = low + (high - low) / 2;
        match probe.ask(middle) {
            Ordering::Equal => return Some(middle),
            Ordering::Less => low = middle + 1,
            Ordering::Greater => high = middle,
        }
    }
    None
}
