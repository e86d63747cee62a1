//! Lists in order, and their binary search.

ghost use Rattle.std.specs.Prelude.{◌≡◌, ◌<◌, ◌≤◌, find, length, map};
ghost use Rattle.std.specs.Ordering.{is_eq, nat_cmp};
ghost use Rattle.page_ids.specs.Ids.{id_cmp};
ghost use Rattle.std.specs.Option.{option_copied};
ghost use Rattle.std.specs.List.Sorted.{IsStrictlyIncreasing};
ghost use Rattle.frame_records.specs.declared.limits.TheConstants.{MOST_LISTED};
ghost use Rattle.frame_records.specs.Bases.{IsAscending, frame_among, frames_compared, lists_page, pages_compared, IsSearchable, comparisons};

use crate::frame::Frame;
use crate::probe::{Probe, search};
use page_ids::{FrameId, PageNo};
use std::cmp::Ordering;
use std::marker::Model;

/// An entry of a list in which a key can be sought by binary search.
pub trait Entry<K> {
    ghost use Rattle.std.specs.declared.cmp.Ordering.{Ordering as Comparison};

    /// How an entry compares with a key.
    ghost against: { Self → K → Comparison };

    /// How the entry compares with a key.
    fn against(&self, wanted: &K) -> Ordering
        ensures { result ≡ against self.now wanted.now };
}

// Entries that are compared with a key.
#[derive(Drop)]
struct EntryProbe<'a, E: Entry<K>, K> {
    entries: &'a [E],
    wanted: &'a K,
    asked: u32,
}

impl<'a, E: Entry<K>, K> Model for EntryProbe<'a, E, K> {
    ghost use Rattle.std.specs.Prelude.{map};
    ghost use Rattle.frame_records.specs.Bases.{ProbeView};

    ghost Value = { ProbeView };

    ghost view = { λ p. record { orderings = map (λ e. E.against e p.wanted.now) p.entries.now; count = p.asked } };
}

impl<E: Entry<K>, K> Probe for EntryProbe<'_, E, K> {
    ghost orderings = { λ p. p.orderings };

    ghost count = { λ p. p.count };

    fn len(&self) -> usize {
        self.entries.len()
    }

    fn asked(&self) -> u32 {
        self.asked
    }

    fn ask(&mut self, i: usize) -> Ordering {
        self.asked += 1;
        self.entries[i].against(self.wanted)
    }
}

// The entries beside the key that is wanted of them.
fn entries_beside<'a, E: Entry<K>, K>(entries: &'a [E], wanted: &'a K) -> EntryProbe<'a, E, K>
    ensures orderings { result.orderings ≡ map (λ e. E.against e wanted.now) entries.now }
    ensures fresh { result.count ≡ 0 }
{
    EntryProbe {
        entries,
        wanted,
        asked: 0,
    }
}

/// The entry that is equal to a key, by binary search, and how many entries were compared with it: at most 16. Takes no memory.
pub fn binary_search<'a, E: Entry<K>, K>(entries: &'a [E], wanted: &K) -> (Option<&'a E>, u32)
    requires few { length entries.now ≤ MOST_LISTED }
    requires searchable { IsSearchable (map (λ e. E.against e wanted.now) entries.now) }
    ensures value { option_copied result.0 ≡ find (λ e. is_eq (E.against e wanted.now)) entries.now }
    ensures exact { result.1 ≡ comparisons (map (λ e. E.against e wanted.now) entries.now) }
    ensures most { result.1 ≤ 16 }
    ensures least { 0 < length entries.now → 1 ≤ result.1 }
{
    let mut probe = entries_beside(entries, wanted);
    match search(&mut probe) {
        Some(at) => (Some(&entries[at]), probe.asked()),
        None => (None, probe.asked()),
    }
}

impl Entry<FrameId> for Frame {
    ghost against = { λ frame id. id_cmp frame.id id };

    fn against(&self, wanted: &FrameId) -> Ordering {
        self.id.cmp(wanted)
    }
}

impl Entry<PageNo> for PageNo {
    ghost against = { nat_cmp };

    fn against(&self, wanted: &PageNo) -> Ordering {
        self.cmp(wanted)
    }
}

// The frame of an id among frames that ascend, and how many of them were compared with it.
pub fn find_among(frames: &[Frame], id: FrameId) -> (Option<&Frame>, u32)
    requires few { length frames.now ≤ MOST_LISTED }
    requires ascending { IsAscending frames.now }
    ensures value { option_copied result.0 ≡ frame_among frames.now id }
    ensures exact { result.1 ≡ frames_compared frames.now id }
    ensures most { result.1 ≤ 16 }
    ensures least { 0 < length frames.now → 1 ≤ result.1 }
{
    binary_search(frames, &id)
}

// Whether a page is among pages that ascend, and how many of them were compared with it.
pub fn is_among(pages: &[PageNo], page: PageNo) -> (bool, u32)
    requires few { length pages.now ≤ MOST_LISTED }
    requires ascending { IsStrictlyIncreasing pages.now }
    ensures value { result.0 ≡ lists_page pages.now page }
    ensures exact { result.1 ≡ pages_compared pages.now page }
    ensures most { result.1 ≤ 16 }
    ensures least { 0 < length pages.now → 1 ≤ result.1 }
{
    let (found, asked) = binary_search(pages, &page);
    (found.is_some(), asked)
}
