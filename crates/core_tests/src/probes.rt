//! Searches by a probe of these tests' own, which counts for itself what it is asked.

ghost use Rattle.std.specs.Prelude.{◌≡◌, ◌≤◌, IfOk, length, map};
ghost use Rattle.std.specs.Ordering.{nat_cmp};
ghost use Rattle.std.specs.List.Sorted.{IsStrictlyIncreasing};

use frame_records::{Probe, search};
use page_ids::PageNo;
use std::alloc::Global;
use std::cmp::Ordering;
use std::marker::Model;
use std::test::Fail;
use test_support::{depth, same_in};

// Pages that are compared with one, and how often that was asked.
#[derive(Drop)]
struct Counting<'a> {
    pages: &'a [PageNo],
    wanted: &'a PageNo,
    questions: u32,
}

impl<'a> Model for Counting<'a> {
    ghost use Rattle.std.specs.Prelude.{map};
    ghost use Rattle.std.specs.Ordering.{nat_cmp};
    ghost use Rattle.frame_records.specs.Bases.{ProbeView};

    ghost Value = { ProbeView };

    ghost view = { λ p. record { orderings = map (λ q. nat_cmp q p.wanted.now) p.pages.now; count = p.questions } };
}

impl Probe for Counting<'_> {
    ghost orderings = { λ p. p.orderings };

    ghost count = { λ p. p.count };

    fn len(&self) -> usize {
        self.pages.len()
    }

    fn asked(&self) -> u32 {
        self.questions
    }

    fn ask(&mut self, i: usize) -> Ordering {
        self.questions += 1;
        self.pages[i].cmp(self.wanted)
    }
}

fn beside<'a>(pages: &'a [PageNo], wanted: &'a PageNo) -> Counting<'a>
    ensures orderings { result.orderings ≡ map (λ q. nat_cmp q wanted.now) pages.now }
    ensures fresh { result.count ≡ 0 }
{
    Counting {
        pages,
        wanted,
        questions: 0,
    }
}

// The pages in order, each once.
fn in_order(mut pages: Vec<PageNo>) -> Vec<PageNo>
    ensures { IsStrictlyIncreasing result.items }
{
    pages.sort_unstable();
    pages.dedup();
    pages
}

// This many odd numbers, from 1.
fn odd_pages(alloc: Global, count: u32) -> Result<Vec<PageNo>, Fail>
    ensures few { IfOk result (λ pages. length pages.items ≤ 65535) }
    ensures ascending { IfOk result (λ pages. IsStrictlyIncreasing pages.items) }
{
    let mut pages = Vec::new(alloc);
    for i in 0..count {
        let number = i.saturating_mul(2).saturating_add(1);
        pages.push(PageNo::new(number).ok_or("page")?)?;
    }
    let pages = in_order(pages);
    if pages.len() > 65_535 {
        return Err(Fail::from("too many"));
    }
    Ok(pages)
}

// The place of a number, and how often the search asked.
fn sought(pages: &[PageNo], wanted: PageNo) -> (Option<usize>, u32)
    requires few { length pages.now ≤ 65535 }
    requires ascending { IsStrictlyIncreasing pages.now }
{
    let mut probe = beside(pages, &wanted);
    let place = search(&mut probe);
    (place, probe.questions)
}

// Each number up to one after the last of this many odd ones is sought: those that are there and those that aren't.
fn seek_each(alloc: Global, count: u32) -> Result<(), Fail> {
    let pages = odd_pages(alloc, count)?;
    for number in 0..count.saturating_mul(2).saturating_add(1) {
        let wanted = PageNo::new(number).ok_or("page")?;
        let there = (number % 2 == 1).then_some(number as usize / 2);
        let got = sought(pages.as_slice(), wanted);
        same_in((number, count), got, (there, depth(count, number)))?;
    }
    Ok(())
}

#[test]
fn each_place_of_each_list_is_found(rt: HostRuntime) -> Result<(), Fail> {
    for count in 0..101u32 {
        seek_each(rt.alloc(), count)?;
    }
    seek_each(rt.alloc(), 65_535)
}
