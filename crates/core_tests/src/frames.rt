//! Bases built by hand; those that are refused are in `tests/cases`.

use frame_records::{
    Base, Body, Destination, Frame, GroupFault, GroupNo, Groups, GroupsFault, Lead, Pence, Sought,
};
use page_ids::{FrameId, PageNo, Way, cut};
use std::alloc::Global;
use std::test::Fail;
use test_support::{depth, same, same_in};

fn page(number: u32) -> Result<PageNo, Fail> {
    Ok(PageNo::new(number).ok_or("page")?)
}

fn id(text: &str) -> Result<FrameId, Fail> {
    Ok(FrameId::read(text)?)
}

// An open frame of a price, without a body.
fn frame(alloc: Global, id: FrameId, price: Pence, routes: [Option<PageNo>; 10]) -> Frame {
    Frame {
        id,
        price,
        group: None,
        next: true,
        routes,
        lead: Lead::Clear,
        body: Body::of(Vec::new(alloc)),
    }
}

// A base of an entry frame, whose routes 0 to 3 lead to an open, a closed, a missing and an outside page, and `#` to a missing
// letter; of an open frame; and of two of the group 7.
fn base_of_ways(alloc: Global, price: Pence) -> Result<Base, Fail> {
    let (entry, [a, b, c]) = (id("123a")?, [id("5a")?, id("5b")?, id("6a")?]);
    let mut routes = [None; 10];
    for (digit, number) in [(0usize, 5), (1, 6), (2, 7), (3, 8)] {
        routes[digit] = PageNo::new(number);
    }
    let mut first_closed = frame(alloc, b, price, [None; 10]);
    first_closed.group = GroupNo::new(7);
    let mut second_closed = frame(alloc, c, price, [None; 10]);
    second_closed.group = GroupNo::new(7);
    let open = frame(alloc, a, price, [None; 10]);
    let outside = vec![in alloc; page(8)?, page(0)?]?;
    let from = frame(alloc, entry, price, routes);
    let frames = vec![in alloc; from, first_closed, open, second_closed]?;
    Ok(Base::build(entry.page, outside, frames)?)
}

#[test]
fn a_base_answers_by_its_map(rt: HostRuntime) -> Result<(), Fail> {
    let price = Pence::new(5).ok_or("price")?;
    let [entry, a, c] = [id("123a")?, id("5a")?, id("5c")?];
    let pages = [page(0)?, page(5)?];
    let base = base_of_ways(rt.alloc(), price)?;
    let top = (base.entry(), base.entry_frame(), base.frames().len());
    let are_there = [base.find(a).is_some(), base.find(c).is_some()];
    let are_outside = [base.is_outside(pages[0]), base.is_outside(pages[1])];
    same(
        (top, are_there, are_outside),
        ((entry.page, entry, 4), [true, false], [true, false]),
    )
}

#[test]
fn a_frame_is_sought_for_the_callers_groups(rt: HostRuntime) -> Result<(), Fail> {
    let price = Pence::new(5).ok_or("price")?;
    let [entry, closed, missing] = [id("123a")?, id("5b")?, id("9a")?];
    let member = Groups::read("6,7,9")?;
    let other = Groups::read("6,8")?;
    let nobody = Groups::none();
    let base = base_of_ways(rt.alloc(), price)?;
    let got = [
        base.seek(entry, &nobody),
        base.seek(closed, &nobody),
        base.seek(missing, &nobody),
        base.seek(entry, &member),
        base.seek(closed, &member),
        base.seek(closed, &other),
        base.seek(missing, &member),
    ];
    let found = Sought::Found(price);
    same(
        got,
        [
            found,
            Sought::Closed,
            Sought::Missing,
            found,
            found,
            Sought::Closed,
            Sought::Missing,
        ],
    )
}

#[test]
fn a_way_comes_to_what_it_seeks(rt: HostRuntime) -> Result<(), Fail> {
    let price = Pence::new(5).ok_or("price")?;
    let entry = id("123a")?;
    let [open, closed, missing, next] = [id("5a")?, id("6a")?, id("7a")?, id("123b")?];
    let first = id("8a")?;
    let nobody = Groups::none();
    let base = base_of_ways(rt.alloc(), price)?;
    let from = base.find(entry).ok_or("no frame")?;
    let got = [
        base.follow(from, Way::at(0), &nobody),
        base.follow(from, Way::at(1), &nobody),
        base.follow(from, Way::at(2), &nobody),
        base.follow(from, Way::at(3), &nobody),
        base.follow(from, Way::at(4), &nobody),
        base.follow(from, Way::at(10), &nobody),
    ];
    let sought = [
        from.sought(Way::at(3)),
        from.sought(Way::at(9)),
        from.sought(Way::Next),
    ];
    let wanted = [
        Destination::Found(open, price),
        Destination::Closed(closed),
        Destination::Missing(missing),
        Destination::Outside(first.page),
        Destination::NotOffered,
        Destination::Missing(next),
    ];
    same((got, sought), (wanted, [Some(first), None, Some(next)]))
}

#[test]
fn numbers_end_at_their_limits() -> Result<(), Fail> {
    for (number, kept) in [(9_999, Some(9_999)), (10_000, None)] {
        same_in(number, Pence::new(number).map(Pence::get), kept)?;
    }
    for (number, kept) in [(65_535, Some(65_535)), (0, None)] {
        same_in(number, GroupNo::new(number).map(GroupNo::get), kept)?;
    }
    Ok(())
}

#[test]
fn a_body_keeps_its_bytes(rt: HostRuntime) -> Result<(), Fail> {
    let mut bytes = Vec::new(rt.alloc());
    bytes.extend_from_slice(b"\x1e\nWELCOME")?;
    same(Body::of(bytes).as_slice(), b"\x1e\nWELCOME".as_slice())?;
    Ok(())
}

// A base without frames and with this many outside pages: the odd numbers from 1.
fn odd_pages(alloc: Global, count: u32) -> Result<Base, Fail> {
    let entry = page(0)?;
    let mut pages = Vec::new(alloc);
    for i in 0..count {
        let odd = PageNo::new(i.saturating_mul(2).saturating_add(1));
        pages.push(odd.unwrap_or(entry))?;
    }
    Ok(Base::build(entry, pages, Vec::new(alloc))?)
}

// Whether a number among this many odd ones is found if and only if it is listed, in as many comparisons as a binary search makes.
fn is_sought(base: &Base, count: u32, wanted: u32) -> bool {
    let last = count.saturating_mul(2);
    let listed = wanted % 2 == 1 && wanted < last;
    PageNo::new(wanted).is_some_and(|page| {
        base.is_outside_counted(page) == (listed, depth(count, wanted.min(last)))
    })
}

// Each number of each short list, and some of the longest.
#[test]
fn each_page_is_found_and_no_other(rt: HostRuntime) -> Result<(), Fail> {
    for count in 0..101u32 {
        let base = odd_pages(rt.alloc(), count)?;
        let mut numbers = 0..count.saturating_mul(2).saturating_add(2);
        same_in(
            count,
            numbers.find(|wanted| !is_sought(&base, count, *wanted)),
            None,
        )?;
    }
    let base = odd_pages(rt.alloc(), 65_535)?;
    let numbers = [0, 1, 2, 65_535, 65_536, 131_067, 131_069, 131_070];
    let wrong = numbers
        .iter()
        .find(|wanted| !is_sought(&base, 65_535, **wanted));
    same(wrong, None)
}

// A base of the frames `a` of seven pages from 11 on, and of seven outside pages from 21 on.
fn base_of_seven(alloc: Global) -> Result<Base, Fail> {
    let price = Pence::new(0).ok_or("price")?;
    let mut frames = Vec::new(alloc);
    let mut outside = Vec::new(alloc);
    for number in 0..7u32 {
        let id = FrameId::first(page(number + 11)?);
        frames.push(frame(alloc, id, price, [None; 10]))?;
        outside.push(page(number + 21)?)?;
    }
    Ok(Base::build(page(11)?, outside, frames)?)
}

#[test]
fn a_look_up_of_seven_entries_compares_up_to_three(rt: HostRuntime) -> Result<(), Fail> {
    let base = base_of_seven(rt.alloc())?;
    for (i, comparisons) in [3, 2, 3, 1, 3, 2, 3].iter().enumerate() {
        let frame = FrameId::first(page(i as u32 + 11)?);
        let (found, frames) = base.find_counted(frame);
        let got = (found.map(|frame| frame.id), frames);
        same_in(i, got, (Some(frame), *comparisons))?;
        let got = base.is_outside_counted(page(i as u32 + 21)?);
        same_in(i, got, (true, *comparisons))?;
    }
    let (absent, frames) = base.find_counted(FrameId::first(page(10)?));
    same((absent.is_none(), frames), (true, 3))
}

#[test]
fn groups_are_read_from_their_texts() -> Result<(), Fail> {
    for (text, count) in [
        ("7", 1),
        ("7,9", 2),
        ("1,2,3,4,5,6,7,8,9,10,11,12,13,14,15,65535", 16),
    ] {
        same_in(text, Groups::read(text)?.len(), count)?;
    }
    let two = Groups::read("7,9")?;
    let [seven, eight, nine] = [GroupNo::new(7), GroupNo::new(8), GroupNo::new(9)];
    for (group, is_among) in [(seven, true), (eight, false), (nine, true)] {
        same_in(group, group.is_some_and(|group| two.has(group)), is_among)?;
    }
    for text in [
        "",
        "9,7",
        "7,7",
        "0",
        "65536",
        "07",
        "7,",
        ",7",
        "7,,9",
        "7 9",
        "7, 9",
        "a",
        "1,2,3,4,5,6,7,8,9,10,11,12,13,14,15,16,17",
    ] {
        let fault = Groups::read(text).err();
        same_in(text, fault, Some(GroupsFault::BadGroups))?;
    }
    Ok(())
}

#[test]
fn the_first_number_at_fault_is_reported() -> Result<(), Fail> {
    let rows: [(&str, Option<GroupFault>); 8] = [
        ("7 9", None),
        ("", Some(GroupFault::Number)),
        ("7  9", Some(GroupFault::Number)),
        ("07", Some(GroupFault::Number)),
        ("0", Some(GroupFault::Range)),
        ("9 7 0", Some(GroupFault::Order)),
        (
            "1 2 3 4 5 6 7 8 9 10 11 12 13 14 15 16 17",
            Some(GroupFault::Range),
        ),
        (
            "1 2 3 4 5 6 7 8 9 10 11 12 13 14 15 16 x",
            Some(GroupFault::Number),
        ),
    ];
    for (text, fault) in rows {
        let got = Groups::read_split(text.as_bytes(), b' ').err();
        same_in(text, got, fault)?;
    }
    Ok(())
}

#[test]
fn groups_take_what_is_greater() -> Result<(), Fail> {
    let seven = GroupNo::new(7).ok_or("group")?;
    let nine = GroupNo::new(9).ok_or("group")?;
    let two = Groups::read("7,9")?;
    let one = Groups::read("7")?;
    let mut groups = Groups::none();
    let taken = [groups.push(seven), groups.push(seven), groups.push(nine)];
    let again = groups.copy();
    let are_same = (again.are_same(&two), again.are_same(&one));
    same(
        (taken, are_same, again.len()),
        ([true, false, true], (true, false), 2),
    )?;
    for i in 0..again.len() {
        let number = if i == 0 { 7 } else { 9 };
        same_in(i, again.at(i).get(), number)?;
    }
    Ok(())
}

#[test]
fn a_text_is_cut_at_its_first_separator() -> Result<(), Fail> {
    let rows: [(&[u8], Option<(&[u8], &[u8])>); 2] = [(b"7,9,", Some((b"7", b"9,"))), (b"7", None)];
    for (text, parts) in rows {
        same(cut(text, b','), parts)?;
    }
    Ok(())
}
