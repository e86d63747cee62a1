//! What a session keeps, and sessions that cross a change. Replies that the program prints are in `tests/cases`.

use frame_records::{Base, Body, Frame, GroupNo, Groups, Lead, Pence};
use page_ids::{Digit, FrameId, Key, PageNo, keys_read};
use session_machine::{Reply, Session};
use std::alloc::Global;
use std::test::Fail;
use test_support::{same, same_in};

fn price(number: u16) -> Result<Pence, Fail> {
    Ok(Pence::new(number).ok_or("a price")?)
}

// The frames of `demo`.
fn ids() -> Result<[FrameId; 3], Fail> {
    Ok([
        FrameId::read("123a")?,
        FrameId::read("1231a")?,
        FrameId::read("1231b")?,
    ])
}

// A frame with routes of the digits 0 and 1.
fn frame(
    alloc: Global,
    id: FrameId,
    price: Pence,
    zero: Option<PageNo>,
    one: Option<PageNo>,
) -> Frame {
    Frame {
        id,
        price,
        group: None,
        next: false,
        routes: [zero, one, None, None, None, None, None, None, None, None],
        lead: Lead::Clear,
        body: Body::of(Vec::new(alloc)),
    }
}

// An entry page and a page of two frames, of which the first may offer the next, and the second has this price or is missing.
// Page 0 is outside.
fn demo(alloc: Global, next: bool, last: Option<Pence>) -> Result<Base, Fail> {
    let [entry, first, second] = ids()?;
    let [free, five] = [price(0)?, price(5)?];
    let away = PageNo::new(0).ok_or("a page")?;
    let mut linked = frame(alloc, first, five, Some(entry.page), None);
    linked.next = next;
    let mut frames = Vec::new(alloc);
    frames.push(frame(alloc, entry, free, Some(away), Some(first.page)))?;
    frames.push(linked)?;
    if let Some(price) = last {
        frames.push(frame(alloc, second, price, Some(entry.page), None))?;
    }
    Ok(Base::build(entry.page, vec![in alloc; away]?, frames)?)
}

// Presses the keys in turn; the last three replies.
fn pressed(
    alloc: Global,
    session: &mut Session,
    base: &Base,
    keys: &str,
) -> Result<[Option<Reply>; 3], Fail> {
    let keys = keys_read(alloc, keys)?;
    let mut replies = [None; 3];
    for key in keys.as_slice() {
        let reply = session.key(base, *key);
        replies = [replies[1], replies[2], Some(reply)];
    }
    Ok(replies)
}

#[test]
fn opens_at_the_entry_frame(rt: HostRuntime) -> Result<(), Fail> {
    let [entry, ..] = ids()?;
    let free = price(0)?;
    let base = demo(rt.alloc(), true, Some(free))?;
    let (session, reply) = Session::open(rt.alloc(), &base, &Groups::none())?;
    let kept = (
        session.at(),
        session.left(),
        session.remembered(),
        session.remembered_at(0),
    );
    same(
        (reply, kept),
        (Reply::Shown(entry, free), (Some(entry), None, 0, None)),
    )
}

// Their entry frame is open to the last of the groups alone.
#[test]
fn opens_for_a_caller_of_16_groups(rt: HostRuntime) -> Result<(), Fail> {
    let [entry, ..] = ids()?;
    let free = price(0)?;
    let groups = Groups::read("1,2,3,4,5,6,7,8,9,10,11,12,13,14,15,16")?;
    let mut only = frame(rt.alloc(), entry, free, None, None);
    only.group = GroupNo::new(16);
    let base = Base::build(entry.page, Vec::new(rt.alloc()), vec![in rt.alloc(); only]?)?;
    let (session, reply) = Session::open(rt.alloc(), &base, &groups)?;
    same(
        (reply, session.at()),
        (Reply::Shown(entry, free), Some(entry)),
    )
}

// The frame and the page of a session, and the frames that it remembers.
type Kept = (Option<FrameId>, Option<PageNo>, [Option<FrameId>; 3], usize);

// The latest frame comes first; neither an update nor a reprint is remembered, and after an outside page nothing is.
#[test]
fn remembers_the_latest_first(rt: HostRuntime) -> Result<(), Fail> {
    let [entry, first, second] = ids()?;
    let away = PageNo::new(0).ok_or("a page")?;
    let free = price(0)?;
    let rows: [(&str, Kept); 3] = [
        (
            "1#",
            (Some(second), None, [Some(first), Some(entry), None], 2),
        ),
        ("1*09*00", (Some(first), None, [Some(entry), None, None], 1)),
        ("01", (None, Some(away), [None, None, None], 0)),
    ];
    let base = demo(rt.alloc(), true, Some(free))?;
    for (keys, wanted) in rows {
        let (mut session, _) = Session::open(rt.alloc(), &base, &Groups::none())?;
        pressed(rt.alloc(), &mut session, &base, keys)?;
        let frames = [
            session.remembered_at(0),
            session.remembered_at(1),
            session.remembered_at(2),
        ];
        let kept = (session.at(), session.left(), frames, session.remembered());
        same_in(keys, kept, wanted)?;
    }
    Ok(())
}

// The last replies to keys that are pressed in the base and then, at its last frame, in another one.
fn crossed(alloc: Global, last: Option<Pence>, keys: &str) -> Result<[Option<Reply>; 6], Fail> {
    let free = price(0)?;
    let old = demo(alloc, true, Some(free))?;
    let new = demo(alloc, false, last)?;
    let (mut session, _) = Session::open(alloc, &old, &Groups::none())?;
    let [a, b, c] = pressed(alloc, &mut session, &old, "1#")?;
    let [d, e, f] = pressed(alloc, &mut session, &new, keys)?;
    Ok([a, b, c, d, e, f])
}

// In the first new base the last frame has another price, and the remembered one is found; the second lacks the last frame.
#[test]
fn a_session_crosses_a_change(rt: HostRuntime) -> Result<(), Fail> {
    let [_, first, second] = ids()?;
    let [free, five, seven] = [price(0)?, price(5)?, price(7)?];
    let dearer = crossed(rt.alloc(), Some(seven), "*09*#")?;
    let fewer = crossed(rt.alloc(), None, "*090*#")?;
    let shown = |id: FrameId, price: Pence| Some(Reply::Shown(id, price));
    let [a, b] = [shown(first, five), shown(second, free)];
    let dear = shown(second, seven);
    let lost = Some(Reply::Missing(second));
    same(
        [dearer, fewer],
        [
            [None, a, b, None, dear, a],
            [None, a, b, lost, Some(Reply::NotOffered), a],
        ],
    )
}

// The number of a page, as its frame's price.
fn price_on(page: PageNo, otherwise: Pence) -> Pence {
    Pence::new((page.get() % 10_000) as u16).unwrap_or(otherwise)
}

// A frame `a` on each page from 0 on; route 1 leads to the following page, and from the last to page 0. A frame costs its
// page's number modulo 10,000.
fn ring(alloc: Global, count: u32, entry: PageNo, free: Pence) -> Result<Base, Fail> {
    let mut frames = Vec::new(alloc);
    for number in 0..count {
        let to = if number + 1 < count { number + 1 } else { 0 };
        let page = PageNo::new(number).unwrap_or(entry);
        let price = price_on(page, free);
        frames.push(frame(alloc, FrameId::first(page), price, None, PageNo::new(to)))?;
    }
    Ok(Base::build(entry, Vec::new(alloc), frames)?)
}

#[test]
fn a_base_of_65_535_frames_is_opened_and_walked(rt: HostRuntime) -> Result<(), Fail> {
    let entry = PageNo::new(0).ok_or("a page")?;
    let last = FrameId::read("65534a")?;
    let key = Key::Route(Digit::new(1).ok_or("a digit")?);
    let free = price(0)?;
    let base = ring(rt.alloc(), 65_535, entry, free)?;
    let (mut session, opened) = Session::open(rt.alloc(), &base, &Groups::none())?;
    let mut wrong = None;
    for number in 1..65_536u32 {
        let page = PageNo::new(number % 65_535).unwrap_or(entry);
        let reply = Reply::Shown(FrameId::first(page), price_on(page, free));
        if session.key(&base, key) != reply {
            wrong = Some(number);
        }
    }
    let kept = (session.remembered(), session.remembered_at(0));
    same(
        (opened, wrong, kept),
        (
            Reply::Shown(FrameId::first(entry), free),
            None,
            (3, Some(last)),
        ),
    )
}
