//! The bases that are audited.

use base_text::base_read;
use frame_records::{Base, Body, Frame, Lead, Pence};
use page_ids::{FrameId, PageNo};
use std::alloc::Global;
use std::test::Fail;

pub fn base_of(alloc: Global, text: &str) -> Result<Base, Fail> {
    Ok(base_read(alloc, text.as_bytes())?)
}

// This many frames `a` on pages in steps from 0 on, of which each leads by route 1 to the following one, and by route 0 to page
// 0. Route 5 of the last leads to a page of its own.
pub fn chain(alloc: Global, count: u32, step: u32, last: Option<PageNo>) -> Result<Base, Fail> {
    let entry = PageNo::new(0).ok_or("page")?;
    let price = Pence::new(0).ok_or("price")?;
    let mut frames = Vec::new(alloc);
    for number in 0..count {
        let page = PageNo::new(number.saturating_mul(step)).unwrap_or(entry);
        let mut routes = [None; 10];
        routes[0] = Some(entry);
        if number + 1 < count {
            routes[1] = PageNo::new((number + 1).saturating_mul(step));
        } else {
            routes[5] = last;
        }
        frames.push(Frame {
            id: FrameId::first(page),
            price,
            group: None,
            next: false,
            routes,
            lead: Lead::Clear,
            body: Body::of(Vec::new(alloc)),
        })?;
    }
    Ok(Base::build(entry, Vec::new(alloc), frames)?)
}
