//! The faults of bases as a whole.

use base_text::{BaseCause, WholeFault, draft_of, whole_faults};
use page_ids::{FrameId, PageNo};
use std::test::Fail;
use test_support::same;

// Frames that are too long, lead on from z or share an id, one that doesn't read, and a page that is outside and inside.
const TOP: &str =
    "entry = 1\noutside = [7, 2, 7, 2]\nframe = [{ id = '2z', next = true, body = '' }, { id = '1a', body = '' }, { id = '2z', body = '' }, { id = 'x' }, { id = '1a', body = '' }, { id = '1a', body = '' }, { id = '3a', body = '";

#[test]
fn faults_of_the_whole_come_by_id(rt: HostRuntime) -> Result<(), Fail> {
    let long = "A".repeat(rt.alloc(), 4097)?;
    let text = [TOP, long.as_str(), "' }]"].concat(rt.alloc())?;
    let table = toml::table_from_str(rt.alloc(), text.as_str())
        .ok()
        .ok_or("TOML")?;
    let mut draft = draft_of(rt.alloc(), table)?;
    let [one, two, three] = [
        FrameId::read("1a")?,
        FrameId::read("2z")?,
        FrameId::read("3a")?,
    ];
    let wanted = [
        WholeFault::BodyTooLong {
            table: 6,
            id: three,
            length: 4097,
        },
        WholeFault::NextAfterZ { table: 0, id: two },
        WholeFault::Duplicate {
            table: 4,
            first: 1,
            id: one,
        },
        WholeFault::Duplicate {
            table: 5,
            first: 1,
            id: one,
        },
        WholeFault::Duplicate {
            table: 2,
            first: 0,
            id: two,
        },
        WholeFault::OutsideInside(PageNo::read("2")?),
    ];
    let faults = whole_faults(rt.alloc(), &mut draft.outside, &mut draft.frames)?;
    let first = faults.as_slice().first().map(|fault| fault.cause());
    same(faults.as_slice(), wanted.as_slice())?;
    same(first, Some(BaseCause::BodyTooLong(three)))
}
