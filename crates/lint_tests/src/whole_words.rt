//! The words of a base's faults as a whole.

use crate::printed::printed;
use base_text::WholeFault;
use lint_words::whole_fault_words;
use page_ids::{FrameId, PageNo};
use std::test::Fail;
use test_support::same_in;

#[test]
fn faults_of_the_whole_have_their_words(rt: HostRuntime) -> Result<(), Fail> {
    let id = FrameId::read("33152z")?;
    let page = PageNo::read("3316")?;
    let (table, first, length) = (7, 2, 4_203);
    let faults = [
        (
            WholeFault::TooManyFrames(65_536),
            "B4 TooMany: the base has 65,536 frames, at most 65,535 are allowed",
        ),
        (
            WholeFault::TooManyOutside(70_000),
            "B4 TooMany: \"outside\" has 70,000 pages, at most 65,535 are allowed",
        ),
        (
            WholeFault::BodyTooLong { table, id, length },
            "B5 BodyTooLong: the body of frame 33152z has 4,203 bytes, at most 4,096 are allowed",
        ),
        (
            WholeFault::NextAfterZ { table, id },
            "B3 NextAfterZ: frame 33152z has \"next\", but z is the last frame of a page",
        ),
        (
            WholeFault::Duplicate { table, first, id },
            "B1 Duplicate: frame 33152z is defined already on line 196607",
        ),
        (
            WholeFault::OutsideInside(page),
            "B2 OutsideInside: page 3316 is listed as outside, but the base has a frame of it",
        ),
    ];
    for (fault, words) in faults {
        let given = whole_fault_words(rt.alloc(), &fault, 196_607)?;
        same_in(words, printed(rt.alloc(), &given)?.as_str(), words)?;
    }
    Ok(())
}
