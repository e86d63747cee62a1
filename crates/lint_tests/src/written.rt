//! The base that a text means, and where it writes the frames.

use lint::{WrittenFrame, written_base};
use page_ids::FrameId;
use std::alloc::Global;
use std::test::Fail;
use test_support::{same, same_in};

const BASE: &str =
    "entry = 1\n[[frame]]\nid = '1a'\nbody = ''\n\n[[frame]]\nrows = []\nid = '12b'\n";

fn line_of(alloc: Global, text: &str, id: &str) -> Result<Option<WrittenFrame>, Fail> {
    let written = written_base(alloc, text.as_bytes())?.ok_or("base")?;
    Ok(written.lines.get(FrameId::read(id)?))
}

#[test]
fn a_frame_is_written_at_its_id(rt: HostRuntime) -> Result<(), Fail> {
    let body = WrittenFrame {
        line: 3,
        has_rows: false,
    };
    let rows = WrittenFrame {
        line: 8,
        has_rows: true,
    };
    same(line_of(rt.alloc(), BASE, "1a")?, Some(body))?;
    same(line_of(rt.alloc(), BASE, "12b")?, Some(rows))?;
    same(line_of(rt.alloc(), BASE, "1b")?, None)
}

#[test]
fn a_text_that_is_refused_means_no_base(rt: HostRuntime) -> Result<(), Fail> {
    let texts = [
        "entry",
        "outside = []\n",
        "entry = 1\n[[frame]]\nid = '1'\nbody = ''\n",
        "entry = 1\noutside = [1]\n[[frame]]\nid = '1a'\nbody = ''\n",
    ];
    for text in texts {
        let written = written_base(rt.alloc(), text.as_bytes())?;
        same_in(text, written.is_none(), true)?;
    }
    Ok(())
}
