//! Frames that go into a base's text.

use base_text::{BaseCause, Field};
use frame_edits::{MergeFault, Merged, merge_frames};
use page_ids::FrameId;
use screen_files::{Album, Filed, Origin, ScreenFrame, ScreenPlace, Settled};
use std::alloc::Global;
use std::test::Fail;
use test_support::same;

const BASE: &[u8] =
    b"entry = 1 # it\n[[frame]]\nid = \"1a\"\nbody = \"OLD\" # more\nprice = 5\n\n[[frame]]\nid = \"1b\"\nlead = \"keep\"\nrows = [\"OLD\"]";

// Frames whose row 1 has one code.
fn screens(alloc: Global, ids: &[&str]) -> Result<Settled, Fail> {
    let mut album = Album::new(alloc);
    for id in ids {
        let mut codes = [b' '; 960];
        codes[40] = b'X';
        let filed = Filed {
            origin: Origin {
                file: 3,
                place: ScreenPlace::Whole,
            },
            frame: ScreenFrame {
                id: FrameId::read(id)?,
                price: None,
                codes,
            },
        };
        album.add(&[filed])?;
    }
    Ok(album.settle(alloc)?)
}

fn into(alloc: Global, text: &[u8], ids: &[&str]) -> Result<Result<Merged, MergeFault>, Fail> {
    let settled = screens(alloc, ids)?;
    Ok(merge_frames(alloc, text, false, &settled))
}

fn same_ids(found: &[FrameId], wanted: &[&str]) -> Result<(), Fail> {
    same(found.len(), wanted.len())?;
    for (id, text) in found.iter().zip(wanted) {
        same(id.text().as_str(), *text)?;
    }
    Ok(())
}

#[test]
fn rows_are_replaced_and_frames_added(rt: HostRuntime) -> Result<(), Fail> {
    let merged = into(rt.alloc(), BASE, &["2a", "1b", "1a"])??;
    let text =
        b"entry = 1 # it\n[[frame]]\nid = \"1a\"\nrows = [\n    \"X\",\n] # more\nprice = 5\n\n[[frame]]\nid = \"1b\"\nlead = \"keep\"\nrows = [\"OLD\"]\n\n[[frame]]\nid = \"2a\"\nroutes = { }\nrows = [\n    \"X\",\n]\n";
    same(merged.text.as_slice(), text.as_slice())?;
    same_ids(merged.replaced.as_slice(), &["1a"])?;
    same_ids(merged.added.as_slice(), &["2a"])?;
    same_ids(merged.left.as_slice(), &["1b"])
}

#[test]
fn frames_that_show_their_screens_stay(rt: HostRuntime) -> Result<(), Fail> {
    let texts: [&[u8]; 6] = [
        b"entry = 1\n[[frame]]\nid = \"1a\"\nrows = [ 'X', # it\n]\n",
        b"entry = 1\n[[frame]]\nid = \"1a\"\nlead = \"clear\"\nrows = [\"X  \", \"\"]\n",
        b"entry = 1\n[[frame]]\nid = \"1a\"\nbody = \"X\"\n",
        b"entry = 1\n[[frame]]\nid = \"1a\"\nbody = \"A\\rX\\u0011\"\n",
        b"entry = 1\n[[frame]]\nid = \"1a\"\nbody = \"\\u001E\\n\\u00D8\"\n",
        b"entry = 1\n[[frame]]\nid = \"1a\"\nrows = [\n    \"X\",\n]\n",
    ];
    for text in texts {
        let merged = into(rt.alloc(), text, &["1a"])??;
        same(merged.text.as_slice(), text)?;
        same_ids(merged.same.as_slice(), &["1a"])?;
        same(
            merged.replaced.len() + merged.added.len() + merged.left.len(),
            0,
        )?;
    }
    Ok(())
}

#[test]
fn frames_that_show_other_screens_are_replaced(rt: HostRuntime) -> Result<(), Fail> {
    let texts: [&[u8]; 5] = [
        b"entry = 1\n[[frame]]\nid = \"1a\"\nrows = ['x']\n",
        b"entry = 1\n[[frame]]\nid = \"1a\"\nrows = ['', 'X']\n",
        b"entry = 1\n[[frame]]\nid = \"1a\"\nbody = \"XX\"\n",
        b"entry = 1\n[[frame]]\nid = \"1a\"\nbody = \"\\u001EA\\r\\nX\"\n",
        b"entry = 1\n[[frame]]\nid = \"1a\"\nbody = \"X\\u001E\\u000BA\"\n",
    ];
    for text in texts {
        let merged = into(rt.alloc(), text, &["1a"])??;
        same_ids(merged.replaced.as_slice(), &["1a"])?;
        same(merged.same.len(), 0)?;
    }
    Ok(())
}

#[test]
fn no_frames_leave_the_text(rt: HostRuntime) -> Result<(), Fail> {
    let merged = into(rt.alloc(), BASE, &[])??;
    same(merged.text.as_slice(), BASE)
}

#[test]
fn faults_name_the_text(rt: HostRuntime) -> Result<(), Fail> {
    let unread = into(rt.alloc(), b"outside = [0]\n", &["1a"])?.err();
    let Some(MergeFault::Unread(fault)) = unread else {
        return Err("a base without an entry page".into());
    };
    same(fault.cause, BaseCause::Absent(Field::Entry))?;
    let spoilt = into(rt.alloc(), b"entry = 1\nframe = []\n", &["1a"])?.err();
    let Some(MergeFault::Spoilt(fault)) = spoilt else {
        return Err("frames of two forms".into());
    };
    same(fault.cause, BaseCause::NotToml)
}
