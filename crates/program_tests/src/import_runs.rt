//! Saved screens as a base.

use crate::expected::{ALL, sink, source, taken};
use page_ids::PageNo;
use pageaudit::{
    Album, FileFrames, FileKind, Filed, ImportFault, ImportStatus, ScreenFault, ScreenPlace,
    Settled, run_import, status_of_import, take_frames,
};
use std::alloc::Global;
use std::test::Fail;
use test_support::{same, same_in};

// A file of rows 1 to 22 alone.
fn rows(alloc: Global, first: &str) -> Result<String, Fail> {
    Ok(format!(in alloc; "{first:<880}")?)
}

const BASE: &str =
    "entry = 4\n\n[[frame]]\nid = \"4a\"\nnext = true\nroutes = { } # keys shown: 1\nrows = [\n    \"1 News\",\n]\n\n[[frame]]\nid = \"4b\"\nroutes = { }\nrows = [\n    \"MORE\",\n]\n";

// The result without the frames.
fn fault_of(taken: &Result<FileFrames, ImportFault>) -> Result<(), ImportFault> {
    match taken {
        Ok(_) => Ok(()),
        Err(fault) => Err(*fault),
    }
}

// Adds a file's frame: the result, how often the file is read, and how many frames there are then.
fn take(
    alloc: Global,
    text: &str,
    kept: usize,
    path: &str,
    album: &mut Album,
) -> (Result<(), ImportFault>, u32, usize) {
    let mut file = source(text, ALL, kept);
    let taken = take_frames(alloc, &mut file, FileKind::Cells, path, 7, album);
    (fault_of(&taken), file.calls, album.as_slice().len())
}

fn settled(alloc: Global, album: Album) -> Result<Settled, Fail> {
    Ok(album.settle(alloc)?)
}

#[test]
fn screens_make_a_base(rt: HostRuntime) -> Result<(), Fail> {
    let alloc = rt.alloc();
    let mut album = Album::new(alloc);
    let (more, news) = (rows(alloc, "MORE")?, rows(alloc, "1 News")?);
    same(
        take(alloc, more.as_str(), ALL, "dumps/4b.bin", &mut album),
        (Ok(()), 2, 1),
    )?;
    same(
        take(alloc, news.as_str(), ALL, "4a", &mut album),
        (Ok(()), 2, 2),
    )?;
    let settled = settled(alloc, album)?;
    for (room, status, flushes, wrote) in [
        (ALL, 0, 1, BASE.len()),
        (0, 3, 0, 0),
        (9, 3, 0, 9),
        (BASE.len(), 3, 1, BASE.len()),
    ] {
        let mut out = sink(alloc, BASE, room);
        let run = run_import(alloc, &settled, None, false, &mut out);
        same_in(room, run == Ok(ImportStatus::Printed), room == ALL)?;
        same_in(room, status_of_import(&run), status)?;
        same_in(room, (out.flushes, taken(&out, BASE)), (flushes, wrote))?;
    }
    Ok(())
}

#[test]
fn the_entry_page_may_be_named(rt: HostRuntime) -> Result<(), Fail> {
    let alloc = rt.alloc();
    let mut album = Album::new(alloc);
    let news = rows(alloc, "1 News")?;
    same(
        take(alloc, news.as_str(), ALL, "4a.m7", &mut album),
        (Ok(()), 2, 1),
    )?;
    let text =
        "entry = 9\n\n[[frame]]\nid = \"4a\"\nroutes = { } # keys shown: 1\nrows = [\n    \"1 News\",\n]\n";
    let mut out = sink(alloc, text, ALL);
    let run = run_import(
        alloc,
        &settled(alloc, album)?,
        PageNo::new(9),
        false,
        &mut out,
    );
    same(run == Ok(ImportStatus::Printed), true)?;
    same(taken(&out, text), text.len())
}

// A file that gives no frame, and one that fails, leave the album as it was.
#[test]
fn a_file_may_give_no_frame(rt: HostRuntime) -> Result<(), Fail> {
    let alloc = rt.alloc();
    let mut album = Album::new(alloc);
    let blank = rows(alloc, "")?;
    let cases = [
        ("", ALL, "4a", 1, ImportFault::Screen(ScreenFault::Empty)),
        (
            "1 News",
            ALL,
            "4a",
            2,
            ImportFault::Screen(ScreenFault::Size(6)),
        ),
        (
            blank.as_str(),
            ALL,
            "A",
            2,
            ImportFault::Screen(ScreenFault::NoId),
        ),
        (blank.as_str(), 9, "4a", 2, ImportFault::Broken),
    ];
    for (text, kept, path, reads, fault) in cases {
        same_in(
            path,
            take(alloc, text, kept, path, &mut album),
            (Err(fault), reads, 0),
        )?;
    }
    Ok(())
}

// A capture gives a frame for each id. What isn't kept, and what has no id, is named.
#[test]
fn a_capture_gives_its_screens(rt: HostRuntime) -> Result<(), Fail> {
    let alloc = rt.alloc();
    let mut album = Album::new(alloc);
    let text = "\u{c}9a\nA\u{c}NO ID\u{c}8a\u{c}9a\nB";
    let mut file = source(text, ALL, ALL);
    match take_frames(alloc, &mut file, FileKind::Stream, "x", 3, &mut album) {
        Ok(found) => {
            same(found.unnamed.as_slice(), [5].as_slice())?;
            same(found.frames.twins().len(), 1)?;
        }
        Err(_) => return Err(Fail::from("no frames")),
    }
    same(album.as_slice().len(), 2)?;
    for (filed, byte) in album.as_slice().iter().zip([11, 0]) {
        same(filed.origin.file, 3)?;
        same(filed.origin.place, ScreenPlace::Byte(byte))?;
    }
    Ok(())
}

// Adds the first frame of an album again, with the page of its number, until it has this many.
fn fill(album: &mut Album, most: usize) -> Result<(), Fail> {
    let Some(first) = album.as_slice().first().copied() else {
        return Err(Fail::from("no frame"));
    };
    for file in album.as_slice().len()..most {
        let mut filed: Filed = first;
        filed.origin.file = file;
        let number = u32::try_from(file).unwrap_or(0).saturating_add(1_000);
        filed.frame.id.page = PageNo::new(number).ok_or("page")?;
        same_in(file, album.add(&[filed]).is_ok(), true)?;
    }
    Ok(())
}

// An album of dense screens: a frame of attributes alone has 5,504 bytes, the first 5,501 and the first line 10.
fn dense(alloc: Global, most: usize) -> Result<Album, Fail> {
    let mut album = Album::new(alloc);
    let mut text = String::new(alloc);
    for _ in 0..880 {
        text.push('\u{1}')?;
    }
    same(
        take(alloc, text.as_str(), ALL, "4a", &mut album),
        (Ok(()), 2, 1),
    )?;
    fill(&mut album, most)?;
    Ok(album)
}

// The 3,049th frame ends too late. Nothing is written then.
#[test]
fn a_base_has_a_most(rt: HostRuntime) -> Result<(), Fail> {
    let alloc = rt.alloc();
    let album = dense(alloc, 3_051)?;
    let mut out = sink(alloc, BASE, ALL);
    let run = run_import(alloc, &settled(alloc, album)?, None, false, &mut out);
    same(run == Ok(ImportStatus::TooLong(3_048)), true)?;
    same(
        (status_of_import(&run), out.flushes, taken(&out, BASE)),
        (3, 0, 0),
    )
}

#[test]
fn an_album_has_a_most(rt: HostRuntime) -> Result<(), Fail> {
    let alloc = rt.alloc();
    let mut album = dense(alloc, 65_535)?;
    let one = rows(alloc, "1 News")?;
    same(
        take(alloc, one.as_str(), ALL, "4a", &mut album),
        (Err(ImportFault::TooMany), 2, 65_535),
    )
}
