use base_text::base_read;
use frame_records::{Base, Pence};
use frame_screens::{FrameList, screen};
use page_ids::{FrameId, PageNo};
use served_bytes::{
    end_words, keyed_page_words, push_opening, push_reply, push_words, replies_send_frames,
    reply_words, serves_exactly, seven_bits_do, top_is_shown,
};
use session_machine::Reply;
use std::alloc::Global;
use std::test::Fail;
use terminal_codes::{Caret, Terminal};
use test_support::{DEMO, same, same_in};

// An attribute, a byte from A0 on, and an escape that is pending at the end.
const HIGH: &str =
    "entry = 7\n[[frame]]\nid = '7a'\nprice = 12\nlead = 'keep'\nbody = \"\\u0081A\\u00C1\\u001B\"\n";

fn shown(id: &str) -> Result<Reply, Fail> {
    Ok(Reply::Shown(FrameId::read(id)?, Pence::FREE))
}

// The centre's rows, with this row 0, an empty row 23, and then the way back.
fn after_frame(alloc: Global, frame: &[u8], top: &[u8], back: &[u8]) -> Result<Vec<u8>, Fail> {
    let mut text = Vec::new(alloc);
    text.extend_from_slice(frame)?;
    text.push(0x1e)?;
    text.extend_from_slice(top)?;
    text.extend_from_slice(b"\x1e\x0b                                        ")?;
    text.extend_from_slice(back)?;
    Ok(text)
}

#[test]
fn frame_has_the_centres_rows_and_the_way_back(rt: HostRuntime) -> Result<(), Fail> {
    let alloc = rt.alloc();
    let base = base_read(alloc, DEMO.as_bytes())?;
    let mut text = Vec::new(alloc);
    let caret = push_opening(&mut text)?;
    let caret = push_reply(alloc, &mut text, &base, caret, &shown("123a")?)?;
    let wanted = after_frame(
        alloc,
        b"\x11\x0c\x0c\x1e\x0a\x1e\x0aWELCOME\x0d\x0a",
        b"                               123a   0p",
        b"\x1e\x0a\x0a",
    )?;
    same(text.as_slice(), wanted.as_slice())?;
    same(
        caret,
        Caret {
            at: 80,
            pending: false,
        },
    )
}

#[test]
fn line_has_seven_bits(rt: HostRuntime) -> Result<(), Fail> {
    let alloc = rt.alloc();
    let base = base_read(alloc, HIGH.as_bytes())?;
    let mut text = Vec::new(alloc);
    let start = Caret {
        at: 38,
        pending: false,
    };
    let caret = push_reply(alloc, &mut text, &base, start, &shown("7a")?)?;
    let wanted = after_frame(
        alloc,
        b"\x1bAA\x00A\x1b",
        b"                                 7a  12p",
        b"\x1e\x0a\x09\x1b",
    )?;
    same(text.as_slice(), wanted.as_slice())?;
    same(
        caret,
        Caret {
            at: 41,
            pending: true,
        },
    )
}

#[test]
fn other_replies_have_words(rt: HostRuntime) -> Result<(), Fail> {
    let alloc = rt.alloc();
    let base = base_read(alloc, DEMO.as_bytes())?;
    let id = FrameId::read("5a")?;
    let page = PageNo::new(123_456_789).ok_or("page")?;
    let replies = [
        (Reply::NotOffered, "KEY NOT IN USE"),
        (Reply::Missing(id), "NO SUCH PAGE"),
        (Reply::Closed(id), "CLOSED USER GROUP ONLY"),
        (Reply::Gone(page), "LEAVING FOR PAGE 123456789"),
    ];
    let start = Caret {
        at: 82,
        pending: false,
    };
    for (reply, words) in &replies {
        let mut text = Vec::new(alloc);
        let caret = push_reply(alloc, &mut text, &base, start, reply)?;
        same_in(words, caret, start)?;
        let mut wanted = Vec::new(alloc);
        wanted.extend_from_slice(b"\x1e\x0b")?;
        wanted.extend_from_slice(words.as_bytes())?;
        for _ in words.len()..40 {
            wanted.push(b' ')?;
        }
        wanted.extend_from_slice(b"\x1e\x0a\x0a\x09\x09")?;
        same_in(words, text.as_slice(), wanted.as_slice())?;
        same_in(words, reply_words(reply).as_str(), words)?;
    }
    same(keyed_page_words().as_str(), "PAGES CANNOT BE KEYED HERE")?;
    same(end_words().as_str(), "GOODBYE")
}

// Rows 0 to 22 of a screen.
fn above(codes: &[u8; 960]) -> &[u8] {
    &codes[..920]
}

// Row 23.
fn bottom(codes: &[u8; 960]) -> &[u8] {
    &codes[920..]
}

// A terminal that was used, after what is sent for replies.
fn used_terminal(alloc: Global, base: &Base, ids: &[&str]) -> Result<Terminal, Fail> {
    let mut text = Vec::new(alloc);
    text.extend_from_slice(b"\x14NOISE\x0a\x1b")?;
    let mut caret = push_opening(&mut text)?;
    for id in ids {
        caret = push_reply(alloc, &mut text, base, caret, &shown(id)?)?;
        push_words(&mut text, caret, b"*12")?;
    }
    let mut terminal = Terminal::new();
    terminal.run(text.as_slice());
    Ok(terminal)
}

#[test]
fn terminal_shows_what_show_paints(rt: HostRuntime) -> Result<(), Fail> {
    let alloc = rt.alloc();
    let base = base_read(alloc, DEMO.as_bytes())?;
    let terminal = used_terminal(alloc, &base, &["123a", "1231a"])?;
    let last = FrameList::of(alloc, FrameId::read("1231a")?)?;
    let painted = screen(&base, &last);
    same(above(terminal.cells()), above(&painted))?;
    same(
        bottom(terminal.cells()),
        b"*12                                     ".as_slice(),
    )?;
    same(terminal.at(), 80)?;
    serves_exactly();
    replies_send_frames();
    top_is_shown();
    seven_bits_do();
    Ok(())
}
