//! Callers with a terminal in colours.

use ansi_line::{AnsiKeys, AnsiScreen, screen_text};
use devices::{Sink, Source};
use std::test::Fail;
use terminal_codes::Terminal;
use test_support::{FakeSink, FakeSource, same, same_in};

// What is typed, and what is heard.
const TYPED: [(&[u8], &[u8]); 10] = [
    (b"1#*", b"1#*"),
    (b"1\r2", b"1#2"),
    (b"1\n2", b"1#2"),
    (b"*\r\n\r\n", b"*#\0#\0"),
    (b"\n\r\n\n", b"##\0#"),
    (b"\x1b[6~1", b"\x1b[\0\x001"),
    (b"\x1b[1;5C\r2", b"\x1b[\0\0\0\0#2"),
    (b"\x1bOP1", b"\x1bO\x001"),
    (b"\x1b1", b"\x1b1"),
    (b"\x1b[3\r1", b"\x1b[\0#1"),
];

#[test]
fn enter_is_one_hash_and_cursor_keys_are_none(rt: HostRuntime) -> Result<(), Fail> {
    let alloc = rt.alloc();
    for (typed, heard) in TYPED {
        let mut keys = AnsiKeys::new(FakeSource::of(typed, 2));
        let mut bytes = Vec::new(alloc);
        let mut into = [0; 4];
        for _ in 0..9 {
            match keys.read(&mut into) {
                Ok(count) => bytes.extend_from_slice(into.get(..count).ok_or("a count")?)?,
                Err(_) => return Err(Fail::from("a read")),
            }
        }
        same_in(typed, bytes.as_slice(), heard)?;
    }
    Ok(())
}

// The text of a screen with these bytes on it.
fn text_after(rt: &HostRuntime, bytes: &[u8]) -> Result<Vec<u8>, Fail> {
    let mut terminal = Terminal::new();
    terminal.run(bytes);
    Ok(screen_text(rt.alloc(), &terminal)?)
}

#[test]
fn each_row_has_its_place_and_no_line_end(rt: HostRuntime) -> Result<(), Fail> {
    let text = text_after(&rt, b"\x1bAHI")?;
    same(
        text.starts_with(b"\x1b[1;1H\x1b[K\x1b[40m \x1b[31mHI"),
        true,
    )?;
    same(text.contains(&b'\n'), false)?;
    let last = b"\x1b[0m\x1b[24;1H\x1b[J\x1b[40m                                        \x1b[0m";
    same(text.ends_with(last), true)
}

#[test]
fn flush_writes_the_screen_once(rt: HostRuntime) -> Result<(), Fail> {
    let alloc = rt.alloc();
    let mut screen = AnsiScreen::new(alloc, FakeSink::of(alloc, 100));
    same(screen.write(b"\x11\x0cONE").ok(), Some(5))?;
    same(screen.write(b"").ok(), Some(0))?;
    same(screen.flush().is_ok(), true)?;
    let one = text_after(&rt, b"ONE")?;
    same(screen.inner.taken.as_slice(), one.as_slice())?;
    same(screen.flush().is_ok(), true)?;
    same(screen.inner.taken.len(), one.len())?;
    same(screen.inner.flushed, one.len())?;
    same(screen.is_refused, false)
}
