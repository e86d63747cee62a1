//! The certificate of a base of three frames, read whole and in pieces; texts that are refused are in `tests/cases` too.

ghost use Rattle.std.specs.Prelude.{◌<◌};

use abstract_paint::{AbsCursor, Pend, Place};
use cert_table::{Certificate, Cover, Row};
use cert_text::{CertReader, LineCause, ReadFault, cert_read, cert_write};
use frame_records::GroupNo;
use page_ids::{FrameId, PageNo};
use std::alloc::{AllocError, Global};
use std::test::Fail;
use test_support::{CERT, same, same_in};

// The same for callers of group 7.
const GROUPED: &str =
    "PBC2\nentry 123\nceiling 5\nkeyings 1\ngroups 7\nrows 3\n123a 0 s80\n1231a 1 s80\n1231b 1 s48\nend\n";

fn reading_in_pieces(alloc: Global, text: &[u8], size: usize) -> Result<Certificate, ReadFault>
    requires { 0 < size }
{
    let mut reader = CertReader::new(alloc);
    for piece in text.chunks(size) {
        reader.feed(piece)?;
    }
    reader.finish()
}

// The fault of a text that is read in pieces of this many bytes.
fn fault_of(alloc: Global, text: &[u8], size: usize) -> Option<ReadFault> {
    reading_in_pieces(alloc, text, size.max(1)).err()
}

// A text that is read in pieces, and written again.
fn written_again(alloc: Global, text: &[u8], size: usize) -> Result<Vec<u8>, Fail> {
    let cert = reading_in_pieces(alloc, text, size.max(1))?;
    Ok(cert_write(alloc, &cert)?)
}

// A certificate's entry page, ceiling, keyings, and how many groups and rows it has.
fn parts(cert: &Certificate) -> (u32, u16, u16, usize, usize) {
    (
        cert.entry().get(),
        cert.ceiling().get(),
        cert.keyings(),
        cert.groups().len(),
        cert.cover().len(),
    )
}

#[test]
fn a_certificate_is_read_and_written_back(rt: HostRuntime) -> Result<(), Fail> {
    let third = FrameId::read("1231b")?;
    let seven = GroupNo::new(7).ok_or("a group")?;
    let row = Row {
        id: third,
        rank: 1,
        cursor: AbsCursor {
            place: Place::Spot(48),
            pend: Pend::No,
        },
    };
    for (text, groups) in [(CERT, 0), (GROUPED, 1)] {
        let cert = cert_read(rt.alloc(), text.as_bytes())?;
        let again = cert_write(rt.alloc(), &cert)?;
        let has = (cert.groups().has(seven), cert.cover().row_of(third));
        same(
            (parts(&cert), has, again.as_slice()),
            (
                (123, 5, 1, groups, 3),
                (groups == 1, Some(&row)),
                text.as_bytes(),
            ),
        )?;
    }
    Ok(())
}

// The first bytes of a text.
fn front(text: &str, count: usize) -> &[u8] {
    text.get(..count).unwrap_or(text).as_bytes()
}

// How many bytes each piece has.
const SIZES: [usize; 5] = [1, 2, 3, 7, 4096];

// Where a text ends early, and with its last line.
#[test]
fn a_text_that_ends_early_is_truncated_however_it_is_cut(rt: HostRuntime) -> Result<(), Fail> {
    for text in [CERT, GROUPED] {
        let mut line = 1u32;
        for (kept, byte) in text.as_bytes().iter().enumerate() {
            let early = front(text, kept);
            let fault = Some(ReadFault::Line(line, LineCause::Truncated));
            same_in(kept, cert_read(rt.alloc(), early).err(), fault)?;
            for size in SIZES {
                same_in((kept, size), fault_of(rt.alloc(), early, size), fault)?;
            }
            line = line.saturating_add(u32::from(*byte == b'\n'));
        }
    }
    Ok(())
}

#[test]
fn the_cuts_of_a_text_do_not_matter(rt: HostRuntime) -> Result<(), Fail> {
    for size in 1..82 {
        let again = written_again(rt.alloc(), CERT.as_bytes(), size)?;
        same_in(size, again.as_slice(), CERT.as_bytes())?;
    }
    Ok(())
}

// Every spelling of a row, and the lines of one group and of sixteen.
const SPELLINGS: [(&str, &str); 16] = [
    (CERT, "123a 0 any"),
    (CERT, "123a 0 any+"),
    (CERT, "123a 0 any?"),
    (CERT, "123a 0 c0"),
    (CERT, "123a 0 c39+"),
    (CERT, "123a 0 c9?"),
    (CERT, "123a 0 s0"),
    (CERT, "123a 0 s959"),
    (CERT, "123a 0 s48+"),
    (CERT, "123a 65535 s100?"),
    (CERT, "0a 0 any"),
    (CERT, "1230z 10 any"),
    (GROUPED, "groups 1"),
    (GROUPED, "groups 65535"),
    (GROUPED, "groups 7 9"),
    (
        GROUPED,
        "groups 65520 65521 65522 65523 65524 65525 65526 65527 65528 65529 65530 65531 65532 65533 65534 65535",
    ),
];

#[test]
fn every_spelling_is_written_back_however_the_text_is_cut(rt: HostRuntime) -> Result<(), Fail> {
    for (text, line) in SPELLINGS {
        let old = if line.starts_with("groups") {
            "groups 7"
        } else {
            "123a 0 s80"
        };
        let text = text.replacen(rt.alloc(), old, line, 1)?;
        for size in SIZES {
            let again = written_again(rt.alloc(), text.as_str().as_bytes(), size)?;
            same_in((line, size), again.as_slice(), text.as_str().as_bytes())?;
        }
    }
    Ok(())
}

// Each kind of fault that one change makes.
#[test]
fn a_changed_line_is_refused_however_the_text_is_cut(rt: HostRuntime) -> Result<(), Fail> {
    let rows: [(&str, &str, u32, LineCause); 11] = [
        ("PBC1", "PBC3", 1, LineCause::Magic),
        ("entry 123", "Entry 123", 2, LineCause::Word),
        ("entry 123", "entry 0123", 2, LineCause::Number),
        ("rows 3", "rows 65536", 5, LineCause::Range),
        ("1231a 1 s80", "1231a 01 s80", 7, LineCause::Number),
        ("1231a 1 s80", "1231a 1 s960", 7, LineCause::Cursor),
        ("1231b 1 s48", "1231a 1 s80", 8, LineCause::Order),
        ("rows 3", "rows 4", 9, LineCause::Count),
        ("rows 3", "rows 2", 8, LineCause::Count),
        ("end", "END", 9, LineCause::Count),
        ("end", "end\nX", 10, LineCause::Tail),
    ];
    for (old, new, line, cause) in rows {
        let text = CERT.replacen(rt.alloc(), old, new, 1)?;
        for size in SIZES {
            let fault = fault_of(rt.alloc(), text.as_str().as_bytes(), size);
            same_in((new, size), fault, Some(ReadFault::Line(line, cause)))?;
        }
    }
    Ok(())
}

#[test]
fn a_reader_that_was_refused_has_failed(rt: HostRuntime) -> Result<(), Fail> {
    let mut reader = CertReader::new(rt.alloc());
    let first = reader.feed(b"PBC3\n");
    let second = reader.feed(b"entry 123\n");
    let last = reader.finish().err();
    same(
        (first, second, last),
        (
            Err(ReadFault::Line(1, LineCause::Magic)),
            Err(ReadFault::Failed),
            Some(ReadFault::Failed),
        ),
    )
}

// The certificate of 65,535 rows, over a megabyte long, with another line in the place of one, counted from 1.
fn long_text(alloc: Global, number: u32, line: &str) -> Result<String, AllocError> {
    let mut text = String::new(alloc);
    text.push_str("PBC1\nentry 0\nceiling 9999\nkeyings 65535\nrows 65535\n")?;
    for i in 6..65_542u32 {
        if i == number {
            text.push_str(line)?;
        } else if i == 65_541 {
            text.push_str("end")?;
        } else if let Some(page) = PageNo::new(999_000_000 + i) {
            text.push_str(FrameId::first(page).text().as_str())?;
            text.push_str(" 65535 s959+")?;
        }
        text.push('\n')?;
    }
    Ok(text)
}

// As one text and as pieces of a megabyte.
#[test]
fn the_largest_table_is_read_and_written(rt: HostRuntime) -> Result<(), Fail> {
    let text = long_text(rt.alloc(), 0, "")?;
    let again = written_again(rt.alloc(), text.as_str().as_bytes(), 1_048_576)?;
    let is_same = again.as_slice() == text.as_str().as_bytes();
    same((again.len() > 1_048_576, is_same), (true, true))
}

#[test]
fn a_fault_after_many_rows_is_reported(rt: HostRuntime) -> Result<(), Fail> {
    for (number, line, cause) in [
        (65_000, "1a 0 any", LineCause::Order),
        (65_541, "END", LineCause::Count),
    ] {
        let text = long_text(rt.alloc(), number, line)?;
        let fault = Some(ReadFault::Line(number, cause));
        let whole = cert_read(rt.alloc(), text.as_str().as_bytes()).err();
        let pieces = fault_of(rt.alloc(), text.as_str().as_bytes(), 1_048_576);
        same_in(number, [whole, pieces], [fault, fault])?;
    }
    Ok(())
}
