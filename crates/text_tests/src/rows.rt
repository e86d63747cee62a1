use base_text::{RowCells, body_of_rows};
use std::test::Fail;
use test_support::{same, same_in};

#[test]
fn a_row_has_at_most_40_codes_of_two_ranges() -> Result<(), Fail> {
    let rows: [&[u8]; 6] = [
        b"",
        b"WELCOME",
        &[0x20],
        &[0x7F, 0x80, 0x9F],
        &[0x41; 39],
        &[0x41; 40],
    ];
    for codes in rows {
        let row = RowCells::new(codes).ok_or("a row")?;
        same_in(codes, row.as_slice(), codes)?;
    }
    let others: [&[u8]; 5] = [&[0x1F], &[0xA0], &[0xFF], &[0x41, 0x0A, 0x41], &[0x41; 41]];
    for codes in others {
        same_in(codes, RowCells::new(codes).is_none(), true)?;
    }
    Ok(())
}

#[test]
fn rows_follow_one_another_with_an_end_where_they_are_not_full(
    rt: HostRuntime,
) -> Result<(), Fail> {
    let none = body_of_rows(rt.alloc(), &[])?;
    same(none.as_slice(), [0x1E, 0x0A].as_slice())?;

    let welcome = RowCells::new(b"WELCOME").ok_or("a row")?;
    let body = body_of_rows(rt.alloc(), &[welcome])?;
    same(body.as_slice(), b"\x1E\x0AWELCOME\x0D\x0A".as_slice())?;
    Ok(())
}

#[test]
fn a_full_row_has_no_end(rt: HostRuntime) -> Result<(), Fail> {
    let full = RowCells::new(&[0x42; 40]).ok_or("a row")?;
    let empty = RowCells::new(b"").ok_or("a row")?;
    let short = RowCells::new(b"C").ok_or("a row")?;
    let body = body_of_rows(rt.alloc(), &[full, empty, short])?;
    let parts: [(usize, usize, &[u8]); 3] = [
        (0, 2, b"\x1E\x0A"),
        (2, 42, &[0x42; 40]),
        (42, 47, b"\x0D\x0AC\x0D\x0A"),
    ];
    for (from, to, codes) in parts {
        same_in(from, body.as_slice().get(from..to), Some(codes))?;
    }
    same(body.as_slice().len(), 47)?;
    Ok(())
}

#[test]
fn a_full_page_has_22_rows_without_an_end(rt: HostRuntime) -> Result<(), Fail> {
    let mut rows = Vec::new(rt.alloc());
    for _ in 0..22u8 {
        rows.push(RowCells::new(&[0x42; 40]).ok_or("a row")?)?;
    }
    assert_eq!(rt; rows.len(), 22);
    let body = body_of_rows(rt.alloc(), rows.as_slice())?;
    let codes = [0x42; 880];
    same(body.as_slice().len(), 882)?;
    same(body.as_slice().get(..2), Some(b"\x1E\x0A".as_slice()))?;
    same(body.as_slice().get(2..), Some(codes.as_slice()))?;
    Ok(())
}
