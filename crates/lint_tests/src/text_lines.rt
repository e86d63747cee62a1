use std::alloc::Global;
use std::test::Fail;
use test_support::same_in;
use toml_places::TextLines;

// An offset, and its line and column.
type Row = (usize, (usize, usize));

fn gives(alloc: Global, text: &[u8], rows: &[Row]) -> Result<(), Fail> {
    let lines = TextLines::of(alloc, text)?;
    for (offset, place) in rows {
        same_in(*offset, lines.place(*offset), *place)?;
    }
    Ok(())
}

// Characters of two, three and four bytes; a carriage return is one too. Past the end is the end.
#[test]
fn lines_and_columns_count_from_one(rt: HostRuntime) -> Result<(), Fail> {
    let rows = [(10, (2, 1)), (12, (2, 3)), (0, (1, 1)), (99, (3, 1))];
    gives(rt.alloc(), b"entry = 1\n[[frame]]\n", &rows)?;
    let text = "\u{E9}\u{20AC}\u{1F600}x\r\ny";
    let rows = [(2, (1, 2)), (5, (1, 3)), (9, (1, 4)), (12, (2, 1))];
    gives(rt.alloc(), text.as_bytes(), &rows)?;
    gives(rt.alloc(), b"", &[(0, (1, 1))])
}

// 2,000 lines of four bytes: their places lie in several steps.
#[test]
fn a_long_text_has_places_everywhere(rt: HostRuntime) -> Result<(), Fail> {
    let text = "abc\n".repeat(rt.alloc(), 2_000)?;
    let rows = [
        (511, (128, 4)),
        (512, (129, 1)),
        (513, (129, 2)),
        (7_999, (2_000, 4)),
        (8_000, (2_001, 1)),
    ];
    gives(rt.alloc(), text.as_bytes(), &rows)
}
