//! Spans, each looked up as the text in it.

use std::alloc::Global;
use std::test::Fail;
use test_support::same_in;
use toml_places::{
    Extent, KeyPlace, Places, Span, TablePlaces, TextLines, char_span, element_spans, frame_span,
    integer_at, key_span, pair_span, value_span,
};

// The text of a span.
fn shown(text: &str, span: Option<Span>) -> &str {
    match span {
        Some(span) => text.get(span.begin..span.end).unwrap_or("no text"),
        None => "no span",
    }
}

// A key as it is written, its value and the pair of both.
fn written<'a>(text: &'a str, spot: Option<KeyPlace>) -> (&'a str, &'a str, &'a str) {
    match spot {
        Some(spot) => (
            shown(text, key_span(text, spot)),
            shown(text, value_span(text, spot)),
            shown(text, pair_span(text, spot)),
        ),
        None => ("no spot", "no spot", "no spot"),
    }
}

// A key: its frame and name, how it is written, its value, and both.
type KeyRow<'a> = (Option<usize>, &'a str, (&'a str, &'a str, &'a str));

fn have_keys(alloc: Global, text: &str, rows: &[KeyRow<'_>]) -> Result<(), Fail> {
    let places = Places::of(alloc, text)?;
    for (frame, key, wanted) in rows {
        same_in(
            (*frame, *key),
            written(text, places.key(*frame, key)),
            *wanted,
        )?;
    }
    Ok(())
}

#[test]
fn keys_and_values_are_where_they_are_written(rt: HostRuntime) -> Result<(), Fail> {
    let text =
        "\u{FEFF}entry = 1 # where callers begin\r\n\"outs\\u0069de\" = [0, 5]\n[[frame]]\nid = \"1a\" # \"\n";
    let rows = [
        (None, "entry", ("entry", "1", "entry = 1")),
        (
            None,
            "outside",
            ("\"outs\\u0069de\"", "[0, 5]", "\"outs\\u0069de\" = [0, 5]"),
        ),
        (Some(0), "id", ("id", "\"1a\"", "id = \"1a\"")),
        (Some(0), "price", ("no spot", "no spot", "no spot")),
    ];
    have_keys(rt.alloc(), text, &rows)
}

// If a dotted key or a header makes a table, the value is that key or header.
#[test]
fn a_table_is_at_its_first_key_or_header(rt: HostRuntime) -> Result<(), Fail> {
    let text =
        "a . 'b'.c = 1\n[[frame]]\nprice . x = 3\n[frame.\"body\".x] # two\n[[other . y ]]\n";
    let rows = [
        (None, "a", ("a", "a . 'b'.c", "a . 'b'.c = 1")),
        (Some(0), "price", ("price", "price . x", "price . x = 3")),
        (
            Some(0),
            "body",
            ("\"body\"", "[frame.\"body\".x]", "[frame.\"body\".x]"),
        ),
        (None, "other", ("other", "[[other . y ]]", "[[other . y ]]")),
    ];
    have_keys(rt.alloc(), text, &rows)
}

const ROUTES: [(&str, &str, (&str, &str, &str)); 5] = [
    (
        "[[frame]]\n'routes' . \"9\" = 555",
        "9",
        ("\"9\"", "555", "\"9\" = 555"),
    ),
    (
        "[[frame]]\nroutes.routes=0x1F\n",
        "routes",
        ("routes", "0x1F", "routes=0x1F"),
    ),
    (
        "[[frame]]\n[frame.routes]\n9 = 5 # 6",
        "9",
        ("9", "5", "9 = 5"),
    ),
    (
        "[[frame]]\n[frame.routes.9]\nx = 1",
        "9",
        ("9", "[frame.routes.9]", "[frame.routes.9]"),
    ),
    (
        "[[frame]]\n[ \"frame\" . frame ]\n[frame.routes.\"a\".frame]",
        "a",
        (
            "\"a\"",
            "[frame.routes.\"a\".frame]",
            "[frame.routes.\"a\".frame]",
        ),
    ),
];

#[test]
fn routes_are_where_they_are_written(rt: HostRuntime) -> Result<(), Fail> {
    for (text, key, wanted) in ROUTES {
        let places = Places::of(rt.alloc(), text)?;
        same_in(text, written(text, places.route(0, key)), wanted)?;
    }
    Ok(())
}

// A key of an inline table, and one below its `routes`.
#[test]
fn inline_tables_have_places_of_their_own(rt: HostRuntime) -> Result<(), Fail> {
    let text =
        "frame = [ # [\n{ id = \"}\", 'routes'.3 = 5, price = {x = [1]}, routes.\"q\" = [\n],\n} ]";
    let tables = [
        (10, ("no spot", "no spot", "no spot")),
        (14, ("id", "\"}\"", "id = \"}\"")),
    ];
    for (at, wanted) in tables {
        let places = TablePlaces::of(rt.alloc(), text, at)?;
        same_in(at, written(text, places.key("id")), wanted)?;
    }
    let places = TablePlaces::of(rt.alloc(), text, 14)?;
    same_in(
        "price",
        written(text, places.key("price")),
        ("price", "{x = [1]}", "price = {x = [1]}"),
    )?;
    same_in("3", written(text, places.route("3")), ("3", "5", "3 = 5"))?;
    same_in(
        "q",
        written(text, places.route("q")),
        ("\"q\"", "[\n]", "\"q\" = [\n]"),
    )?;
    same_in(
        "routes",
        written(text, places.key("routes")),
        ("'routes'", "'routes'.3", "'routes'.3 = 5"),
    )
}

#[test]
fn headers_have_their_brackets(rt: HostRuntime) -> Result<(), Fail> {
    let text = "[[ \"frame\" ]] # one\n[[frame]]\nframe = [{ id = '}' } , [1]]";
    let rows = [
        (0, "[[ \"frame\" ]]"),
        (20, "[[frame]]"),
        (39, "{ id = '}' }"),
        (38, "no span"),
        (99, "no span"),
    ];
    for (at, wanted) in rows {
        same_in(at, shown(text, frame_span(text, at)), wanted)?;
    }
    Ok(())
}

#[test]
fn elements_are_counted_from_zero(rt: HostRuntime) -> Result<(), Fail> {
    let text =
        "rows = [ # [\n 1979-05-27 07:32:00 , \"],\" ,'''\n]'''\n, [2, [3]],{ a = ']' }\n] # ]";
    let rows = [
        (0, "1979-05-27 07:32:00"),
        (1, "\"],\""),
        (2, "'''\n]'''"),
        (3, "[2, [3]]"),
        (4, "{ a = ']' }"),
        (5, "no span"),
    ];
    let all = element_spans(rt.alloc(), text, 7)?;
    for (index, wanted) in rows {
        same_in(index, shown(text, all.get(index).copied()), wanted)?;
    }
    same_in("all", all.len(), 5)?;
    same_in("no array", element_spans(rt.alloc(), text, 8)?.len(), 0)
}

#[test]
fn an_integer_is_read_where_it_is_written(rt: HostRuntime) -> Result<(), Fail> {
    let text = "[ +1_0, 0x1F,-3 ,2.0,\"4\", 99999999999999999999 ]";
    let rows = [
        (2, Some(10)),
        (8, Some(31)),
        (13, Some(-3)),
        (17, None),
        (21, None),
        (26, None),
        (0, None),
        (99, None),
    ];
    for (at, wanted) in rows {
        same_in(at, integer_at(rt.alloc(), text, at)?, wanted)?;
    }
    Ok(())
}

// A string, an index and the character of that index as it is written.
const CHARACTERS: [(&str, usize, &str); 24] = [
    ("\"abc\"", 0, "a"),
    ("\"abc\"", 2, "c"),
    ("\"abc\"", 3, "no span"),
    ("'a\\n'", 1, "\\"),
    ("\"\\u00E9\\n\\\"z\"", 0, "\\u00E9"),
    ("\"\\u00E9\\n\\\"z\"", 1, "\\n"),
    ("\"\\u00E9\\n\\\"z\"", 2, "\\\""),
    ("\"\\u00E9\\n\\\"z\"", 3, "z"),
    ("\"\\U0001F600\\x41\\e\"", 0, "\\U0001F600"),
    ("\"\\U0001F600\\x41\\e\"", 1, "\\x41"),
    ("\"\\U0001F600\\x41\\e\"", 2, "\\e"),
    ("\"\u{E9}\u{20AC}\u{1F600}x\"", 1, "\u{20AC}"),
    ("\"\u{E9}\u{20AC}\u{1F600}x\"", 3, "x"),
    ("\"\"\"\nab\"\"\"", 0, "a"),
    ("\"\"\"\r\nab\"\"\"", 0, "a"),
    ("\"\"\"a\\  \r\n \t\n b\"\"\"", 0, "a"),
    ("\"\"\"a\\  \r\n \t\n b\"\"\"", 1, "b"),
    ("\"\"\"a\r\nb\"\"\"", 1, "\r"),
    ("\"\"\"a\r\nb\"\"\"", 2, "\n"),
    ("\"\"\"a\r\nb\"\"\"", 3, "b"),
    ("\"\"\"a\"\"b\"\"\"\"\"", 1, "\""),
    ("\"\"\"a\"\"b\"\"\"\"\"", 5, "\""),
    ("'''\n''a\n'''", 2, "a"),
    ("'''\n''a\n'''", 3, "\n"),
];

#[test]
fn characters_are_as_they_are_written(rt: HostRuntime) -> Result<(), Fail> {
    for (string, index, wanted) in CHARACTERS {
        let text = ["body = ", string, " # x"].concat(rt.alloc())?;
        same_in(
            (string, index),
            shown(&text, char_span(&text, 7, index)),
            wanted,
        )?;
    }
    same_in(
        "no string",
        shown("a = 1", char_span("a = 1", 4, 0)),
        "no span",
    )
}

// A span, and its line, column, last line and the column after its last character.
type ExtentRow = (Span, (usize, usize, usize, usize));

fn gives(alloc: Global, text: &[u8], rows: &[ExtentRow]) -> Result<(), Fail> {
    let lines = TextLines::of(alloc, text)?;
    for (span, (line, column, end_line, end_column)) in rows {
        let wanted = Extent {
            line: *line,
            column: *column,
            end_line: *end_line,
            end_column: *end_column,
        };
        same_in(*span, lines.extent(*span), wanted)?;
    }
    Ok(())
}

fn span(begin: usize, end: usize) -> Span {
    Span { begin, end }
}

#[test]
fn spans_end_after_their_last_character(rt: HostRuntime) -> Result<(), Fail> {
    let rows = [
        (span(0, 5), (1, 1, 1, 6)),
        (span(0, 0), (1, 1, 1, 1)),
        (span(4, 6), (1, 5, 1, 7)),
        (span(4, 7), (1, 5, 2, 2)),
        (span(5, 10), (1, 6, 3, 2)),
    ];
    gives(
        rt.alloc(),
        b"abcd\r\nef\n\ngh",
        &[
            (span(4, 6), (1, 5, 1, 7)),
            (span(3, 6), (1, 4, 1, 7)),
            (span(6, 9), (2, 1, 2, 4)),
        ],
    )?;
    gives(rt.alloc(), b"abcde\nf\n\ng", &rows[..3])?;
    let text = "\u{FEFF}\u{E9}\u{20AC}\u{1F600}x\n\u{FEFF}y";
    let rows = [
        (span(0, 3), (1, 1, 1, 1)),
        (span(3, 5), (1, 1, 1, 2)),
        (span(5, 12), (1, 2, 1, 4)),
        (span(8, 12), (1, 3, 1, 4)),
        (span(12, 14), (1, 4, 1, 6)),
        (span(14, 17), (2, 1, 2, 2)),
    ];
    gives(rt.alloc(), text.as_bytes(), &rows)?;
    let rows = [
        (span(1, 2), (1, 2, 1, 3)),
        (span(2, 3), (1, 3, 1, 4)),
        (span(3, 5), (1, 4, 1, 5)),
    ];
    gives(rt.alloc(), b"a\xFFb\xE2\x82", &rows)?;
    gives(rt.alloc(), b"a\x80b", &[(span(1, 2), (1, 2, 1, 3))])
}
