//! The forms of findings.

use crate::findings::policy;
use finding_forms::{Format, findings_text};
use lint::lint;
use std::alloc::Global;
use std::test::Fail;
use test_support::same_in;

// What is printed of a text whose file is `a,b.toml`.
fn prints(alloc: Global, format: Format, text: &[u8], wanted: &str) -> Result<(), Fail> {
    let findings = lint(alloc, text, &policy(5, 9, "")?)?;
    let printed = findings_text(alloc, format, b"a,b.toml", text, findings.as_slice())?;
    same_in(wanted, str::from_utf8(printed.as_slice()), Ok(wanted))
}

// The lines below the first one, of a text with one finding.
fn draws(alloc: Global, text: &[u8], wanted: &str) -> Result<(), Fail> {
    let findings = lint(alloc, text, &policy(5, 9, "")?)?;
    let printed = findings_text(alloc, Format::Full, b"b.toml", text, findings.as_slice())?;
    let below = str::from_utf8(printed.as_slice())?.split_once('\n');
    same_in(wanted, below.map(|(_, below)| below), Some(wanted))
}

const PRICE: &[u8] = b"entry = 1\n[[frame]]\nid = \"1a\"\nprice = 10000\nrows = []\n";

#[test]
fn full_has_the_line_of_the_text_and_carets(rt: HostRuntime) -> Result<(), Fail> {
    let wanted =
        "a,b.toml:4:9: error: X6 Range: \"price\" of frame 1a is 10000, at most 9999 is allowed\n    \
        4 | price = 10000\n      |         ^^^^^\n";
    prints(rt.alloc(), Format::Full, PRICE, wanted)
}

#[test]
fn colours_are_those_of_the_level(rt: HostRuntime) -> Result<(), Fail> {
    let wanted = "\x1b[1ma,b.toml:4:9:\x1b[0m \x1b[1;31merror:\x1b[0m \
        X6 Range: \"price\" of frame 1a is 10000, at most 9999 is allowed\n\
        \x1b[1;34m    4 | \x1b[0mprice = 10000\n\
        \x1b[1;34m      | \x1b[0m        \x1b[1;31m^^^^^\x1b[0m\n";
    prints(rt.alloc(), Format::Coloured, PRICE, wanted)?;
    let escaped = b"entry = 1\n[[frame]]\nid = \"1a\"\nrows = ['\\u0081']\n";
    let findings = lint(rt.alloc(), escaped, &policy(5, 9, "")?)?;
    let printed = findings_text(
        rt.alloc(),
        Format::Coloured,
        b"b.toml",
        escaped,
        findings.as_slice(),
    )?;
    let warned = str::from_utf8(printed.as_slice())?.split_once(
        " \x1b[1;33mwarning:\x1b[0m ESCAPE",
    );
    same_in(
        "a warning",
        warned.map(|(place, _)| place),
        Some("\x1b[1mb.toml:4:9:\x1b[0m"),
    )
}

#[test]
fn line_is_the_line_alone(rt: HostRuntime) -> Result<(), Fail> {
    let wanted =
        "a,b.toml:4:9: error: X6 Range: \"price\" of frame 1a is 10000, at most 9999 is allowed\n";
    prints(rt.alloc(), Format::Line, PRICE, wanted)
}

#[test]
fn github_has_the_columns_of_a_span_on_one_line(rt: HostRuntime) -> Result<(), Fail> {
    let one = "::error file=a%2Cb.toml,line=4,endLine=4,col=9,endColumn=14,title=X6 Range::\
        \"price\" of frame 1a is 10000, at most 9999 is allowed\n";
    prints(rt.alloc(), Format::Github, PRICE, one)?;
    let text = b"entry = 1\n[[frame]]\nid = \"\"\"\n50%:\"\"\"\nrows = []\n";
    let more = "::error file=a%2Cb.toml,line=3,endLine=4,title=I2 BadFrame::\
        \"50%25:\" is not a frame id; write a page number and one small letter, as 1231a\n";
    prints(rt.alloc(), Format::Github, text, more)
}

#[test]
fn json_has_what_a_finding_is_about(rt: HostRuntime) -> Result<(), Fail> {
    let price =
        "{\"code\":\"X6\",\"column\":9,\"end_column\":14,\"end_line\":4,\"file\":\"a,b.toml\",\"fix\":null,\"frame\":\"1a\",\
        \"hint\":null,\"key\":\"price\",\"keys\":null,\"level\":\"error\",\"line\":4,\
        \"message\":\"\\\"price\\\" of frame 1a is 10000, at most 9999 is allowed\"}\n";
    prints(rt.alloc(), Format::Json, PRICE, price)?;
    let missing =
        "{\"code\":\"MISSING\",\"column\":12,\"end_column\":17,\"end_line\":5,\"file\":\"a,b.toml\",\"fix\":null,\
        \"frame\":\"1a\",\"hint\":\"write frame 4a, or list 4 in outside\",\"key\":\"3\",\"keys\":\"3\",\"level\":\"error\",\"line\":5,\
        \"message\":\"key 3 of frame 1a leads to page 4, which has no frame a (keys 3)\"}\n";
    let text = b"entry = 1\n[[frame]]\nid = \"1a\"\nrows = []\nroutes = { 3 = 4 }\n";
    prints(rt.alloc(), Format::Json, text, missing)?;
    let entry =
        "{\"code\":\"ENTRYMISSING\",\"column\":9,\"end_column\":10,\"end_line\":1,\"file\":\"a,b.toml\",\"fix\":null,\
        \"frame\":\"1a\",\"hint\":null,\"key\":\"entry\",\"keys\":\"\",\"level\":\"error\",\"line\":1,\
        \"message\":\"the entry page 1 has no frame a\"}\n";
    prints(rt.alloc(), Format::Json, b"entry = 1\n", entry)
}

// The second row's value is on two lines, and the third is of U+0085 alone.
#[test]
fn carets_go_below_all_columns_of_a_span(rt: HostRuntime) -> Result<(), Fail> {
    let rows: [(&[u8], &str); 7] = [
        (
            b"entry = 1\n[[frame]]\nid = \"1a\"\n\tprice =\t-1\r\nrows = []\n",
            "    4 | \tprice =\t-1\n      | \t       \t^^\n",
        ),
        (
            b"entry = 1\n[[frame]]\nid = \"\"\"\r\n1A\"\"\"\nrows = []\n",
            "    3 | id = \"\"\"\n      |      ^^^\n",
        ),
        (
            b"entry = 1\n[[frame]]\nid = \"\xC2\x85\t\"\nrows = []\n",
            "    3 | id = \"\\u0085\t\"\n      |      ^^^^^^^^^\n",
        ),
        (
            b"entry = 1\n[[frame]]\nid = \"\xEF\xBC\xA1\"\nrows = []\n",
            "    3 | id = \"\u{FF21}\"\n      |      ^^^^\n",
        ),
        (
            b"\xEF\xBB\xBFentry = -1\n[[frame]]\nid = \"1a\"\nrows = []\n",
            "    1 | entry = -1\n      |         ^^\n",
        ),
        (
            b"\xEF\xBB\xBF[[frame]]\nid = \"1a\"\nrows = []\n",
            "    1 | [[frame]]\n      | ^^^^^^^^^\n",
        ),
        (
            b"entry = 1\n# caf\xC3\xA9 \xFF\xFF\n",
            "    2 | # caf\u{E9} \u{FFFD}\u{FFFD}\n      |        ^\n",
        ),
    ];
    for (text, wanted) in rows {
        draws(rt.alloc(), text, wanted)?;
    }
    Ok(())
}

// A line of 120 characters is whole. Of a longer one 37 are left before the span, and 77 from its first on.
#[test]
fn a_long_line_is_cut_around_the_span(rt: HostRuntime) -> Result<(), Fail> {
    let alloc = rt.alloc();
    for (before, after, cut) in [(90, 21, false), (90, 22, true), (30, 200, true)] {
        let (front, back) = (" ".repeat(alloc, before)?, "#".repeat(alloc, after)?);
        let text = format!(in alloc;
            "entry ={front}-1{back}\n[[frame]]\nid = \"1a\"\nrows = []\n"
        )?;
        let findings = lint(alloc, text.as_bytes(), &policy(5, 9, "")?)?;
        let printed = findings_text(
            alloc,
            Format::Full,
            b"b",
            text.as_bytes(),
            findings.as_slice(),
        )?;
        let source = str::from_utf8(printed.as_slice())?
            .lines()
            .nth(1)
            .unwrap_or("");
        same_in(source, source.contains("..."), cut)?;
        same_in(source, source.chars().count() <= 128, true)?;
    }
    Ok(())
}
