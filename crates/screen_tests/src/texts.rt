use page_ids::FrameId;
use screens::{Looks, Writing, push_ansi, push_picture, push_svg, push_text, screen_looks};
use std::test::Fail;
use test_support::{same, same_in};

// A screen with these codes from the first cell of row 1 on.
fn looks_of(codes: &[u8]) -> Looks {
    let mut cells = [0x20; 960];
    for (place, code) in codes.iter().enumerate() {
        if place < 920 {
            cells[40 + place] = *code;
        }
    }
    screen_looks(&cells)
}

// Whether a text holds another.
fn holds(text: &[u8], part: &[u8]) -> bool {
    text.windows(part.len().max(1)).any(|window| window == part)
}

fn text_of(rt: &HostRuntime, codes: &[u8], writing: Writing) -> Result<Vec<u8>, Fail> {
    let mut out = Vec::new(rt.alloc());
    push_text(&mut out, &looks_of(codes), writing)?;
    Ok(out)
}

// The second line of a text: red letters after a space, mosaics, and what markup writes as references.
const LINES: [(&[u8], &str, &str); 4] = [
    (&[0x81, 0x41, 0x20, 0x42, 0x20], "\n A B\n", "\n A B\n"),
    (&[0x98, 0x41, 0x81, 0x42], "\n   B\n", "\n   B\n"),
    (
        &[0x91, 0x35, 0x7f, 0x21],
        "\n ▌█\u{1FB00}\n",
        "\n ▌█\u{1FB00}\n",
    ),
    (b"<&>\"'", "\n<&>\"'\n", "\n&lt;&amp;&gt;&quot;&#39;\n"),
];

#[test]
fn a_text_has_what_cells_show(rt: HostRuntime) -> Result<(), Fail> {
    for (codes, plain, markup) in LINES {
        let text = text_of(&rt, codes, Writing::Plain)?;
        same_in(
            codes,
            text.iter().filter(|byte| **byte == b'\n').count(),
            24,
        )?;
        same_in(codes, holds(text.as_slice(), plain.as_bytes()), true)?;
        same_in(
            codes,
            holds(
                text_of(&rt, codes, Writing::Markup)?.as_slice(),
                markup.as_bytes(),
            ),
            true,
        )?;
    }
    Ok(())
}

#[test]
fn colours_are_set_as_they_change(rt: HostRuntime) -> Result<(), Fail> {
    let mut out = Vec::new(rt.alloc());
    push_ansi(&mut out, &looks_of(&[0x81, 0x41, 0x88, 0x9d, 0x42, 0x20]))?;
    let wanted: &[u8] = b"\n\x1b[40m \x1b[31mA \x1b[41m \x1b[5mB\x1b[25m ";
    same(holds(out.as_slice(), wanted), true)?;
    same(out.iter().filter(|byte| **byte == b'\n').count(), 24)?;
    same(out.ends_with(b"\x1b[0m\n"), true)
}

fn svg_of(rt: &HostRuntime, codes: &[u8], touched: Option<u16>) -> Result<Vec<u8>, Fail> {
    let mut out = Vec::new(rt.alloc());
    if let Ok(id) = FrameId::read("478a") {
        push_svg(&mut out, id, &looks_of(codes), touched)?;
    }
    Ok(out)
}

// Codes of row 1 on, and an element of the picture.
const ELEMENTS: [(&[u8], &[u8]); 7] = [
    (b"", b"preserveAspectRatio=\"none\"><title>478a</title>\n"),
    (
        &[0x84, 0x9d],
        b"<rect x=\"12\" y=\"20\" width=\"468\" height=\"20\" fill=\"#00f\"/>\n",
    ),
    (
        b"A<B C",
        b"<text x=\"0\" y=\"36\" textLength=\"36\" lengthAdjust=\"spacingAndGlyphs\" fill=\"#fff\">A&lt;B</text>\n",
    ),
    (
        &[0x8d, 0x41],
        b"<text x=\"12\" y=\"26\" transform=\"scale(1 2)\" textLength=\"12\" lengthAdjust=\"spacingAndGlyphs\" fill=\"#fff\">A</text>\n",
    ),
    (
        &[0x91, 0x35],
        b"<path fill=\"#f00\" d=\"M12 20h6v6h-6zM12 26h6v8h-6zM12 34h6v6h-6z\"/>\n",
    ),
    (
        &[0x91, 0x9a, 0x3c],
        b"<path fill=\"#f00\" d=\"M25 27h4v6h-4zM31 27h4v6h-4zM25 35h4v4h-4z\"/>\n",
    ),
    (
        &[0x88, 0x41],
        b"<g class=\"flash\"><animate attributeName=\"visibility\"",
    ),
];

#[test]
fn a_picture_has_backgrounds_mosaics_and_letters(rt: HostRuntime) -> Result<(), Fail> {
    for (codes, wanted) in ELEMENTS {
        same_in(
            codes,
            holds(svg_of(&rt, codes, None)?.as_slice(), wanted),
            true,
        )?;
    }
    Ok(())
}

#[test]
fn a_touched_cell_is_framed_last(rt: HostRuntime) -> Result<(), Fail> {
    let wanted: &[u8] =
        b"<rect class=\"touched\" x=\"156\" y=\"20\" width=\"12\" height=\"20\" fill=\"none\" stroke=\"#f00\" stroke-width=\"2\"/>\n</svg>\n";
    same(svg_of(&rt, b"A", Some(53))?.ends_with(wanted), true)?;
    same(
        holds(svg_of(&rt, b"A", None)?.as_slice(), b"touched"),
        false,
    )
}

fn picture_of(rt: &HostRuntime, codes: &[u8]) -> Result<Vec<u8>, Fail> {
    let mut out = Vec::new(rt.alloc());
    if let Ok(id) = FrameId::read("478a") {
        push_picture(&mut out, id, &looks_of(codes))?;
    }
    Ok(out)
}

// Codes of row 1 on, and a part of the picture alone: its text, or the letters of a colour and height.
const PARTS: [(&[u8], &[u8]); 6] = [
    (b"<L", b"<title>478a</title>\n<desc>\n&lt;L\n\n"),
    (
        b"LL",
        b"</g>\n<path fill=\"#fff\" d=\"M0 20m2 2h2v12h8v2h-10zM12 20m2 2h2v12h8v2h-10z\"/>\n</svg>\n",
    ),
    (
        &[0x81, 0x4c, 0x86, 0x4c],
        b"<path fill=\"#f00\" d=\"M12 20m2 2h2v12h8v2h-10z\"/>\n<path fill=\"#0ff\" d=\"M36 20m2 2h2v12h8v2h-10z\"/>\n",
    ),
    (
        &[0x8d, 0x4c],
        b"<path fill=\"#fff\" d=\"M12 20m2 4h2v16h-2zM12 40m2 0h2v8h8v4h-10z\"/>\n</svg>\n",
    ),
    (
        &[0x88, 0x4c],
        b" repeatCount=\"indefinite\"/><path fill=\"#fff\" d=\"M12 20m2 2h2v12h8v2h-10z\"/>\n</g>\n</svg>\n",
    ),
    (&[0x98, 0x4c], b"</g>\n</svg>\n"),
];

#[test]
fn a_picture_alone_has_its_text_and_letters_as_paths(rt: HostRuntime) -> Result<(), Fail> {
    for (codes, wanted) in PARTS {
        same_in(
            codes,
            holds(picture_of(&rt, codes)?.as_slice(), wanted),
            true,
        )?;
    }
    same(holds(picture_of(&rt, b"L")?.as_slice(), b"<text"), false)
}
