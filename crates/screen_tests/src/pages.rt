use base_pages::{BaseSource, PagesFault, PagesStatus, write_pages};
use checker::Policy;
use finder::View;
use frame_records::{Groups, Pence};
use lint::{WrittenBase, written_base};
use page_ids::PageNo;
use std::alloc::Global;
use std::rt::HostRuntime;
use std::test::Fail;
use test_support::{FakeSink, same};

// Route 1 leads to a frame that keeps what is on the screen, 2 away, 3 to a closed frame, 4 to a missing one.
const BASE: &str = "
entry = 7
outside = [9]
[[frame]]
id = '7a'
rows = ['A <b>&\"']
routes = { 1 = 71, 2 = 9, 3 = 72, 4 = 73 }
[[frame]]
id = '71a'
price = 5
next = true
lead = 'keep'
body = \"\\u001E\\u000BX\"
routes = { 0 = 7 }
[[frame]]
id = '71b'
rows = []
routes = { 0 = 7 }
[[frame]]
id = '72a'
group = 8
rows = []
";

fn policy() -> Result<Policy, Fail> {
    Ok(Policy {
        ceiling: Pence::new(4).ok_or("price")?,
        keyings: 9,
        groups: Groups::none(),
    })
}

fn written(alloc: Global, base: &str) -> Result<WrittenBase, Fail> {
    Ok(written_base(alloc, base.as_bytes())?.ok_or("base")?)
}

// The file of a view of a base.
fn file(alloc: Global, base: &str, view: &View, name: &str) -> Result<String, Fail> {
    let WrittenBase { base, lines } = written(alloc, base)?;
    let source = BaseSource {
        name,
        lines: &lines,
    };
    let mut sink = FakeSink::of(alloc, 1000);
    let status = write_pages(alloc, &source, &base, &policy()?, view, &mut sink)?;
    same(status, PagesStatus::Written)?;
    same(sink.flushes, 1)?;
    Ok(String::from_utf8(sink.taken)?)
}

// The part of a text from one word to the end of another.
fn between<'a>(text: &'a str, from: &str, to: &str) -> Result<&'a str, Fail> {
    let start = text.find(from).ok_or("start")?;
    let rest = &text[start..];
    let end = rest.find(to).ok_or("end")?;
    Ok(&rest[..end + to.len()])
}

#[test]
fn a_section_has_the_ways_and_faults_of_its_frame(rt: HostRuntime) -> Result<(), Fail> {
    let alloc = rt.alloc();
    let text = file(alloc, BASE, &View::Whole, "a.toml")?;
    let entry = between(&text, "<section id=\"7a\">", "</section>")?;
    same(
        between(entry, "<p class=\"price\">", "</section>")?,
        "<p class=\"price\">0p</p>\n<p class=\"place\">a.toml:5</p>\n<p class=\"ways\">\n\
<a href=\"#71a\" data-key=\"1\">71a</a>\n\
<span class=\"outside\" data-key=\"2\">9</span>\n\
<span class=\"closed\" data-key=\"3\">72a</span>\n\
<span class=\"missing\" data-key=\"4\">73a</span>\n\
</p>\n<ul class=\"said\">\n\
<li>key 3 of frame 7a leads to frame 72a, which is closed to these callers; it belongs to group 8 (keys 3)</li>\n\
<li>key 4 of frame 7a leads to page 73, which has no frame a (keys 4); write frame 73a, or list 73 in outside</li>\n\
</ul>\n<ul class=\"faults\">\n<li>CLOSED 72a AT 7a KEY 3 SCRIPT 3</li>\n<li>MISSING 73a AT 7a KEY 4 SCRIPT 4</li>\n</ul>\n</section>",
    )
}

#[test]
fn a_frame_that_no_key_reaches_is_marked(rt: HostRuntime) -> Result<(), Fail> {
    let text = file(rt.alloc(), BASE, &View::Whole, "a.toml")?;
    same(
        text.contains("<section id=\"72a\" class=\"unreached\">\n<h2>72a</h2>"),
        true,
    )?;
    same(text.contains("<section id=\"71b\">\n<h2>71b</h2>"), true)
}

#[test]
fn a_frame_has_its_group_and_the_line_of_its_id(rt: HostRuntime) -> Result<(), Fail> {
    let text = file(rt.alloc(), BASE, &View::Whole, "<&.toml")?;
    let closed = between(&text, "<section id=\"72a\"", "</section>")?;
    same(
        between(closed, "<p class=\"price\">", "<p class=\"ways\">")?,
        "<p class=\"price\">0p</p>\n<p class=\"group\">group 8</p>\n<p class=\"place\">&lt;&amp;.toml:20</p>\n<p class=\"ways\">",
    )?;
    same(text.matches("<p class=\"group\">").count(), 1)?;
    same(text.matches("<p class=\"place\">").count(), 4)
}

#[test]
fn what_a_frame_conceals_comes_after_its_picture_and_text(rt: HostRuntime) -> Result<(), Fail> {
    let alloc = rt.alloc();
    let base = "entry = 7\n[[frame]]\nid = '7a'\nrows = [\"A\\u0098B\"]\n";
    let text = file(alloc, base, &View::Whole, "a")?;
    let plain = between(&text, "<h2>7a</h2>", "</pre>")?;
    same(plain.contains("\nA\n"), true)?;
    let revealed = between(
        &text,
        "</pre>\n<div class=\"revealed\">\n<svg ",
        "</pre>\n</div>\n<p class=\"price\">",
    )?;
    same(revealed.contains("\nA B\n"), true)?;
    let other = file(alloc, BASE, &View::Whole, "a")?;
    same(other.contains("<div class=\"revealed\">"), false)
}

// The byte at offset 2 goes from row 0 to row 23: from home up, cell 920.
#[test]
fn the_cell_that_a_frame_touches_has_a_red_frame(rt: HostRuntime) -> Result<(), Fail> {
    let text = file(rt.alloc(), BASE, &View::Whole, "a.toml")?;
    let frame = between(&text, "<section id=\"71a\">", "</section>")?;
    same(
        frame.contains("<li>TOUCHES 71a BYTE 2 START 0 SCRIPT 1</li>"),
        true,
    )?;
    same(
        frame.contains("<rect class=\"touched\" x=\"0\" y=\"460\""),
        true,
    )?;
    same(frame.contains("<li>PRICE 71a 5 SCRIPT 1</li>"), true)?;
    same(frame.contains("<p class=\"over\">"), true)
}

#[test]
fn the_header_has_name_verdict_and_policy(rt: HostRuntime) -> Result<(), Fail> {
    let text = file(rt.alloc(), BASE, &View::Whole, "<a>\"&'é.toml")?;
    same(
        between(&text, "<header", "</header>")?,
        "<header data-entry=\"7a\">\n<h1>&lt;a&gt;&quot;&amp;&#39;é.toml</h1>\n<p class=\"verdict faulty\">4 faults</p>\n\
<p>For a caller in no groups, at most 4p a frame, at most 9 keys back</p>\n</header>",
    )
}

#[test]
fn a_part_leaves_out_what_is_elsewhere(rt: HostRuntime) -> Result<(), Fail> {
    let page = PageNo::new(71).ok_or("page")?;
    let text = file(rt.alloc(), BASE, &View::From(page, Some(0)), "a.toml")?;
    same(text.matches("<section ").count(), 1)?;
    same(
        text.contains("<span class=\"elsewhere\" data-key=\"#\">71b</span>"),
        true,
    )?;
    same(
        text.contains("<span class=\"elsewhere\" data-key=\"0\">7a</span>"),
        true,
    )
}

#[test]
fn a_page_that_the_base_lacks_has_no_file(rt: HostRuntime) -> Result<(), Fail> {
    let alloc = rt.alloc();
    let WrittenBase { base, lines } = written(alloc, BASE)?;
    let page = PageNo::new(5).ok_or("page")?;
    let mut sink = FakeSink::of(alloc, 1000);
    let source = BaseSource {
        name: "a",
        lines: &lines,
    };
    let status = write_pages(
        alloc,
        &source,
        &base,
        &policy()?,
        &View::From(page, None),
        &mut sink,
    )?;
    same(status, PagesStatus::NoPage)?;
    same(sink.taken.len(), 0)
}

#[test]
fn an_entry_frame_that_is_missing_is_reported_before_the_sections(
    rt: HostRuntime,
) -> Result<(), Fail> {
    let text = file(
        rt.alloc(),
        "entry = 8\n[[frame]]\nid = '7a'\nrows = []\n",
        &View::Whole,
        "a",
    )?;
    same(
        text.contains("</header>\n<ul class=\"faults\">\n<li>ENTRYMISSING 8a</li>\n</ul>\n<nav"),
        true,
    )?;
    same(
        text.contains("<section id=\"7a\" class=\"unreached\">"),
        true,
    )?;
    let text = file(
        rt.alloc(),
        "entry = 7\n[[frame]]\nid = '7a'\ngroup = 3\nrows = []\n",
        &View::Whole,
        "a",
    )?;
    same(text.contains("<li>ENTRYCLOSED 7a</li>"), true)?;
    same(text.matches("<ul class=\"faults\">").count(), 1)
}

#[test]
fn a_sink_that_fails_has_taken_the_front(rt: HostRuntime) -> Result<(), Fail> {
    let alloc = rt.alloc();
    let WrittenBase { base, lines } = written(alloc, BASE)?;
    let mut sink = FakeSink::full(alloc, 1000, 12_345);
    let source = BaseSource {
        name: "a.toml",
        lines: &lines,
    };
    let run = write_pages(alloc, &source, &base, &policy()?, &View::Whole, &mut sink);
    same(run, Err(PagesFault::Write(12_345)))?;
    same(sink.taken.len(), 12_345)?;
    same(sink.flushes, 0)
}
