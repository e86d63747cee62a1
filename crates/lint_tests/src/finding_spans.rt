//! The span of each finding, as the text in it.

use crate::findings::policy;
use checker::Policy;
use lint::lint;
use std::alloc::Global;
use std::test::Fail;
use test_support::{same, same_in};

// The texts of all spans, with a bar between two.
fn spans_are(alloc: Global, text: &str, policy: &Policy, wanted: &str) -> Result<(), Fail> {
    let mut found = String::new(alloc);
    for finding in &lint(alloc, text.as_bytes(), policy)? {
        if !found.is_empty() {
            found.push_str("|")?;
        }
        let shown = text.get(finding.span.begin..finding.span.end);
        found.push_str(shown.unwrap_or("no text"))?;
    }
    same_in(text, found.as_str(), wanted)
}

// The spans of a text whose first line is `entry = 1`.
fn all_are(alloc: Global, rows: &[(&str, &str)]) -> Result<(), Fail> {
    for (rest, wanted) in rows {
        let text = ["entry = 1\n", *rest].concat(alloc)?;
        spans_are(alloc, &text, &policy(5, 9, "")?, wanted)?;
    }
    Ok(())
}

// The spans of the faults in one frame of id 1a, whose other keys are these.
fn in_frame(alloc: Global, rows: &[(&str, &str)]) -> Result<(), Fail> {
    for (keys, wanted) in rows {
        let text = ["entry = 1\n[[frame]]\nid = \"1a\"\n", *keys].concat(alloc)?;
        spans_are(alloc, &text, &policy(5, 9, "")?, wanted)?;
    }
    Ok(())
}

#[test]
fn an_unknown_key_is_at_its_first_unknown_part(rt: HostRuntime) -> Result<(), Fail> {
    let rows = [
        ("\"ou\\u0074\" = 1\n[x . y]\nframe = 1\n", "\"ou\\u0074\"|x"),
        (
            "[[frame]]\nid = \"1a\"\nrows = []\npr . ice = 5\nroutes = { 'a' = 1, b . c = 2 }\n",
            "pr|'a'|b",
        ),
        (
            "[[frame]]\nid = '1a'\nrows = []\n[ frame . odd . x ]\n[frame.routes]\nq = 1\n[frame.routes.'z']\n",
            "odd|q|'z'",
        ),
        (
            "frame = [ # [\r\n { odd = 1, id = \"1a\", rows = [], routes.k = 2 },\r\n]\r\n",
            "odd|k",
        ),
    ];
    all_are(rt.alloc(), &rows)
}

#[test]
fn what_is_absent_is_at_the_header_or_in_line_1(rt: HostRuntime) -> Result<(), Fail> {
    let text =
        "outside = [] # x\r\n[[ \"frame\" ]] # y\r\nrows = []\r\n\t[[frame]]\r\nid = \"1a\"\r\n";
    let policy = policy(5, 9, "")?;
    spans_are(
        rt.alloc(),
        text,
        &policy,
        "outside = [] # x|[[ \"frame\" ]]|\"1a\"",
    )?;
    let text = "entry = 1\nframe = [{ id = '1a' }, {rows = []}]\n";
    spans_are(rt.alloc(), text, &policy, "'1a'|{rows = []}")
}

#[test]
fn a_wrong_value_is_at_the_value_or_the_element(rt: HostRuntime) -> Result<(), Fail> {
    let rows = [
        (
            "outside = [0, -1, [2, 3] , 0x1_0, \"4\"] # ]\nframe = 5 # six\n",
            "-1|[2, 3]|\"4\"|5",
        ),
        (
            "frame = [3, { id = 5, rows = 1, price = 'a', routes = [ 2 ] } ]\n",
            "3|5|1|'a'|[ 2 ]",
        ),
        ("[frame] # one bracket\nid = 1\n", "[frame]"),
    ];
    all_are(rt.alloc(), &rows)?;
    let rows = [
        (
            "price = 10_000\ngroup . x = 1\nnext = 1\nlead = \"cleer\"\nbody = 5\n",
            "10_000|group . x|1|\"cleer\"|5",
        ),
        (
            "rows = [\n\"A\", 5, # x\n'''B''', [\"C\"]\n]\n[frame.price] # y\n",
            "5|[\"C\"]|[frame.price]",
        ),
    ];
    in_frame(rt.alloc(), &rows)
}

#[test]
fn a_page_that_is_inside_is_at_its_first_element(rt: HostRuntime) -> Result<(), Fail> {
    let frames = "[[frame]]\nid = '1a'\nrows = []\n[[frame]]\nid = '31a'\nrows = []\n";
    let rows = [
        ("outside = [2, 31 ,1 ]\n", "31|1"),
        (
            "outside = [true, 0x1F, '1', 31,\n# 1\n+1, -1, 1]\n",
            "true|0x1F|'1'|+1|-1",
        ),
    ];
    for (outside, wanted) in rows {
        let text = ["entry = 1\n", outside, frames].concat(rt.alloc())?;
        spans_are(rt.alloc(), &text, &policy(5, 9, "")?, wanted)?;
    }
    Ok(())
}

#[test]
fn an_id_that_is_none_is_at_its_string(rt: HostRuntime) -> Result<(), Fail> {
    let rows = [("[[frame]]\nid = '''\n1A'''\nrows = []\n", "'''\n1A'''")];
    all_are(rt.alloc(), &rows)
}

#[test]
fn a_route_is_a_digit_with_its_page(rt: HostRuntime) -> Result<(), Fail> {
    let rows = [
        (
            "rows = []\nroutes.9 = -1\nroutes . \"8\" = 'x'\n",
            "9 = -1|\"8\" = 'x'",
        ),
        (
            "rows = []\nroutes = {6 = true, 5= 1979-05-27 07:32:00 }\n",
            "6 = true|5= 1979-05-27 07:32:00",
        ),
        (
            "rows = []\n[frame.routes]\n7 = 1.5 # y\n[frame.routes.3]\n",
            "7 = 1.5|[frame.routes.3]",
        ),
    ];
    in_frame(rt.alloc(), &rows)?;
    let rows = [(
        "frame = [{ id = '1a', rows = [], routes = { 4 = [\n] } }, { id = '1b', rows = [], routes.2 = -2 }]\n",
        "4 = [\n]|2 = -2",
    )];
    all_are(rt.alloc(), &rows)
}

#[test]
fn a_character_is_as_it_is_written(rt: HostRuntime) -> Result<(), Fail> {
    let rows = [
        ("body = \"a\\u00E9\\u20AC\" # x\n", "\\u20AC"),
        ("body = \"\"\"\r\na\\  \r\n  \u{20AC}x\"\"\"\n", "\u{20AC}"),
        ("body = '''\n\t\\\u{20AC}'''\n", "\u{20AC}"),
        (
            "rows = [\"ok\", # \"\n'\\u', \"\\x41\\u00E9\\tb\"]\n",
            "\\u00E9|\\t",
        ),
        ("rows = [\"\"\"\nA\\\n  B\\t\"\"\", 'C\tD']\n", "\\t|\t"),
    ];
    in_frame(rt.alloc(), &rows)
}

#[test]
fn each_refused_character_has_its_place_and_the_eleventh_is_for_the_others(
    rt: HostRuntime,
) -> Result<(), Fail> {
    let rows = [
        (
            "rows = [\"\u{E0}\u{E1} \u{E2}\u{E3}\u{E4}\u{E5}\u{E6}\\u00E7\u{E8}\u{E9}\\u00EA\u{EB}\"]\n",
            "\u{E0}|\u{E1}|\u{E2}|\u{E3}|\u{E4}|\u{E5}|\u{E6}|\\u00E7|\u{E8}|\u{E9}|\\u00EA",
        ),
        (
            "body = '\u{E9}0123456789ABCDEFGHIJKL\u{20AC}\u{20AD}'\n",
            "\u{20AC}|\u{20AD}",
        ),
    ];
    in_frame(rt.alloc(), &rows)
}

#[test]
fn a_row_that_is_too_long_is_at_its_string(rt: HostRuntime) -> Result<(), Fail> {
    let long = "A".repeat(rt.alloc(), 41)?;
    let keys = format!(in rt.alloc(); "rows = ['B',\n'{long}' , 'C', \"\"\"{long}\"\"\"]\n")?;
    let wanted = format!(in rt.alloc(); "'{long}'|\"\"\"{long}\"\"\"")?;
    in_frame(rt.alloc(), &[(keys.as_str(), wanted.as_str())])?;
    let empty = "'', ".repeat(rt.alloc(), 22)?;
    let keys = format!(in rt.alloc(); "rows = [{empty} 'V' , 'W']\n")?;
    in_frame(rt.alloc(), &[(keys.as_str(), "'V'")])
}

#[test]
fn of_body_and_rows_the_later_one_is_at_fault(rt: HostRuntime) -> Result<(), Fail> {
    let rows = [
        ("rows = []\nbody = ''\n", "body"),
        ("body = ''\n\"rows\" = []\n", "\"rows\""),
    ];
    in_frame(rt.alloc(), &rows)?;
    let rows = [("frame = [{ 'body' = '', id = '1a', rows = [] }]\n", "rows")];
    all_are(rt.alloc(), &rows)
}

#[test]
fn faults_of_a_whole_base_are_at_what_they_are_about(rt: HostRuntime) -> Result<(), Fail> {
    let long = "A".repeat(rt.alloc(), 4_097)?;
    let text = format!(in rt.alloc(); "[[frame]]\nid = '1z'\nnext = true # x\nbody = '{long}'\n")?;
    let wanted = format!(in rt.alloc(); "next = true|'{long}'")?;
    all_are(rt.alloc(), &[(text.as_str(), wanted.as_str())])?;
    let rows = [
        (
            "[[frame]]\nid = '1a'\nrows = []\n[[frame]]\nrows = []\nid = \"1a\" # 1a\n[[frame]]\nrows = []\nid = '''1a'''\n",
            "\"1a\"|'''1a'''",
        ),
        (
            "frame = [{ id = '1a', rows = []},{ id='1a',rows=[] }]",
            "'1a'",
        ),
    ];
    all_are(rt.alloc(), &rows)
}

#[test]
fn the_entry_page_is_at_its_value_or_its_group(rt: HostRuntime) -> Result<(), Fail> {
    let rows = [
        ("[[frame]]\nid = '2a'\nrows = []\n", "1|1"),
        ("[[frame]]\nid = '1a'\ngroup = 7 # x\nrows = []\n", "'1a'|7"),
        (
            "frame = [{ id = '1a', rows = [], group = 0x7 }]",
            "'1a'|0x7",
        ),
    ];
    all_are(rt.alloc(), &rows)
}

#[test]
fn faults_of_an_audit_are_at_what_they_are_about(rt: HostRuntime) -> Result<(), Fail> {
    let rows = [
        ("price = 6 # x\nrows = []\n", "6"),
        ("next = true # x\nrows = []\n", "next = true"),
        ("rows = []\nroutes = { 9 = 555 , 0 = 1 }\n", "9 = 555"),
        ("rows = []\nroutes . '9' = 555\n", "'9' = 555"),
        ("rows = []\n[frame.routes]\n0 = 1\n9 = 555 # x\n", "9 = 555"),
    ];
    in_frame(rt.alloc(), &rows)?;
    let rows = [
        (
            "frame = [{ id = '1a', rows = [], routes = { 9 = 555 } }, { id = '2a', rows = [] }]\n",
            "9 = 555|'2a'",
        ),
        (
            "[[frame]]\nid = '1a'\nrows = []\nroutes.2 = 2\n[[frame]] # no way back\nid = '2a'\nrows = []\n",
            "'2a'",
        ),
    ];
    all_are(rt.alloc(), &rows)
}

#[test]
fn double_height_in_row_22_is_at_its_row(rt: HostRuntime) -> Result<(), Fail> {
    let empty = "'', ".repeat(rt.alloc(), 21)?;
    let keys = format!(in rt.alloc(); "rows = [ {empty} # ]\n \"A\\u008D\" ]\n")?;
    in_frame(rt.alloc(), &[(keys.as_str(), "\"A\\u008D\"")])
}

#[test]
fn a_body_that_touches_is_at_the_character_that_writes(rt: HostRuntime) -> Result<(), Fail> {
    let rows = [("body = \"A\\u001E\\n\\u000BBC\"\n", "B")];
    in_frame(rt.alloc(), &rows)
}

#[test]
fn a_text_that_is_too_long_or_no_toml_has_one_span(rt: HostRuntime) -> Result<(), Fail> {
    let policy = policy(5, 9, "")?;
    let blank = " ".repeat(rt.alloc(), 16_777_217)?;
    let findings = lint(rt.alloc(), blank.as_bytes(), &policy)?;
    let spans = findings
        .iter()
        .map(|found| (found.span.begin, found.span.end));
    same(spans.collect::<Vec<_>>(rt.alloc())?.as_slice(), &[(0, 0)])?;
    spans_are(rt.alloc(), "entry = 01\n", &policy, "01")
}
