//! The titles of frames.

use base_map::map_text;
use finder::Part;
use frame_records::{Base, Body, Frame, Groups, Lead, Pence};
use page_ids::{FrameId, PageNo};
use std::alloc::Global;
use std::test::Fail;
use test_support::same_in;

// A base of the entry frame alone, with this body.
fn base_of(alloc: Global, body: &[u8]) -> Result<Base, Fail> {
    let entry = PageNo::new(7).ok_or("page")?;
    let mut bytes = Vec::new(alloc);
    bytes.extend_from_slice(body)?;
    let mut frames = Vec::new(alloc);
    frames.push(Frame {
        id: FrameId::first(entry),
        price: Pence::new(12).ok_or("price")?,
        group: None,
        next: false,
        routes: [None; 10],
        lead: Lead::Clear,
        body: Body::of(bytes),
    })?;
    Ok(Base::build(entry, Vec::new(alloc), frames)?)
}

const BEFORE: &str =
    "digraph {\n  rankdir=LR\n  newrank=true\n  node [shape=box]\n  subgraph cluster_7 {\n    label=7\n    \"7a\" [label=\"7a\\n";

const AFTER: &str = "PRICE 12\" peripheries=2]\n  }\n}\n";

// Each body, and its title as DOT writes it, with what ends its line.
const TITLES: [(&[u8], &str); 14] = [
    (b"", ""),
    (b"AB\x0aCD", ""),
    (b"123\x0a---\x0aABC", "ABC\\n"),
    (b"\x1eMARKET DAY\x0d\x0aFRIDAY", "MARKET DAY\\n"),
    (b"   TRIMMED   \x0a", "TRIMMED\\n"),
    (b"\x1bAWEL\x1bBCOME", "WELCOME\\n"),
    (b"AT\x84\x9dTHE\x83SEA", "THE\\n"),
    (b"A \"QUOTE\"", "A \\\"QUOTE\\\"\\n"),
    (b"A \\ SLASH", "A ½ SLASH\\n"),
    (b"#40 AND_UP", "£40 AND#UP\\n"),
    (b"B&B &amp; C", "B&amp;B &amp;amp; C\\n"),
    (b"ABCDEFGHIJKLMNOPQRSTUVWXYZ", "ABCDEFGHIJKLMNOPQRSTUVWX\\n"),
    (b"end\x1b", "end\\n"),
    (b"no~\x7fend", "no÷\\n"),
];

#[test]
fn a_title_is_the_first_run_with_a_letter(rt: HostRuntime) -> Result<(), Fail> {
    for (body, title) in TITLES {
        let base = base_of(rt.alloc(), body)?;
        let map = map_text(rt.alloc(), &base, &Groups::none(), &Part::whole())?;
        let wanted = format!(in rt.alloc(); "{BEFORE}{title}{AFTER}")?;
        same_in(body, str::from_utf8(map.as_slice()), Ok(wanted.as_str()))?;
    }
    Ok(())
}
