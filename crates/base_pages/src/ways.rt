//! The ways on from a frame.

ghost use Rattle.std.specs.Prelude.{◌≡◌, ◌++◌, ◌∷◌, [], OnOk, IfOk, codes};
ghost use Rattle.page_ids.specs.Ids.{frame_text};
ghost use Rattle.page_ids.specs.Keys.{key_word};
ghost use Rattle.screens.specs.Svg.{markup};
ghost use Rattle.base_pages.specs.Elements.{element_pieces};
ghost use Rattle.base_pages.specs.Ways as spec;

use crate::element::{Attribute, push_element, push_ending, push_opening};
use finder::Part;
use frame_records::{Base, Destination, Frame, Groups};
use page_ids::{FrameId, Key, Way, push_id, push_key};
use std::alloc::{AllocError, Global};

// The word of a key.
fn word_of(alloc: Global, key: Key) -> Result<Vec<u8>, AllocError>
    ensures { IfOk result (λ word. word.items ≡ key_word key) }
{
    let mut word = Vec::new(alloc);
    push_key(&mut word, key)?;
    Ok(word)
}

// Where a link to the section of a frame leads.
fn target_of(alloc: Global, to: FrameId) -> Result<Vec<u8>, AllocError>
    ensures { IfOk result (λ target. target.items ≡ codes "#" ++ frame_text to) }
{
    let mut target = Vec::new(alloc);
    target.extend_from_slice(b"#")?;
    push_id(&mut target, to)?;
    Ok(target)
}

// A way: an element with an attribute and the word of its key.
fn push_keyed<'a>(
    out: &mut Vec<u8>,
    name: &[u8],
    attribute: &'a [u8],
    value: &'a [u8],
    word: &'a [u8],
    text: &[u8],
) -> Result<(), AllocError>
    ensures { OnOk result (out.new.items ≡ out.old.items ++
        markup (element_pieces name.now ((attribute.now, value.now) ∷ (codes "data-key", word.now) ∷ []) text.now)) }
{
    push_element(
        out,
        name,
        &[
            Attribute {
                name: attribute,
                value,
            },
            Attribute {
                name: b"data-key",
                value: word,
            },
        ],
        text,
    )
}

// A link to the section of a frame.
fn push_link(alloc: Global, out: &mut Vec<u8>, to: FrameId, key: Key) -> Result<(), AllocError>
    ensures { OnOk result (out.new.items ≡ out.old.items ++ markup (spec.link to key)) }
{
    let text = to.text();
    let word = word_of(alloc, key)?;
    let target = target_of(alloc, to)?;
    push_keyed(
        out,
        b"a",
        b"href",
        target.as_slice(),
        word.as_slice(),
        text.as_str().as_bytes(),
    )
}

// A way that leads to no section.
fn push_marked(
    alloc: Global,
    out: &mut Vec<u8>,
    class: &[u8],
    key: Key,
    text: &[u8],
) -> Result<(), AllocError>
    ensures { OnOk result (out.new.items ≡ out.old.items ++ markup (spec.marked class.now key text.now)) }
{
    let word = word_of(alloc, key)?;
    push_keyed(out, b"span", b"class", class, word.as_slice(), text)
}

fn push_to(
    alloc: Global,
    out: &mut Vec<u8>,
    class: &[u8],
    key: Key,
    to: FrameId,
) -> Result<(), AllocError>
    ensures { OnOk result (out.new.items ≡ out.old.items ++ markup (spec.marked class.now key (frame_text to))) }
{
    let text = to.text();
    push_marked(alloc, out, class, key, text.as_str().as_bytes())
}

// A way to a frame that the caller finds.
fn push_found(
    alloc: Global,
    out: &mut Vec<u8>,
    part: &Part,
    key: Key,
    to: FrameId,
) -> Result<(), AllocError>
    ensures { OnOk result (out.new.items ≡ out.old.items ++ markup (spec.found_way part.now key to)) }
{
    if part.shows(to) {
        push_link(alloc, out, to, key)
    } else {
        push_to(alloc, out, b"elsewhere", key, to)
    }
}

// A way by where it leads.
#[tactic(auto, using(crate::proofs::Bytes::nothing))]
fn push_way(
    alloc: Global,
    out: &mut Vec<u8>,
    part: &Part,
    key: Key,
    leads: &Destination,
) -> Result<(), AllocError>
    ensures { OnOk result (out.new.items ≡ out.old.items ++ markup (spec.way_pieces part.now key leads.now)) }
{
    match leads {
        Destination::NotOffered => Ok(()),
        Destination::Found(to, _) => push_found(alloc, out, part, key, *to),
        Destination::Closed(to) => push_to(alloc, out, b"closed", key, *to),
        Destination::Missing(to) => push_to(alloc, out, b"missing", key, *to),
        Destination::Outside(page) => {
            let text = page.text();
            push_marked(alloc, out, b"outside", key, text.as_str().as_bytes())
        }
    }
}

// Each way that a frame offers, in their order.
#[tactic(auto, using(crate::proofs::Bytes::nothing))]
fn push_each(
    alloc: Global,
    out: &mut Vec<u8>,
    base: &Base,
    groups: &Groups,
    part: &Part,
    frame: &Frame,
) -> Result<(), AllocError>
    ensures { OnOk result (out.new.items ≡ out.old.items
        ++ markup (spec.each_way groups.now base.now part.now frame.now)) }
{
    for place in 0..Way::COUNT {
        let leads = base.follow(frame, Way::at(place), groups);
        push_way(alloc, out, part, Way::at(place).key(), &leads)?;
    }
    Ok(())
}

// The ways that a frame offers.
#[tactic(auto, using(std::proofs::Common::append_assoc, crate::proofs::Bytes::markup_append), unfolding(crate::specs::Ways::ways_pieces))]
pub fn push_ways(
    alloc: Global,
    out: &mut Vec<u8>,
    base: &Base,
    groups: &Groups,
    part: &Part,
    frame: &Frame,
) -> Result<(), AllocError>
    ensures { OnOk result (out.new.items ≡ out.old.items
        ++ markup (spec.ways_pieces groups.now base.now part.now frame.now)) }
{
    push_opening(out, b"p", &[Attribute::of(b"class", b"ways")])?;
    push_each(alloc, out, base, groups, part, frame)?;
    push_ending(out, b"p")
}
