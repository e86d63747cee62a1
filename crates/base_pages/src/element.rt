//! A writer of elements.

ghost use Rattle.std.specs.Prelude.{◌≡◌, ◌++◌, ◌∷◌, [], OnOk, codes};
ghost use Rattle.std.specs.List.{flat_map};
ghost use Rattle.std.specs.Str.{chars};
ghost use Rattle.screens.specs.declared.writing.Writing.TheVariants.{Markup};
ghost use Rattle.screens.specs.Svg.{markup};
ghost use Rattle.screens.specs.Writing.{written};
ghost use Rattle.base_pages.specs.Elements as spec;
ghost use Rattle.base_pages.specs.Loops.{wrapped_in};

use screens::{Writing, push_char};
use std::alloc::AllocError;
use std::marker::Model;

// An attribute of a tag.
#[derive(Drop)]
pub struct Attribute<'a> {
    pub name: &'a [u8],
    pub value: &'a [u8],
}

impl<'a> Model for Attribute<'a> {
    ghost use Rattle.std.specs.Prelude.{List, ℕ};

    ghost Value = { List ℕ × List ℕ };

    ghost view = { λ a. (a.name.now, a.value.now) };
}

impl<'a> Attribute<'a> {
    pub fn of(name: &'a [u8], value: &'a [u8]) -> Attribute<'a>
        ensures { result ≡ (name.now, value.now) }
    {
        Attribute { name, value }
    }
}

// Bytes as characters.
pub fn push_bytes(out: &mut Vec<u8>, bytes: &[u8]) -> Result<(), AllocError>
    ensures { OnOk result (out.new.items ≡ out.old.items ++ written Markup bytes.now) }
{
    for byte in bytes {
        push_char(out, Writing::Markup, char::from(*byte))?;
    }
    Ok(())
}

// Characters.
pub fn push_chars(out: &mut Vec<u8>, text: &str) -> Result<(), AllocError>
    ensures { OnOk result (out.new.items ≡ out.old.items ++ written Markup (chars text.now)) }
{
    for c in text.chars() {
        push_char(out, Writing::Markup, c)?;
    }
    Ok(())
}

#[tactic(auto, using(std::proofs::Common::append_assoc), unfolding(crate::specs::Elements::attribute_bytes))]
fn push_attribute(out: &mut Vec<u8>, attribute: &Attribute) -> Result<(), AllocError>
    ensures { OnOk result (out.new.items ≡ out.old.items ++ spec.attribute_bytes attribute.now) }
{
    out.extend_from_slice(b" ")?;
    out.extend_from_slice(attribute.name)?;
    out.extend_from_slice(b"=\"")?;
    push_bytes(out, attribute.value)?;
    out.extend_from_slice(b"\"")
}

fn push_attributes(out: &mut Vec<u8>, attributes: &[Attribute]) -> Result<(), AllocError>
    ensures { OnOk result (out.new.items ≡ out.old.items ++ flat_map spec.attribute_bytes attributes.now) }
{
    for attribute in attributes {
        push_attribute(out, attribute)?;
    }
    Ok(())
}

// A tag.
#[tactic(auto, using(std::proofs::Common::append_assoc), unfolding(crate::specs::Elements::tag))]
pub fn push_tag(out: &mut Vec<u8>, name: &[u8], attributes: &[Attribute]) -> Result<(), AllocError>
    ensures { OnOk result (out.new.items ≡ out.old.items
        ++ (codes "<" ++ spec.tag name.now attributes.now ++ codes ">")) }
{
    out.extend_from_slice(b"<")?;
    out.extend_from_slice(name)?;
    push_attributes(out, attributes)?;
    out.extend_from_slice(b">")
}

// The tag that ends an element.
#[tactic(auto, using(std::proofs::Common::append_assoc, crate::proofs::Bytes::ending_bytes))]
pub fn push_ending(out: &mut Vec<u8>, name: &[u8]) -> Result<(), AllocError>
    ensures { OnOk result (out.new.items ≡ out.old.items ++ markup (spec.ending name.now)) }
{
    out.extend_from_slice(b"</")?;
    out.extend_from_slice(name)?;
    out.extend_from_slice(b">\n")
}

// The tag of an element of others.
#[tactic(auto, using(std::proofs::Common::append_assoc, crate::proofs::Bytes::opening_bytes))]
pub fn push_opening(
    out: &mut Vec<u8>,
    name: &[u8],
    attributes: &[Attribute],
) -> Result<(), AllocError>
    ensures { OnOk result (out.new.items ≡ out.old.items ++ markup (spec.opening_pieces name.now attributes.now)) }
{
    push_tag(out, name, attributes)?;
    out.extend_from_slice(b"\n")
}

// An element of characters, which are given as bytes.
#[tactic(auto, using(std::proofs::Common::append_assoc, crate::proofs::Bytes::element_bytes))]
pub fn push_element(
    out: &mut Vec<u8>,
    name: &[u8],
    attributes: &[Attribute],
    text: &[u8],
) -> Result<(), AllocError>
    ensures { OnOk result (out.new.items ≡ out.old.items
        ++ markup (spec.element_pieces name.now attributes.now text.now)) }
{
    push_tag(out, name, attributes)?;
    push_bytes(out, text)?;
    push_ending(out, name)
}

// The same, without attributes, of a text.
#[tactic(auto, using(std::proofs::Common::append_assoc, crate::proofs::Bytes::element_bytes))]
pub fn push_text_element(out: &mut Vec<u8>, name: &[u8], text: &str) -> Result<(), AllocError>
    ensures { OnOk result (out.new.items ≡ out.old.items ++ markup (spec.element_pieces name.now [] (chars text.now))) }
{
    push_tag(out, name, &[])?;
    push_chars(out, text)?;
    push_ending(out, name)
}

// Items in a list of a class, if there are any.
#[tactic(auto, using(std::proofs::Common::append_assoc))]
pub fn push_wrapped(out: &mut Vec<u8>, class: &[u8], items: &[u8]) -> Result<(), AllocError>
    ensures { OnOk result (out.new.items ≡ out.old.items ++ wrapped_in class.now items.now) }
{
    if items.len() == 0 {
        return Ok(());
    }
    push_opening(out, b"ul", &[Attribute::of(b"class", class)])?;
    out.extend_from_slice(items)?;
    push_ending(out, b"ul")
}
