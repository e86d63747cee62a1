//! The sections of frames.

ghost use Rattle.std.specs.Prelude.{◌≡◌, ◌++◌, OnOk, IfOk, codes, decimal};
ghost use Rattle.page_ids.specs.Ids.{IsFrameId};
ghost use Rattle.screens.specs.Looks.{looks};
ghost use Rattle.screens.specs.Svg.{markup};
ghost use Rattle.base_pages.specs.Elements.{opening_pieces};
ghost use Rattle.base_pages.specs.Sections as spec;
ghost use Rattle.base_pages.specs.Faults.{picked};
ghost use Rattle.base_pages.specs.Loops.{IsReady, book_view};

use crate::element::{
    Attribute, push_bytes, push_chars, push_element, push_ending, push_opening, push_tag,
};
use crate::faults::{push_faults, touched_cell};
use crate::index::FaultIndex;
use crate::screen::push_screen;
use crate::sentences::push_sentences;
use crate::source::BaseSource;
use crate::ways::push_ways;
use fault_scripts::Fault;
use finder::Part;
use frame_records::{Base, Frame, GroupNo, Groups, Lead, Pence};
use frame_screens::Gallery;
use lint::{Sentence, WrittenFrame};
use page_ids::{FrameId, push_number};
use std::alloc::{AllocError, Global};

// What the sections are written of.
#[derive(Drop)]
pub struct Book<'a> {
    pub source: &'a BaseSource<'a>,
    pub base: &'a Base,
    pub groups: &'a Groups,
    pub part: &'a Part,
    pub faults: &'a [Fault],
    // What lint says of each fault.
    pub sentences: &'a [Sentence],
    pub index: &'a FaultIndex,
    pub gallery: &'a Gallery<'a>,
}

// A frame that no key reaches is marked.
fn push_begin(out: &mut Vec<u8>, id: FrameId, is_reached: bool) -> Result<(), AllocError>
    ensures text { OnOk result (out.new.items ≡ out.old.items ++
        markup (opening_pieces (codes "section") (spec.section_attributes id is_reached))) }
    ensures id { IsFrameId id }
{
    let text = id.text();
    let own = Attribute::of(b"id", text.as_str().as_bytes());
    if is_reached {
        push_opening(out, b"section", &[own])
    } else {
        push_opening(
            out,
            b"section",
            &[own, Attribute::of(b"class", b"unreached")],
        )
    }
}

#[tactic(auto, unfolding(crate::specs::Sections::heading))]
fn push_heading(out: &mut Vec<u8>, id: FrameId) -> Result<(), AllocError>
    ensures { OnOk result (out.new.items ≡ out.old.items ++ markup (spec.heading id)) }
{
    let text = id.text();
    push_element(out, b"h2", &[], text.as_str().as_bytes())
}

#[tactic(auto, unfolding(crate::specs::Sections::price_pieces))]
fn push_price(alloc: Global, out: &mut Vec<u8>, price: Pence) -> Result<(), AllocError>
    ensures { OnOk result (out.new.items ≡ out.old.items ++ markup (spec.price_pieces price)) }
{
    let mut text = Vec::new(alloc);
    push_number(&mut text, u64::from(price.get()))?;
    text.extend_from_slice(b"p")?;
    let class = Attribute::of(b"class", b"price");
    push_element(out, b"p", &[class], text.as_slice())
}

// The group of the callers who can open a frame.
#[tactic(auto, using(crate::proofs::Bytes::nothing), unfolding(crate::specs::Sections::group_pieces))]
fn push_group(alloc: Global, out: &mut Vec<u8>, group: Option<GroupNo>) -> Result<(), AllocError>
    ensures { OnOk result (out.new.items ≡ out.old.items ++ markup (spec.group_pieces group)) }
{
    let Some(group) = group else {
        return Ok(());
    };
    let mut text = Vec::new(alloc);
    text.extend_from_slice(b"group ")?;
    push_number(&mut text, u64::from(group.get()))?;
    let class = Attribute::of(b"class", b"group");
    push_element(out, b"p", &[class], text.as_slice())
}

// A line after the name of its file.
fn colon_and_line(alloc: Global, line: WrittenFrame) -> Result<Vec<u8>, AllocError>
    ensures { IfOk result (λ text. text.items ≡ codes ":" ++ decimal line.line) }
{
    let mut text = Vec::new(alloc);
    text.extend_from_slice(b":")?;
    push_number(&mut text, line.line as u64)?;
    Ok(text)
}

// Where a frame is written, if it is known.
#[tactic(auto, using(std::proofs::Common::append_assoc, crate::proofs::Bytes::nothing, crate::proofs::Bytes::written_both, crate::proofs::Bytes::element_bytes), unfolding(crate::specs::Sections::place_pieces))]
fn push_place(
    alloc: Global,
    out: &mut Vec<u8>,
    name: &str,
    line: Option<WrittenFrame>,
) -> Result<(), AllocError>
    ensures { OnOk result (out.new.items ≡ out.old.items ++ markup (spec.place_pieces name.now line)) }
{
    let Some(line) = line else {
        return Ok(());
    };
    let number = colon_and_line(alloc, line)?;
    push_tag(out, b"p", &[Attribute::of(b"class", b"place")])?;
    push_chars(out, name)?;
    push_bytes(out, number.as_slice())?;
    push_ending(out, b"p")
}

// What belongs to a frame beside its screen.
#[tactic(auto, using(std::proofs::Common::append_assoc, crate::proofs::Bytes::markup_append), unfolding(crate::specs::Sections::beside_screen))]
fn push_beside(
    alloc: Global,
    out: &mut Vec<u8>,
    source: &BaseSource<'_>,
    frame: &Frame,
) -> Result<(), AllocError>
    ensures { OnOk result (out.new.items ≡ out.old.items
        ++ markup (spec.beside_screen (spec.source_view source.now) frame.now)) }
{
    push_price(alloc, out, frame.price)?;
    push_group(alloc, out, frame.group)?;
    push_place(alloc, out, source.name, source.lines.get(frame.id))
}

// A frame that keeps what is on the screen says so.
#[tactic(auto, using(crate::proofs::Bytes::nothing), unfolding(crate::specs::Sections::over))]
fn push_over(out: &mut Vec<u8>, lead: Lead) -> Result<(), AllocError>
    ensures { OnOk result (out.new.items ≡ out.old.items ++ markup (spec.over lead)) }
{
    match lead {
        Lead::Clear => Ok(()),
        Lead::Keep => {
            let class = Attribute::of(b"class", b"over");
            push_element(out, b"p", &[class], b"Painted over what is on the screen.")
        }
    }
}

impl<'a> Book<'a> {
    // What lint says of the faults of numbers, and the audit's lines.
    #[tactic(auto, using(std::proofs::Common::append_assoc, crate::proofs::Bytes::markup_append), unfolding(crate::specs::Sections::finding_pieces))]
    fn push_findings(
        &self,
        alloc: Global,
        out: &mut Vec<u8>,
        numbers: &[usize],
    ) -> Result<(), AllocError>
        ensures { OnOk result (out.new.items ≡ out.old.items
            ++ markup (spec.finding_pieces (picked self.now.sentences.now numbers.now)
            (picked self.now.faults.now numbers.now))) }
    {
        push_sentences(alloc, out, self.sentences, numbers)?;
        push_faults(alloc, out, self.faults, numbers)
    }

    // What comes after the picture and the text.
    #[tactic(auto, using(std::proofs::Common::append_assoc, crate::proofs::Bytes::markup_append), unfolding(crate::specs::Sections::below_screen))]
    fn push_below(
        &self,
        alloc: Global,
        out: &mut Vec<u8>,
        frame: &Frame,
        numbers: &[usize],
    ) -> Result<(), AllocError>
        ensures { OnOk result (out.new.items ≡ out.old.items
            ++ markup (spec.below_screen (book_view self.now) frame.now
            (picked self.now.sentences.now numbers.now) (picked self.now.faults.now numbers.now))) }
    {
        push_beside(alloc, out, self.source, frame)?;
        push_ways(alloc, out, self.base, self.groups, self.part, frame)?;
        push_over(out, frame.lead)?;
        self.push_findings(alloc, out, numbers)
    }

    // A section with the faults of numbers and a screen.
    #[tactic(auto, using(std::proofs::Common::append_assoc, crate::proofs::Bytes::markup_append), unfolding(crate::specs::Sections::shaped))]
    fn push_with(
        &self,
        alloc: Global,
        out: &mut Vec<u8>,
        frame: &Frame,
        numbers: &[usize],
        codes: &[u8; 960],
        is_reached: bool,
    ) -> Result<(), AllocError>
        ensures text { OnOk result (out.new.items ≡ out.old.items
            ++ markup (spec.shaped (book_view self.now) frame.now (picked self.now.sentences.now numbers.now)
            (picked self.now.faults.now numbers.now) (looks codes.now) is_reached)) }
        ensures id { IsFrameId frame.now.id }
    {
        let cell = touched_cell(frame, self.faults, numbers);
        push_begin(out, frame.id, is_reached)?;
        push_heading(out, frame.id)?;
        push_screen(out, frame.id, codes, cell)?;
        self.push_below(alloc, out, frame, numbers)?;
        push_ending(out, b"section")
    }

    // The section of a frame of the base.
    pub fn push_section(
        &self,
        alloc: Global,
        out: &mut Vec<u8>,
        frame: &Frame,
    ) -> Result<(), AllocError>
        requires { IsReady self.now }
        ensures text { OnOk result (out.new.items ≡ out.old.items ++ spec.section (book_view self.now) frame.now) }
        ensures id { OnOk result (IsFrameId frame.now.id) }
    {
        let codes = self.gallery.screen(alloc, frame.id)?;
        let numbers = self.index.numbers(frame.id);
        let is_reached = self.gallery.is_reached(frame.id);
        self.push_with(alloc, out, frame, numbers, &codes, is_reached)
    }
}
