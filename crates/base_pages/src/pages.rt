//! The file of a base.

ghost use Rattle.std.specs.Prelude.{◌≡◌, ◌<◌, ◌++◌, ◌∷◌, List, ℕ, [], false, OnOk, IfOk, IfErr};
ghost use Rattle.std.specs.Vec.{vec_len};
ghost use Rattle.frame_records.specs.Bases.{IsBase};
ghost use Rattle.devices.specs.Devices.{Seen, IsOnItsWay, WroteWhole};
ghost use Rattle.base_pages.specs.Sections.{sections, source_view};
ghost use Rattle.base_pages.specs.Shell as Shell;
ghost use Rattle.base_pages.specs.Tags.{HasId, HaveIds};
ghost use Rattle.base_pages.specs.Loops.{IsReady, IsFilePrepared, book_view, book_file, IsStopped};
ghost use Rattle.base_pages.specs.Pages.{IsPartWritten, IsPagesRun, front};

use crate::book::Book;
use crate::fault::PagesFault;
use crate::header::{faults_in, push_header};
use crate::index::FaultIndex;
use crate::sending::{send, send_last};
use crate::shell::{foot, head, middle};
use crate::source::BaseSource;
use audit_report::Sink;
use checker::Policy;
use fault_scripts::{Outcome, audit_surveyed};
use finder::{Part, Survey, View, part_of};
use frame_records::{Base, Frame};
use frame_screens::Gallery;
use lint::{Sentence, fault_sentences};
use std::alloc::{AllocError, Global};

/// Whether a file was written.
#[derive(Debug, Clone, Copy, PartialEq, Eq)]
pub enum PagesStatus {
    /// The file was written.
    Written,
    /// The base lacks the frame `a` of the page that was named; nothing was written.
    NoPage,
}

// What is written, beside the sections.
#[derive(Drop)]
struct FrontMatter<'a> {
    policy: &'a Policy,
    outcome: &'a Outcome,
}

// All up to the sections.
#[tactic(auto, using(std::proofs::Common::append_assoc))]
fn push_front(
    alloc: Global,
    out: &mut Vec<u8>,
    source: &BaseSource<'_>,
    base: &Base,
    cover: &FrontMatter,
) -> Result<(), AllocError>
    ensures { OnOk result (out.new.items ≡ out.old.items ++
        front source.now.name.now base.now cover.now.policy.now cover.now.outcome.now) }
{
    out.extend_from_slice(head())?;
    push_header(alloc, out, source.name, base, cover.policy, cover.outcome)?;
    out.extend_from_slice(middle())
}

// Writes the section of a frame, if it is shown.
fn push_shown(
    alloc: Global,
    out: &mut Vec<u8>,
    book: &Book,
    frame: &Frame,
) -> Result<(), AllocError>
    requires { IsReady book.now }
    ensures text { OnOk result (out.new.items ≡ out.old.items ++ sections (book_view book.now) (frame.now ∷ [])) }
    ensures id { OnOk result (HasId book.now.part.now frame.now) }
{
    if book.part.shows(frame.id) {
        book.push_section(alloc, out, frame)
    } else {
        Ok(())
    }
}

// The same, and writes what is kept of the text, if it is long enough.
fn write_section<S: Sink>(
    alloc: Global,
    sink: &mut S,
    kept: &mut Vec<u8>,
    wrote: u64,
    book: &Book,
    frame: &Frame,
) -> Result<u64, PagesFault>
    requires ready { IsReady book.now }
    requires open { (S.seen sink.old).failed ≡ false }
    ensures few { OnOk result (vec_len kept.new < 65536) }
    ensures open { OnOk result ((S.seen sink.new).failed ≡ false) }
    ensures id { OnOk result (HasId book.now.part.now frame.now) }
    ensures taken { (start : Seen) (before : List ℕ) → IsOnItsWay start (S.seen sink.old) kept.old.items wrote before
        → IfOk result (λ n. IsOnItsWay start (S.seen sink.new) kept.new.items n (before ++
        sections (book_view book.now) (frame.now ∷ []))) }
    ensures part { (start : Seen) (before rest : List ℕ) →
        IsOnItsWay start (S.seen sink.old) kept.old.items wrote before
        → IfErr result (λ fault. IsStopped start (S.seen sink.new) ((before ++
        sections (book_view book.now) (frame.now ∷ [])) ++ rest) fault) }
{
    match push_shown(alloc, kept, book, frame) {
        Ok(()) => send(sink, kept, wrote),
        Err(_) => Err(PagesFault::Memory),
    }
}

// Writes the sections of those of these frames that are shown.
fn write_sections<S: Sink>(
    alloc: Global,
    sink: &mut S,
    kept: &mut Vec<u8>,
    book: &Book,
    frames: &[Frame],
) -> Result<u64, PagesFault>
    requires ready { IsReady book.now }
    requires open { (S.seen sink.old).failed ≡ false }
    ensures open { OnOk result ((S.seen sink.new).failed ≡ false) }
    ensures ids { OnOk result (HaveIds book.now.part.now frames.now) }
    ensures taken { (start : Seen) (before : List ℕ) → IsOnItsWay start (S.seen sink.old) kept.old.items 0 before
        → IfOk result (λ n. IsOnItsWay start (S.seen sink.new) kept.new.items n (before ++
        sections (book_view book.now) frames.now)) }
    ensures part { (start : Seen) (before rest : List ℕ) → IsOnItsWay start (S.seen sink.old) kept.old.items 0 before
        → IfErr result (λ fault. IsStopped start (S.seen sink.new) ((before ++
        sections (book_view book.now) frames.now) ++ rest) fault) }
{
    let mut wrote = 0;
    for frame in frames {
        match write_section(alloc, sink, kept, wrote, book, frame) {
            Ok(count) => wrote = count,
            Err(fault) => return Err(fault),
        }
    }
    Ok(wrote)
}

// Writes the last bytes after the sections.
fn write_foot<S: Sink>(sink: &mut S, kept: &mut Vec<u8>, wrote: u64) -> Result<(), PagesFault>
    requires open { (S.seen sink.old).failed ≡ false }
    ensures whole { (start : Seen) (text : List ℕ) → IsOnItsWay start (S.seen sink.old) kept.old.items wrote text
        → OnOk result (WroteWhole start (S.seen sink.new) (text ++ Shell.foot)) }
    ensures part { (start : Seen) (text : List ℕ) → IsOnItsWay start (S.seen sink.old) kept.old.items wrote text
        → IfErr result (λ fault. IsStopped start (S.seen sink.new) (text ++ Shell.foot) fault) }
{
    match kept.extend_from_slice(foot()) {
        Ok(()) => send_last(sink, kept.as_slice(), wrote),
        Err(_) => Err(PagesFault::Memory),
    }
}

// Writes the file.
fn write_book<S: Sink>(
    alloc: Global,
    sink: &mut S,
    book: &Book,
    cover: &FrontMatter,
) -> Result<(), PagesFault>
    requires ready { IsReady book.now }
    requires open { (S.seen sink.old).failed ≡ false }
    ensures whole { OnOk result (WroteWhole (S.seen sink.old) (S.seen sink.new) (book_file cover.now book.now)) }
    ensures ids { OnOk result (HaveIds book.now.part.now book.now.base.now.frames) }
    ensures valid { IsBase book.now.base.now }
    ensures part { IfErr result (λ fault.
        IsStopped (S.seen sink.old) (S.seen sink.new) (book_file cover.now book.now) fault) }
{
    let mut kept = Vec::new(alloc);
    let frames = book.base.frames();
    match push_front(alloc, &mut kept, book.source, book.base, cover) {
        Ok(()) => {}
        Err(_) => return Err(PagesFault::Memory),
    }
    match write_sections(alloc, sink, &mut kept, book, frames) {
        Ok(wrote) => write_foot(sink, &mut kept, wrote),
        Err(fault) => Err(fault),
    }
}

// What is found of a base, and what is prepared for its sections.
#[derive(Drop)]
struct Prepared<'a> {
    outcome: Outcome,
    sentences: Vec<Sentence>,
    index: FaultIndex,
    gallery: Gallery<'a>,
}

fn prepare<'a>(
    alloc: Global,
    source: &BaseSource<'_>,
    base: &'a Base,
    policy: &'a Policy,
) -> Result<Prepared<'a>, AllocError>
    ensures { IfOk result (IsFilePrepared (source_view source.now) base.now policy.now) }
{
    let survey = Survey::of(alloc, base, &policy.groups)?;
    let outcome = audit_surveyed(alloc, &survey, policy)?;
    let faults = faults_in(&outcome);
    let sentences = fault_sentences(alloc, source.lines, base, policy, survey.found(), faults)?;
    let index = FaultIndex::of(alloc, faults)?;
    let gallery = Gallery::over(alloc, survey)?;
    Ok(Prepared {
        outcome,
        sentences,
        index,
        gallery,
    })
}

// Writes the file of a part of a base.
fn write_part<S: Sink>(
    alloc: Global,
    source: &BaseSource<'_>,
    base: &Base,
    policy: &Policy,
    part: &Part,
    sink: &mut S,
) -> Result<PagesStatus, PagesFault>
    requires { (S.seen sink.old).failed ≡ false }
    ensures { IsPartWritten (S.seen sink.old) (S.seen sink.new) (source_view source.now) base.now
        policy.now part.now result }
{
    let Ok(prepared) = prepare(alloc, source, base, policy) else {
        return Err(PagesFault::Memory);
    };
    let book = Book {
        source,
        base,
        groups: &policy.groups,
        part,
        faults: faults_in(&prepared.outcome),
        sentences: prepared.sentences.as_slice(),
        index: &prepared.index,
        gallery: &prepared.gallery,
    };
    let cover = FrontMatter {
        policy,
        outcome: &prepared.outcome,
    };
    match write_book(alloc, sink, &book, &cover) {
        Ok(()) => Ok(PagesStatus::Written),
        Err(fault) => Err(fault),
    }
}

/// Writes the frames of a view of a base, its audit and its header with the name of its file, as one HTML file, for a caller of the
/// policy's groups. If the base lacks the frame `a` of the view's page, nothing is written.
///
/// The text is made section by section, and sent on 65,536 bytes at a time. If a growth is refused after a part was sent, that
/// part is the text's front.
pub fn write_pages<S: Sink>(
    alloc: Global,
    source: &BaseSource<'_>,
    base: &Base,
    policy: &Policy,
    view: &View,
    sink: &mut S,
) -> Result<PagesStatus, PagesFault>
    requires { (S.seen sink.old).failed ≡ false }
    ensures { IsPagesRun (S.seen sink.old) (S.seen sink.new) (source_view source.now) base.now policy.now
        view.now result }
{
    match part_of(alloc, base, &policy.groups, view) {
        Ok(Some(part)) => write_part(alloc, source, base, policy, &part, sink),
        Ok(None) => Ok(PagesStatus::NoPage),
        Err(_) => Err(PagesFault::Memory),
    }
}
