ghost use Rattle.std.specs.Prelude.{◌≡◌, ◌++◌, ◌∷◌, [], ℕ, List, map, IfOk, Some, None};
ghost use Rattle.toml.specs.Data.{Members};
ghost use Rattle.toml.specs.Errors.{IsWithin as IsWithinText};
ghost use Rattle.toml.specs.Parse.{parse_document};
ghost use Rattle.checker.specs.declared.policy.Policy.{Policy};
ghost use Rattle.toml_places.specs.Places.{marks};
ghost use Rattle.lint.specs.Findings.{error_at};
ghost use Rattle.lint.specs.Laws.{FollowsBaseRead, LintDecidesSafety, WarnsOfUnreached, SpansLieIn};
ghost use Rattle.lint.specs.Lint as spec;
ghost use Rattle.lint.specs.Loops as loops;

use crate::audit_findings::{Audit, Sources};
use crate::finding::Finding;
use crate::lookup::Lookup;
use crate::order::put_in_order;
use crate::tables::TextTables;
use crate::text_findings::{add_text_findings, add_whole_findings};
use base_text::{
    Draft, Listed, MOST_TEXT, TextFault, WholeFault, draft_of, judge, tree, whole_faults,
};
use checker::Policy;
use frame_records::Base;
use lint_words::{Words, cause_span, not_toml_words, too_long_words};
use page_ids::{FrameId, PageNo};
use std::alloc::{AllocError, Global};
use toml::de::Error;
use toml_places::{Places, Span, TextLines};

fn one(alloc: Global, span: Span, words: Words) -> Result<Vec<Finding>, AllocError>
    ensures { IfOk result (λ fs. fs.items ≡ error_at span words ∷ []) }
{
    let mut findings = Vec::new(alloc);
    findings.push(Finding::error(span, words))?;
    Ok(findings)
}

// X1, of a text that is longer than a base may be.
fn too_long(alloc: Global) -> Result<Vec<Finding>, AllocError>
    ensures { IfOk result (λ fs. (text : List ℕ) → fs.items ≡ map (spec.finding_of text) (spec.Length ∷ [])) }
{
    one(alloc, Span { begin: 0, end: 0 }, too_long_words(alloc)?)
}

// X2, at its cause, with toml's message and a hint that goes by the place where toml finds it.
fn not_toml(
    alloc: Global,
    text: &[u8],
    span: Span,
    at: usize,
    message: &str,
) -> Result<Vec<Finding>, AllocError>
    ensures { IfOk result (λ fs. fs.items ≡ map (spec.finding_of text.now) (spec.Toml span message.now ∷ [])) }
{
    one(alloc, span, not_toml_words(alloc, text, at, message)?)
}

fn refused(alloc: Global, text: &[u8], error: &Error) -> Result<Vec<Finding>, AllocError>
    requires { IsWithinText text.now error.now }
    ensures { IfOk result (λ fs. loops.IsNotToml text.now fs.items) }
{
    match error.span() {
        None => Err(AllocError),
        Some(range) => {
            let found = Span {
                begin: range.start,
                end: range.end,
            };
            let message = error.message();
            let cause = cause_span(text, found, message);
            not_toml(alloc, text, cause, found.begin, message)
        }
    }
}

// The findings of the faults of a text and of its base as a whole.
fn faulty(
    alloc: Global,
    text: &str,
    faults: &[TextFault],
    whole: &[WholeFault],
) -> Result<Vec<Finding>, AllocError>
    ensures { IfOk result (λ fs. (ms : Members) → parse_document text.now ≡ Some ms
        → fs.items ≡ map (spec.text_finding text.now (marks text.now)) faults.now ++
        map (spec.whole_finding text.now (marks text.now)) whole.now) }
{
    let places = Places::of(alloc, text)?;
    let tables = TextTables::of(alloc, text, &places)?;
    let lines = TextLines::of(alloc, text.as_bytes())?;
    let mut findings = Vec::new(alloc);
    let first_frame = lines.place(tables.frame_whole(0).begin).0;
    add_text_findings(alloc, &tables, first_frame, faults, &mut findings)?;
    add_whole_findings(alloc, &tables, &lines, whole, &mut findings)?;
    Ok(findings)
}

// The findings of the audit of a base.
fn audited(
    alloc: Global,
    text: &str,
    tables: &[(FrameId, usize)],
    base: &Base,
    policy: &Policy,
) -> Result<Vec<Finding>, AllocError>
    ensures { IfOk result (λ fs. (ms : Members) → parse_document text.now ≡ Some ms
        → spec.AreAuditFindings text.now (marks text.now) tables.now base.now policy.now fs.items) }
{
    let audit = Audit::of(alloc, base, policy)?;
    if audit.is_clear() {
        return Ok(Vec::new(alloc));
    }
    let places = Places::of(alloc, text)?;
    let written = TextTables::of(alloc, text, &places)?;
    let sources = Sources {
        text: &written,
        tables: Lookup::of(alloc, tables)?,
        base,
        policy,
    };
    sources.findings(alloc, &audit)
}

// The frames of a text by their ids, each with the index of its table.
pub fn tables_of(alloc: Global, frames: &[Listed]) -> Result<Vec<(FrameId, usize)>, AllocError>
    ensures { IfOk result (λ pairs. pairs.items ≡ spec.tables_of frames.now) }
{
    frames
        .iter()
        .map(|listed| (listed.frame.id, listed.table))
        .collect(alloc)
}

// The findings of a draft without a fault.
fn judged_sound(
    alloc: Global,
    text: &str,
    entry: PageNo,
    outside: Vec<PageNo>,
    frames: Vec<Listed>,
    policy: &Policy,
) -> Result<Vec<Finding>, AllocError>
    requires { loops.IsDraftOf text.now (loops.sound_draft entry outside.items frames.items) }
    ensures { IfOk result (λ fs. spec.IsJudged text.now policy.now fs.items) }
{
    let tables = tables_of(alloc, frames.as_slice())?;
    match judge(alloc, entry, outside, frames)? {
        Ok(base) => audited(alloc, text, tables.as_slice(), &base, policy),
        Err(whole) => faulty(alloc, text, &[], whole.as_slice()),
    }
}

// The findings of a draft with faults.
fn judged_faulty(
    alloc: Global,
    text: &str,
    mut outside: Vec<PageNo>,
    mut frames: Vec<Listed>,
    faults: &[TextFault],
) -> Result<Vec<Finding>, AllocError>
    requires { loops.IsFaultyDraft text.now outside.items frames.items faults.now }
    ensures { IfOk result (λ fs. (policy : Policy) → spec.IsJudged text.now policy fs.items) }
{
    let whole = whole_faults(alloc, &mut outside, &mut frames)?;
    faulty(alloc, text, faults, whole.as_slice())
}

fn judged_draft(
    alloc: Global,
    text: &str,
    draft: Draft,
    policy: &Policy,
) -> Result<Vec<Finding>, AllocError>
    requires { loops.IsDraftOf text.now draft }
    ensures { IfOk result (λ fs. spec.IsJudged text.now policy.now fs.items) }
{
    let Draft {
        entry,
        outside,
        frames,
        faults,
    } = draft;
    match (faults.as_slice(), entry) {
        ([], Some(entry)) => judged_sound(alloc, text, entry, outside, frames, policy),
        _ => judged_faulty(alloc, text, outside, frames, faults.as_slice()),
    }
}

fn judged(alloc: Global, text: &[u8], policy: &Policy) -> Result<Vec<Finding>, AllocError>
    ensures { IfOk result (λ fs. spec.IsJudged text.now policy.now fs.items) }
{
    if text.len() > MOST_TEXT {
        return too_long(alloc);
    }
    let table = match tree(alloc, text)? {
        Ok(table) => table,
        Err(error) => return refused(alloc, text, &error),
    };
    match str::from_utf8(text) {
        Ok(text) => judged_draft(alloc, text, draft_of(alloc, table)?, policy),
        Err(_) => unreachable!(),
    }
}

/// Every finding of a base's text, in the order of where they begin: all faults of the text, or if it has none those of the
/// audit, and its warnings.
pub fn lint(alloc: Global, text: &[u8], policy: &Policy) -> Result<Vec<Finding>, AllocError>
    ensures findings { IfOk result (λ fs. spec.IsLint text.now policy.now fs.items) }

    // What they mean.
    ensures text { IfOk result (λ fs. FollowsBaseRead text.now policy.now fs.items) }
    ensures errors { IfOk result (λ fs. LintDecidesSafety text.now policy.now fs.items) }
    ensures warnings { IfOk result (λ fs. WarnsOfUnreached text.now policy.now fs.items) }
    ensures spans { IfOk result (λ fs. SpansLieIn text.now fs.items) }
{
    let mut findings = judged(alloc, text, policy)?;
    put_in_order(&mut findings)?;
    Ok(findings)
}
