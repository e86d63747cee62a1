//! What is said of the faults of an audit.

ghost use Rattle.std.specs.Prelude.{◌≡◌, List, IfOk};
ghost use Rattle.finder.specs.declared.found.Discovered.{Discovered};
ghost use Rattle.lint.specs.FrameLines as spec;
ghost use Rattle.lint.specs.Lint.{ranks_of};
ghost use Rattle.lint.specs.Lookups.{KnowsValues, value_of};

use crate::audit_findings::{Ranks, group_of, rank_of, ranks_of};
use crate::lines::{WrittenFrame, WrittenFrames};
use crate::lookup::Lookup;
use checker::Policy;
use fault_scripts::Fault;
use finder::Found;
use frame_records::Base;
use lint_words::{Judged, Words, audit_fault_words};
use std::alloc::{AllocError, Global};
use std::marker::Model;

/// What is said of a fault, as lint prints it: its message, and how to fix it.
#[derive(Debug, Drop)]
pub struct Sentence {
    message: String,
    hint: String,
}

impl Model for Sentence {
    ghost use Rattle.std.specs.String.{string_bytes};
    ghost use Rattle.lint.specs.FrameLines.{SentenceView};

    ghost Value = { SentenceView };

    ghost view = { λ s. record { message = string_bytes s.message; hint = string_bytes s.hint } };
}

// A hint as a text; none is empty.
fn hint_of(alloc: Global, words: &Words) -> Result<String, AllocError> {
    match words.hint() {
        Some(hint) => String::from_str(alloc, hint.as_str()),
        None => Ok(String::new(alloc)),
    }
}

impl Sentence {
    /// What is wrong, on one line.
    pub fn message(&self) -> &str
        ensures { result.now ≡ self.now.message }
    {
        self.message.as_str()
    }

    /// How to fix it, on one line; empty if there is no more to say.
    pub fn hint(&self) -> &str
        ensures { result.now ≡ self.now.hint }
    {
        self.hint.as_str()
    }

    fn of_words(alloc: Global, words: &Words) -> Result<Sentence, AllocError>
        ensures { IfOk result (λ s. s.message ≡ words.now.message) }
    {
        let message = String::from_str(alloc, words.message().as_str())?;
        let hint = hint_of(alloc, words)?;
        Ok(Sentence { message, hint })
    }
}

fn is_in_rows(line: Option<WrittenFrame>) -> bool
    ensures { result ≡ spec.is_in_rows line }
{
    match line {
        Some(line) => line.has_rows,
        None => false,
    }
}

// What the words of a fault say beside it.
fn judged_at(
    lines: &WrittenFrames,
    base: &Base,
    policy: &Policy,
    ranks: &Ranks,
    fault: &Fault,
) -> Judged
    ensures { (found : List Discovered) → KnowsValues (ranks_of found) ranks.now
        → result ≡ spec.judged_at (value_of lines.now fault.now.frame) base.now policy.now found fault.now }
{
    Judged {
        ceiling: policy.ceiling,
        keyings: policy.keyings,
        has_rows: is_in_rows(lines.get(fault.frame)),
        rank: rank_of(ranks, fault.frame),
        group: group_of(base, fault),
    }
}

fn sentence_of(
    alloc: Global,
    lines: &WrittenFrames,
    base: &Base,
    policy: &Policy,
    ranks: &Ranks,
    fault: &Fault,
) -> Result<Sentence, AllocError>
    ensures { IfOk result (λ s. (found : List Discovered) → KnowsValues (ranks_of found) ranks.now
        → s.message ≡ spec.said_of lines.now base.now policy.now found fault.now) }
{
    let judged = judged_at(lines, base, policy, ranks, fault);
    let words = audit_fault_words(alloc, &judged, fault, base.find(fault.frame))?;
    Sentence::of_words(alloc, &words)
}

// A sentence for each fault, by the ranks of frames.
fn each_sentence(
    alloc: Global,
    lines: &WrittenFrames,
    base: &Base,
    policy: &Policy,
    ranks: &Ranks,
    faults: &[Fault],
) -> Result<Vec<Sentence>, AllocError>
    ensures { IfOk result (λ sentences. (found : List Discovered) → KnowsValues (ranks_of found) ranks.now
        → spec.AreSentences lines.now base.now policy.now found faults.now sentences.items) }
{
    let mut sentences = Vec::new(alloc);
    for fault in faults {
        sentences.push(sentence_of(alloc, lines, base, policy, ranks, fault)?)?;
    }
    Ok(sentences)
}

/// What is said of each fault of a base, in their order, by the frames that the policy's caller reaches and the lines of frames.
pub fn fault_sentences(
    alloc: Global,
    lines: &WrittenFrames,
    base: &Base,
    policy: &Policy,
    found: &Found,
    faults: &[Fault],
) -> Result<Vec<Sentence>, AllocError>
    ensures { IfOk result (λ sentences. spec.AreSentences lines.now base.now policy.now found.now
        faults.now sentences.items) }
{
    if faults.is_empty() {
        return Ok(Vec::new(alloc));
    }
    let ranks = Lookup::of(alloc, ranks_of(alloc, found.as_slice())?.as_slice())?;
    each_sentence(alloc, lines, base, policy, &ranks, faults)
}
