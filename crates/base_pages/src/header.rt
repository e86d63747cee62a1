//! What comes before the sections.

ghost use Rattle.std.specs.Prelude.{◌≡◌, ◌++◌, ◌∷◌, [], OnOk, IfOk, codes, length};
ghost use Rattle.page_ids.specs.Ids.{frame_text};
ghost use Rattle.screens.specs.Svg.{markup};
ghost use Rattle.cert_text.specs.Grammar.{spaced_groups};
ghost use Rattle.base_pages.specs.Elements.{opening_pieces};
ghost use Rattle.base_pages.specs.Head as spec;

use crate::element::{Attribute, push_element, push_ending, push_opening, push_text_element};
use crate::faults::push_entry_faults;
use cert_table::{Certificate, Cover, MOST_RANK};
use checker::Policy;
use fault_scripts::{Fault, Outcome};
use frame_records::{Base, Groups, MOST_PENCE, Pence};
use page_ids::{FrameId, push_number};
use std::alloc::{AllocError, Global};

#[tactic(auto, unfolding(crate::specs::Head::name_line))]
fn push_name(out: &mut Vec<u8>, name: &str) -> Result<(), AllocError>
    ensures { OnOk result (out.new.items ≡ out.old.items ++ markup (spec.name_line name.now)) }
{
    push_text_element(out, b"h1", name)
}

// How many there are of a thing.
#[tactic(auto, using(std::proofs::Common::append_assoc), unfolding(crate::specs::Head::fault_count))]
fn push_counted(out: &mut Vec<u8>, count: usize, thing: &[u8]) -> Result<(), AllocError>
    ensures { OnOk result (out.new.items ≡ out.old.items ++ spec.fault_count count thing.now) }
{
    push_number(out, count as u64)?;
    out.extend_from_slice(b" ")?;
    out.extend_from_slice(thing)?;
    if count == 1 {
        Ok(())
    } else {
        out.extend_from_slice(b"s")
    }
}

// A limit after others.
#[tactic(auto, using(std::proofs::Common::append_assoc), unfolding(crate::specs::Head::ceiling_text))]
fn push_ceiling(out: &mut Vec<u8>, ceiling: Pence) -> Result<(), AllocError>
    ensures { OnOk result (out.new.items ≡ out.old.items ++ spec.ceiling_text ceiling) }
{
    out.extend_from_slice(b", at most ")?;
    push_number(out, u64::from(ceiling.get()))?;
    out.extend_from_slice(b"p a frame")
}

#[tactic(auto, using(std::proofs::Common::append_assoc), unfolding(crate::specs::Head::keyings_text))]
fn push_keyings(out: &mut Vec<u8>, keyings: u16) -> Result<(), AllocError>
    ensures { OnOk result (out.new.items ≡ out.old.items ++ spec.keyings_text keyings) }
{
    out.extend_from_slice(b", at most ")?;
    push_counted(out, usize::from(keyings), b"key")?;
    out.extend_from_slice(b" back")
}

// How many rows a certificate has.
fn count_of<C: Cover + Drop>(cert: &Certificate<C>) -> usize
    ensures { result ≡ length cert.now.rows }
{
    cert.cover().len()
}

#[tactic(auto, using(std::proofs::Common::append_assoc), unfolding(crate::specs::Head::certified_words))]
fn certified_words<C: Cover + Drop>(
    alloc: Global,
    cert: &Certificate<C>,
) -> Result<Vec<u8>, AllocError>
    ensures { IfOk result (λ words. words.items ≡ spec.certified_words cert.now) }
{
    let mut words = Vec::new(alloc);
    push_counted(&mut words, count_of(cert), b"frame")?;
    push_ceiling(&mut words, cert.ceiling())?;
    push_keyings(&mut words, cert.keyings())?;
    Ok(words)
}

#[tactic(auto, unfolding(crate::specs::Head::certified))]
fn push_certified(out: &mut Vec<u8>) -> Result<(), AllocError>
    ensures { OnOk result (out.new.items ≡ out.old.items ++ markup spec.certified) }
{
    let class = Attribute {
        name: b"class",
        value: b"verdict certified",
    };
    push_element(out, b"p", &[class], b"CERTIFIED")
}

#[tactic(auto, unfolding(crate::specs::Head::paragraph))]
fn push_paragraph(out: &mut Vec<u8>, words: &[u8]) -> Result<(), AllocError>
    ensures { OnOk result (out.new.items ≡ out.old.items ++ markup (spec.paragraph words.now)) }
{
    push_element(out, b"p", &[], words)
}

// How many faults there are.
#[tactic(auto, unfolding(crate::specs::Head::faulty_pieces))]
fn push_faulty(alloc: Global, out: &mut Vec<u8>, faults: &[Fault]) -> Result<(), AllocError>
    ensures { OnOk result (out.new.items ≡ out.old.items ++ markup (spec.faulty_pieces faults.now)) }
{
    let mut words = Vec::new(alloc);
    push_counted(&mut words, faults.len(), b"fault")?;
    let class = Attribute::of(b"class", b"verdict faulty");
    push_element(out, b"p", &[class], words.as_slice())
}

#[tactic(auto, using(std::proofs::Common::append_assoc, crate::proofs::Bytes::markup_append))]
fn push_verdict(alloc: Global, out: &mut Vec<u8>, outcome: &Outcome) -> Result<(), AllocError>
    ensures { OnOk result (out.new.items ≡ out.old.items ++ markup (spec.outcome_pieces outcome.now)) }
{
    match outcome {
        Outcome::Certified(cert) => {
            let words = certified_words(alloc, cert)?;
            push_certified(out)?;
            push_paragraph(out, words.as_slice())
        }
        Outcome::Faulty(faults) => push_faulty(alloc, out, faults.as_slice()),
    }
}

// Numbers of groups, with a space before each.
fn push_numbers(out: &mut Vec<u8>, groups: &Groups) -> Result<(), AllocError>
    ensures { OnOk result (out.new.items ≡ out.old.items ++ spaced_groups groups.now) }
{
    for i in 0..groups.len() {
        let group = groups.at(i);
        out.push(b' ')?;
        push_number(out, u64::from(group.get()))?;
    }
    Ok(())
}

#[tactic(auto, using(std::proofs::Common::append_assoc), unfolding(crate::specs::Head::callers_text))]
fn push_groups(out: &mut Vec<u8>, groups: &Groups) -> Result<(), AllocError>
    ensures { OnOk result (out.new.items ≡ out.old.items ++ spec.callers_text groups.now) }
{
    if groups.len() == 0 {
        return out.extend_from_slice(b"no groups");
    }
    out.extend_from_slice(b"groups")?;
    push_numbers(out, groups)
}

// The widest limit isn't named.
fn push_ceiling_asked(out: &mut Vec<u8>, ceiling: Pence) -> Result<(), AllocError>
    ensures { OnOk result (out.new.items ≡ out.old.items ++ spec.ceiling_asked ceiling) }
{
    if ceiling.get() == MOST_PENCE {
        Ok(())
    } else {
        push_ceiling(out, ceiling)
    }
}

fn push_keyings_asked(out: &mut Vec<u8>, keyings: u16) -> Result<(), AllocError>
    ensures { OnOk result (out.new.items ≡ out.old.items ++ spec.keyings_asked keyings) }
{
    if keyings == MOST_RANK {
        Ok(())
    } else {
        push_keyings(out, keyings)
    }
}

#[tactic(auto, using(std::proofs::Common::append_assoc), unfolding(crate::specs::Head::policy_words))]
fn policy_words(alloc: Global, policy: &Policy) -> Result<Vec<u8>, AllocError>
    ensures { IfOk result (λ words. words.items ≡ spec.policy_words policy.now) }
{
    let mut words = Vec::new(alloc);
    words.extend_from_slice(b"For a caller in ")?;
    push_groups(&mut words, &policy.groups)?;
    push_ceiling_asked(&mut words, policy.ceiling)?;
    push_keyings_asked(&mut words, policy.keyings)?;
    Ok(words)
}

// The faults of an outcome.
pub fn faults_in<'a>(outcome: &'a Outcome) -> &'a [Fault]
    ensures { result.now ≡ spec.outcome_faults outcome.now }
{
    match outcome {
        Outcome::Certified(_) => &[],
        Outcome::Faulty(faults) => faults.as_slice(),
    }
}

// It names the entry frame.
fn push_begin(out: &mut Vec<u8>, entry: FrameId) -> Result<(), AllocError>
    ensures { OnOk result (out.new.items ≡ out.old.items ++
        markup (opening_pieces (codes "header") ((codes "data-entry", frame_text entry) ∷ []))) }
{
    let text = entry.text();
    let own = Attribute::of(b"data-entry", text.as_str().as_bytes());
    push_opening(out, b"header", &[own])
}

// The header, and that the entry frame isn't found if it isn't.
#[tactic(auto, using(std::proofs::Common::append_assoc, crate::proofs::Bytes::markup_append), unfolding(crate::specs::Head::header_pieces))]
pub fn push_header(
    alloc: Global,
    out: &mut Vec<u8>,
    name: &str,
    base: &Base,
    policy: &Policy,
    outcome: &Outcome,
) -> Result<(), AllocError>
    ensures { OnOk result (out.new.items ≡ out.old.items ++ spec.header name.now base.now policy.now outcome.now) }
{
    let words = policy_words(alloc, policy)?;
    push_begin(out, base.entry_frame())?;
    push_name(out, name)?;
    push_verdict(alloc, out, outcome)?;
    push_paragraph(out, words.as_slice())?;
    push_ending(out, b"header")?;
    push_entry_faults(alloc, out, faults_in(outcome))
}
