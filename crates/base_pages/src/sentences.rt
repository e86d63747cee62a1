//! What lint says of the faults of a frame.

ghost use Rattle.std.specs.Prelude.{◌≡◌, ◌++◌, OnOk};
ghost use Rattle.screens.specs.Svg.{markup};
ghost use Rattle.screens.specs.declared.writing.Writing.TheVariants.{Markup};
ghost use Rattle.screens.specs.Writing.{written};
ghost use Rattle.base_pages.specs.Faults.{picked};
ghost use Rattle.base_pages.specs.Loops.{numbered_sentence, numbered_sentences};
ghost use Rattle.base_pages.specs.Sections as spec;

use crate::element::{push_bytes, push_chars, push_ending, push_tag, push_wrapped};
use lint::Sentence;
use std::alloc::{AllocError, Global};

// A hint after what is wrong, if there is one.
#[tactic(auto, using(std::proofs::Common::append_assoc, crate::proofs::Bytes::written_both, crate::proofs::Bytes::no_chars))]
fn push_hint(out: &mut Vec<u8>, hint: &str) -> Result<(), AllocError>
    ensures { OnOk result (out.new.items ≡ out.old.items ++ written Markup (spec.hint_chars hint.now)) }
{
    if hint.len() == 0 {
        return Ok(());
    }
    push_bytes(out, b"; ")?;
    push_chars(out, hint)
}

#[tactic(auto, using(std::proofs::Common::append_assoc, crate::proofs::Bytes::written_both, crate::proofs::Bytes::element_bytes))]
fn push_sentence(out: &mut Vec<u8>, sentence: &Sentence) -> Result<(), AllocError>
    ensures { OnOk result (out.new.items ≡ out.old.items ++ markup (spec.sentence_item sentence.now)) }
{
    push_tag(out, b"li", &[])?;
    push_chars(out, sentence.message())?;
    push_hint(out, sentence.hint())?;
    push_ending(out, b"li")
}

// The sentence of a number, if there is one.
fn push_numbered(out: &mut Vec<u8>, sentences: &[Sentence], number: usize) -> Result<(), AllocError>
    ensures { OnOk result (out.new.items ≡ out.old.items ++ numbered_sentence sentences.now number) }
{
    match sentences.get(number) {
        Some(sentence) => push_sentence(out, sentence),
        None => Ok(()),
    }
}

fn push_each(out: &mut Vec<u8>, sentences: &[Sentence], numbers: &[usize]) -> Result<(), AllocError>
    ensures { OnOk result (out.new.items ≡ out.old.items ++ numbered_sentences sentences.now numbers.now) }
{
    for number in numbers {
        push_numbered(out, sentences, *number)?;
    }
    Ok(())
}

// The list of the sentences of numbers.
#[tactic(auto, using(crate::proofs::Numbering::sentences_picked))]
pub fn push_sentences(
    alloc: Global,
    out: &mut Vec<u8>,
    sentences: &[Sentence],
    numbers: &[usize],
) -> Result<(), AllocError>
    ensures { OnOk result (out.new.items ≡ out.old.items ++
        markup (spec.sentence_list (picked sentences.now numbers.now))) }
{
    let mut items = Vec::new(alloc);
    push_each(&mut items, sentences, numbers)?;
    push_wrapped(out, b"said", items.as_slice())
}
