//! The word that was probably meant.

ghost use Rattle.std.specs.Prelude.{◌≡◌, IfOk, option_map};
ghost use Rattle.std.specs.String.{string_bytes};
ghost use Rattle.near_words.specs.Near.{nearest, IsNearest};
ghost use Rattle.explain.specs.Listed.{listed_words};
ghost use Rattle.explain.specs.Words.{lower};
ghost use Rattle.explain.specs.Loops.{texts_of};

use crate::word::words;
use near_words::Search;
use std::alloc::{AllocError, Global};

fn lower(alloc: Global, text: &str) -> Result<String, AllocError>
    ensures { IfOk result (λ small. string_bytes small ≡ lower text.now) }
{
    let mut small = String::from_str(alloc, text)?;
    small.make_ascii_lowercase();
    Ok(small)
}

// The nearest of some names.
fn nearest_among(
    alloc: Global,
    names: &[&'static str],
    word: &str,
) -> Result<Option<&'static str>, AllocError>
    ensures { IfOk result (λ found.
        option_map (λ name. name.now) found ≡ nearest lower (lower word.now) (texts_of names.now)) }
{
    let word = lower(alloc, word)?;
    let mut search = Search::of(word.as_str());
    let mut found = None;
    for name in names {
        if search.offer(alloc, lower(alloc, name)?.as_str())? {
            found = Some(*name);
        }
    }
    Ok(found)
}

/// The word of the list that is nearest to a mistyped one, in any case of letters; of several the first.
///
/// It is at most two steps away, and fewer than it has letters. A step puts in, takes out or changes a letter, or swaps two
/// that are side by side.
#[tactic(auto, using(near_words::proofs::Nearest::found_is_nearest))]
pub fn nearest(alloc: Global, word: &str) -> Result<Option<&'static str>, AllocError>
    ensures value { IfOk result (λ found.
        option_map (λ name. name.now) found ≡ nearest lower (lower word.now) listed_words) }
    // No word of the list is nearer, and none before it is as near.
    ensures meaning { IfOk result (λ found.
        IsNearest lower (lower word.now) listed_words (option_map (λ name. name.now) found)) }
{
    nearest_among(alloc, words(), word)
}
