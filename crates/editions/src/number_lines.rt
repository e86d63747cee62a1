//! The texts of `current` and `follows`.

ghost use Rattle.std.specs.Prelude.{◌≡◌, IfOk, IfSome, ◌≤◌};
ghost use Rattle.std.specs.Option.{option_copied};
ghost use Rattle.editions.specs.NumberLines.{line_in, number_line, current_in, follows_in, follows_text, LinesAreNumbers};

use crate::limits::MOST_EDITION;
use page_ids::{number_read, push_number};
use std::alloc::{AllocError, Global};

// The line of a text, without its line end.
fn line_in(text: &[u8]) -> Option<&[u8]>
    ensures { option_copied result ≡ line_in text.now }
{
    let (last, line) = text.split_last()?;
    if *last == b'\n' { Some(line) } else { None }
}

/// The number of the edition that the text of `current` names: decimal digits without a leading zero, up to 999,999,999, and
/// one line end. `None` of every other text; so of one that is half written.
pub fn current_in(text: &[u8]) -> Option<u32>
    ensures value { result ≡ current_in text.now }
    ensures within { IfSome result (λ n. n ≤ MOST_EDITION) }
{
    number_read(line_in(text)?, MOST_EDITION).ok()
}

/// The text of `current` for an edition.
pub fn current_text(alloc: Global, number: u32) -> Result<Vec<u8>, AllocError>
    ensures { IfOk result (λ text. text.items ≡ number_line number) }
{
    let mut text = Vec::new(alloc);
    push_number(&mut text, u64::from(number))?;
    text.push(b'\n')?;
    Ok(text)
}

/// What the text of `follows` says: the number of the edition against which this one was cleared, or `Some(None)` at a new
/// beginning, of which the text is `-` and a line end. `None` of every other text.
pub fn follows_in(text: &[u8]) -> Option<Option<u32>>
    ensures { result ≡ follows_in text.now }
{
    match current_in(text) {
        Some(number) => Some(Some(number)),
        None if text == b"-\n".as_slice() => Some(None),
        None => None,
    }
}

/// The text of `follows`.
pub fn follows_text(alloc: Global, follows: Option<u32>) -> Result<Vec<u8>, AllocError>
    ensures { IfOk result (λ text. text.items ≡ follows_text follows) }
{
    match follows {
        Some(number) => current_text(alloc, number),
        None => Ok(vec![in alloc; b'-', b'\n']?),
    }
}

/// A number is named by its own text, and by no other; so is what an edition follows.
pub fn lines_are_numbers()
    ensures { LinesAreNumbers }
{}
