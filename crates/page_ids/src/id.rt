ghost use Rattle.std.specs.Prelude.{◌≡◌, ◌<◌, ◌++◌, MatchResult};
ghost use Rattle.std.specs.Option.{SomeIff, ok_or};
ghost use Rattle.page_ids.specs.declared.fault.IdFault.TheVariants.{BadFrame};
ghost use Rattle.page_ids.specs.Ids.{Id, IsFrameId, frame_text, first_frame, following, id_cmp};
ghost use Rattle.page_ids.specs.Texts.{id_in, IdsAreTexts};

use crate::fault::IdFault;
use crate::letter::Letter;
use crate::page::PageNo;
use arrayvec::ArrayString;
use std::alloc::AllocError;
use std::marker::Model;

/// A frame's id: its page and its letter. Ids are ordered by page number, then by letter.
///
/// Contracts see a page number and the byte of a letter.
#[derive(Debug, Clone, Copy, PartialEq, Eq, PartialOrd, Ord, Hash)]
pub struct FrameId {
    pub page: PageNo,
    pub letter: Letter,
}

impl Model for FrameId {
    ghost use Rattle.page_ids.specs.Ids.{Id};

    ghost Value = { Id };

    ghost view = { λ f. record { page = f.page; letter = f.letter } };

    ghost inverse = { λ id. record { page = id.page; letter = id.letter } };
}

impl FrameId {
    /// The id whose text this is: a page number, then one letter `a` to `z`.
    ///
    /// Else I2, `BadFrame`.
    pub fn read(text: &str) -> Result<FrameId, IdFault>
        ensures { result ≡ ok_or (id_in text.now) BadFrame }
    {
        match FrameId::read_bytes(text.as_bytes()) {
            Some(id) => Ok(id),
            None => Err(IdFault::BadFrame),
        }
    }

    /// The same from bytes, for readers that have no text; `None` if `read` refuses.
    pub fn read_bytes(bytes: &[u8]) -> Option<FrameId>
        ensures { result ≡ id_in bytes.now }
    {
        let (last, digits) = bytes.split_last()?;
        let page = PageNo::read_bytes(digits)?;
        let letter = Letter::new(*last)?;
        Some(FrameId { page, letter })
    }

    /// Its text, as `1231a`.
    pub fn text(self) -> ArrayString<10>
        ensures text { result.bytes ≡ frame_text self }
        ensures in_range { IsFrameId self }
    {
        let mut text = ArrayString::new();
        text.push_str(self.page.text().as_str());
        text.push(char::from(self.letter.get()));
        text
    }

    /// The first frame of a page, that of the letter `a`.
    pub fn first(page: PageNo) -> FrameId
        ensures { result ≡ first_frame page }
    {
        FrameId {
            page,
            letter: Letter::FIRST,
        }
    }

    /// The id of the frame that follows on the same page; `None` after `z`.
    pub fn following(self) -> Option<FrameId>
        ensures { SomeIff result (self.letter < 122) (following self) }
    {
        let letter = Letter::new(self.letter.get() + 1)?;
        Some(FrameId {
            page: self.page,
            letter,
        })
    }
}

/// Writes an id after a text. If a growth is refused, nothing was written.
pub fn push_id(text: &mut Vec<u8>, id: FrameId) -> Result<(), AllocError>
    ensures text { MatchResult result (λ _. text.new.items ≡ text.old.items ++ frame_text id) (λ _. text.new.items ≡
        text.old.items) }
    ensures in_range { IsFrameId id }
{
    text.extend_from_slice(id.text().as_bytes())
}

/// An id is read from its own text, and from no other.
pub fn ids_are_texts()
    ensures { IdsAreTexts }
{}

/// Ids compare by page number, then by letter, in `<` and wherever they are sorted or sought.
pub fn ids_are_ordered()
    ensures { (a b : Id) → ⟦<FrameId as Ord>⟧.cmp a b ≡ id_cmp a b }
{}
