ghost use Rattle.std.specs.Prelude.{◌≡◌, ◌≤◌, ◌++◌, MatchResult};
ghost use Rattle.std.specs.Option.{SomeIff, ok_or};
ghost use Rattle.page_ids.specs.declared.fault.IdFault.TheVariants.{BadPage};
ghost use Rattle.page_ids.specs.Ids.{IsPageNumber, page_text};
ghost use Rattle.page_ids.specs.Texts.{page_in};

use crate::fault::IdFault;
use crate::limits::MOST_PAGE;
use crate::number::number_read;
use arrayvec::ArrayString;
use itoa::Buffer;
use std::alloc::AllocError;
use std::marker::Model;

/// A page number, 0 to 999,999,999. Contracts see the number.
#[derive(Debug, Clone, Copy, PartialEq, Eq, PartialOrd, Ord, Hash)]
pub struct PageNo {
    number: u32,
}

impl Model for PageNo {
    ghost use Rattle.std.specs.Prelude.{ℕ, ◌≤◌};

    ghost Value = { ℕ };

    ghost view = { λ p. p.number };

    ghost use Rattle.page_ids.specs.declared.limits.TheConstants.{MOST_PAGE};

    ghost invariant = { λ p. p.number ≤ MOST_PAGE };

    ghost inverse = { λ n. record { number = n } };
}

impl PageNo {
    /// The page of a number; `None` above 999,999,999.
    pub fn new(number: u32) -> Option<PageNo>
        ensures { SomeIff result (IsPageNumber number) number }
    {
        if number <= MOST_PAGE {
            Some(PageNo { number })
        } else {
            None
        }
    }

    /// The page of a number that is in range.
    pub fn of(number: u32) -> PageNo
        requires { IsPageNumber number }
        ensures { result ≡ number }
    {
        PageNo { number }
    }

    /// The number.
    pub fn get(self) -> u32
        ensures value { result ≡ self }
        ensures in_range { IsPageNumber self }
    {
        self.number
    }

    /// The page whose text this is: decimal digits without a leading zero, up to 999,999,999.
    ///
    /// Else I1, `BadPage`.
    pub fn read(text: &str) -> Result<PageNo, IdFault>
        ensures { result ≡ ok_or (page_in text.now) BadPage }
    {
        match PageNo::read_bytes(text.as_bytes()) {
            Some(page) => Ok(page),
            None => Err(IdFault::BadPage),
        }
    }

    /// The same from bytes, for readers that have no text; `None` if `read` refuses.
    pub fn read_bytes(bytes: &[u8]) -> Option<PageNo>
        ensures { result ≡ page_in bytes.now }
    {
        match number_read(bytes, MOST_PAGE) {
            Ok(number) => PageNo::new(number),
            Err(_) => None,
        }
    }

    /// Its text, in decimal.
    pub fn text(self) -> ArrayString<9>
        ensures text { result.bytes ≡ page_text self }
        ensures in_range { IsPageNumber self }
    {
        let mut buffer = Buffer::new();
        let mut text = ArrayString::new();
        let digits = buffer.format(self.number);
        text.push_str(digits);
        text
    }
}

/// Writes a page number after a text. If a growth is refused, nothing was written.
pub fn push_page(text: &mut Vec<u8>, page: PageNo) -> Result<(), AllocError>
    ensures { MatchResult result (λ _. text.new.items ≡ text.old.items ++ page_text page) (λ _. text.new.items ≡
        text.old.items) }
{
    text.extend_from_slice(page.text().as_bytes())
}
