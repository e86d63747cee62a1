ghost use Rattle.std.specs.Prelude.{◌≡◌, ◌++◌, OnOk, decimal};
ghost use Rattle.page_ids.specs.Ids.{page_text};
ghost use Rattle.audit_report.specs.Lines.{with_id, with_id_number};

use page_ids::{FrameId, PageNo, push_id, push_number, push_page};
use std::alloc::AllocError;

// Words and a number.
pub fn push_words_number(out: &mut Vec<u8>, words: &[u8], number: u64) -> Result<(), AllocError>
    ensures { OnOk result (out.new.items ≡ out.old.items ++ (words.now ++ decimal number)) }
{
    out.extend_from_slice(words)?;
    push_number(out, number)
}

// Words and a page.
pub fn push_words_page(out: &mut Vec<u8>, words: &[u8], page: PageNo) -> Result<(), AllocError>
    ensures { OnOk result (out.new.items ≡ out.old.items ++ (words.now ++ page_text page)) }
{
    out.extend_from_slice(words)?;
    push_page(out, page)
}

// Words and an id.
pub fn push_words_id(out: &mut Vec<u8>, words: &[u8], id: FrameId) -> Result<(), AllocError>
    ensures { OnOk result (out.new.items ≡ out.old.items ++ with_id words.now id) }
{
    out.extend_from_slice(words)?;
    push_id(out, id)
}

// Words, an id, a space and a number.
pub fn push_id_number(
    out: &mut Vec<u8>,
    words: &[u8],
    id: FrameId,
    number: u64,
) -> Result<(), AllocError>
    ensures { OnOk result (out.new.items ≡ out.old.items ++ with_id_number words.now id number) }
{
    push_words_id(out, words, id)?;
    out.extend_from_slice(b" ")?;
    push_number(out, number)
}
