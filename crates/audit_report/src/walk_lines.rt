ghost use Rattle.std.specs.Prelude.{◌≡◌, ◌++◌, IfOk, OnOk};
ghost use Rattle.audit_report.specs.Lines.{ended_line, reply_text, walk_text, entry_fault, entry_text};

use crate::push::{push_id_number, push_words_id, push_words_page};
use page_ids::FrameId;
use session_machine::Reply;
use std::alloc::{AllocError, Global};

fn push_reply(out: &mut Vec<u8>, reply: Reply) -> Result<(), AllocError>
    ensures { OnOk result (out.new.items ≡ out.old.items ++ reply_text reply) }
{
    match reply {
        Reply::Shown(id, price) => push_id_number(out, b"SHOWN ", id, u64::from(price.get())),
        Reply::Again(id) => push_words_id(out, b"AGAIN ", id),
        Reply::NotOffered => out.extend_from_slice(b"NOTOFFERED"),
        Reply::Missing(id) => push_words_id(out, b"MISSING ", id),
        Reply::Closed(id) => push_words_id(out, b"CLOSED ", id),
        Reply::Gone(page) => push_words_page(out, b"GONE ", page),
    }
}

fn push_line(out: &mut Vec<u8>, reply: Reply) -> Result<(), AllocError>
    ensures { OnOk result (out.new.items ≡ out.old.items ++ ended_line (reply_text reply)) }
{
    push_reply(out, reply)?;
    out.extend_from_slice(b"\n")
}

/// A line for each reply, in their order.
pub fn walk_text(alloc: Global, replies: &[Reply]) -> Result<Vec<u8>, AllocError>
    ensures { IfOk result (λ text. text.items ≡ walk_text replies.now) }
{
    let mut text = Vec::new(alloc);
    for reply in replies {
        push_line(&mut text, *reply)?;
    }
    Ok(text)
}

/// The line of a session that isn't opened: its entry frame is closed to the caller, or missing.
pub fn entry_text(alloc: Global, id: FrameId, closed: bool) -> Result<Vec<u8>, AllocError>
    ensures { IfOk result (λ text. text.items ≡ entry_text id closed) }
{
    let mut text = Vec::new(alloc);
    text.extend_from_slice(entry_fault(closed))?;
    push_words_id(&mut text, b" ", id)?;
    text.push(b'\n')?;
    Ok(text)
}

pub fn entry_fault(closed: bool) -> &'static [u8]
    ensures { result.now ≡ entry_fault closed }
{
    if closed {
        b"ENTRYCLOSED"
    } else {
        b"ENTRYMISSING"
    }
}
