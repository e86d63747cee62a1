//! The line of an entry frame that isn't shown.

ghost use Rattle.std.specs.Prelude.{◌≡◌, IfOk};
ghost use Rattle.audit_report.specs.Lines.{ended_line};
ghost use Rattle.audit_report.specs.Listing.{lost_entry_line};
ghost use Rattle.audit_report.specs.declared.list_form.ListForm.TheVariants.{Json as InJson};

use crate::list_form::ListForm;
use crate::push::push_words_id;
use crate::walk_lines::{entry_fault, entry_text};
use page_ids::FrameId;
use std::alloc::{AllocError, Global};

fn entry_object(alloc: Global, id: FrameId, closed: bool) -> Result<Vec<u8>, AllocError>
    ensures { IfOk result (λ text. text.items ≡ lost_entry_line InJson id closed) }
{
    let mut text = Vec::new(alloc);
    push_words_id(&mut text, b"{\"frame\":\"", id)?;
    text.extend_from_slice(b"\",\"fault\":\"")?;
    text.extend_from_slice(entry_fault(closed))?;
    text.extend_from_slice(b"\"}")?;
    text.push(b'\n')?;
    Ok(text)
}

// It is closed to the caller, or missing.
pub fn entry_line(
    alloc: Global,
    form: ListForm,
    id: FrameId,
    closed: bool,
) -> Result<Vec<u8>, AllocError>
    ensures { IfOk result (λ text. text.items ≡ lost_entry_line form id closed) }
{
    match form {
        ListForm::Line => entry_text(alloc, id, closed),
        ListForm::Json => entry_object(alloc, id, closed),
    }
}
