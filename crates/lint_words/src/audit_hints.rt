//! The hint for a fault of an audit.

use crate::fault_words::Judged;
use crate::hint::hint_of;
use crate::line::Line;
use crate::piece::Piece::{Id, Page, Text};
use crate::touch_hints::touch_hint;
use base_faults::{Fault, FaultKind};
use frame_records::Frame;
use page_ids::FrameId;
use std::alloc::{AllocError, Global};

// A page without a first frame may be another provider's, a further frame can't be.
fn missing_hint(alloc: Global, sought: Option<FrameId>) -> Result<Option<Line>, AllocError> {
    match sought {
        Some(id) if id.letter.get() == b'a' => hint_of(
            alloc,
            &[
                Text("write frame "),
                Id(id),
                Text(", or list "),
                Page(id.page),
                Text(" in outside"),
            ],
        ),
        Some(id) => hint_of(
            alloc,
            &[Text("write frame "), Id(id), Text(", or leave next out")],
        ),
        None => Ok(None),
    }
}

// How to fix a fault of an audit, if there is more to say. The frame is the one at fault, if the base has it.
pub(crate) fn audit_hint(
    alloc: Global,
    judged: &Judged,
    fault: &Fault,
    frame: Option<&Frame>,
) -> Result<Option<Line>, AllocError> {
    match (fault.kind, frame, &fault.start) {
        (FaultKind::Touches, Some(frame), Some(start)) => {
            if judged.has_rows {
                return Ok(None);
            }
            touch_hint(alloc, frame, start)
        }
        (FaultKind::Missing, _, _) => missing_hint(alloc, fault.sought),
        _ => Ok(None),
    }
}

// The frame before one that no key reaches, if it has no next frame.
pub(crate) fn unreached_hint(
    alloc: Global,
    before: Option<FrameId>,
) -> Result<Option<Line>, AllocError> {
    match before {
        Some(id) => hint_of(alloc, &[Id(id), Text(" has no next = true")]),
        None => Ok(None),
    }
}
