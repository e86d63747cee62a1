//! What is sent for a reply.

ghost use Rattle.std.specs.Prelude.{◌≡◌, ◌++◌, IfOk, OnOk};
ghost use Rattle.std.specs.Option.{option_copied};
ghost use Rattle.terminal_codes.specs.Writes.{caret_run};
ghost use Rattle.served_bytes.specs.Seven.{in_seven};
ghost use Rattle.served_bytes.specs.Sent.{Says, opening_bytes, home, caret_after, sending_bytes};
ghost use Rattle.served_bytes.specs.Words.{frame_bytes, painting_of, sending_of};

use crate::rows::{push_back, push_bottom, push_top};
use crate::seven::push_in_seven;
use crate::words::reply_words;
use frame_records::{Base, Frame};
use frame_screens::{FrameList, screen};
use page_ids::FrameId;
use session_machine::Reply;
use std::alloc::{AllocError, Global};
use terminal_codes::{Caret, lead_bytes};

/// Writes after a text what makes every terminal a new one, as the first bytes of a call: cursor visible, and clear. Returns
/// where the terminal is then.
pub fn push_opening(text: &mut Vec<u8>) -> Result<Caret, AllocError>
    ensures text { OnOk result (text.new.items ≡ text.old.items ++ opening_bytes) }
    ensures caret { IfOk result (λ caret. caret ≡ home) }
{
    text.extend_from_slice(&[0x11, 0x0c])?;
    Ok(Caret {
        at: 0,
        pending: false,
    })
}

// A frame's lead and body, in seven bits.
fn push_frame(text: &mut Vec<u8>, frame: Option<&Frame>) -> Result<(), AllocError>
    ensures { OnOk result (text.new.items ≡ text.old.items ++ in_seven (frame_bytes (option_copied frame.entry))) }
{
    let Some(frame) = frame else {
        return Ok(());
    };
    push_in_seven(text, lead_bytes(frame.lead))?;
    push_in_seven(text, frame.body.as_slice())
}

// Where a frame leaves a terminal.
fn caret_past(caret: Caret, frame: Option<&Frame>) -> Caret
    ensures { result ≡ caret_run caret (frame_bytes (option_copied frame.entry)) }
{
    match frame {
        Some(frame) => caret.run(lead_bytes(frame.lead)).run(frame.body.as_slice()),
        None => caret,
    }
}

// A frame, row 0 as `screen` paints it, an empty row 23, and the way back.
#[tactic(auto, using(std::proofs::Common::append_assoc))]
fn push_painting(
    alloc: Global,
    text: &mut Vec<u8>,
    base: &Base,
    caret: Caret,
    id: FrameId,
) -> Result<Caret, AllocError>
    ensures text { OnOk result (text.new.items ≡ text.old.items ++ sending_bytes caret (painting_of base.now id)) }
    ensures caret { IfOk result (λ next. next ≡ caret_after caret (painting_of base.now id)) }
{
    let frame = base.find(id);
    let next = caret_past(caret, frame);
    let alone = FrameList::of(alloc, id)?;
    push_frame(text, frame)?;
    push_top(text, &screen(base, &alone))?;
    push_bottom(text, &[])?;
    push_back(text, next)?;
    Ok(next)
}

/// Writes after a text a row 23 with these words, and the way back to where the frames left the terminal. Words past column 39
/// are cut; a code that is no character is a blank.
///
/// After a refused growth a front of it may have been written.
#[tactic(auto, using(std::proofs::Common::append_assoc))]
pub fn push_words(text: &mut Vec<u8>, caret: Caret, words: &[u8]) -> Result<(), AllocError>
    ensures { OnOk result (text.new.items ≡ text.old.items ++ sending_bytes caret (Says words.now)) }
{
    push_bottom(text, words)?;
    push_back(text, caret)
}

/// Writes after a text what a reply sends to a terminal that the frames left at `caret`, and returns where they leave it then.
///
/// `Shown` and `Again` send the base's frame, with the centre's row 0 and an empty row 23. Others send their words in row 23.
/// After a refused growth a front of it may have been written.
pub fn push_reply(
    alloc: Global,
    text: &mut Vec<u8>,
    base: &Base,
    caret: Caret,
    reply: &Reply,
) -> Result<Caret, AllocError>
    ensures text { OnOk result (text.new.items ≡ text.old.items ++
        sending_bytes caret (sending_of base.now reply.now)) }
    ensures caret { IfOk result (λ next. next ≡ caret_after caret (sending_of base.now reply.now)) }
{
    match reply {
        Reply::Shown(id, _) | Reply::Again(id) => push_painting(alloc, text, base, caret, *id),
        Reply::NotOffered | Reply::Missing(_) | Reply::Closed(_) | Reply::Gone(_) => {
            push_words(text, caret, reply_words(reply).as_bytes())?;
            Ok(caret)
        }
    }
}
