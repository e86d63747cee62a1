//! A call so far, and what a byte does to it.

ghost use Rattle.std.specs.Prelude.{◌≡◌, ◌++◌, false, IfOk, IfErr, OnOk};
ghost use Rattle.served_bytes.specs.Sent.{Says, sending_bytes, sent_bytes};
ghost use Rattle.one_call.specs.Loops.{IsBeginFault, ends_key};
ghost use Rattle.line_keys.specs.Heard.{hear};
ghost use Rattle.one_call.specs.Turns.{begun_call, bottom_text, first_bytes, is_leaving, said, keyed, turn};

use crate::fault::ServeFault;
use arrayvec::ArrayString;
use frame_records::{Base, Groups};
use line_keys::{Heard, Hearing};
use page_ids::Key;
use served_bytes::{
    end_words, keyed_page_words, push_opening, push_reply, push_words, reply_words,
};
use session_machine::{OpenFault, Reply, Session};
use std::alloc::{AllocError, Global};
use std::marker::Model;
use terminal_codes::Caret;

/// A call so far. Contracts see what was heard, the session, where the frames left the terminal, the words of the last reply, and
/// whether the call is over.
#[derive(Drop)]
pub struct OneCall {
    hearing: Hearing,
    session: Session,
    caret: Caret,
    words: ArrayString<40>,
    is_over: bool,
}

impl Model for OneCall {
    ghost use Rattle.one_call.specs.Turns.{CallView};

    ghost Value = { CallView };

    ghost view = { λ c. record { hearing = c.hearing; session = c.session; caret = c.caret; words = c.words.bytes; over = c.is_over } };
}

// Whether a reply ends the call.
fn is_leaving(reply: &Reply) -> bool
    ensures { result ≡ is_leaving reply.now }
{
    matches!(reply, Reply::Gone(_))
}

impl OneCall {
    /// Begins a call of a caller of these groups, and writes its first bytes after a text.
    pub fn begin(
        alloc: Global,
        text: &mut Vec<u8>,
        base: &Base,
        groups: &Groups,
    ) -> Result<OneCall, ServeFault>
        ensures call { IfOk result (λ c. c ≡ begun_call groups.now base.now) }
        ensures text { OnOk result (text.new.items ≡ text.old.items ++ first_bytes base.now) }
        ensures fault { IfErr result (IsBeginFault groups.now base.now) }
    {
        let (session, reply) = match Session::open(alloc, base, groups) {
            Ok(opened) => opened,
            Err(OpenFault::Memory) => return Err(ServeFault::Memory),
            Err(_) => return Err(ServeFault::NotOpened),
        };
        let home = push_opening(text).map_err(|_| ServeFault::Memory)?;
        let caret = push_reply(alloc, text, base, home, &reply).map_err(|_| ServeFault::Memory)?;
        Ok(OneCall {
            hearing: Hearing::new(),
            session,
            caret,
            words: ArrayString::new(),
            is_over: false,
        })
    }

    /// Whether the call is over.
    pub fn is_over(&self) -> bool
        ensures { result ≡ self.now.over }
    {
        self.is_over
    }

    // Row 23 after the command so far has changed.
    fn show_command(&self, text: &mut Vec<u8>) -> Result<(), AllocError>
        ensures { OnOk result (text.new.items ≡ text.old.items ++
            sending_bytes self.now.caret (Says (bottom_text self.now))) }
    {
        let command = self.hearing.command();
        if command.is_empty() {
            push_words(text, self.caret, self.words.as_bytes())
        } else {
            push_words(text, self.caret, command)
        }
    }

    // Words in row 23.
    fn say(
        &mut self,
        text: &mut Vec<u8>,
        words: ArrayString<40>,
        is_over: bool,
    ) -> Result<(), AllocError>
        ensures call { OnOk result (self.new ≡ (said self.old words.bytes is_over).0) }
        ensures text { OnOk result (text.new.items ≡ text.old.items ++
            sending_bytes self.old.caret (Says words.bytes)) }
    {
        push_words(text, self.caret, words.as_bytes())?;
        self.words = words;
        self.is_over = is_over;
        Ok(())
    }

    // A key.
    fn press(
        &mut self,
        alloc: Global,
        text: &mut Vec<u8>,
        base: &Base,
        key: Key,
    ) -> Result<(), AllocError>
        ensures call { OnOk result (self.new ≡ (keyed base.now self.old key).0) }
        ensures text { OnOk result (text.new.items ≡ text.old.items ++
            sent_bytes self.old.caret (keyed base.now self.old key).1) }
    {
        let reply = self.session.key(base, key);
        self.caret = push_reply(alloc, text, base, self.caret, &reply)?;
        self.words = reply_words(&reply);
        self.is_over = is_leaving(&reply);
        Ok(())
    }

    /// Hears a byte, and writes what it asks for after a text. Returns whether it ended a key.
    pub fn hear(
        &mut self,
        alloc: Global,
        text: &mut Vec<u8>,
        base: &Base,
        byte: u8,
    ) -> Result<bool, AllocError>
        requires { self.old.over ≡ false }
        ensures key { IfOk result (λ k. k ≡ ends_key (hear self.old.hearing byte).1) }
        ensures call { OnOk result (self.new ≡ (turn base.now self.old byte).0) }
        ensures text { OnOk result (text.new.items ≡ text.old.items ++
            sent_bytes self.old.caret (turn base.now self.old byte).1) }
    {
        match self.hearing.hear(byte) {
            Heard::Nothing => {}
            Heard::Changed => self.show_command(text)?,
            Heard::Pressed(key) => {
                self.press(alloc, text, base, key)?;
                return Ok(true);
            }
            Heard::Page => self.say(text, keyed_page_words(), false)?,
            Heard::End => self.say(text, end_words(), true)?,
        }
        Ok(false)
    }
}
