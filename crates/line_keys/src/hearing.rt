//! The command so far.

ghost use Rattle.std.specs.Prelude.{◌≡◌, ◌≢◌};
ghost use Rattle.arrayvec.specs.ArrayVec.{array_vec_len};
ghost use Rattle.line_keys.specs.Heard.{quiet, hear, digit_heard, digit_more, hash_heard, star_heard, typed};

use crate::heard::Heard;
use crate::telnet::Telnet;
use arrayvec::ArrayVec;
use page_ids::{Digit, Key};
use std::marker::Model;

// `*` and nine digits.
const LONGEST: usize = 10;

/// What was heard so far. Contracts see the command so far, and where the bytes are in telnet's stream.
#[derive(Debug, Drop)]
pub struct Hearing {
    telnet: Telnet,
    // Empty, or `*` and digits.
    command: ArrayVec<u8, LONGEST>,
}

impl Model for Hearing {
    ghost use Rattle.line_keys.specs.Heard.{HearingView};

    ghost Value = { HearingView };

    ghost view = { λ h. record { telnet = h.telnet; command = h.command.items } };
}

// A digit after `*`.
fn digit_more(command: &mut ArrayVec<u8, LONGEST>, digit: Digit) -> Heard
    ensures { (command.new.items, result) ≡ digit_more command.old.items digit }
{
    let is_zero = command.as_slice() == b"*0".as_slice();
    let number = digit.get();
    if is_zero && number == 0 {
        command.clear();
        return Heard::Pressed(Key::Reprint);
    }
    if is_zero && number == 9 {
        command.clear();
        return Heard::Pressed(Key::Update);
    }
    if command.len() < LONGEST {
        command.push(b'0' + number);
        Heard::Changed
    } else {
        Heard::Nothing
    }
}

// A digit.
fn digit_heard(command: &mut ArrayVec<u8, LONGEST>, digit: Digit) -> Heard
    ensures { (command.new.items, result) ≡ digit_heard command.old.items digit }
{
    if command.is_empty() {
        Heard::Pressed(Key::Route(digit))
    } else {
        digit_more(command, digit)
    }
}

// `#`.
fn hash_heard(command: &[u8]) -> Heard
    ensures { result ≡ hash_heard command.now }
{
    if command.is_empty() {
        Heard::Pressed(Key::Next)
    } else if command == b"*".as_slice() {
        Heard::Pressed(Key::Prev)
    } else if command == b"*90".as_slice() {
        Heard::End
    } else {
        Heard::Page
    }
}

// `*`.
fn star_heard(command: &mut ArrayVec<u8, LONGEST>)
    ensures { command.new.items ≡ star_heard command.old.items }
{
    let is_taken_back = command.as_slice() == b"*".as_slice();
    command.clear();
    if !is_taken_back {
        command.push(b'*');
    }
}

// A byte of the caller's own.
fn typed(command: &mut ArrayVec<u8, LONGEST>, byte: u8) -> Heard
    ensures { (command.new.items, result) ≡ typed command.old.items byte }
{
    match byte {
        b'#' | b'_' => {
            let heard = hash_heard(command.as_slice());
            command.clear();
            heard
        }
        b'*' => {
            star_heard(command);
            Heard::Changed
        }
        _ => match Digit::new(byte.wrapping_sub(b'0')) {
            Some(digit) => digit_heard(command, digit),
            None => Heard::Nothing,
        },
    }
}

impl Hearing {
    /// Before the first byte.
    pub fn new() -> Hearing
        ensures { result ≡ quiet }
    {
        Hearing {
            telnet: Telnet::Plain,
            command: ArrayVec::new(),
        }
    }

    /// Hears the next byte.
    pub fn hear(&mut self, byte: u8) -> Heard
        ensures { (self.new, result) ≡ hear self.old byte }
    {
        if self.telnet.is_typed(byte) {
            typed(&mut self.command, byte % 0x80)
        } else {
            self.telnet = self.telnet.after(byte);
            Heard::Nothing
        }
    }

    /// The command so far, as row 23 shows it: empty, or `*` and at most nine digits.
    pub fn command(&self) -> &[u8]
        ensures { result.now ≡ self.now.command }
    {
        self.command.as_slice()
    }
}
