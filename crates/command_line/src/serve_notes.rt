//! What `serve --log` notes of a call on standard error.

use one_call::CallLog;

/// A call so far, and whether it is noted.
#[derive(Drop)]
pub struct CallNotes<'a, R> {
    rt: &'a R,
    folder: &'a str,
    is_logged: bool,
    // The edition that is served, once the call has begun.
    number: Option<u32>,
    keys: u64,
}

impl<'a, R: Eprint> CallNotes<'a, R> {
    pub fn new(rt: &'a R, folder: &'a str, is_logged: bool) -> CallNotes<'a, R> {
        CallNotes {
            rt,
            folder,
            is_logged,
            number: None,
            keys: 0,
        }
    }

    fn note(&self, what: &str, number: u32) {
        if self.is_logged {
            let folder = self.folder;
            let _ = eprintln!(self.rt; "{folder}: {what} edition {number}");
        }
    }

    /// Notes the end of the call, if it has begun.
    pub fn end(&self) {
        if let Some(number) = self.number
            && self.is_logged
        {
            let (folder, keys) = (self.folder, self.keys);
            let _ = eprintln!(self.rt; "{folder}: the call ends in edition {number}, keys: {keys}");
        }
    }
}

impl<'a, R: Eprint> CallLog for CallNotes<'a, R> {
    fn begins(&mut self, number: u32) {
        self.number = Some(number);
        self.note("a call begins in", number);
    }

    fn changes(&mut self, number: u32) {
        self.number = Some(number);
        self.note("the call goes on in", number);
    }

    fn key(&mut self) {
        self.keys = self.keys.saturating_add(1);
    }
}
