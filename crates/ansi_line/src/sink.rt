//! The screen after each answer.

ghost use Rattle.std.specs.Prelude.{◌≡◌, None, true, IfErr, OnOk};
ghost use Rattle.std.specs.Io.KnownBytes.{Appends};
ghost use Rattle.terminal_codes.specs.Screen.{run};
ghost use Rattle.ansi_line.specs.AnsiLines.{screen_bytes};

use crate::placing::screen_text;
use devices::{Broken, Sink, write_whole};
use std::alloc::Global;
use terminal_codes::Terminal;

/// A sink of what a viewdata terminal is sent. At a flush, if it has taken something since the last one, it writes the screen that the
/// terminal then shows, and flushes.
#[derive(Drop)]
pub struct AnsiScreen<W> {
    alloc: Global,
    /// What the screens are written to.
    pub inner: W,
    terminal: Terminal,
    is_waiting: bool,
    failed: bool,
    flushes: u8,
    /// Whether it failed because a growth was refused.
    pub is_refused: bool,
}

impl<W: Sink> AnsiScreen<W> {
    /// The screen of a new terminal; nothing is written yet.
    pub fn new(alloc: Global, inner: W) -> AnsiScreen<W>
        ensures { ⟦<AnsiScreen<W> as Sink>⟧.seen result ≡
            record { bytes = None; failed = (W.seen inner).failed; flushes = 0 } }
    {
        let failed = inner.failed();
        AnsiScreen {
            alloc,
            inner,
            terminal: Terminal::new(),
            is_waiting: false,
            failed,
            flushes: 0,
            is_refused: false,
        }
    }

    // Notes a failure.
    fn fail(&mut self, is_refused: bool) -> Broken
        ensures failed { self.new.failed ≡ true }
        ensures flushes { self.new.flushes ≡ self.old.flushes }
    {
        self.failed = true;
        self.is_refused = is_refused;
        Broken
    }

    // Writes the screen.
    fn send(&mut self) -> Result<(), Broken>
        ensures written { OnOk result (Appends (W.seen self.old.inner).bytes (W.seen self.new.inner).bytes
            (screen_bytes self.old.terminal.cells)) }
        ensures same { OnOk result (self.new.terminal ≡ self.old.terminal) }
        ensures flushes { self.new.flushes ≡ self.old.flushes }
        ensures unfailed { OnOk result (self.new.failed ≡ self.old.failed) }
        ensures failed { IfErr result (λ _. self.new.failed ≡ true) }
    {
        if self.inner.failed() {
            return Err(self.fail(false));
        }
        let text = match screen_text(self.alloc, &self.terminal) {
            Ok(text) => text,
            Err(_) => return Err(self.fail(true)),
        };
        match write_whole(&mut self.inner, text.as_slice()) {
            Ok(()) => Ok(()),
            Err(_) => Err(self.fail(false)),
        }
    }
}

impl<W: Sink> Sink for AnsiScreen<W> {
    ghost seen = { λ s. record { bytes = None; failed = s.failed; flushes = s.flushes } };

    fn write(&mut self, bytes: &[u8]) -> Result<usize, Broken> {
        self.terminal.run(bytes);
        self.is_waiting = self.is_waiting || !bytes.is_empty();
        Ok(bytes.len())
    }

    fn flush(&mut self) -> Result<(), Broken> {
        self.flushes = self.flushes.saturating_add(1);
        if !self.is_waiting {
            return Ok(());
        }
        self.is_waiting = false;
        self.send()
    }

    fn failed(&self) -> bool {
        self.failed
    }
}
