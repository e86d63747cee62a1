//! The terminal with its cells.

ghost use Rattle.std.specs.Prelude.{◌≡◌, ◌<◌, false, true, replicate};
ghost use Rattle.terminal_codes.specs.Screen.{Screen, IsScreen, control_step, with_code, byte_step, run};
ghost use Rattle.terminal_codes.specs.Writes.{StoresWrites};

use crate::table::{code_written, moved_by};
use std::marker::Model;

/// A terminal. Contracts see its cells, its position, the pending escape and whether the cursor is visible.
#[derive(Drop)]
pub struct Terminal {
    cells: [u8; 960],
    at: u16,
    pending: bool,
    visible: bool,
}

impl Model for Terminal {
    ghost use Rattle.std.specs.Prelude.{◌<◌};
    ghost use Rattle.terminal_codes.specs.Screen.{Screen};

    ghost Value = { Screen };

    ghost view = { λ t. record { cells = t.cells; at = t.at; pending = t.pending; visible = t.visible } };

    ghost invariant = { λ t. t.at < 960 };
}

impl Terminal {
    /// A terminal as it is switched on: blank, at the first cell, its cursor visible.
    pub fn new() -> Self
        ensures { result ≡ record { cells = replicate 960 32; at = 0; pending = false; visible = true } }
    {
        Terminal {
            cells: [0x20; 960],
            at: 0,
            pending: false,
            visible: true,
        }
    }

    /// Another terminal in the same state.
    pub fn copy(&self) -> Self
        ensures { result ≡ self.now }
    {
        Terminal {
            cells: self.cells,
            at: self.at,
            pending: self.pending,
            visible: self.visible,
        }
    }

    /// The position at which the next code is written.
    pub fn at(&self) -> u16
        ensures value { result ≡ self.now.at }
        ensures screen { IsScreen self.now }
    {
        self.at
    }

    /// Whether an escape was received and the byte after it wasn't yet.
    pub fn is_pending(&self) -> bool
        ensures { result ≡ self.now.pending }
    {
        self.pending
    }

    /// Whether the cursor is visible.
    pub fn is_visible(&self) -> bool
        ensures { result ≡ self.now.visible }
    {
        self.visible
    }

    /// The codes in the cells, from position 0 to 959. A blank cell holds 20.
    pub fn cells(&self) -> &[u8; 960]
        ensures { result.now ≡ self.now.cells }
    {
        &self.cells
    }

    // A byte from 00 to 1F.
    fn control(&mut self, byte: u8)
        ensures { self.new ≡ control_step self.old byte }
    {
        match byte {
            0x0c => {
                self.cells.fill(0x20);
                self.at = 0;
            }
            0x11 => self.visible = true,
            0x14 => self.visible = false,
            _ => self.at = moved_by(self.at, byte),
        }
        self.pending = byte == 0x1b;
    }

    // A byte from 20 on, by the code that it writes.
    fn put(&mut self, code: Option<u8>)
        ensures { self.new ≡ with_code self.old code }
    {
        if let Some(code) = code {
            self.cells[self.at as usize] = code;
            self.at = (self.at + 1) % 960;
        }
        self.pending = false;
    }

    /// Receives one byte of the line.
    pub fn step(&mut self, byte: u8)
        ensures { self.new ≡ byte_step self.old byte }
    {
        if byte < 0x20 {
            self.control(byte);
        } else {
            let code = code_written(self.is_pending(), byte);
            self.put(code);
        }
    }

    /// Receives bytes of the line, in order.
    pub fn run(&mut self, bytes: &[u8])
        ensures table { self.new ≡ run self.old bytes.now }
        ensures stores { StoresWrites self.old bytes.now }
    {
        let _at = self.at();
        for byte in bytes {
            self.step(*byte);
        }
    }
}
