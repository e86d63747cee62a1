//! A reader that takes a byte at a time and keeps the line so far.

ghost use Rattle.std.specs.Prelude.{◌≡◌, IfErr};
ghost use Rattle.cert_text.specs.declared.fault.ReadFault.TheVariants.{Memory};
ghost use Rattle.cert_text.specs.Reading.{reading_start, due_number, judge, lengthen, is_over, at_line, step, reading_after, ended, Gives};
ghost use Rattle.cert_text.specs.Loops.{Turns, TakesBytes};

use crate::fault::{LineCause, LineFault, ReadFault};
use crate::so_far::SoFar;
use crate::stage::Stage;
use arrayvec::ArrayVec;
use cert_table::Certificate;
use std::alloc::Global;
use std::marker::Model;
use std::mem;

// What the lines so far have said, and what has come of the next.
#[derive(Drop)]
pub struct LineReader {
    stage: Stage,
    said: SoFar,
    line: ArrayVec<u8, 128>,
}

impl Model for LineReader {
    ghost use Rattle.cert_text.specs.Reading.{Reading};

    ghost Value = { Reading };

    ghost view = { λ r. record { stage = r.stage; said = r.said; line = r.line.items } };
}

impl LineReader {
    // Before the first byte.
    pub fn new(alloc: Global) -> LineReader
        ensures { result ≡ reading_start }
    {
        LineReader {
            stage: Stage::Magic,
            said: SoFar::new(alloc),
            line: ArrayVec::new(),
        }
    }

    // The number of the line that is due.
    fn number(&self) -> u32
        ensures { result ≡ due_number self.now.stage self.now.said }
    {
        self.said.number(self.stage)
    }

    fn judge_line(&mut self) -> Result<(), LineFault>
        ensures { Turns result self.new (judge self.old) }
    {
        let line = mem::replace(&mut self.line, ArrayVec::new());
        self.stage = self.said.take(self.stage, &line)?;
        Ok(())
    }

    // A whole line has come.
    fn take_line(&mut self) -> Result<(), ReadFault>
        ensures { TakesBytes result self.new (at_line (due_number self.old.stage self.old.said) (judge self.old)) }
    {
        let number = self.number();
        match self.judge_line() {
            Ok(()) => Ok(()),
            Err(LineFault::Memory) => Err(ReadFault::Memory),
            Err(LineFault::Says(cause)) => Err(ReadFault::Line(number, cause)),
        }
    }

    // A byte that ends no line.
    fn lengthen(&mut self, byte: u8) -> Result<(), ReadFault>
        ensures { TakesBytes result self.new
            (at_line (due_number self.old.stage self.old.said) (lengthen self.old byte)) }
    {
        if self.line.len() < 128 {
            self.line.push(byte);
            Ok(())
        } else {
            Err(ReadFault::Line(self.number(), LineCause::Word))
        }
    }

    // Whether `end` has come.
    fn is_over(&self) -> bool
        ensures { result ≡ is_over self.now.stage }
    {
        matches!(self.stage, Stage::After)
    }

    // One byte; a fault is that of the line that was due.
    #[tactic(auto, unfolding(crate::specs::Reading::step))]
    fn step(&mut self, byte: u8) -> Result<(), ReadFault>
        ensures { TakesBytes result self.new (step self.old byte) }
    {
        if self.is_over() {
            return Err(ReadFault::Line(self.number(), LineCause::Tail));
        }
        if byte == b'\n' {
            self.take_line()
        } else {
            self.lengthen(byte)
        }
    }

    // Bytes one by one, to the first fault.
    pub fn feed(&mut self, piece: &[u8]) -> Result<(), ReadFault>
        ensures { TakesBytes result self.new (reading_after self.old piece.now) }
    {
        for byte in piece {
            self.step(*byte)?;
        }
        Ok(())
    }

    // At the end of the text.
    pub fn finish(self) -> Result<Certificate, ReadFault>
        ensures exact { Gives (λ c. c) result (ended self) }
        ensures no_memory { IfErr result (λ e. e ≡ Memory → ⊥) }
    {
        if self.is_over() {
            Ok(self.said.build())
        } else {
            Err(ReadFault::Line(self.number(), LineCause::Truncated))
        }
    }
}
