//! What the lines so far have said, and what the next one adds.

ghost use Rattle.std.specs.Prelude.{◌≡◌, ◌≤◌, ◌+◌, length};
ghost use Rattle.cert_text.specs.declared.stage.Stage.TheVariants.{Head, Rows};
ghost use Rattle.cert_text.specs.Reading.{nothing_said, due_number, most_number, put, judge_at, judge_magic, judge_groups, judge_row, certificate_of};
ghost use Rattle.cert_text.specs.Loops.{Says};

use crate::fault::{LineCause, LineFault};
use crate::line::{groups_after, number_after, row_in};
use crate::stage::{NumberLine, Stage};
use cert_table::{Certificate, Row};
use frame_records::{Groups, Pence};
use page_ids::PageNo;
use std::alloc::Global;
use std::marker::Model;

// What the lines so far have said.
#[derive(Drop)]
pub struct SoFar {
    grouped: bool,
    entry: u32,
    ceiling: u16,
    keyings: u16,
    groups: Groups,
    count: u16,
    rows: Vec<Row>,
}

impl Model for SoFar {
    ghost use Rattle.cert_text.specs.Reading.{Said, IsSound};

    ghost Value = { Said };

    ghost view = { λ r.
        record {
          grouped = r.grouped;
          entry = r.entry;
          ceiling = r.ceiling;
          keyings = r.keyings;
          groups = r.groups;
          count = r.count;
          rows = r.rows.items;
        } };

    ghost invariant = { λ r.
        IsSound (record {
          grouped = r.grouped;
          entry = r.entry;
          ceiling = r.ceiling;
          keyings = r.keyings;
          groups = r.groups;
          count = r.count;
          rows = r.rows.items;
        }) };
}

impl SoFar {
    // Before the first line.
    pub fn new(alloc: Global) -> SoFar
        ensures { result ≡ nothing_said }
    {
        SoFar {
            grouped: false,
            entry: 0,
            ceiling: 0,
            keyings: 0,
            groups: Groups::none(),
            count: 0,
            rows: Vec::new(alloc),
        }
    }

    // The number of the line that is due at a stage.
    pub fn number(&self, stage: Stage) -> u32
        ensures { result ≡ due_number stage self.now }
    {
        let rows = self.rows.len() as u32;
        let groups = u32::from(self.grouped);
        match stage {
            Stage::Magic => 1,
            Stage::Head(NumberLine::Entry) => 2,
            Stage::Head(NumberLine::Ceiling) => 3,
            Stage::Head(NumberLine::Keyings) => 4,
            Stage::Groups => 5,
            Stage::Head(NumberLine::Count) => groups + 5,
            Stage::Rows => rows + groups + 6,
            Stage::After => rows + groups + 7,
        }
    }

    // Keeps a number of the head.
    fn put(&mut self, field: NumberLine, number: u32)
        requires { number ≤ most_number field }
        ensures { self.new ≡ put field number self.old }
    {
        match field {
            NumberLine::Entry => self.entry = number,
            NumberLine::Ceiling => self.ceiling = number as u16,
            NumberLine::Keyings => self.keyings = number as u16,
            NumberLine::Count => self.count = number as u16,
        }
    }

    // Whether line 1 announces groups.
    fn take_magic(&mut self, line: &[u8]) -> Result<Stage, LineFault>
        ensures { Says result self.new (judge_magic self.old line.now) }
    {
        if line == b"PBC1".as_slice() {
            self.grouped = false;
        } else if line == b"PBC2".as_slice() {
            self.grouped = true;
        } else {
            return Err(LineFault::Says(LineCause::Magic));
        }
        Ok(Stage::Head(NumberLine::Entry))
    }

    fn take_number(&mut self, field: NumberLine, line: &[u8]) -> Result<Stage, LineFault>
        ensures { Says result self.new (judge_at (Head field) self.old line.now) }
    {
        let number = number_after(field.word(), field.most(), line)?;
        self.put(field, number);
        Ok(field.stage_after(self.grouped))
    }

    fn take_groups(&mut self, line: &[u8]) -> Result<Stage, LineFault>
        ensures { Says result self.new (judge_groups self.old line.now) }
    {
        self.groups = groups_after(b"groups ", line)?;
        Ok(Stage::Head(NumberLine::Count))
    }

    fn take_row(&mut self, line: &[u8]) -> Result<Stage, LineFault>
        requires { length self.old.rows + 1 ≤ self.old.count }
        ensures { Says result self.new (judge_row self.old line.now) }
    {
        if line == b"end".as_slice() {
            return Err(LineFault::Says(LineCause::Count));
        }
        let row = row_in(&self.rows, line)?;
        self.rows.push(row)?;
        Ok(Stage::Rows)
    }

    // A row while one is awaited, then `end`.
    fn take_row_or_end(&mut self, line: &[u8]) -> Result<Stage, LineFault>
        ensures { Says result self.new (judge_at Rows self.old line.now) }
    {
        if self.rows.len() < self.count as usize {
            self.take_row(line)
        } else if line == b"end".as_slice() {
            Ok(Stage::After)
        } else {
            Err(LineFault::Says(LineCause::Count))
        }
    }

    // Takes a whole line at its stage; the next stage.
    pub fn take(&mut self, stage: Stage, line: &[u8]) -> Result<Stage, LineFault>
        ensures { Says result self.new (judge_at stage self.old line.now) }
    {
        match stage {
            Stage::Magic => self.take_magic(line),
            Stage::Head(field) => self.take_number(field, line),
            Stage::Groups => self.take_groups(line),
            Stage::Rows => self.take_row_or_end(line),
            Stage::After => Err(LineFault::Says(LineCause::Tail)),
        }
    }

    // The certificate, if all lines have come.
    pub fn build(self) -> Certificate
        ensures { result ≡ certificate_of self }
    {
        let entry = PageNo::of(self.entry);
        let ceiling = Pence::of(self.ceiling);
        Certificate::of(entry, ceiling, self.keyings, self.groups, self.rows)
    }
}
