ghost use Rattle.std.specs.Prelude.{◌≡◌, None};
ghost use Rattle.std.specs.Option.{option_copied};
ghost use Rattle.cert_table.specs.Table.{AreRows, AreOnScreen, is_on_screen, comes_after, row_fault, table_fault, cert_of, built, FaultsAreExact};

use crate::cover::Cover;
use crate::limits::MOST_ROWS;
use crate::row::Row;
use crate::row_table::RowTable;
use abstract_paint::Place;
use frame_records::{Groups, Pence};
use page_ids::{FrameId, PageNo};
use std::marker::Model;
use thiserror::Error;

/// Why rows make no table. Rows are judged in order, and of one row `Range` comes before `Order`.
#[derive(Debug, Clone, Copy, PartialEq, Eq, Error)]
pub enum TableFault {
    /// C2: over 65,535 rows.
    #[error("too many rows")]
    TooMany,
    /// C3: the row at this index, from 0, has a cursor of a column over 39 or of a spot over 959.
    #[error("the cursor of row {0} is off the screen")]
    Range(usize),
    /// C1: the id of the row at this index isn't greater than that of the row before.
    #[error("row {0} is out of order")]
    Order(usize),
}

/// A certificate over a table of covered frames. Contracts see its parts, and its cover as the list of its rows.
#[derive(Drop)]
pub struct Certificate<C: Cover + Drop = RowTable> {
    entry: PageNo,
    ceiling: Pence,
    keyings: u16,
    groups: Groups,
    cover: C,
}

impl<C: Cover + Drop> Model for Certificate<C> {
    ghost use Rattle.cert_table.specs.Table.{CertView};

    ghost Value = { CertView };

    ghost use Rattle.cert_table.specs.Table.{AreRows, AreOnScreen};

    ghost view = { λ c.
        record {
          entry = c.entry;
          ceiling = c.ceiling;
          keyings = c.keyings;
          groups = c.groups;
          rows = C.rows c.cover;
        } };

    ghost invariant = { λ c. AreRows (C.rows c.cover) × AreOnScreen (C.rows c.cover) };
}

fn is_on_screen(place: Place) -> bool
    ensures { result ≡ is_on_screen place }
{
    match place {
        Place::Any => true,
        Place::Col(column) => column < 40,
        Place::Spot(spot) => spot < 960,
    }
}

fn comes_after(before: Option<&Row>, id: FrameId) -> bool
    ensures { result ≡ comes_after (option_copied before.entry) id }
{
    match before {
        Some(row) => row.id < id,
        None => true,
    }
}

// What is wrong with the row at i, after another.
fn row_fault(i: usize, before: Option<&Row>, row: &Row) -> Option<TableFault>
    ensures { result ≡ row_fault i (option_copied before.entry) row.now }
{
    if !is_on_screen(row.cursor.place) {
        return Some(TableFault::Range(i));
    }
    if !comes_after(before, row.id) {
        return Some(TableFault::Order(i));
    }
    None
}

// The first refusal of the rows.
fn table_fault(rows: &[Row]) -> Option<TableFault>
    ensures { result ≡ table_fault rows.now }
{
    if rows.len() > MOST_ROWS {
        return Some(TableFault::TooMany);
    }
    let mut before = None;
    for (i, row) in rows.iter().enumerate() {
        if let Some(fault) = row_fault(i, before, row) {
            return Some(fault);
        }
        before = Some(row);
    }
    None
}

/// No refusal applies if and only if ids ascend, the rows are at most 65,535 and each cursor is on the screen.
pub fn faults_are_exact()
    ensures { FaultsAreExact }
{}

impl<C: Cover + Drop> Certificate<C> {
    /// The certificate of parts whose rows aren't refused. Takes no memory.
    pub fn of(
        entry: PageNo,
        ceiling: Pence,
        keyings: u16,
        groups: Groups,
        rows: Vec<Row>,
    ) -> Certificate<C>
        requires { table_fault rows.items ≡ None }
        ensures { result ≡ cert_of entry ceiling keyings groups rows.items }
    {
        Certificate {
            entry,
            ceiling,
            keyings,
            groups,
            cover: C::of(rows),
        }
    }

    /// The certificate of these parts, whose rows are in the order of their ids.
    ///
    /// Takes no memory. C2, then for each row in order C3, C1; after a refusal the rows are dropped.
    pub fn build(
        entry: PageNo,
        ceiling: Pence,
        keyings: u16,
        groups: Groups,
        rows: Vec<Row>,
    ) -> Result<Certificate<C>, TableFault>
        ensures { result ≡ built entry ceiling keyings groups rows.items }
    {
        match table_fault(rows.as_slice()) {
            Some(fault) => Err(fault),
            None => Ok(Certificate::of(entry, ceiling, keyings, groups, rows)),
        }
    }

    /// The entry page of the base that it speaks of.
    pub fn entry(&self) -> PageNo
        ensures value { result ≡ self.now.entry }
        ensures valid { AreRows self.now.rows }
    {
        self.entry
    }

    /// The most that a covered frame may cost, as the certificate says, in pence.
    pub fn ceiling(&self) -> Pence
        ensures { result ≡ self.now.ceiling }
    {
        self.ceiling
    }

    /// The most keyings that a covered frame may need to regain the entry frame, as the certificate says.
    pub fn keyings(&self) -> u16
        ensures { result ≡ self.now.keyings }
    {
        self.keyings
    }

    /// The closed user groups of the callers for whom it was made.
    pub fn groups(&self) -> &Groups
        ensures { result.now ≡ self.now.groups }
    {
        &self.groups
    }

    /// The covered frames.
    pub fn cover(&self) -> &C
        ensures rows { C.rows result.now ≡ self.now.rows }
        ensures on_screen { AreOnScreen self.now.rows }
    {
        &self.cover
    }
}
