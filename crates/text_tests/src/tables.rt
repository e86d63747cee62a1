//! Tables built by hand; which rows make none is these rules' own list of refusals.

use abstract_paint::{AbsCursor, Pend, Place};
use cert_table::{Certificate, Cover, Row, RowList, RowTable, TableFault};
use frame_records::{GroupNo, Groups, Pence};
use page_ids::{FrameId, PageNo};
use std::alloc::{AllocError, Global};
use std::test::Fail;
use test_support::{depth, same, same_in};

fn id(text: &str) -> Result<FrameId, Fail> {
    let id = FrameId::read(text)?;
    Ok(id)
}

fn row(id: FrameId, rank: u16, place: Place) -> Row {
    Row {
        id,
        rank,
        cursor: AbsCursor {
            place,
            pend: Pend::No,
        },
    }
}

fn rows(alloc: Global, list: &[(&str, u16, Place)]) -> Result<Vec<Row>, Fail> {
    let mut rows = Vec::new(alloc);
    for (id, rank, place) in list {
        rows.push(row(FrameId::read(id)?, *rank, *place))?;
    }
    Ok(rows)
}

fn certificate(rows: Vec<Row>) -> Result<Certificate<RowList>, TableFault> {
    let (Some(entry), Some(ceiling)) = (PageNo::new(123), Pence::new(5)) else {
        unreachable!()
    };
    let mut groups = Groups::none();
    for group in [GroupNo::new(7), GroupNo::new(9)] {
        if let Some(group) = group {
            groups.push(group);
        }
    }
    Certificate::build(entry, ceiling, 1, groups, rows)
}

const DEMO: [(&str, u16, Place); 3] = [
    ("123a", 0, Place::Spot(80)),
    ("1231a", 1, Place::Spot(80)),
    ("1231b", 1, Place::Spot(48)),
];

#[test]
fn a_certificate_has_the_parts_that_it_was_made_of(rt: HostRuntime) -> Result<(), Fail> {
    let [a, b, c, other] = [id("1231a")?, id("1231b")?, id("1231c")?, id("124a")?];
    let groups = Groups::read("7,9")?;
    let Ok(cert) = certificate(rows(rt.alloc(), &DEMO)?) else {
        return Err(Fail::from("refused"));
    };
    let cover = cert.cover();
    let parts = (
        cert.entry().get(),
        cert.ceiling().get(),
        cert.keyings(),
        cert.groups().are_same(&groups),
        cover.len(),
    );
    let ranks = [a, b, c, other].map(|id| cover.rank_of(id));
    let rows = (
        cover.row_of(a).map(|row| row.id),
        cover.row_of(other).is_none(),
    );
    same(
        (parts, ranks, rows),
        (
            (123, 5, 1, true, 3),
            [Some(1), Some(1), None, None],
            (Some(a), true),
        ),
    )
}

#[test]
fn rows_that_make_no_table_are_named(rt: HostRuntime) -> Result<(), Fail> {
    let tables: [(&[(&str, u16, Place)], Option<TableFault>); 9] = [
        (&[], None),
        (&[("123a", 0, Place::Col(40))], Some(TableFault::Range(0))),
        (&[("123a", 0, Place::Col(39))], None),
        (
            &[("123a", 0, Place::Any), ("123a", 0, Place::Any)],
            Some(TableFault::Order(1)),
        ),
        (
            &[("123b", 0, Place::Any), ("123a", 0, Place::Any)],
            Some(TableFault::Order(1)),
        ),
        (
            &[("124a", 0, Place::Any), ("123z", 0, Place::Any)],
            Some(TableFault::Order(1)),
        ),
        (
            &[("123b", 0, Place::Any), ("123a", 0, Place::Spot(960))],
            Some(TableFault::Range(1)),
        ),
        (
            &[
                ("123a", 0, Place::Any),
                ("123b", 0, Place::Spot(959)),
                ("123b", 0, Place::Spot(960)),
            ],
            Some(TableFault::Range(2)),
        ),
        (&[("99z", 0, Place::Any), ("100a", 0, Place::Any)], None),
    ];
    for (i, (list, fault)) in tables.iter().enumerate() {
        same_in(i, certificate(rows(rt.alloc(), list)?).err(), *fault)?;
    }
    Ok(())
}

// This many rows of one id.
fn many(alloc: Global, count: u32) -> Result<Vec<Row>, AllocError> {
    let mut rows = Vec::new(alloc);
    for number in 0..count {
        if let Some(page) = PageNo::new(number) {
            rows.push(row(FrameId::first(page), 0, Place::Any))?;
        }
    }
    Ok(rows)
}

#[test]
fn a_table_has_at_most_65_535_rows(rt: HostRuntime) -> Result<(), Fail> {
    let most = many(rt.alloc(), 65_535)?;
    let more = many(rt.alloc(), 65_536)?;
    same(
        [certificate(most).err(), certificate(more).err()],
        [None, Some(TableFault::TooMany)],
    )
}

// This many rows, of every third page from 1.
fn every_third(alloc: Global, count: u32) -> Result<Vec<Row>, AllocError> {
    let mut rows = Vec::new(alloc);
    for i in 0..count {
        if let Some(page) = PageNo::new(i.saturating_mul(3).saturating_add(1)) {
            rows.push(row(FrameId::first(page), (i % 9) as u16, Place::Any))?;
        }
    }
    Ok(rows)
}

// The certificate of these rows over a cover, whichever it is.
fn covered<C: Cover + Drop>(rows: Vec<Row>) -> Result<Certificate<C>, Fail> {
    let entry = PageNo::new(123).ok_or("entry")?;
    let ceiling = Pence::new(5).ok_or("ceiling")?;
    Ok(
        Certificate::build(entry, ceiling, 1, Groups::none(), rows)
            .ok()
            .ok_or("rows")?,
    )
}

// Whether a table and a list of every third page answer alike for a page's frame and rightly, and compare as many rows as a
// binary search and a search from the front do.
fn answer_alike(table: &RowTable, list: &RowList, number: u32, count: u32) -> bool {
    let Some(page) = PageNo::new(number) else {
        return false;
    };
    let id = FrameId::first(page);
    let (found, asked) = table.row_counted(id);
    let (listed, compared) = list.row_counted(id);
    let is_there = number % 3 == 1 && number < count.saturating_mul(3);
    let place = (number / 3 * 2 + number % 3).min(count.saturating_mul(2));
    let in_turn = if is_there { number / 3 + 1 } else { count };
    found.map(|row| row.rank) == listed.map(|row| row.rank)
        && table.rank_of(id) == list.rank_of(id)
        && found.is_some() == is_there
        && asked == depth(count, place)
        && compared == in_turn
}

#[test]
fn a_table_and_a_list_of_rows_answer_alike(rt: HostRuntime) -> Result<(), Fail> {
    for count in [0, 1, 2, 3, 4, 7, 8, 100] {
        let table = covered::<RowTable>(every_third(rt.alloc(), count)?)?;
        let list = covered::<RowList>(every_third(rt.alloc(), count)?)?;
        let (table, list) = (table.cover(), list.cover());
        let mut pages = 0..count.saturating_mul(3).saturating_add(3);
        let wrong = pages.find(|number| !answer_alike(table, list, *number, count));
        same_in(count, (wrong, table.most(), list.most()), (None, 16, count))?;
    }
    Ok(())
}
