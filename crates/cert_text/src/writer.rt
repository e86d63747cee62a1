//! The text of a certificate.

ghost use Rattle.std.specs.Prelude.{◌≡◌, ◌≤◌, ◌++◌, ◌∷◌, [], Ok, IfOk, OnOk, All, decimal, map, length};
ghost use Rattle.page_ids.specs.Ids.{IsPageNumber};
ghost use Rattle.abstract_paint.specs.Paint.{OnScreen};
ghost use Rattle.frame_records.specs.declared.limits.TheConstants.{MOST_PENCE};
ghost use Rattle.frame_records.specs.Groups.{AreGroups};
ghost use Rattle.cert_table.specs.declared.limits.TheConstants.{MOST_RANK};
ghost use Rattle.cert_table.specs.Table.{AreRows, AreOnScreen};
ghost use Rattle.cert_text.specs.Grammar.{IsRow, IsCertificateText, certificate_text, cursor_text, place_text, row_line, has_groups, first_line, spaced_groups, groups_lines, head_lines, text_of};
ghost use Rattle.cert_text.specs.Reading.{reading};

use abstract_paint::{AbsCursor, Pend, Place};
use cert_table::{Certificate, Cover, Row};
use frame_records::Groups;
use page_ids::{push_id, push_number};
use std::alloc::{AllocError, Global};

// A word with its space, a number and the line's end.
fn push_line(out: &mut Vec<u8>, word: &[u8], number: u32) -> Result<(), AllocError>
    ensures { OnOk result (out.new.items ≡ out.old.items ++ ((word.now ++ decimal number) ++ (10 ∷ []))) }
{
    out.extend_from_slice(word)?;
    push_number(out, u64::from(number))?;
    out.push(b'\n')?;
    Ok(())
}

fn push_place(out: &mut Vec<u8>, place: Place) -> Result<(), AllocError>
    ensures { OnOk result (out.new.items ≡ out.old.items ++ place_text place) }
{
    match place {
        Place::Any => out.extend_from_slice(b"any")?,
        Place::Col(column) => {
            out.push(b'c')?;
            push_number(out, u64::from(column))?;
        }
        Place::Spot(spot) => {
            out.push(b's')?;
            push_number(out, u64::from(spot))?;
        }
    }
    Ok(())
}

fn push_cursor(out: &mut Vec<u8>, cursor: AbsCursor) -> Result<(), AllocError>
    ensures { OnOk result (out.new.items ≡ out.old.items ++ cursor_text cursor) }
{
    push_place(out, cursor.place)?;
    match cursor.pend {
        Pend::No => {}
        Pend::Yes => out.push(b'+')?,
        Pend::Maybe => out.push(b'?')?,
    }
    Ok(())
}

fn push_row(out: &mut Vec<u8>, row: &Row) -> Result<(), AllocError>
    requires { OnScreen row.now.cursor.place }
    ensures text { OnOk result (out.new.items ≡ out.old.items ++ (row_line row.now ++ (10 ∷ []))) }
    ensures valid { IsRow row.now }
{
    let rank = row.rank;
    push_id(out, row.id)?;
    out.push(b' ')?;
    push_number(out, u64::from(rank))?;
    out.push(b' ')?;
    push_cursor(out, row.cursor)?;
    out.push(b'\n')?;
    Ok(())
}

#[tactic(auto, using(crate::proofs::Written::some_by_length))]
fn has_groups(groups: &Groups) -> bool
    ensures answer { result ≡ has_groups groups.now }
    ensures valid { AreGroups groups.now }
{
    groups.len() > 0
}

// Line 1.
fn push_first(out: &mut Vec<u8>, groups: &Groups) -> Result<(), AllocError>
    ensures text { OnOk result (out.new.items ≡ out.old.items ++ (first_line (has_groups groups.now) ++ (10 ∷ []))) }
    ensures valid { AreGroups groups.now }
{
    if has_groups(groups) {
        out.extend_from_slice(b"PBC2\n")?;
    } else {
        out.extend_from_slice(b"PBC1\n")?;
    }
    Ok(())
}

// The groups, with a space before each.
fn push_numbers(out: &mut Vec<u8>, groups: &Groups) -> Result<(), AllocError>
    ensures { OnOk result (out.new.items ≡ out.old.items ++ spaced_groups groups.now) }
{
    for i in 0..groups.len() {
        let group = groups.at(i);
        out.push(b' ')?;
        push_number(out, u64::from(group.get()))?;
    }
    Ok(())
}

// The line of the groups, if there are any.
fn push_groups(out: &mut Vec<u8>, groups: &Groups) -> Result<(), AllocError>
    ensures { OnOk result (out.new.items ≡ out.old.items ++ text_of (groups_lines groups.now)) }
{
    if has_groups(groups) {
        out.extend_from_slice(b"groups")?;
        push_numbers(out, groups)?;
        out.push(b'\n')?;
    }
    Ok(())
}

#[tactic(auto, using(crate::proofs::Written::head_joined))]
fn push_head(
    out: &mut Vec<u8>,
    entry: u32,
    ceiling: u16,
    keyings: u16,
    groups: &Groups,
    count: u32,
) -> Result<(), AllocError>
    requires { out.old.items ≡ [] }
    ensures text { OnOk result (out.new.items ≡ text_of (head_lines entry ceiling keyings groups.now count)) }
    ensures valid { AreGroups groups.now }
{
    push_first(out, groups)?;
    push_line(out, b"entry ", entry)?;
    push_line(out, b"ceiling ", u32::from(ceiling))?;
    push_line(out, b"keyings ", u32::from(keyings))?;
    push_groups(out, groups)?;
    push_line(out, b"rows ", count)?;
    Ok(())
}

fn push_rows<C: Cover + Drop>(out: &mut Vec<u8>, cover: &C) -> Result<(), AllocError>
    requires { AreOnScreen (C.rows cover.now) }
    ensures text { OnOk result (out.new.items ≡ out.old.items ++ text_of (map row_line (C.rows cover.now))) }
    ensures valid { OnOk result (All IsRow (C.rows cover.now)) }
{
    for i in 0..cover.len() {
        push_row(out, cover.row_at(i))?;
    }
    Ok(())
}

fn push_cert_head<C: Cover + Drop>(
    out: &mut Vec<u8>,
    cert: &Certificate<C>,
) -> Result<(), AllocError>
    requires { out.old.items ≡ [] }
    ensures text { OnOk result (out.new.items ≡ text_of
        (head_lines cert.now.entry cert.now.ceiling cert.now.keyings cert.now.groups (length cert.now.rows))) }
    ensures entry { IsPageNumber cert.now.entry }
    ensures ceiling { cert.now.ceiling ≤ MOST_PENCE }
    ensures keyings { cert.now.keyings ≤ MOST_RANK }
    ensures groups { AreGroups cert.now.groups }
    ensures rows { AreRows cert.now.rows }
{
    let entry = cert.entry().get();
    let ceiling = cert.ceiling().get();
    let keyings = cert.keyings();
    let count = cert.cover().len() as u32;
    push_head(out, entry, ceiling, keyings, cert.groups(), count)
}

fn push_cert_rows<C: Cover + Drop>(
    out: &mut Vec<u8>,
    cert: &Certificate<C>,
) -> Result<(), AllocError>
    ensures text { OnOk result (out.new.items ≡ out.old.items ++ text_of (map row_line cert.now.rows)) }
    ensures valid { OnOk result (All IsRow cert.now.rows) }
{
    push_rows(out, cert.cover())
}

/// The text of a certificate, whatever cover holds its rows.
///
/// Linear in the text. It is at most 128 bytes a line, and a line for each row and six more, or seven with groups.
pub fn cert_write<C: Cover + Drop>(
    alloc: Global,
    cert: &Certificate<C>,
) -> Result<Vec<u8>, AllocError>
    ensures text { IfOk result (λ text. text.items ≡ certificate_text cert.now) }
    // The grammar pairs the text with the certificate.
    ensures in_grammar { IfOk result (λ text. IsCertificateText text.items cert.now) }
    // It is read as the certificate again.
    ensures read_again { IfOk result (λ text. reading text.items ≡ Ok cert.now) }
{
    let mut out = Vec::new(alloc);
    push_cert_head(&mut out, cert)?;
    push_cert_rows(&mut out, cert)?;
    out.extend_from_slice(b"end\n")?;
    Ok(out)
}
