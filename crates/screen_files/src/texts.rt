//! The text of a base.

ghost use Rattle.std.specs.Prelude.{◌≡◌, ◌++◌, ◌∷◌, [], ◌<◌, ◌/◌, ◌%◌, ◌*◌, OnOk, codes, drop, if◌then◌else◌, map, take};
ghost use Rattle.std.specs.List.{flat_map};
ghost use Rattle.page_ids.specs.Texts.{hex_digit};
ghost use Rattle.screen_files.specs.Rows.{rows_of};
ghost use Rattle.screen_files.specs.Texts as spec;

use crate::frame::ScreenFrame;
use crate::keys::shows_key;
use crate::routes::{Known, push_guesses};
use crate::rows::{last_row, row_copy, row_of, trimmed};
use arrayvec::ArrayVec;
use frame_records::Pence;
use page_ids::{FrameId, PageNo, hex_digit, push_id, push_number, push_page};
use screens::{Looks, screen_looks};
use std::alloc::AllocError;

#[tactic(auto, using(std::proofs::Common::append_assoc))]
fn push_escape(out: &mut Vec<u8>, code: u8) -> Result<(), AllocError>
    ensures { OnOk result (out.new.items ≡ out.old.items ++ (codes "\\u00" ++ hex_digit (code / 16) ∷
        hex_digit (code % 16) ∷ [])) }
{
    out.extend_from_slice(b"\\u00")?;
    out.extend_from_slice(&[hex_digit(code / 16), hex_digit(code % 16)])
}

fn push_code(out: &mut Vec<u8>, code: u8) -> Result<(), AllocError>
    ensures { OnOk result (out.new.items ≡ out.old.items ++ spec.quoted_code code) }
{
    match code {
        b'"' => out.extend_from_slice(b"\\\""),
        b'\\' => out.extend_from_slice(b"\\\\"),
        0x00..=0x7e => out.extend_from_slice(&[code]),
        0x7f..=0xff => push_escape(out, code),
    }
}

fn push_codes(out: &mut Vec<u8>, row: &[u8]) -> Result<(), AllocError>
    ensures { OnOk result (out.new.items ≡ out.old.items ++ flat_map spec.quoted_code row.now) }
{
    for code in row {
        push_code(out, *code)?;
    }
    Ok(())
}

#[tactic(auto, using(std::proofs::Common::append_assoc))]
fn push_row(out: &mut Vec<u8>, row: &[u8]) -> Result<(), AllocError>
    ensures { OnOk result (out.new.items ≡ out.old.items ++ spec.row_text_line row.now) }
{
    out.extend_from_slice(b"    \"")?;
    push_codes(out, row)?;
    out.extend_from_slice(b"\",\n")
}

fn push_row_lines(out: &mut Vec<u8>, codes: &[u8; 960]) -> Result<(), AllocError>
    ensures { OnOk result (out.new.items ≡ out.old.items ++ flat_map spec.row_text_line (rows_of codes.now)) }
{
    for above in 0..last_row(codes) {
        push_row(out, row_of(codes, above + 1))?;
    }
    Ok(())
}

/// Writes the rows of a frame as [`push_frame`] does, from `rows = [` on, and a line end.
#[tactic(auto, using(std::proofs::Common::append_assoc))]
pub fn push_rows(out: &mut Vec<u8>, codes: &[u8; 960]) -> Result<(), AllocError>
    ensures { OnOk result (out.new.items ≡ out.old.items ++ spec.rows_text codes.now) }
{
    out.extend_from_slice(b"rows = [\n")?;
    push_row_lines(out, codes)?;
    out.extend_from_slice(b"]\n")
}

// The code of a comment: attributes and 7F are spaces.
fn comment_code(code: u8) -> u8
    ensures { result ≡ spec.comment_code code }
{
    if code < 0x7f { code } else { b' ' }
}

// A comment of a text, if it isn't empty.
#[tactic(auto, using(std::proofs::Common::append_assoc))]
fn push_comment(out: &mut Vec<u8>, text: &[u8]) -> Result<(), AllocError>
    ensures { OnOk result (out.new.items ≡ out.old.items ++ spec.comment_by text.now) }
{
    if text.is_empty() {
        return Ok(());
    }
    out.extend_from_slice(b"# ")?;
    out.extend_from_slice(text)?;
    out.extend_from_slice(b"\n")
}

// The text of a comment of a row.
fn comment_text(codes: &[u8; 960], row: usize) -> [u8; 40]
    requires { row < 24 }
    ensures { result ≡ map spec.comment_code (take 40 (drop (40 * row) codes.now)) }
{
    let mut text = row_copy(codes, row);
    for code in text.iter_mut() {
        *code = comment_code(*code);
    }
    text
}

// A comment of what a row shows.
fn push_row_comment(out: &mut Vec<u8>, codes: &[u8; 960], row: usize) -> Result<(), AllocError>
    requires { row < 24 }
    ensures { OnOk result (out.new.items ≡ out.old.items ++ spec.row_comment codes.now row) }
{
    let text = comment_text(codes, row);
    push_comment(out, trimmed(&text))
}

// The digits that a screen shows as keys, ascending, each after a space.
fn keys_text(looks: &Looks) -> ArrayVec<u8, 20>
    ensures { result.items ≡ spec.shown_keys_text looks.now }
{
    let mut text = ArrayVec::new();
    for digit in 0..10 {
        if shows_key(looks, digit) {
            text.push(b' ');
            text.push(b'0' + digit);
        }
    }
    text
}

#[tactic(auto, unfolding(crate::specs::Texts::keys_label))]
fn push_label(out: &mut Vec<u8>) -> Result<(), AllocError>
    ensures { OnOk result (out.new.items ≡ out.old.items ++ spec.keys_label) }
{
    out.extend_from_slice(b" # keys shown:")
}

// A comment of the keys that are shown, if there are any.
#[tactic(auto, using(std::proofs::Common::append_assoc))]
fn push_keys(out: &mut Vec<u8>, keys: &[u8]) -> Result<(), AllocError>
    ensures { OnOk result (out.new.items ≡ out.old.items ++ spec.keys_comment keys.now) }
{
    if keys.is_empty() {
        return Ok(());
    }
    push_label(out)?;
    out.extend_from_slice(keys)
}

#[tactic(auto, unfolding(crate::specs::Texts::guessed_label))]
fn push_guessed_label(out: &mut Vec<u8>) -> Result<(), AllocError>
    ensures { OnOk result (out.new.items ≡ out.old.items ++ spec.guessed_label) }
{
    out.extend_from_slice(b" # by its number; keys shown:")
}

// What comes after the routes, up to the line's end.
#[tactic(auto, using(std::proofs::Common::append_assoc))]
fn push_routes_comment(out: &mut Vec<u8>, is_guessed: bool, keys: &[u8]) -> Result<(), AllocError>
    ensures { OnOk result (out.new.items ≡ out.old.items ++
        (if is_guessed then spec.guessed_label ++ keys.now else spec.keys_comment keys.now)) }
{
    if is_guessed {
        push_guessed_label(out)?;
        out.extend_from_slice(keys)
    } else {
        push_keys(out, keys)
    }
}

fn push_routes(out: &mut Vec<u8>, known: &Known, frame: &ScreenFrame) -> Result<(), AllocError>
    ensures { OnOk result (out.new.items ≡ out.old.items ++ spec.routes_line known.now frame.now) }
{
    let looks = screen_looks(&frame.codes);
    out.extend_from_slice(b"routes = {")?;
    let is_guessed = push_guesses(out, known, frame.id.page, &looks)?;
    out.extend_from_slice(b" }")?;
    push_routes_comment(out, is_guessed, keys_text(&looks).as_slice())?;
    out.extend_from_slice(b"\n")
}

#[tactic(auto, using(std::proofs::Common::append_assoc))]
fn push_id_line(out: &mut Vec<u8>, id: FrameId) -> Result<(), AllocError>
    ensures { OnOk result (out.new.items ≡ out.old.items ++ spec.id_line id) }
{
    out.extend_from_slice(b"id = \"")?;
    push_id(out, id)?;
    out.extend_from_slice(b"\"\n")
}

#[tactic(auto, using(std::proofs::Common::append_assoc))]
fn push_price(out: &mut Vec<u8>, price: Option<Pence>) -> Result<(), AllocError>
    ensures { OnOk result (out.new.items ≡ out.old.items ++ spec.price_text_line price) }
{
    let Some(price) = price else {
        return Ok(());
    };
    out.extend_from_slice(b"price = ")?;
    push_number(out, price.get() as u64)?;
    out.extend_from_slice(b"\n")
}

fn push_next(out: &mut Vec<u8>, next: bool) -> Result<(), AllocError>
    ensures { OnOk result (out.new.items ≡ out.old.items ++ spec.next_line next) }
{
    if next {
        out.extend_from_slice(b"next = true\n")?;
    }
    Ok(())
}

#[tactic(auto, using(std::proofs::Common::append_assoc))]
fn push_head(out: &mut Vec<u8>, frame: &ScreenFrame, next: bool) -> Result<(), AllocError>
    ensures { OnOk result (out.new.items ≡ out.old.items ++ spec.lines_before_routes frame.now next) }
{
    out.extend_from_slice(b"\n[[frame]]\n")?;
    push_row_comment(out, &frame.codes, 0)?;
    push_id_line(out, frame.id)?;
    push_price(out, frame.price)?;
    push_next(out, next)
}

/// Writes a frame, from `[[frame]]` on, after an empty line. Its rows are rows 1 to 22 of the screen up to the last that isn't blank,
/// without the spaces at their ends, one a line. Rows 0 and 23, if they aren't blank, and the digits that begin words are
/// comments. Routes are guessed if they lead to a known frame. `next` says whether the key `#` leads on.
#[tactic(auto, using(std::proofs::Common::append_assoc))]
pub fn push_frame(
    out: &mut Vec<u8>,
    known: &Known,
    frame: &ScreenFrame,
    next: bool,
) -> Result<(), AllocError>
    ensures { OnOk result (out.new.items ≡ out.old.items ++ spec.frame_lines known.now frame.now next) }
{
    push_head(out, frame, next)?;
    push_routes(out, known, frame)?;
    push_rows(out, &frame.codes)?;
    push_row_comment(out, &frame.codes, 23)
}

/// Writes the line of the entry page, which comes before all frames.
#[tactic(auto, using(std::proofs::Common::append_assoc))]
pub fn push_entry(out: &mut Vec<u8>, page: PageNo) -> Result<(), AllocError>
    ensures { OnOk result (out.new.items ≡ out.old.items ++ spec.entry_key_line page) }
{
    out.extend_from_slice(b"entry = ")?;
    push_page(out, page)?;
    out.extend_from_slice(b"\n")
}
