//! What a line says: a word and a number, or a row.

ghost use Rattle.std.specs.Prelude.{◌≡◌, ◌≤◌, IfOk, IfErr};
ghost use Rattle.page_ids.specs.Parts.{parts_of};
ghost use Rattle.cert_text.specs.Lines.{line_number, number_after, group_cause, groups_after, row_of, row_of_parts, row_in};
ghost use Rattle.cert_text.specs.Loops.{Lasts};

use crate::cursor::cursor_in;
use crate::fault::LineCause;
use cert_table::{MOST_RANK, Row};
use frame_records::{GroupFault, Groups};
use page_ids::{FrameId, NumberFault, cut, number_read};

// The number of a part of a line, up to the limit.
fn line_number(text: &[u8], most: u32) -> Result<u32, LineCause>
    ensures value { result ≡ line_number most text.now }
    ensures within { IfOk result (λ n. n ≤ most) }
    ensures lasts { IfErr result Lasts }
{
    match number_read(text, most) {
        Ok(number) => Ok(number),
        Err(NumberFault::NotNumeral) => Err(LineCause::Number),
        Err(NumberFault::AboveLimit) => Err(LineCause::Range),
    }
}

// A word with its space, and then a number.
pub fn number_after(word: &[u8], most: u32, line: &[u8]) -> Result<u32, LineCause>
    ensures value { result ≡ number_after word.now most line.now }
    ensures within { IfOk result (λ n. n ≤ most) }
    ensures lasts { IfErr result Lasts }
{
    match line.strip_prefix(word) {
        Some(text) => line_number(text, most),
        None => Err(LineCause::Word),
    }
}

// Why a list of groups is refused.
fn group_cause(fault: GroupFault) -> LineCause
    ensures value { result ≡ group_cause fault }
    ensures lasts { Lasts result }
{
    match fault {
        GroupFault::Number => LineCause::Number,
        GroupFault::Range => LineCause::Range,
        GroupFault::Order => LineCause::Order,
    }
}

// A word with its space, and then the numbers of groups.
pub fn groups_after(word: &[u8], line: &[u8]) -> Result<Groups, LineCause>
    ensures value { result ≡ groups_after word.now line.now }
    ensures lasts { IfErr result Lasts }
{
    match line.strip_prefix(word) {
        Some(text) => Groups::read_split(text, b' ').map_err(group_cause),
        None => Err(LineCause::Word),
    }
}

// The row of three parts.
#[tactic(auto, unfolding(crate::specs::Lines::row_of))]
fn row_of(id: &[u8], rank: &[u8], cursor: &[u8]) -> Result<Row, LineCause>
    ensures value { result ≡ row_of id.now rank.now cursor.now }
    ensures lasts { IfErr result Lasts }
{
    let id = FrameId::read_bytes(id).ok_or(LineCause::Word)?;
    let rank = line_number(rank, MOST_RANK as u32)?;
    let cursor = cursor_in(cursor)?;
    Ok(Row {
        id,
        rank: rank as u16,
        cursor,
    })
}

// The row of a line of just three parts.
#[tactic(auto, using(crate::proofs::Parts::too_many))]
fn row_of_parts(line: &[u8]) -> Result<Row, LineCause>
    ensures value { result ≡ row_of_parts (parts_of 32 line.now) }
    ensures lasts { IfErr result Lasts }
{
    let Some((id, after_id)) = cut(line, b' ') else {
        return Err(LineCause::Word);
    };
    let Some((rank, cursor)) = cut(after_id, b' ') else {
        return Err(LineCause::Word);
    };
    if let Some((_, _more)) = cut(cursor, b' ') {
        return Err(LineCause::Word);
    }
    row_of(id, rank, cursor)
}

// The row of a line, after these rows.
#[tactic(auto, unfolding(crate::specs::Lines::row_in))]
pub fn row_in(rows: &[Row], line: &[u8]) -> Result<Row, LineCause>
    ensures value { result ≡ row_in rows.now line.now }
    ensures lasts { IfErr result Lasts }
{
    let row = row_of_parts(line)?;
    match rows.last() {
        Some(last) if !(last.id < row.id) => Err(LineCause::Order),
        _ => Ok(row),
    }
}
