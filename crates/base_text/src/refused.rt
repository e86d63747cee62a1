ghost use Rattle.std.specs.Prelude.{◌≡◌, OnOk, length};
ghost use Rattle.std.specs.Str.{chars};
ghost use Rattle.base_text.specs.Details.{with_all};
ghost use Rattle.base_text.specs.Rows.{is_byte, is_row_code, may_hold, refused, refused_code, more_codes, code_faults};

use crate::cells::is_row_code;
use crate::detail::Detail;
use crate::details::Details;
use std::alloc::AllocError;

// What holds characters: a body, or a row by its number.
#[derive(Debug, Clone, Copy)]
pub enum Holder {
    Body,
    Row(usize),
}

fn is_byte_char(code: char) -> bool
    ensures { result ≡ is_byte code }
{
    u8::try_from(code).is_ok()
}

fn is_row_char(code: char) -> bool
    ensures { result ≡ is_row_code code }
{
    match u8::try_from(code) {
        Ok(byte) => is_row_code(byte),
        Err(_) => false,
    }
}

impl Holder {
    fn may_hold(self, code: char) -> bool
        ensures { result ≡ may_hold self code }
    {
        match self {
            Holder::Body => is_byte_char(code),
            Holder::Row(_) => is_row_char(code),
        }
    }

    fn refused_code(self, number: usize, code: char) -> Detail
        ensures { result ≡ refused_code self number code }
    {
        match self {
            Holder::Body => Detail::BodyCode(number, code),
            Holder::Row(row) => Detail::RowCode(row, number, code),
        }
    }

    fn more_codes(self, number: usize, more: usize) -> Detail
        ensures { result ≡ more_codes self number more }
    {
        match self {
            Holder::Body => Detail::MoreBodyCodes(number, more),
            Holder::Row(row) => Detail::MoreRowCodes(row, number, more),
        }
    }
}

// How many characters are refused.
fn count_refused(holder: Holder, text: &str) -> usize
    ensures { result ≡ length (refused holder 1 (chars text.now)) }
{
    let mut count = 0;
    for code in text.chars() {
        if !holder.may_hold(code) {
            count += 1;
        }
    }
    count
}

// Appends ten refused characters of a text, then how many more there are.
pub fn add_refused(holder: Holder, text: &str, details: &mut Details) -> Result<(), AllocError>
    ensures { OnOk result (details.new ≡ with_all details.old (code_faults holder (chars text.now))) }
{
    let count = count_refused(holder, text);
    let mut number = 0;
    let mut left: usize = 10;
    for code in text.chars() {
        number += 1;
        if !holder.may_hold(code) {
            if left == 0 {
                return details.add(holder.more_codes(number, count - 10));
            }
            details.add(holder.refused_code(number, code))?;
            left -= 1;
        }
    }
    Ok(())
}
