//! Keys and codes, by themselves.

use base_text::{Field, TableKind, digit_key, is_key, is_row_code};
use std::test::Fail;
use test_support::same;

#[test]
fn keys_and_codes_are_reported(_rt: HostRuntime) -> Result<(), Fail> {
    let words = (
        Field::Price.name(),
        digit_key(7),
        is_key(TableKind::Frame, "price"),
        is_key(TableKind::Top, "price"),
        is_row_code(0x80),
        is_row_code(0xA0),
    );
    same(words, ("price", "7", true, false, true, false))
}
