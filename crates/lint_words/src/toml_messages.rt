//! Toml's messages by which hints go.

pub(crate) const BAD_UTF8: &str = "invalid UTF-8";

pub(crate) const DUPLICATE: &str = "duplicate key";

pub(crate) const EXTENDS: &str = "cannot extend a value with a dotted key";

pub(crate) const BAD_STRING: &str = "invalid string";

pub(crate) const BAD_ESCAPE: &str = "invalid escape sequence";

pub(crate) const BAD_DATE: &str = "invalid date-time";

pub(crate) const BAD_KEY: &str = "invalid key, expected letters, numbers, `-`, `_` or a quoted key";

pub(crate) const NO_VALUE: &str = "key with no value, expected `=`";

pub(crate) const UNEXPECTED: &str = "unexpected key or value, expected newline, `#`";

pub(crate) const BAD_VALUE: &str =
    "invalid value, expected a string, number, boolean, date-time, array or inline table";

pub(crate) const NO_COMMA: &str = "missing comma between array elements, expected `,` or `]`";

pub(crate) const NO_COMMA_OF_PAIRS: &str =
    "missing comma between key-value pairs, expected `,` or `}`";
