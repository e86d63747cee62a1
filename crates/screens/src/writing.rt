//! Characters as bytes.

ghost use Rattle.std.specs.Prelude.{◌≡◌, ◌++◌, OnOk};
ghost use Rattle.screens.specs.Writing as spec;

use page_ids::push_utf8;
use std::alloc::AllocError;

/// How characters are written.
#[derive(Debug, Clone, Copy, PartialEq, Eq)]
pub enum Writing {
    /// In UTF-8.
    Plain,
    /// The same, but `<`, `>`, `&`, `"` and `'` as references, for XML and HTML.
    Markup,
}

fn push_markup(out: &mut Vec<u8>, c: char) -> Result<(), AllocError>
    ensures { OnOk result (out.new.items ≡ out.old.items ++ spec.reference c) }
{
    match c {
        '<' => out.extend_from_slice(b"&lt;"),
        '>' => out.extend_from_slice(b"&gt;"),
        '&' => out.extend_from_slice(b"&amp;"),
        '"' => out.extend_from_slice(b"&quot;"),
        '\'' => out.extend_from_slice(b"&#39;"),
        _ => push_utf8(out, c),
    }
}

/// Writes a character.
pub fn push_char(out: &mut Vec<u8>, writing: Writing, c: char) -> Result<(), AllocError>
    ensures { OnOk result (out.new.items ≡ out.old.items ++ spec.char_bytes writing c) }
{
    match writing {
        Writing::Plain => push_utf8(out, c),
        Writing::Markup => push_markup(out, c),
    }
}
