use base_text::{Field, TableKind};
use near_words::Search;
use std::alloc::{AllocError, Global};

/// The keys of the top, three of them, and those of a frame.
pub const FIELDS: &[Field] = &[
    Field::Entry,
    Field::Outside,
    Field::Frame,
    Field::Id,
    Field::Price,
    Field::Group,
    Field::Next,
    Field::Routes,
    Field::Lead,
    Field::Body,
    Field::Rows,
];

fn named_keys(table: TableKind) -> &'static [Field] {
    let (top, frame) = FIELDS.split_at(3);
    match table {
        TableKind::Top => top,
        TableKind::Frame => frame,
        TableKind::Routes => &[],
    }
}

// Whether a table has this key.
pub(crate) fn is_key(table: TableKind, key: &str) -> bool {
    named_keys(table).iter().any(|field| field.name() == key)
}

// The key of the table that was probably meant.
pub(crate) fn nearest(
    alloc: Global,
    table: TableKind,
    text: &str,
) -> Result<Option<Field>, AllocError> {
    let mut search = Search::of(text);
    let mut found = None;
    for key in named_keys(table) {
        if key.name().eq_ignore_ascii_case(text) {
            return Ok(Some(*key));
        }
        if search.offer(alloc, key.name())? {
            found = Some(*key);
        }
    }
    Ok(found)
}
