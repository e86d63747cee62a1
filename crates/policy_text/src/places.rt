//! Where a policy's text has its first fault.

ghost use Rattle.std.specs.Prelude.{◌≡◌, IfOk, Some};
ghost use Rattle.toml.specs.Data.{Members};
ghost use Rattle.toml.specs.View.{table_view};
ghost use Rattle.toml_places.specs.Places.{Keeps, marks};
ghost use Rattle.base_text.specs.Whole.{tree_of};
ghost use Rattle.policy_text.specs.Policies.{unknown_key};
ghost use Rattle.policy_text.specs.PolicyPlaces as spec;

use crate::fault::{PolicyFault, PolicyField};
use crate::keys::unknown_key;
use base_text::tree;
use std::alloc::{AllocError, Global};
use toml::Table;
use toml::de::Error;
use toml_places::{Places, Span, element_spans, key_span, value_span};

const FRONT: Span = Span { begin: 0, end: 0 };

fn field_at(text: &str, places: &Places, field: PolicyField) -> Option<Span>
    requires { Keeps places.now (marks text.now) }
    ensures { result ≡ spec.policy_field_at text.now field }
{
    value_span(text, places.key(None, field.name())?)
}

// An item of `groups`, by its number from 1.
fn item_at(
    alloc: Global,
    text: &str,
    places: &Places,
    number: usize,
) -> Result<Option<Span>, AllocError>
    requires { Keeps places.now (marks text.now) }
    ensures { IfOk result (λ span. span ≡ spec.group_item_at text.now number) }
{
    let Some(array) = field_at(text, places, PolicyField::Groups) else {
        return Ok(None);
    };
    let spans = element_spans(alloc, text, array.begin)?;
    let item = spans.get(number.saturating_sub(1)).copied();
    Ok(item.or(Some(array)))
}

fn unknown_at(text: &str, places: &Places, table: &Table) -> Option<Span>
    requires { Keeps places.now (marks text.now) }
    ensures { result ≡ spec.unknown_key_at text.now (unknown_key (table_view table.now)) }
{
    key_span(text, places.key(None, unknown_key(table)?)?)
}

fn fault_at(
    alloc: Global,
    text: &str,
    places: &Places,
    table: &Table,
    fault: PolicyFault,
) -> Result<Option<Span>, AllocError>
    requires { Keeps places.now (marks text.now) }
    ensures { IfOk result (λ span. span ≡ spec.policy_fault_at text.now (table_view table.now) fault) }
{
    match fault {
        PolicyFault::UnknownKey => Ok(unknown_at(text, places, table)),
        PolicyFault::WrongKind(field) | PolicyFault::Range(field) => {
            Ok(field_at(text, places, field))
        }
        PolicyFault::TooManyGroups => Ok(field_at(text, places, PolicyField::Groups)),
        PolicyFault::WrongItem(number)
        | PolicyFault::ItemRange(number)
        | PolicyFault::Order(number) => item_at(alloc, text, places, number),
        _ => Ok(None),
    }
}

// Where toml refuses a text.
fn error_span(error: &Error) -> Span {
    let Some(range) = error.span() else {
        return FRONT;
    };
    Span {
        begin: range.start,
        end: range.end,
    }
}

/// The smallest piece of a policy's text that is at fault: a key, a value or an item. The front of the text for what isn't there,
/// and for a text that is too long. Of a text that isn't TOML the place is toml's.
pub fn fault_span(alloc: Global, text: &[u8], fault: PolicyFault) -> Result<Span, AllocError>
    ensures { IfOk result (λ span. (ms : Members) → tree_of text.now ≡ Some ms
        → span ≡ spec.or_front (spec.policy_fault_at text.now ms fault)) }
{
    if fault == PolicyFault::TooLong {
        return Ok(FRONT);
    }
    let table = match tree(alloc, text)? {
        Ok(table) => table,
        Err(error) => return Ok(error_span(&error)),
    };
    let Ok(text) = str::from_utf8(text) else {
        unreachable!();
    };
    let places = Places::of(alloc, text)?;
    let span = fault_at(alloc, text, &places, &table, fault)?;
    Ok(span.unwrap_or(FRONT))
}
