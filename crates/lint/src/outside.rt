//! Where `outside` lists a page.

ghost use Rattle.std.specs.Prelude.{◌≡◌, ℕ, IfOk, OnOk};
ghost use Rattle.std.specs.Option.{option_or};
ghost use Rattle.lint.specs.Loops.{table_seen, Lists, element_kept};
ghost use Rattle.lint.specs.Outside as spec;

use crate::tables::TableSpots;
use base_text::WholeFault;
use frame_records::MOST_LISTED;
use indexmap::IndexMap;
use page_ids::PageNo;
use std::alloc::{AllocError, Global};
use toml_places::{Span, integer_at};

// The pages that `outside` lists, each with its first element.
#[derive(Drop)]
pub struct OutsidePages {
    spans: IndexMap<PageNo, Span>,
}

fn page_of(number: Option<i64>) -> Option<PageNo>
    ensures { result ≡ spec.page_of number }
{
    PageNo::new(u32::try_from(number?).ok()?)
}

// The page that an element is.
fn page_in(alloc: Global, text: &str, element: Span) -> Result<Option<PageNo>, AllocError>
    ensures { IfOk result (λ page. page ≡ spec.page_in_span text.now element) }
{
    Ok(page_of(integer_at(alloc, text, element.begin)?))
}

impl OutsidePages {
    // Notes the page of an element, if it is one. An element that is noted later counts.
    fn note(
        &mut self,
        alloc: Global,
        table: &TableSpots<'_>,
        index: usize,
    ) -> Result<(), AllocError>
        ensures { OnOk result ((page : ℕ) → element_kept self.new page
            ≡ option_or (spec.element_if (table_seen table.now) page index) (element_kept self.old page)) }
    {
        if let Some(element) = table.item(index) {
            if let Some(page) = page_in(alloc, table.text(), element)? {
                self.spans.insert(page, element)?;
            }
        }
        Ok(())
    }

    // The pages of the top's `outside`, up to the most that a base may list.
    pub fn of(alloc: Global, top: &TableSpots<'_>) -> Result<OutsidePages, AllocError>
        ensures { IfOk result (Lists (table_seen top.now)) }
    {
        let mut pages = OutsidePages {
            spans: IndexMap::new(alloc),
        };
        let mut index = MOST_LISTED;
        'elements: while index > 0 {
            index -= 1;
            pages.note(alloc, top, index)?;
        }
        Ok(pages)
    }

    // The element at fault, if the fault is that a page of it has a frame.
    pub fn element(&self, fault: &WholeFault) -> Option<Span>
        ensures { result ≡ spec.outside_element (element_kept self.now) fault.now }
    {
        match fault {
            WholeFault::OutsideInside(page) => self.spans.get(page).copied(),
            _ => None,
        }
    }
}
