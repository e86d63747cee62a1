ghost use Rattle.std.specs.Prelude.{◌≡◌, ◌++◌, List, map, IfOk, OnOk, None};
ghost use Rattle.toml_places.specs.Places.{Mark};
ghost use Rattle.lint.specs.Tables.{table_at};
ghost use Rattle.lint.specs.Loops.{KnowsTables, IsTable, table_seen, Lists};
ghost use Rattle.lint.specs.Lint as spec;

use crate::finding::Finding;
use crate::outside::OutsidePages;
use crate::spots::{detail_span, in_header, whole_span, whole_table, written_value};
use crate::tables::{TableSpots, TextTables};
use base_text::{TextFault, WholeFault};
use lint_words::{Written, text_fault_words, whole_fault_words};
use std::alloc::{AllocError, Global};
use toml_places::TextLines;

fn text_finding<'a>(
    alloc: Global,
    tables: &TextTables<'a>,
    table: &mut TableSpots<'a>,
    first_frame: usize,
    fault: &TextFault,
) -> Result<Finding, AllocError>
    ensures finding { IfOk result (λ f. (ms : List Mark) → KnowsTables ms tables.now
        → IsTable tables.now.text.now ms (table_seen table.old)
        → f ≡ spec.text_finding tables.now.text.now ms fault.now) }
    ensures table { OnOk result ((ms : List Mark) → KnowsTables ms tables.now
        → IsTable tables.now.text.now ms (table_seen table.old)
        → IsTable tables.now.text.now ms (table_seen table.new)) }
{
    tables.turn(alloc, table, fault.frame)?;
    let written = Written {
        value: written_value(table, &fault.detail),
        in_header: in_header(table, &fault.detail),
        first_frame,
    };
    let words = text_fault_words(alloc, fault, &written)?;
    Ok(Finding::error(detail_span(table, &fault.detail), words))
}

// Appends the findings of a text's faults. The first frame begins on this line, from 1.
pub fn add_text_findings(
    alloc: Global,
    tables: &TextTables<'_>,
    first_frame: usize,
    faults: &[TextFault],
    findings: &mut Vec<Finding>,
) -> Result<(), AllocError>
    ensures { OnOk result ((ms : List Mark) → KnowsTables ms tables.now
        → findings.new.items ≡ findings.old.items ++ map (spec.text_finding tables.now.text.now ms) faults.now) }
{
    let mut table = tables.table(alloc, None)?;
    for fault in faults {
        findings.push(text_finding(alloc, tables, &mut table, first_frame, fault)?)?;
    }
    Ok(())
}

// The line of the first frame with the id, if the fault is a further frame with it.
fn first_line(tables: &TextTables<'_>, lines: &TextLines<'_>, fault: &WholeFault) -> usize
    ensures { (ms : List Mark) → KnowsTables ms tables.now → lines.now ≡ tables.now.text.now
        → result ≡ spec.first_table_line tables.now.text.now ms fault.now }
{
    match *fault {
        WholeFault::Duplicate { first, .. } => lines.place(tables.id_place(first)).0,
        _ => 0,
    }
}

fn whole_finding<'a>(
    alloc: Global,
    tables: &TextTables<'a>,
    table: &mut TableSpots<'a>,
    lines: &TextLines<'_>,
    pages: &OutsidePages,
    fault: &WholeFault,
) -> Result<Finding, AllocError>
    ensures finding { IfOk result (λ f. (ms : List Mark) → KnowsTables ms tables.now
        → lines.now ≡ tables.now.text.now → Lists (table_at tables.now.text.now ms None) pages.now
        → IsTable tables.now.text.now ms (table_seen table.old)
        → f ≡ spec.whole_finding tables.now.text.now ms fault.now) }
    ensures table { OnOk result ((ms : List Mark) → KnowsTables ms tables.now
        → IsTable tables.now.text.now ms (table_seen table.old)
        → IsTable tables.now.text.now ms (table_seen table.new)) }
{
    tables.turn(alloc, table, whole_table(fault))?;
    let words = whole_fault_words(alloc, fault, first_line(tables, lines, fault))?;
    let span = whole_span(table, pages.element(fault), fault);
    Ok(Finding::error(span, words))
}

// Appends the findings of the faults of a base as a whole.
pub fn add_whole_findings(
    alloc: Global,
    tables: &TextTables<'_>,
    lines: &TextLines<'_>,
    faults: &[WholeFault],
    findings: &mut Vec<Finding>,
) -> Result<(), AllocError>
    ensures { OnOk result ((ms : List Mark) → KnowsTables ms tables.now → lines.now ≡ tables.now.text.now
        → findings.new.items ≡ findings.old.items ++ map (spec.whole_finding tables.now.text.now ms) faults.now) }
{
    let mut table = tables.table(alloc, None)?;
    let pages = OutsidePages::of(alloc, &table)?;
    for fault in faults {
        let finding = whole_finding(alloc, tables, &mut table, lines, &pages, fault)?;
        findings.push(finding)?;
    }
    Ok(())
}
