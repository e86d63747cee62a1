//! What was changed of a text, as `diff -u` shows it.

use std::alloc::{AllocError, Global};
use text_edits::Replacement;

// Lines around a change that are shown too.
const AROUND: usize = 3;

// Lines of a text, from the first up to that after the last, from 0.
#[derive(Debug, Clone, Copy, PartialEq, Eq)]
struct LineRange {
    begin: usize,
    end: usize,
}

impl LineRange {
    fn len(&self) -> usize {
        self.end.saturating_sub(self.begin)
    }
}

// Lines of an old text, and those of the new one in their place.
#[derive(Debug, Clone, Copy, PartialEq, Eq)]
struct Change {
    old: LineRange,
    new: LineRange,
}

// A text by its lines, each with its end.
#[derive(Drop)]
struct Lines<'t> {
    text: &'t [u8],
    // The offset at which each line begins.
    starts: Vec<usize>,
}

impl<'t> Lines<'t> {
    fn of(alloc: Global, text: &'t [u8]) -> Result<Lines<'t>, AllocError> {
        let mut starts = Vec::new(alloc);
        let mut at = 0_usize;
        for line in text.split_inclusive(|byte| *byte == b'\n') {
            starts.push(at)?;
            at = at.saturating_add(line.len());
        }
        Ok(Lines { text, starts })
    }

    fn line(&self, at: usize) -> &'t [u8] {
        let end = self.start(at.saturating_add(1));
        self.text.get(self.start(at)..end).unwrap_or(&[])
    }

    fn start(&self, at: usize) -> usize {
        self.starts.get(at).copied().unwrap_or(self.text.len())
    }

    // The line with an offset; after the last line end it is a line that isn't there.
    fn line_at(&self, offset: usize) -> usize {
        let count = self.starts.partition_point(|start| *start <= offset);
        if offset == self.text.len() && self.text.ends_with(b"\n") {
            count
        } else {
            count.saturating_sub(1)
        }
    }

    // The lines from the one with the first offset up to the one with the second.
    fn around(&self, begin: usize, end: usize) -> LineRange {
        LineRange {
            begin: self.line_at(begin),
            end: self.starts.partition_point(|start| *start <= end),
        }
    }
}

// An old text and a new one.
#[derive(Drop)]
struct Texts<'t> {
    old: Lines<'t>,
    new: Lines<'t>,
}

impl<'t> Texts<'t> {
    fn of(alloc: Global, old: &'t [u8], new: &'t [u8]) -> Result<Texts<'t>, AllocError> {
        Ok(Texts {
            old: Lines::of(alloc, old)?,
            new: Lines::of(alloc, new)?,
        })
    }

    // The lines that differ, if both texts have as many.
    fn changed(&self, alloc: Global) -> Result<Vec<Change>, AllocError> {
        let mut changes: Vec<Change> = Vec::new(alloc);
        for at in 0..self.old.starts.len() {
            if self.old.line(at) == self.new.line(at) {
                continue;
            }
            let range = LineRange {
                begin: at,
                end: at.saturating_add(1),
            };
            let change = Change {
                old: range,
                new: range,
            };
            add(&mut changes, change)?;
        }
        Ok(changes)
    }

    // The lines with edits, whose spans ascend.
    fn edited(&self, alloc: Global, edits: &[Replacement]) -> Result<Vec<Change>, AllocError> {
        let mut changes: Vec<Change> = Vec::new(alloc);
        // where the text after the last edit begins, in both texts
        let (mut old, mut new) = (0_usize, 0_usize);
        for edit in edits {
            let begin = new.saturating_add(edit.begin.saturating_sub(old));
            (old, new) = (edit.end, begin.saturating_add(edit.text.len()));
            let change = Change {
                old: self.old.around(edit.begin, old),
                new: self.new.around(begin, new),
            };
            add(&mut changes, change)?;
        }
        for change in changes.iter_mut() {
            self.trim(change);
        }
        changes.retain(|change| change.old.len() > 0 || change.new.len() > 0);
        Ok(changes)
    }

    // Leaves out the lines at both ends that are the same.
    fn trim(&self, change: &mut Change) {
        for _ in 0..change.old.len().min(change.new.len()) {
            if self.old.line(change.old.begin) != self.new.line(change.new.begin) {
                break;
            }
            change.old.begin = change.old.begin.saturating_add(1);
            change.new.begin = change.new.begin.saturating_add(1);
        }
        for _ in 0..change.old.len().min(change.new.len()) {
            let (old, new) = (
                change.old.end.saturating_sub(1),
                change.new.end.saturating_sub(1),
            );
            if self.old.line(old) != self.new.line(new) {
                break;
            }
            change.old.end = old;
            change.new.end = new;
        }
    }
}

// Adds a change: one that begins where the last one ends, or before, goes on with that.
fn add(changes: &mut Vec<Change>, change: Change) -> Result<(), AllocError> {
    match changes.last_mut() {
        Some(last) if change.old.begin <= last.old.end => {
            last.old.end = change.old.end;
            last.new.end = change.new.end;
        }
        _ => changes.push(change)?,
    }
    Ok(())
}

fn push_line(out: &mut Vec<u8>, mark: u8, line: &[u8]) -> Result<(), AllocError> {
    out.push(mark)?;
    out.extend_from_slice(line)?;
    if !line.ends_with(b"\n") {
        out.extend_from_slice(b"\n\\ No newline at end of file\n")?;
    }
    Ok(())
}

fn push_lines(
    out: &mut Vec<u8>,
    mark: u8,
    lines: &Lines<'_>,
    range: LineRange,
) -> Result<(), AllocError> {
    for at in range.begin..range.end {
        push_line(out, mark, lines.line(at))?;
    }
    Ok(())
}

// A range in the line above a hunk: one line has no number of lines, and none is said to be after the line before.
fn push_range(alloc: Global, out: &mut Vec<u8>, range: LineRange) -> Result<(), AllocError> {
    let first = range.begin.saturating_add(1);
    let text = match range.len() {
        0 => format!(in alloc; "{},0", range.begin)?,
        1 => format!(in alloc; "{first}")?,
        count => format!(in alloc; "{first},{count}")?,
    };
    out.extend_from_slice(text.as_bytes())
}

// Changes that are shown together, with the lines around them.
fn push_hunk(
    alloc: Global,
    out: &mut Vec<u8>,
    texts: &Texts<'_>,
    changes: &[Change],
) -> Result<(), AllocError> {
    let (Some(first), Some(last)) = (changes.first(), changes.last()) else {
        return Ok(());
    };
    let before = first.old.begin.min(AROUND);
    let after = texts
        .old
        .starts
        .len()
        .saturating_sub(last.old.end)
        .min(AROUND);
    let shown = |begin: usize, end: usize| LineRange {
        begin: begin.saturating_sub(before),
        end: end.saturating_add(after),
    };
    out.extend_from_slice(b"@@ -")?;
    push_range(alloc, out, shown(first.old.begin, last.old.end))?;
    out.extend_from_slice(b" +")?;
    push_range(alloc, out, shown(first.new.begin, last.new.end))?;
    out.extend_from_slice(b" @@\n")?;
    let mut at = first.old.begin.saturating_sub(before);
    for change in changes {
        let end = change.old.begin;
        push_lines(out, b' ', &texts.old, LineRange { begin: at, end })?;
        push_lines(out, b'-', &texts.old, change.old)?;
        push_lines(out, b'+', &texts.new, change.new)?;
        at = change.old.end;
    }
    let end = at.saturating_add(after);
    push_lines(out, b' ', &texts.old, LineRange { begin: at, end })
}

// How many of the changes from the first on are shown in one hunk: between two are at most the lines around both.
fn hunk_len(changes: &[Change]) -> usize {
    let mut last = match changes.first() {
        Some(first) => first.old.end,
        None => return 0,
    };
    for (at, change) in changes.iter().enumerate() {
        if change.old.begin.saturating_sub(last) > 2 * AROUND {
            return at;
        }
        last = change.old.end;
    }
    changes.len()
}

fn push_diff(
    alloc: Global,
    path: &str,
    texts: &Texts<'_>,
    changes: &[Change],
) -> Result<Vec<u8>, AllocError> {
    let mut out = Vec::new(alloc);
    if !changes.is_empty() {
        let head = format!(in alloc; "--- {path}\n+++ {path}\n")?;
        out.extend_from_slice(head.as_bytes())?;
    }
    let mut rest = changes;
    for _ in 0..changes.len() {
        let count = hunk_len(rest);
        push_hunk(alloc, &mut out, texts, rest.get(..count).unwrap_or(&[]))?;
        rest = rest.get(count..).unwrap_or(&[]);
    }
    Ok(out)
}

/// What of a file's text has changed, if both texts have the same number of lines. Nothing if they are the same.
pub fn diff_text(alloc: Global, path: &str, old: &[u8], new: &[u8]) -> Result<Vec<u8>, AllocError> {
    let texts = Texts::of(alloc, old, new)?;
    let changes = texts.changed(alloc)?;
    push_diff(alloc, path, &texts, changes.as_slice())
}

/// What edits change of a file's text; the new text is the old one with them, and their spans ascend. Nothing if they change nothing.
pub fn diff_of_edits(
    alloc: Global,
    path: &str,
    old: &[u8],
    new: &[u8],
    edits: &[Replacement],
) -> Result<Vec<u8>, AllocError> {
    let texts = Texts::of(alloc, old, new)?;
    let changes = texts.edited(alloc, edits)?;
    push_diff(alloc, path, &texts, changes.as_slice())
}
