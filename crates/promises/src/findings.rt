//! What `lint` finds, what is printed of it, and what is fixed; what `import` changes of a base.

ghost use Rattle.std.specs.Prelude.{◌≡◌, ◌↔◌, All, IfOk, true, length};
ghost use Rattle.frame_edits.specs.Laws.{SameFramesShow};
ghost use Rattle.frame_edits.specs.Merging.{IsMerged};
ghost use Rattle.finding_forms.specs.Forms.{is_one_line};
ghost use Rattle.finding_forms.specs.Laws.{AreWholeLines};
ghost use Rattle.lint.specs.declared.finding.Level.TheVariants.{Error};
ghost use Rattle.lint.specs.Findings.{count_of};
ghost use Rattle.lint.specs.Laws.{FollowsBaseRead, IsCertified, WarnsOfUnreached};
ghost use Rattle.lint.specs.Lint.{IsLint, IsSpanWithin};
ghost use Rattle.promises.specs.Audits.{IsSafeText};
ghost use Rattle.slip_fixes.specs.Rounds.{IsFixed};

use checker::Policy;
use finding_forms::{Format, findings_text};
use frame_edits::{MergeFault, Merged, merge_frames, same_frames_show};
use lint::{Finding, lint};
use screen_files::Settled;
use slip_fixes::{Fixed, fix_slips};
use std::alloc::{AllocError, Global};

// Every fault of the text, or of its audit, at a span of the text; no error if and only if the text means a safe base, which the
// audit certifies; and the first fault of a text is the one that `base_read` answers.
fn linted(alloc: Global, text: &[u8], policy: &Policy) -> Result<Vec<Finding>, AllocError>
    ensures findings { IfOk result (λ fs. IsLint text.now policy.now fs.items) }
    ensures safe { IfOk result (λ fs. (count_of Error fs.items ≡ 0) ↔ IsSafeText text.now policy.now) }
    ensures certified { IfOk result (λ fs. (count_of Error fs.items ≡ 0) ↔ IsCertified text.now policy.now) }
    ensures first { IfOk result (λ fs. FollowsBaseRead text.now policy.now fs.items) }
    ensures warnings { IfOk result (λ fs. WarnsOfUnreached text.now policy.now fs.items) }
    ensures spans { IfOk result (λ fs. All (λ f. IsSpanWithin text.now f.span) fs.items) }
{
    lint(alloc, text, policy)
}

// In every form but `full` a finding is one line.
fn printed(
    alloc: Global,
    format: Format,
    path: &[u8],
    text: &[u8],
    findings: &[Finding],
) -> Result<Vec<u8>, AllocError>
    ensures { IfOk result (λ out. is_one_line format ≡ true → AreWholeLines format (length findings.now) out.items) }
{
    findings_text(alloc, format, path, text, findings)
}

// Rounds of the certain fixes of what is found, as long as there is one, and nothing else is changed.
fn slips_fixed(alloc: Global, text: &[u8], policy: &Policy) -> Result<Fixed, AllocError>
    ensures { IfOk result (λ f. IsFixed policy.now text.now f.text.items f.fixes) }
{
    fix_slips(alloc, text, policy)
}

// What comes of a base in which screens are put, and nothing else is changed.
fn merged_in(
    alloc: Global,
    text: &[u8],
    guesses: bool,
    settled: &Settled,
) -> Result<Merged, MergeFault>
    ensures { IfOk result (IsMerged text.now guesses settled.now.frames) }
{
    merge_frames(alloc, text, guesses, settled)
}

// A frame of it that stays, since it shows the screen, shows it on every terminal.
fn same_in()
    ensures { SameFramesShow }
{
    same_frames_show();
}
