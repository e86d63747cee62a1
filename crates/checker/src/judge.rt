ghost use Rattle.std.specs.Prelude.{◌≡◌, ◌≤◌, ◌↔◌, List, length};
ghost use Rattle.std.specs.List.{sum_by};
ghost use Rattle.frame_records.specs.Bases.{IsBase};
ghost use Rattle.frame_records.specs.Seek.{entry_of};
ghost use Rattle.cert_table.specs.declared.limits.TheConstants.{MOST_ROWS};
ghost use Rattle.cert_table.specs.Table.{AreRows};
ghost use Rattle.checker.specs.Counts.{IsCount, counted_if, is_entry_sought, is_painted, are_ways_sought, ways_compared, row_probes, row_steps, rows_judged, probes_of, steps_of};
ghost use Rattle.page_ids.specs.declared.key.Key.{Key};
ghost use Rattle.session_machine.specs.Sessions.{opening};
ghost use Rattle.session_machine.specs.Runs.{state_after};
ghost use Rattle.checker.specs.Good.{Good};
ghost use Rattle.checker.specs.Safe.{Safe, HasRows};
ghost use Rattle.checker.specs.Verdict.{verdict, verdict_of, on_head, on_frame, on_painting, on_ways, on_frame_of_row, on_row, on_rows};

use crate::count::{Count, together};
use crate::cover::seek_row;
use crate::policy::Policy;
use crate::rank::ways_cause;
use crate::verdict::{Cause, Verdict};
use crate::ways::over_ways;
use abstract_paint::{Painted, paint};
use cert_table::{Certificate, Cover, Row};
use frame_records::{Base, Frame};

// K6, K7 and K8: the frame by itself.
fn judge_frame<C: Cover + Drop>(cert: &Certificate<C>, row: &Row, frame: &Frame) -> Option<Cause>
    ensures { result ≡ (on_frame cert.now.groups cert.now row.now frame.now).first_cause }
{
    let id = row.id;
    if !frame.is_open(cert.groups()) {
        return Some(Cause::ClosedFrame(id));
    }
    if frame.price > cert.ceiling() {
        return Some(Cause::Price(id));
    }
    if row.rank > cert.keyings() {
        return Some(Cause::RankAbove(id));
    }
    None
}

// K9 and K10: the frame's painting. The body is painted once.
fn judge_painting(row: &Row, frame: &Frame) -> Option<Cause>
    ensures { result ≡ (on_painting row.now frame.now).first_cause }
{
    let id = row.id;
    match paint(frame.lead, frame.body.as_slice()) {
        Painted::Touches(offset) => Some(Cause::Touches(id, offset)),
        Painted::Clean(cursor) if cursor == row.cursor => None,
        Painted::Clean(_) => Some(Cause::CursorDiffers(id)),
    }
}

// K11 to K14: the ways on from the frame, and how much was compared for them.
fn judge_ways<C: Cover + Drop>(
    base: &Base,
    cert: &Certificate<C>,
    row: &Row,
    frame: &Frame,
) -> (Option<Cause>, u64)
    requires few { length cert.now.rows ≤ MOST_ROWS }
    requires valid { IsBase base.now }
    ensures cause { result.0 ≡ (on_ways base.now cert.now.rows row.now frame.now).first_cause }
    ensures probes { result.1 ≡ ways_compared C.compared base.now cert.now.rows frame.now }
{
    let ways = over_ways(base, cert, row.rank, frame);
    let cause = ways_cause(base, row.id, row.rank, ways.lost, ways.down);
    (cause, ways.asked)
}

// All conditions on a row that has its frame, and what they took.
fn judge_frame_of_row<C: Cover + Drop>(
    base: &Base,
    cert: &Certificate<C>,
    row: &Row,
    frame: &Frame,
) -> (Option<Cause>, Count)
    requires few { length cert.now.rows ≤ MOST_ROWS }
    requires valid { IsBase base.now }
    ensures cause { result.0 ≡ (on_frame_of_row cert.now.groups base.now cert.now row.now frame.now).first_cause }
    ensures probes { result.1.probes ≡ counted_if (are_ways_sought cert.now.groups cert.now row.now frame.now)
        (ways_compared C.compared base.now cert.now.rows frame.now) }
    ensures steps { result.1.steps ≡ counted_if (is_painted cert.now.groups cert.now row.now frame.now)
        (length frame.now.body) }
{
    if let Some(cause) = judge_frame(cert, row, frame) {
        return (
            Some(cause),
            Count {
                probes: 0,
                steps: 0,
            },
        );
    }
    let steps = frame.body.as_slice().len() as u64;
    if let Some(cause) = judge_painting(row, frame) {
        return (Some(cause), Count { probes: 0, steps });
    }
    let (cause, probes) = judge_ways(base, cert, row, frame);
    (cause, Count { probes, steps })
}

// The first condition that fails of a row, and what that took.
fn judge_row<C: Cover + Drop>(
    base: &Base,
    cert: &Certificate<C>,
    row: &Row,
) -> (Option<Cause>, Count)
    requires few { length cert.now.rows ≤ MOST_ROWS }
    ensures cause { result.0 ≡ (on_row cert.now.groups base.now cert.now row.now).first_cause }
    ensures probes { result.1.probes ≡ row_probes C.compared cert.now.groups base.now cert.now row.now }
    ensures steps { result.1.steps ≡ row_steps cert.now.groups base.now cert.now row.now }
{
    let (frame, asked) = base.find_counted(row.id);
    let asked = u64::from(asked);
    match frame {
        None => (
            Some(Cause::NoFrame(row.id)),
            Count {
                probes: asked,
                steps: 0,
            },
        ),
        Some(frame) => {
            let (cause, count) = judge_frame_of_row(base, cert, row, frame);
            (
                cause,
                Count {
                    probes: asked + count.probes,
                    steps: count.steps,
                },
            )
        }
    }
}

// The first condition that fails of the rows in order, and what they took.
fn judge_rows<C: Cover + Drop>(base: &Base, cert: &Certificate<C>) -> (Option<Cause>, Count)
    requires few { length cert.now.rows ≤ MOST_ROWS }
    requires valid { IsBase base.now }
    ensures cause { result.0 ≡ (on_rows cert.now.groups base.now cert.now cert.now.rows).first_cause }
    ensures probes { result.1.probes ≡ sum_by (row_probes C.compared cert.now.groups base.now cert.now)
        (rows_judged cert.now.groups base.now cert.now cert.now.rows) }
    ensures steps { result.1.steps ≡ sum_by (row_steps cert.now.groups base.now cert.now)
        (rows_judged cert.now.groups base.now cert.now cert.now.rows) }
{
    let cover = cert.cover();
    let mut total = Count {
        probes: 0,
        steps: 0,
    };
    for i in 0..cover.len() {
        let (cause, count) = judge_row(base, cert, cover.row_at(i));
        total = together(total, count);
        if let Some(cause) = cause {
            return (Some(cause), total);
        }
    }
    (None, total)
}

// K1 to K3, K15 and K4, and how much was compared for the entry frame.
fn judge_head<C: Cover + Drop>(
    base: &Base,
    policy: &Policy,
    cert: &Certificate<C>,
) -> (Option<Cause>, u32)
    ensures cause { result.0 ≡ (on_head base.now policy.now cert.now).first_cause }
    ensures probes { result.1 ≡ counted_if (is_entry_sought base.now policy.now cert.now)
        (C.compared cert.now.rows (entry_of base.now)) }
    ensures base { IsBase base.now }
    ensures rows { AreRows cert.now.rows }
{
    if cert.entry() != base.entry() {
        return (Some(Cause::EntryDiffers), 0);
    }
    if cert.ceiling() > policy.ceiling {
        return (Some(Cause::CeilingAbove), 0);
    }
    if cert.keyings() > policy.keyings {
        return (Some(Cause::KeyingsAbove), 0);
    }
    if !policy.groups.are_same(cert.groups()) {
        return (Some(Cause::GroupsDiffer), 0);
    }
    match seek_row(cert, base.entry_frame()) {
        (Some(_), asked) => (None, asked),
        (None, asked) => (Some(Cause::EntryNotCovered), asked),
    }
}

// The first condition that fails, and what the check took.
fn first_cause<C: Cover + Drop>(
    base: &Base,
    policy: &Policy,
    cert: &Certificate<C>,
) -> (Option<Cause>, Count)
    ensures cause { verdict_of result.0 ≡ verdict base.now policy.now cert.now }
    ensures probes { result.1.probes ≡ probes_of C.compared base.now policy.now cert.now }
    ensures steps { result.1.steps ≡ steps_of base.now policy.now cert.now }
    ensures base { IsBase base.now }
    ensures rows { AreRows cert.now.rows }
{
    let (cause, asked) = judge_head(base, policy, cert);
    let head = Count {
        probes: u64::from(asked),
        steps: 0,
    };
    if let Some(cause) = cause {
        return (Some(cause), head);
    }
    let (cause, count) = judge_rows(base, cert);
    (cause, together(count, head))
}

fn verdict_by(cause: Option<Cause>) -> Verdict
    ensures { result ≡ verdict_of cause }
{
    match cause {
        None => Verdict::Cleared,
        Some(cause) => Verdict::Refused(cause),
    }
}

/// Checks a certificate against a base, for a caller of the policy's groups, and reports what that took. Takes no memory.
///
/// Each route and next of a row is sought once among the rows, and each row's body is painted at most once. The rows after
/// the first one at fault aren't judged. With m the cover's `most`, the look-ups compare at most (176 + 11 m) times the rows,
/// and m and 16 more.
pub fn check_counted<C: Cover + Drop>(
    base: &Base,
    policy: &Policy,
    cert: &Certificate<C>,
) -> (Verdict, Count)
    ensures verdict { result.0 ≡ verdict base.now policy.now cert.now }

    // Exactly how much was compared and painted.
    ensures probes { result.1.probes ≡ probes_of C.compared base.now policy.now cert.now }
    ensures steps { result.1.steps ≡ steps_of base.now policy.now cert.now }

    // Bounds of it.
    ensures count { IsCount base.now cert.now.rows (C.most_among (length cert.now.rows)) result.0 result.1 }

    // What a base and a certificate promise of themselves by their types.
    ensures base { IsBase base.now }
    ensures rows { AreRows cert.now.rows }
{
    let (cause, count) = first_cause(base, policy, cert);
    (verdict_by(cause), count)
}

/// Checks a certificate against a base, for a caller of the policy's groups. Takes no memory.
///
/// Whoever made the certificate isn't trusted: each of its rows is compared with the base, and no key is run.
pub fn check<C: Cover + Drop>(base: &Base, policy: &Policy, cert: &Certificate<C>) -> Verdict
    ensures verdict { result ≡ verdict base.now policy.now cert.now }

    // Cleared if and only if each condition holds, in the subject's words.
    ensures good { (result ≡ Verdict.Cleared) ↔ Good base.now policy.now cert.now }

    // The headline: after every list of keys.
    ensures safe { result ≡ Verdict.Cleared → Safe policy.now.groups base.now cert.now.ceiling cert.now.keyings }

    // At every moment the present frame and each remembered one have rows.
    ensures covered { result ≡ Verdict.Cleared → (keys : List Key) →
        HasRows cert.now.rows (state_after policy.now.groups base.now (opening base.now) keys) }

    // What is promised is within the policy.
    ensures within { result ≡ Verdict.Cleared →
        (cert.now.ceiling ≤ policy.now.ceiling) × (cert.now.keyings ≤ policy.now.keyings) }

    // What a base and a certificate promise of themselves by their types.
    ensures base { IsBase base.now }
    ensures rows { AreRows cert.now.rows }
{
    check_counted(base, policy, cert).0
}
