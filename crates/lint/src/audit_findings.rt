ghost use Rattle.std.specs.Prelude.{◌≡◌, ◌++◌, ℕ, List, Option, map, IfOk, OnOk};
ghost use Rattle.page_ids.specs.Ids.{Id};
ghost use Rattle.toml_places.specs.Places.{Mark};
ghost use Rattle.lint.specs.Loops.{KnowsTables, IsTable, table_seen};
ghost use Rattle.lint.specs.Lookups.{KnowsValues};
ghost use Rattle.lint.specs.Lint as spec;
ghost use Rattle.lint.specs.Loops as loops;

use crate::all_looks::all_looks;
use crate::finding::Finding;
use crate::looks::Look;
use crate::lookup::Lookup;
use crate::spots::{
    audit_span, entry_span, has_rows, kind_table, line_end_at, named_span, row_span, shown_field,
    sight_span, single_at,
};
use crate::tables::{TableSpots, TextTables};
use checker::Policy;
use fault_scripts::{Fault, FaultList, faults_surveyed};
use finder::{Discovered, Survey};
use frame_records::{Base, Frame, GroupNo, Groups};
use lint_words::{
    Judged, Words, audit_fault_words, escape_words, hidden_words, line_end_words, menu_words,
    none_reached_words, shown_escape_words, unreached_words, unsought_words,
};
use page_ids::{FrameId, Letter};
use std::alloc::{AllocError, Global};
use toml_places::Span;

// The fewest keys from each frame that is reached back to the entry frame.
pub type Ranks = Lookup<Option<u16>>;

// An audit of a base: its faults, the frames that no key reaches, and what may be wrong with frames beside.
#[derive(Drop)]
pub struct Audit {
    faults: FaultList,
    ranks: Ranks,
    // Whether not even the entry frame is found.
    finds_none: bool,
    unreached: Vec<FrameId>,
    looks: Vec<(FrameId, Look)>,
}

// The rank of each frame that is reached.
pub fn ranks_of(
    alloc: Global,
    found: &[Discovered],
) -> Result<Vec<(FrameId, Option<u16>)>, AllocError>
    ensures { IfOk result (λ ranks. ranks.items ≡ spec.ranks_of found.now) }
{
    found
        .iter()
        .map(|frame| (frame.id, frame.rank))
        .collect(alloc)
}

fn is_unreached(ranks: &Ranks, groups: &Groups, frame: &Frame) -> bool
    ensures { (known : List (Id × Option ℕ)) → KnowsValues known ranks.now
        → result ≡ spec.is_unreached groups.now known frame.now }
{
    frame.is_open(groups) && ranks.get(frame.id).is_none()
}

// The frames that are open to a caller of the groups and that no key reaches.
fn unreached(
    alloc: Global,
    ranks: &Ranks,
    groups: &Groups,
    frames: &[Frame],
) -> Result<Vec<FrameId>, AllocError>
    ensures { IfOk result (λ ids. (known : List (Id × Option ℕ)) → KnowsValues known ranks.now
        → ids.items ≡ spec.frame_ids (spec.unreached groups.now known frames.now)) }
{
    let mut ids = Vec::new(alloc);
    for frame in frames {
        if is_unreached(ranks, groups, frame) {
            ids.push(frame.id)?;
        }
    }
    Ok(ids)
}

fn finds_none(found: &[Discovered]) -> bool
    ensures { result ≡ spec.finds_none found.now }
{
    match found {
        [] => true,
        _ => false,
    }
}

impl Audit {
    pub fn of(alloc: Global, base: &Base, policy: &Policy) -> Result<Audit, AllocError>
        ensures { IfOk result (loops.IsAudit base.now policy.now) }
    {
        let survey = Survey::of(alloc, base, &policy.groups)?;
        let faults = faults_surveyed(alloc, &survey, policy)?;
        let found = survey.found().as_slice();
        let ranks = Lookup::of(alloc, ranks_of(alloc, found)?.as_slice())?;
        let finds_none = finds_none(found);
        let unreached = unreached(alloc, &ranks, &policy.groups, base.frames())?;
        let looks = all_looks(alloc, &policy.groups, base.frames())?;
        Ok(Audit {
            faults,
            ranks,
            finds_none,
            unreached,
            looks,
        })
    }

    // Whether it found nothing.
    pub fn is_clear(&self) -> bool
        ensures { result ≡ loops.is_clear self.now.faults self.now.unreached.items self.now.looks.items }
    {
        self.faults.as_slice().is_empty() && self.unreached.is_empty() && self.looks.is_empty()
    }
}

// What the words and places of an audit's findings are made of.
#[derive(Drop)]
pub struct Sources<'a> {
    pub text: &'a TextTables<'a>,
    // The index of each frame's table.
    pub tables: Lookup<usize>,
    pub base: &'a Base,
    pub policy: &'a Policy,
}

// The group of the frame that a fault finds closed.
pub fn group_of(base: &Base, fault: &Fault) -> Option<GroupNo>
    ensures { result ≡ spec.group_closed_to base.now fault.now }
{
    base.find(fault.sought.unwrap_or(fault.frame))?.group
}

// The frame with the letter before this one's, if it has no next frame.
fn without_next(base: &Base, id: FrameId) -> Option<FrameId> {
    let letter = Letter::new(id.letter.get().saturating_sub(1))?;
    let before = base.find(FrameId {
        page: id.page,
        letter,
    })?;
    if before.next { None } else { Some(before.id) }
}

// The rank of a frame.
pub fn rank_of(ranks: &Ranks, id: FrameId) -> Option<u16>
    ensures { (known : List (Id × Option ℕ)) → KnowsValues known ranks.now → result ≡ spec.rank_of known id }
{
    ranks.get(id)?
}

// Where the text writes what may be wrong with a frame: a hidden row if the frame is given as rows, and a row that shows an
// escape unless the warning of one in single quotation marks says so.
fn look_at(table: &TableSpots<'_>, look: &Look) -> Option<Span>
    ensures { result ≡ spec.look_at (table_seen table.now) look.now }
{
    match look {
        Look::Hidden(row) => has_rows(table).then_some(row_span(table, *row)),
        Look::Escape(row) => single_at(table, *row),
        Look::EndsLine(end, index) => line_end_at(table, *end, *index),
        Look::Shown(row, index, escaped) => {
            let is_said = *escaped && single_at(table, *row).is_some();
            (!is_said).then_some(sight_span(table, *row, *index))
        }
        Look::Offers(row, index, _) => Some(sight_span(table, *row, *index)),
        Look::Unsought(_) => Some(named_span(table)),
    }
}

fn look_words(
    alloc: Global,
    table: &TableSpots<'_>,
    id: FrameId,
    look: &Look,
) -> Result<Words, AllocError>
    ensures { IfOk result (λ words. words ≡ spec.look_words (table_seen table.now) id look.now) }
{
    match look {
        Look::Hidden(row) => hidden_words(alloc, id, *row),
        Look::Escape(row) => escape_words(alloc, id, *row),
        Look::EndsLine(end, _) => line_end_words(alloc, id, *end),
        Look::Shown(row, _, _) => shown_escape_words(alloc, id, *row, shown_field(table)),
        Look::Offers(row, _, digit) => menu_words(alloc, id, *row, *digit),
        Look::Unsought(group) => unsought_words(alloc, id, *group),
    }
}

// Appends the warning of what may be wrong with a frame, if the text writes it so.
fn add_look(
    alloc: Global,
    table: &TableSpots<'_>,
    id: FrameId,
    look: &Look,
    findings: &mut Vec<Finding>,
) -> Result<(), AllocError>
    ensures { OnOk result (findings.new.items ≡ findings.old.items ++ spec.look_in (table_seen table.now) id look.now) }
{
    if let Some(span) = look_at(table, look) {
        findings.push(Finding::warning(span, look_words(alloc, table, id, look)?))?;
    }
    Ok(())
}

impl<'a> Sources<'a> {
    fn table_of(&self, id: FrameId) -> usize
        ensures { (tables : List (Id × ℕ)) → KnowsValues tables self.now.tables → result ≡ spec.table_of tables id }
    {
        self.tables.get(id).unwrap_or(0)
    }

    fn judged(&self, table: &TableSpots<'_>, ranks: &Ranks, fault: &Fault) -> Judged
        ensures { (known : List (Id × Option ℕ)) → KnowsValues known ranks.now
            → result ≡ spec.judged (table_seen table.now) self.now.base.now self.now.policy.now known fault.now }
    {
        Judged {
            ceiling: self.policy.ceiling,
            keyings: self.policy.keyings,
            has_rows: has_rows(table),
            rank: rank_of(ranks, fault.frame),
            group: group_of(self.base, fault),
        }
    }

    fn finding(
        &self,
        alloc: Global,
        table: &mut TableSpots<'a>,
        ranks: &Ranks,
        fault: &Fault,
    ) -> Result<Finding, AllocError>
        ensures finding { IfOk result (λ f. (ms : List Mark) (tables : List (Id × ℕ)) (known : List (Id × Option ℕ))
            → loops.AreKnown ms tables self.now → KnowsValues known ranks.now
            → IsTable self.now.text.now.text.now ms (table_seen table.old)
            → f ≡ spec.fault_finding self.now.text.now.text.now ms tables self.now.base.now
            self.now.policy.now known fault.now) }
        ensures table { OnOk result ((ms : List Mark) → KnowsTables ms self.now.text.now
            → IsTable self.now.text.now.text.now ms (table_seen table.old)
            → IsTable self.now.text.now.text.now ms (table_seen table.new)) }
    {
        let frame = kind_table(self.table_of(fault.frame), fault.kind);
        self.text.turn(alloc, table, frame)?;
        let judged = self.judged(table, ranks, fault);
        let words = audit_fault_words(alloc, &judged, fault, self.base.find(fault.frame))?;
        Ok(Finding::error(audit_span(table, fault), words))
    }

    fn add_faults(
        &self,
        alloc: Global,
        audit: &Audit,
        findings: &mut Vec<Finding>,
    ) -> Result<(), AllocError>
        ensures { OnOk result ((ms : List Mark) (tables : List (Id × ℕ)) (known : List (Id × Option ℕ))
            → loops.AreKnown ms tables self.now → KnowsValues known audit.now.ranks
            → findings.new.items ≡ findings.old.items ++
            map (spec.fault_finding self.now.text.now.text.now ms tables self.now.base.now
            self.now.policy.now known) audit.now.faults) }
    {
        let mut table = self.text.table(alloc, None)?;
        for fault in audit.faults.as_slice() {
            findings.push(self.finding(alloc, &mut table, &audit.ranks, fault)?)?;
        }
        Ok(())
    }

    fn warning(&self, alloc: Global, id: FrameId) -> Result<Finding, AllocError>
        ensures { IfOk result (λ f. (ms : List Mark) (tables : List (Id × ℕ)) → loops.AreKnown ms tables self.now
            → f ≡ spec.warning self.now.text.now.text.now ms tables id) }
    {
        let words = unreached_words(alloc, id, without_next(self.base, id))?;
        let span = self.text.id_span(alloc, self.table_of(id))?;
        Ok(Finding::warning(span, words))
    }

    fn add_warnings(
        &self,
        alloc: Global,
        ids: &[FrameId],
        findings: &mut Vec<Finding>,
    ) -> Result<(), AllocError>
        ensures { OnOk result ((ms : List Mark) (tables : List (Id × ℕ)) → loops.AreKnown ms tables self.now
            → findings.new.items ≡ findings.old.items ++
            map (spec.warning self.now.text.now.text.now ms tables) ids.now) }
    {
        for id in ids {
            findings.push(self.warning(alloc, *id)?)?;
        }
        Ok(())
    }

    // Appends the one warning for all frames that no key reaches, of a base whose entry frame isn't found.
    fn add_none_reached(
        &self,
        alloc: Global,
        frames: usize,
        findings: &mut Vec<Finding>,
    ) -> Result<(), AllocError>
        ensures { OnOk result ((ms : List Mark) (tables : List (Id × ℕ)) → loops.AreKnown ms tables self.now
            → findings.new.items ≡ findings.old.items ++ spec.none_reached self.now.text.now.text.now ms frames) }
    {
        if frames > 0 {
            let table = self.text.table(alloc, None)?;
            let words = none_reached_words(alloc, frames)?;
            findings.push(Finding::warning(entry_span(&table), words))?;
        }
        Ok(())
    }

    fn add_unreached(
        &self,
        alloc: Global,
        finds_none: bool,
        ids: &[FrameId],
        findings: &mut Vec<Finding>,
    ) -> Result<(), AllocError>
        ensures { OnOk result ((ms : List Mark) (tables : List (Id × ℕ)) → loops.AreKnown ms tables self.now
            → findings.new.items ≡ findings.old.items ++
            spec.unreached_findings self.now.text.now.text.now ms tables finds_none ids.now) }
    {
        if finds_none {
            self.add_none_reached(alloc, ids.len(), findings)
        } else {
            self.add_warnings(alloc, ids, findings)
        }
    }

    fn add_looks(
        &self,
        alloc: Global,
        looks: &[(FrameId, Look)],
        findings: &mut Vec<Finding>,
    ) -> Result<(), AllocError>
        ensures { OnOk result ((ms : List Mark) (tables : List (Id × ℕ)) → loops.AreKnown ms tables self.now
            → findings.new.items ≡ findings.old.items ++
            spec.look_findings self.now.text.now.text.now ms tables looks.now) }
    {
        let mut table = self.text.table(alloc, None)?;
        for look in looks {
            self.text
                .turn(alloc, &mut table, Some(self.table_of(look.0)))?;
            add_look(alloc, &table, look.0, &look.1, findings)?;
        }
        Ok(())
    }

    // The findings of an audit.
    pub fn findings(&self, alloc: Global, audit: &Audit) -> Result<Vec<Finding>, AllocError>
        requires { loops.IsAudit self.now.base.now self.now.policy.now audit.now }
        ensures { IfOk result (λ fs. (ms : List Mark) (tables : List (Id × ℕ)) → loops.AreKnown ms tables self.now
            → spec.AreAuditFindings self.now.text.now.text.now ms tables self.now.base.now
            self.now.policy.now fs.items) }
    {
        let mut findings = Vec::new(alloc);
        self.add_faults(alloc, audit, &mut findings)?;
        let unreached = audit.unreached.as_slice();
        self.add_unreached(alloc, audit.finds_none, unreached, &mut findings)?;
        self.add_looks(alloc, audit.looks.as_slice(), &mut findings)?;
        Ok(findings)
    }
}
