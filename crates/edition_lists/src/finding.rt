//! What is found of editions.

ghost use Rattle.std.specs.Prelude.{◌≡◌};
ghost use Rattle.std.specs.List.{list_all};
ghost use Rattle.edition_lists.specs.Findings.{is_right};
ghost use Rattle.edition_lists.specs.Loops.{note_of};

use crate::fault::EditionFlaw;
use crate::judging::JudgedEdition;

/// What is found of an edition.
#[derive(Clone, Copy)]
pub enum EditionNote {
    /// It is right, and follows the edition of this number, or none.
    Right(Option<u32>),
    Wrong(EditionFlaw),
}

/// The same, with the edition's number.
#[derive(Clone, Copy)]
pub struct EditionFinding {
    pub number: u32,
    pub note: EditionNote,
}

pub fn note_of(judged: &JudgedEdition) -> EditionNote
    ensures { result ≡ note_of judged.now }
{
    match judged {
        JudgedEdition::Right(edition) => EditionNote::Right(edition.follows),
        JudgedEdition::Wrong(flaw) => EditionNote::Wrong(*flaw),
    }
}

/// Whether all editions are right.
pub fn are_right(findings: &[EditionFinding]) -> bool
    ensures { result ≡ list_all is_right findings.now }
{
    for finding in findings {
        match &finding.note {
            EditionNote::Right(_) => {}
            EditionNote::Wrong(_) => return false,
        }
    }
    true
}
