//! Whether an edition has the sums of its files, and whether the check clears it.

ghost use Rattle.std.specs.Prelude.{◌≡◌, true, None, IfOk, IfSome};
ghost use Rattle.editions.specs.NumberLines.{follows_text};
ghost use Rattle.editions.specs.Sums as spec;
ghost use Rattle.editions.specs.Chains.{IsClearedEdition};
ghost use Rattle.edition_checks.specs.Served.{IsUnchanged};
ghost use Rattle.edition_lists.specs.Judged.{kept_view, IsSealed};

use crate::fault::{EditionFlaw, FolderFault, kept_fault};
use crate::kept::KeptEdition;
use checker::{Verdict, check};
use edition_checks::read_text;
use editions::{EditionFile, EditionFolder, follows_text, sums_text};
use page_ids::cut;
use std::alloc::{AllocError, Global};

const SUMMED: [EditionFile; 4] = [
    EditionFile::Base,
    EditionFile::Cert,
    EditionFile::Policy,
    EditionFile::Follows,
];

// The digits of a sum.
const DIGITS: usize = 64;

// Whether a line is a sum of 64 digits, two spaces and the file's name.
fn is_sum_of(line: &[u8], file: EditionFile) -> bool {
    if line.len() < DIGITS {
        return false;
    }
    let (digits, rest) = line.split_at(DIGITS);
    digits.iter().all(|digit| digit.is_ascii_hexdigit())
        && rest.strip_prefix(b"  ") == Some(file.name().as_bytes())
}

// The file by which two texts of sums differ first: that of a line, or SHA256SUMS if the line is no sum of the file.
fn first_other(right: &[u8], found: &[u8]) -> EditionFile {
    let mut right = right;
    let mut found = found;
    for file in SUMMED {
        let (Some((right_line, right_rest)), Some((line, rest))) = (
            cut(right, b'\n'),
            cut(found, b'\n'),
        ) else {
            return EditionFile::Sums;
        };
        if !is_sum_of(line, file) {
            return EditionFile::Sums;
        }
        if line != right_line {
            return file;
        }
        right = right_rest;
        found = rest;
    }
    EditionFile::Sums
}

// The file whose sum isn't in the text, or SHA256SUMS if the text isn't four sums; none if all is right.
fn other_sum(right: &[u8], found: &[u8]) -> Option<EditionFile>
    ensures { result ≡ None → found.now ≡ right.now }
{
    if found == right {
        None
    } else {
        Some(first_other(right, found))
    }
}

// The right text of sums for an edition and the text of its certificate.
fn right_sums(alloc: Global, edition: &KeptEdition, cert: &[u8]) -> Result<Vec<u8>, AllocError>
    ensures { IfOk result (λ text. text.items ≡ spec.sums_text edition.now.served.base_text.items cert.now
        edition.now.served.policy_text.items (follows_text edition.now.follows)) }
{
    let follows = follows_text(alloc, edition.follows)?;
    sums_text(
        alloc,
        edition.served.base_text.as_slice(),
        cert,
        edition.served.policy_text.as_slice(),
        follows.as_slice(),
    )
}

// What the check refuses of an edition, by its own policy.
fn refused(edition: &KeptEdition) -> Option<EditionFlaw>
    ensures { result ≡ None → IsClearedEdition (kept_view edition.now) }
{
    let served = &edition.served;
    match check(&served.base, &served.policy, &served.cert) {
        Verdict::Cleared => None,
        verdict => Some(EditionFlaw::Refused(verdict)),
    }
}

/// What is wrong with an edition by itself: first with its sums, and then what the check refuses.
pub fn own_fault<F: EditionFolder>(
    alloc: Global,
    folder: &mut F,
    edition: &KeptEdition,
) -> Result<Option<EditionFlaw>, FolderFault>
    requires { (F.seen folder.old).held ≡ true }
    ensures unchanged { IsUnchanged (F.seen folder.old) (F.seen folder.new) }
    ensures right { IfOk result (λ o. o ≡ None → IfSome (F.seen folder.old).state (λ f. IsSealed f edition.now)) }
{
    let number = edition.served.number;
    let cert = match read_text(alloc, folder, number, EditionFile::Cert) {
        Ok(text) => text,
        Err(fault) => return Err(kept_fault(number, fault)),
    };
    let right = right_sums(alloc, edition, cert.as_slice())?;
    match other_sum(right.as_slice(), edition.sums.as_slice()) {
        None => Ok(refused(edition)),
        Some(file) => Ok(Some(EditionFlaw::Sum(file))),
    }
}
