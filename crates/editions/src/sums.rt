//! The sums of an edition's files.

ghost use Rattle.std.specs.Prelude.{◌≡◌, ◌++◌, IfOk, OnOk};
ghost use Rattle.editions.specs.Sums as spec;

use crate::edition_file::EditionFile;
use sha2::{Digest, Sha256};
use std::alloc::{AllocError, Global};

// Writes the line of a file.
fn push_sum(
    alloc: Global,
    out: &mut Vec<u8>,
    file: EditionFile,
    bytes: &[u8],
) -> Result<(), AllocError>
    ensures { OnOk result (out.new.items ≡ out.old.items ++ spec.sum_line file bytes.now) }
{
    let digest = Sha256::digest(bytes);
    let sum = hex::encode(alloc, digest)?;
    out.extend_from_slice(sum.as_bytes())?;
    out.extend_from_slice(b"  ")?;
    out.extend_from_slice(file.name().as_bytes())?;
    out.push(b'\n')?;
    Ok(())
}

/// The text of SHA256SUMS for the bytes of the other four files: what `sha256sum -c` reads.
pub fn sums_text(
    alloc: Global,
    base: &[u8],
    cert: &[u8],
    policy: &[u8],
    follows: &[u8],
) -> Result<Vec<u8>, AllocError>
    ensures { IfOk result (λ text. text.items ≡ spec.sums_text base.now cert.now policy.now follows.now) }
{
    let mut out = Vec::new(alloc);
    push_sum(alloc, &mut out, EditionFile::Base, base)?;
    push_sum(alloc, &mut out, EditionFile::Cert, cert)?;
    push_sum(alloc, &mut out, EditionFile::Policy, policy)?;
    push_sum(alloc, &mut out, EditionFile::Follows, follows)?;
    Ok(out)
}
