//! The edition that is served.

ghost use Rattle.std.specs.Prelude.{◌≡◌, true, Ok, Some, IfOk, IfSome};
ghost use Rattle.base_text.specs.Whole.{IsTextBase};
ghost use Rattle.policy_text.specs.Policies.{policy_in};
ghost use Rattle.editions.specs.Folders.{IsLater, file_at};
ghost use Rattle.edition_checks.specs.Served.{IsUnchanged, IfHeld, IsCertOf, HasCertText, IsReadEdition, IsServed};
ghost use Rattle.edition_checks.specs.NextEditions.{SaysFollows};

use cert_table::Certificate;
use checker::{InputFault, Policy, base_of, cert_of};
use editions::{EditionFile, EditionFolder, StoreFault, follows_in};
use frame_records::Base;
use policy_text::{PolicyFault, policy_read};
use std::alloc::Global;

/// An edition of a folder, with the texts by which another is compared with it.
#[derive(Drop)]
pub struct Served {
    pub number: u32,
    pub base_text: Vec<u8>,
    pub policy_text: Vec<u8>,
    pub base: Base,
    pub cert: Certificate,
    pub policy: Policy,
}

/// Why an edition of a folder isn't read. The files are read in this order: the base, the certificate, the policy.
#[derive(Clone, Copy)]
pub enum ServedFault {
    /// The file isn't there.
    Missing(EditionFile),
    /// The text of the file doesn't read.
    Unread(EditionFile),
    /// A call of the folder failed.
    Folder,
    /// A growth was refused.
    Memory,
}

impl From<StoreFault> for ServedFault {
    fn from(fault: StoreFault) -> ServedFault {
        match fault {
            StoreFault::Broken => ServedFault::Folder,
            StoreFault::Memory => ServedFault::Memory,
        }
    }
}

/// The text of a file, which has to be there.
pub fn read_text<F: EditionFolder>(
    alloc: Global,
    folder: &mut F,
    number: u32,
    file: EditionFile,
) -> Result<Vec<u8>, ServedFault>
    ensures later { IsLater (F.seen folder.old) (F.seen folder.new) }
    ensures there { IfOk result (λ text. IfHeld (F.seen folder.old) (λ f. file_at f number file ≡ Some text.items)) }
{
    match folder.read_file(alloc, number, file)? {
        Some(text) => Ok(text),
        None => Err(ServedFault::Missing(file)),
    }
}

/// What an edition follows.
pub fn read_follows<F: EditionFolder>(
    alloc: Global,
    folder: &mut F,
    number: u32,
) -> Result<Option<u32>, ServedFault>
    ensures later { IsLater (F.seen folder.old) (F.seen folder.new) }
    ensures says { IfOk result (λ follows. IfHeld (F.seen folder.old) (λ f. SaysFollows f number follows)) }
{
    let text = read_text(alloc, folder, number, EditionFile::Follows)?;
    follows_in(text.as_slice()).ok_or(ServedFault::Unread(EditionFile::Follows))
}

// The base of an edition, with its text.
fn read_base<F: EditionFolder>(
    alloc: Global,
    folder: &mut F,
    number: u32,
) -> Result<(Vec<u8>, Base), ServedFault>
    ensures later { IsLater (F.seen folder.old) (F.seen folder.new) }
    ensures there { IfOk result (λ read. IfHeld (F.seen folder.old) (λ f. file_at f number EditionFile.Base ≡
        Some read.0.items)) }
    ensures is { IfOk result (λ read. IsTextBase read.0.items read.1) }
{
    let text = read_text(alloc, folder, number, EditionFile::Base)?;
    let base = match base_of(alloc, text.as_slice()) {
        Ok(base) => base,
        Err(InputFault::Memory) => return Err(ServedFault::Memory),
        Err(_) => return Err(ServedFault::Unread(EditionFile::Base)),
    };
    Ok((text, base))
}

// The certificate of an edition, without its text.
#[tactic(auto, using(crate::proofs::FolderReads::cert_there))]
fn read_cert<F: EditionFolder>(
    alloc: Global,
    folder: &mut F,
    number: u32,
) -> Result<Certificate, ServedFault>
    ensures later { IsLater (F.seen folder.old) (F.seen folder.new) }
    ensures there { IfOk result (λ cert. IfHeld (F.seen folder.old) (λ f. IsCertOf f number cert)) }
    ensures is { IfOk result HasCertText }
{
    let text = read_text(alloc, folder, number, EditionFile::Cert)?;
    match cert_of(alloc, text.as_slice()) {
        Ok(cert) => Ok(cert),
        Err(InputFault::Memory) => Err(ServedFault::Memory),
        Err(_) => Err(ServedFault::Unread(EditionFile::Cert)),
    }
}

// The policy of an edition, with its text.
fn read_policy<F: EditionFolder>(
    alloc: Global,
    folder: &mut F,
    number: u32,
) -> Result<(Vec<u8>, Policy), ServedFault>
    ensures later { IsLater (F.seen folder.old) (F.seen folder.new) }
    ensures there { IfOk result (λ read. IfHeld (F.seen folder.old) (λ f. file_at f number EditionFile.Policy ≡
        Some read.0.items)) }
    ensures is { IfOk result (λ read. policy_in read.0.items ≡ Ok read.1) }
{
    let text = read_text(alloc, folder, number, EditionFile::Policy)?;
    let policy = match policy_read(alloc, text.as_slice()) {
        Ok(policy) => policy,
        Err(PolicyFault::Memory) => return Err(ServedFault::Memory),
        Err(_) => return Err(ServedFault::Unread(EditionFile::Policy)),
    };
    Ok((text, policy))
}

/// Reads an edition of a folder. Without the folder's lock others may publish meanwhile; an edition that is there stays as it is.
#[tactic(auto, using(crate::proofs::FolderReads::later_then))]
pub fn read_edition<F: EditionFolder>(
    alloc: Global,
    folder: &mut F,
    number: u32,
) -> Result<Served, ServedFault>
    ensures later { IsLater (F.seen folder.old) (F.seen folder.new) }
    ensures read { IfOk result IsReadEdition }

    // With the lock: these are its texts.
    ensures served { IfOk result (λ s. IfHeld (F.seen folder.old) (λ f. IsServed f s)) }
    ensures number { IfOk result (λ s. s.number ≡ number) }
{
    let (base_text, base) = read_base(alloc, folder, number)?;
    let cert = read_cert(alloc, folder, number)?;
    let (policy_text, policy) = read_policy(alloc, folder, number)?;
    Ok(Served {
        number,
        base_text,
        policy_text,
        base,
        cert,
        policy,
    })
}

/// Reads an edition of a folder, of which the lock is held.
pub fn read_served<F: EditionFolder>(
    alloc: Global,
    folder: &mut F,
    number: u32,
) -> Result<Served, ServedFault>
    requires { (F.seen folder.old).held ≡ true }
    ensures unchanged { IsUnchanged (F.seen folder.old) (F.seen folder.new) }
    ensures served { IfOk result (λ s. IfSome (F.seen folder.old).state (λ f. IsServed f s)) }
    ensures number { IfOk result (λ s. s.number ≡ number) }
{
    read_edition(alloc, folder, number)
}
