//! Reads a file as a base or as a certificate.

ghost use Rattle.std.specs.Prelude.{◌≡◌, ◌<◌, false, Ok, Err, List, [], ℕ};
ghost use Rattle.cert_text.specs.Reading.{HasRead};
ghost use Rattle.pageaudit.specs.Files.{device};
ghost use Rattle.pageaudit.specs.Loops.{IsBaseRead, IsCertRead, IsBaseAnswer, IsLinedRead, IsLinedAnswer, IsPieceTaken, IsFed};

use crate::file_fault::FileFault;
use audit_report::{Source, read_whole};
use base_text::{BaseCause, BaseFault, MOST_TEXT, base_read};
use cert_table::Certificate;
use cert_text::{CertReader, ReadFault};
use frame_records::Base;
use lint::{WrittenBase, written_base};
use std::alloc::Global;

// The number of bytes of a certificate that one read asks for.
const PIECE: usize = 4_096;

// The most bytes of a certificate that are read. A text with no fault in its first 8,454,918 bytes has ended there.
const MOST_CERT: usize = 16_777_216;

// The base of a text.
fn base_of(alloc: Global, text: &[u8]) -> Result<Base, FileFault<BaseFault>>
    ensures { IsBaseAnswer text.now result }
{
    match base_read(alloc, text) {
        Ok(base) => Ok(base),
        Err(
            BaseFault {
                cause: BaseCause::Memory,
                ..
            },
        ) => Err(FileFault::Memory),
        Err(fault) => Err(FileFault::Text(fault)),
    }
}

// Reads a base whole: one byte more than a base may have is enough to refuse it.
pub fn read_base<S: Source>(alloc: Global, source: &mut S) -> Result<Base, FileFault<BaseFault>>
    requires { (S.seen source.old).failed ≡ false }
    ensures { IsBaseRead (device S.seen source.old source.new) result }
{
    let text = read_whole(alloc, source, MOST_TEXT + 1)?;
    base_of(alloc, text.as_slice())
}

// The base of a text, and where it writes the frames. A text that is refused is read once more, for its first fault.
fn written_of(alloc: Global, text: &[u8]) -> Result<WrittenBase, FileFault<BaseFault>>
    ensures { IsLinedAnswer text.now result }
{
    match written_base(alloc, text) {
        Ok(Some(written)) => Ok(written),
        Ok(None) => match base_of(alloc, text) {
            Err(fault) => Err(fault),
            Ok(_) => unreachable!(),
        },
        Err(_) => Err(FileFault::Memory),
    }
}

// Reads a base whole, as read_base does, and notes the lines of its frames.
pub fn read_lined<S: Source>(
    alloc: Global,
    source: &mut S,
) -> Result<WrittenBase, FileFault<BaseFault>>
    requires { (S.seen source.old).failed ≡ false }
    ensures { IsLinedRead (device S.seen source.old source.new) result }
{
    let text = read_whole(alloc, source, MOST_TEXT + 1)?;
    written_of(alloc, text.as_slice())
}

// Reads once, at most `most` bytes, and feeds them to the certificate's reader as one piece. Returns their number, 0 at
// the end.
fn take_piece<S: Source>(
    source: &mut S,
    reader: &mut CertReader,
    most: usize,
) -> Result<usize, FileFault<ReadFault>>
    requires open { (S.seen source.old).failed ≡ false }
    requires some { 0 < most }
    ensures { (stream : List ℕ) → HasRead reader.old stream
        → IsPieceTaken most (device S.seen source.old source.new) stream reader.new result }
{
    let mut piece = [0; PIECE];
    let room = most.min(PIECE);
    match source.read(&mut piece[..room]) {
        Ok(count) => match reader.feed(&piece[..count]) {
            Ok(()) => Ok(count),
            Err(ReadFault::Memory) => Err(FileFault::Memory),
            Err(fault) => Err(FileFault::Text(fault)),
        },
        Err(_) => Err(FileFault::Broken),
    }
}

// Feeds all of a certificate's file to its reader, piece by piece, up to the first bad line.
fn feed_whole<S: Source>(
    source: &mut S,
    reader: &mut CertReader,
) -> Result<(), FileFault<ReadFault>>
    requires open { (S.seen source.old).failed ≡ false }
    requires fresh { HasRead reader.old [] }
    ensures { IsFed (device S.seen source.old source.new) reader.new result }
{
    let mut room: usize = MOST_CERT;
    while room > 0 {
        match take_piece(source, reader, room) {
            Ok(0) => return Ok(()),
            Ok(count) => room -= count,
            Err(fault) => return Err(fault),
        }
    }
    Ok(())
}

// Reads a certificate as far as needed: nothing is read after a bad line.
pub fn read_cert<S: Source>(
    alloc: Global,
    source: &mut S,
) -> Result<Certificate, FileFault<ReadFault>>
    requires { (S.seen source.old).failed ≡ false }
    ensures { IsCertRead (device S.seen source.old source.new) result }
{
    let mut reader = CertReader::new(alloc);
    feed_whole(source, &mut reader)?;
    match reader.finish() {
        Ok(cert) => Ok(cert),
        Err(fault) => Err(FileFault::Text(fault)),
    }
}
