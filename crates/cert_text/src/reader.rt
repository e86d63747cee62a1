//! Certificates are read from their texts, whole or in pieces.

ghost use Rattle.std.specs.Prelude.{◌≡◌, ◌++◌, ℕ, true, false, List, [], Ok, Err, IfOk, IfErr, OnOk, OnErr, None};
ghost use Rattle.cert_table.specs.Table.{CertView};
ghost use Rattle.cert_text.specs.declared.fault.ReadFault.TheVariants.{Failed, Memory};
ghost use Rattle.cert_text.specs.Grammar.{IsCertificateText};
ghost use Rattle.cert_text.specs.Reading.{reading_after, ended, reading, certificate_fault, Gives, Answers, lasting, HasRead};
ghost use Rattle.cert_text.specs.Loops.{TakesBytes};

use crate::fault::ReadFault;
use crate::line_reader::LineReader;
use cert_table::Certificate;
use std::alloc::Global;
use std::marker::Model;

/// Reads a certificate's text as it comes, in any pieces.
///
/// Takes one step for each byte, and keeps the rows and at most 128 bytes of the line so far.
#[derive(Drop)]
pub struct CertReader {
    failed: bool,
    lines: LineReader,
}

impl Model for CertReader {
    ghost use Rattle.cert_text.specs.Reading.{ReaderView};

    ghost Value = { ReaderView };

    ghost view = { λ r. record { failed = r.failed; reading = r.lines } };
}

impl CertReader {
    /// A reader that has read nothing. Takes no memory: the allocator is kept.
    pub fn new(alloc: Global) -> CertReader
        ensures { HasRead result [] }
    {
        CertReader {
            failed: false,
            lines: LineReader::new(alloc),
        }
    }

    /// Takes the next piece of the text, which may end anywhere in a line.
    ///
    /// L1 as soon as the bytes so far have it, whatever follows: so never for an early end. After L1 or `Memory` the
    /// reader has failed, and each call answers L2.
    pub fn feed(&mut self, piece: &[u8]) -> Result<(), ReadFault>
        ensures failed { self.old.failed ≡ true → (result ≡ Err Failed) × (self.new.failed ≡ true) }
        ensures refused { OnErr result (self.new.failed ≡ true) }
        // It has read the stream so far, and this piece.
        ensures stream { (stream : List ℕ) → HasRead self.old stream →
            OnOk result (HasRead self.new (stream ++ piece.now)) }
        // A fault is the stream's, whatever follows, and is reported at once.
        ensures fault { (stream : List ℕ) → HasRead self.old stream →
            IfErr result (λ e. Answers e (lasting (certificate_fault (stream ++ piece.now)))) }
        ensures none { (stream : List ℕ) → HasRead self.old stream →
            OnOk result (lasting (certificate_fault (stream ++ piece.now)) ≡ None) }
    {
        self.take_piece(piece)
    }

    // Takes a piece, unless a call was refused before.
    fn take_piece(&mut self, piece: &[u8]) -> Result<(), ReadFault>
        ensures failed { self.old.failed ≡ true → (result ≡ Err Failed) × (self.new.failed ≡ true) }
        ensures refused { OnErr result (self.new.failed ≡ true) }
        ensures exact { self.old.failed ≡ false
            → TakesBytes result self.new.reading (reading_after self.old.reading piece.now) }
        ensures goes_on { OnOk result (self.new.failed ≡ false) }
    {
        if self.failed {
            return Err(ReadFault::Failed);
        }
        match self.lines.feed(piece) {
            Ok(()) => Ok(()),
            Err(fault) => {
                self.failed = true;
                Err(fault)
            }
        }
    }

    /// The certificate, at the end of the text. Takes no memory.
    ///
    /// L1 with `Truncated` if the text ended before its last line did; L2 if a call was refused before.
    pub fn finish(self) -> Result<Certificate, ReadFault>
        ensures failed { self.failed ≡ true → result ≡ Err Failed }
        ensures exact { self.failed ≡ false → Gives (λ c. c) result (ended self.reading) }
        ensures no_memory { IfErr result (λ e. e ≡ Memory → ⊥) }
        ensures stream { (stream : List ℕ) → HasRead self stream → Gives (λ c. c) result (reading stream) }
    {
        if self.failed {
            return Err(ReadFault::Failed);
        }
        self.lines.finish()
    }
}

// The whole text as one piece, and its end.
fn read(alloc: Global, bytes: &[u8]) -> Result<Certificate, ReadFault>
    ensures { Gives (λ c. c) result (reading bytes.now) }
{
    let mut reader = CertReader::new(alloc);
    reader.take_piece(bytes)?;
    reader.finish()
}

/// The certificate of a text, or the first line at fault.
///
/// Linear in the text; no more memory than the rows take.
pub fn cert_read(alloc: Global, bytes: &[u8]) -> Result<Certificate, ReadFault>
    // What is read is spelled so.
    ensures found { IfOk result (λ c. IsCertificateText bytes.now c) }
    // What is spelled so is read, unless memory runs out.
    ensures only { (c : CertView) → IsCertificateText bytes.now c → Gives (λ d. d) result (Ok c) }
    // Else it is the first fault.
    ensures fault { IfErr result (λ e. Answers e (certificate_fault bytes.now)) }
{
    read(alloc, bytes)
}
