//! What texts mean, and when a frame is clean.

ghost use Rattle.std.specs.Prelude.{◌≡◌, ℕ, List, Ok, IfOk, IfErr};
ghost use Rattle.page_ids.specs.Keys.{AreKeysRead};
ghost use Rattle.frame_records.specs.declared.frame.Lead.{Lead as LeadView};
ghost use Rattle.frame_records.specs.Bases.{BaseView};
ghost use Rattle.base_text.specs.Whole.{IsTextBase, IsFirstFault};
ghost use Rattle.cert_table.specs.Table.{CertView};
ghost use Rattle.cert_text.specs.Grammar.{IsCertificateText};
ghost use Rattle.cert_text.specs.Reading.{certificate_fault, Gives, Answers};
ghost use Rattle.abstract_paint.specs.Paint.{IsPainted, IsExact};

use abstract_paint::{Painted, paint, paint_is_exact};
use base_text::{BaseFault, base_read, texts_mean_one_base};
use cert_table::Certificate;
use cert_text::{ReadFault, cert_read};
use frame_records::{Base, Lead};
use page_ids::{KeyList, keys_text};
use std::alloc::{AllocError, Global};

// A text means a base, or has a first fault.
fn base_of(alloc: Global, text: &[u8]) -> Result<Base, BaseFault>
    ensures found { IfOk result (IsTextBase text.now) }
    ensures fault { IfErr result (IsFirstFault text.now) }
{
    base_read(alloc, text)
}

// It means one base alone.
fn one_base()
    ensures { (text : List ℕ) (a b : BaseView) → IsTextBase text a → IsTextBase text b → a ≡ b }
{
    texts_mean_one_base();
}

// A certificate has one text, and is read from it alone.
fn cert_of(alloc: Global, text: &[u8]) -> Result<Certificate, ReadFault>
    ensures found { IfOk result (λ c. IsCertificateText text.now c) }
    ensures only { (c : CertView) → IsCertificateText text.now c → Gives (λ d. d) result (Ok c) }
    ensures fault { IfErr result (λ e. Answers e (certificate_fault text.now)) }
{
    cert_read(alloc, text)
}

// A frame is clean, with the cursors at which it ends, or touches first at an offset.
fn painted(lead: Lead, body: &[u8]) -> Painted
    ensures { IsPainted lead body.now result }
{
    paint(lead, body)
}

fn painted_exactly()
    ensures { (lead : LeadView) (body : List ℕ) → IsExact lead body }
{
    paint_is_exact();
}

// The words of keys are read as these keys.
fn key_words(alloc: Global, keys: &KeyList) -> Result<Vec<u8>, AllocError>
    ensures { IfOk result (λ text. AreKeysRead text.items (Ok keys.now)) }
{
    keys_text(alloc, keys)
}
