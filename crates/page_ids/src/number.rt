ghost use Rattle.std.specs.Prelude.{◌≡◌, ◌≤◌, ◌++◌, IfOk, MatchResult, decimal};
ghost use Rattle.std.specs.List.{list_all};
ghost use Rattle.std.specs.Char.{is_ascii_digit};
ghost use Rattle.std.specs.Option.{SomeIff};
ghost use Rattle.std.specs.Str.Parse.{AllDigits, digits_value};
ghost use Rattle.page_ids.specs.Texts.{is_numeral, number_in, NumbersAreTexts};

use itoa::Buffer;
use std::alloc::AllocError;
use thiserror::Error;

/// Why bytes are no number up to a limit.
#[derive(Debug, Clone, Copy, PartialEq, Eq, Error)]
pub enum NumberFault {
    /// No digit at all, another byte than a digit, or a leading zero.
    #[error("not a decimal number without leading zeros")]
    NotNumeral,
    /// A number, of any length, above the limit.
    #[error("number above its limit")]
    AboveLimit,
}

fn are_digits(bytes: &[u8]) -> bool
    ensures { result ≡ list_all is_ascii_digit bytes.now }
{
    bytes.iter().all(|byte| byte.is_ascii_digit())
}

// Decimal digits, at least one, without a leading zero.
fn is_numeral(bytes: &[u8]) -> bool
    ensures { result ≡ is_numeral bytes.now }
{
    !bytes.is_empty() && are_digits(bytes) && (bytes[0] != b'0' || bytes.len() == 1)
}

// The value of the digits, as far as it fits 32 bits.
fn value_of(digits: &[u8]) -> Option<u32>
    ensures { SomeIff result (AllDigits 10 digits.now × (digits_value 10 digits.now ≤
        4294967295)) (digits_value 10 digits.now) }
{
    let mut number: u32 = 0;
    for digit in digits {
        if !digit.is_ascii_digit() {
            return None;
        }
        let next = u64::from(number) * 10 + u64::from(*digit - b'0');
        if next > 4_294_967_295 {
            return None;
        }
        number = next as u32;
    }
    Some(number)
}

/// The number that the bytes spell in decimal, without leading zeros, up to a limit.
///
/// `NotNumeral` is answered before `AboveLimit`: digits of any length are a number.
#[tactic(auto, using(crate::proofs::Numerals::digits_of))]
pub fn number_read(bytes: &[u8], most: u32) -> Result<u32, NumberFault>
    ensures value { result ≡ number_in most bytes.now }
    ensures within { IfOk result (λ n. n ≤ most) }
{
    if !is_numeral(bytes) {
        return Err(NumberFault::NotNumeral);
    }
    let Some(number) = value_of(bytes) else {
        return Err(NumberFault::AboveLimit);
    };
    if number > most {
        return Err(NumberFault::AboveLimit);
    }
    Ok(number)
}

/// Writes a number after a text, in decimal. If a growth is refused, nothing was written.
pub fn push_number(text: &mut Vec<u8>, number: u64) -> Result<(), AllocError>
    ensures { MatchResult result (λ _. text.new.items ≡ text.old.items ++ decimal number) (λ _. text.new.items ≡
        text.old.items) }
{
    let mut buffer = Buffer::new();
    let digits = buffer.format(number);
    text.extend_from_slice(digits.as_bytes())?;
    Ok(())
}

/// A number is read from its own text, and from no other.
pub fn numbers_are_texts()
    ensures { NumbersAreTexts }
{}
