//! The keys.

ghost use Rattle.std.specs.Prelude.{◌≡◌, option_map};
ghost use Rattle.ansi_line.specs.declared.keys.Typing.TheVariants.{Plain};
ghost use Rattle.ansi_line.specs.AnsiTyped.{
  all_typed,
  is_left_out,
  is_of_key,
  typed_as,
  typing_after,
  typing_escaped,
  typing_from,
  typing_within,
};

use devices::{Broken, Source};

const ESCAPE: u8 = 0x1b;

// Where the bytes of a keyboard are.
#[derive(Debug, Clone, Copy)]
enum Typing {
    Plain,
    // Right after a carriage return.
    Returned,
    // Right after an escape.
    Escaped,
    // Within what a cursor key or a function key sends: an escape, `[`, bytes from 20 to 3F, and one from 40 to 7E.
    Sequence,
    // Before the last byte of what such a key sends: an escape, `O`, and a byte.
    Last,
}

/// The bytes of a keyboard as those of a viewdata terminal: a carriage return and a line feed are `#`, and the two together are one;
/// what cursor keys and function keys send (ECMA-48's control sequences and SS3) is no key. They are read one at a time.
#[derive(Drop)]
pub struct AnsiKeys<R> {
    inner: R,
    typing: Typing,
}

fn is_of_key(byte: u8) -> bool
    ensures { result ≡ is_of_key byte }
{
    matches!(byte, 0x20..=0x7e)
}

// Whether a byte is no key of the caller's.
fn is_left_out(typing: Typing, byte: u8) -> bool
    ensures { result ≡ is_left_out typing byte }
{
    match typing {
        Typing::Plain | Typing::Escaped => false,
        Typing::Returned => byte == b'\n',
        Typing::Sequence | Typing::Last => is_of_key(byte),
    }
}

fn typed_as(typing: Typing, byte: u8) -> u8
    ensures { result ≡ typed_as typing byte }
{
    if is_left_out(typing, byte) {
        0
    } else if byte == b'\r' || byte == b'\n' {
        b'#'
    } else {
        byte
    }
}

fn typing_from(byte: u8) -> Typing
    ensures { result ≡ typing_from byte }
{
    match byte {
        b'\r' => Typing::Returned,
        ESCAPE => Typing::Escaped,
        _ => Typing::Plain,
    }
}

fn typing_escaped(byte: u8) -> Typing
    ensures { result ≡ typing_escaped byte }
{
    match byte {
        b'[' => Typing::Sequence,
        b'O' => Typing::Last,
        _ => typing_from(byte),
    }
}

fn typing_within(byte: u8) -> Typing
    ensures { result ≡ typing_within byte }
{
    match byte {
        0x20..=0x3f => Typing::Sequence,
        _ => typing_from(byte),
    }
}

// Where a byte leads.
fn typing_after(typing: Typing, byte: u8) -> Typing
    ensures { result ≡ typing_after typing byte }
{
    match typing {
        Typing::Plain | Typing::Returned | Typing::Last => typing_from(byte),
        Typing::Escaped => typing_escaped(byte),
        Typing::Sequence => typing_within(byte),
    }
}

impl<R: Source> AnsiKeys<R> {
    /// The keys that are typed into a source.
    pub fn new(inner: R) -> AnsiKeys<R>
        ensures { ⟦<AnsiKeys<R> as Source>⟧.seen result ≡ record {
          bytes = option_map (all_typed Plain) (R.seen inner).bytes;
          failed = (R.seen inner).failed;
          flushes = (R.seen inner).flushes;
        } }
    {
        AnsiKeys {
            inner,
            typing: Typing::Plain,
        }
    }
}

impl<R: Source> Source for AnsiKeys<R> {
    ghost seen = { λ s. record {
      bytes = option_map (all_typed s.typing) (R.seen s.inner).bytes;
      failed = (R.seen s.inner).failed;
      flushes = (R.seen s.inner).flushes;
    } };

    fn read(&mut self, into: &mut [u8]) -> Result<usize, Broken> {
        let room = into.len().min(1);
        let count = match self.inner.read(&mut into[..room]) {
            Ok(count) => count,
            Err(broken) => return Err(broken),
        };
        if count > 0 {
            let byte = into[0];
            into[0] = typed_as(self.typing, byte);
            self.typing = typing_after(self.typing, byte);
        }
        Ok(count)
    }

    fn failed(&self) -> bool {
        self.inner.failed()
    }
}
