ghost use Rattle.std.specs.Prelude.{◌≡◌};
ghost use Rattle.pageaudit_c.specs.Status.{status_words};
ghost use Rattle.pageaudit_c.specs.Calls.{IsCopied, buffer};

use crate::answer::lay_over;

fn words_of(status: u32) -> &'static str
    ensures { result.now ≡ status_words status }
{
    match status {
        0 => "clear",
        1 => "faulty",
        2 => "bad policy",
        3 => "bad text",
        4 => "out of memory",
        _ => "",
    }
}

/// The words for the number of a status, as `bad text`; no words for any other number.
///
/// They go to the front of `text`, as far as they fit. Returns their whole length.
#[unsafe(no_mangle)]
pub extern "C" fn pageaudit_status_text(status: u32, text: &mut [u8]) -> usize
    ensures { IsCopied (status_words status) (buffer text.old text.new result) }
{
    lay_over(words_of(status).as_bytes(), text)
}
