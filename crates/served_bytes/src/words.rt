//! The words of row 23.

ghost use Rattle.std.specs.Prelude.{◌≡◌, ◌≤◌, ◌++◌, codes, length};
ghost use Rattle.page_ids.specs.Ids.{page_text};
ghost use Rattle.served_bytes.specs.Words.{reply_words, keyed_page_words, end_words};

use arrayvec::ArrayString;
use page_ids::PageNo;
use session_machine::Reply;

// A text that never changes.
fn fixed(text: &str) -> ArrayString<40>
    requires { length text.now ≤ 40 }
    ensures { result.bytes ≡ text.now }
{
    let mut words = ArrayString::new();
    words.push_str(text);
    words
}

// The page for which the caller leaves.
fn leaving_words(page: PageNo) -> ArrayString<40>
    ensures { result.bytes ≡ codes "LEAVING FOR PAGE " ++ page_text page }
{
    let mut words = fixed("LEAVING FOR PAGE ");
    words.push_str(page.text().as_str());
    words
}

/// The words after a reply; none after one that shows a frame.
pub fn reply_words(reply: &Reply) -> ArrayString<40>
    ensures { result.bytes ≡ reply_words reply.now }
{
    match reply {
        Reply::Shown(_, _) | Reply::Again(_) => fixed(""),
        Reply::NotOffered => fixed("KEY NOT IN USE"),
        Reply::Missing(_) => fixed("NO SUCH PAGE"),
        Reply::Closed(_) => fixed("CLOSED USER GROUP ONLY"),
        Reply::Gone(page) => leaving_words(*page),
    }
}

/// The words after a page that was keyed directly, as `*1234#`.
pub fn keyed_page_words() -> ArrayString<40>
    ensures { result.bytes ≡ keyed_page_words }
{
    fixed("PAGES CANNOT BE KEYED HERE")
}

/// The words after `*90#`.
pub fn end_words() -> ArrayString<40>
    ensures { result.bytes ≡ end_words }
{
    fixed("GOODBYE")
}
