//! Texts that aren't TOML: toml's message and place, which no clause pins, and the hint.

use crate::printed::hint;
use lint_words::not_toml_words;
use std::alloc::Global;
use std::test::Fail;
use test_support::same_in;

// A text, the offset and the first words of toml's message, and the hint.
type Fault<'a> = (&'a [u8], usize, &'a str, &'a str);

const BAD_VALUE: &str = "invalid value";

const NO_COMMA: &str = "missing comma";

const UNEXPECTED: &str = "unexpected key or value";

// The offset of toml's message on a text, the message and the hint.
fn read(alloc: Global, text: &[u8]) -> Result<(usize, String, String), Fail> {
    let Err(error) = toml::table_from_slice(alloc, text) else {
        return Err(Fail::new(format_args!("this is TOML")));
    };
    let at = match error.span() {
        Some(span) => span.start,
        None => return Err(Fail::new(format_args!("no memory"))),
    };
    let words = not_toml_words(alloc, text, at, error.message())?;
    let message = String::from_str(alloc, error.message())?;
    Ok((at, message, hint(alloc, &words)?))
}

fn have_hints(alloc: Global, faults: &[Fault<'_>]) -> Result<(), Fail> {
    for (row, (text, at, words, hint)) in faults.iter().enumerate() {
        let (found, message, given) = read(alloc, text)?;
        same_in(row, found, *at)?;
        same_in(row, message.as_str().starts_with(words), true)?;
        same_in(row, given.as_str(), *hint)?;
    }
    Ok(())
}

#[test]
fn the_text_as_a_whole(rt: HostRuntime) -> Result<(), Fail> {
    let utf16 = "; this is UTF-16, save the file as UTF-8";
    let faults: [Fault<'_>; 6] = [
        (b"\xFF\xFEe\0=\0", 0, "invalid UTF-8", utf16),
        (b"e\0=\0001\0", 1, "key with no value", utf16),
        (
            b"a = 1 # \xA3\n",
            8,
            "invalid UTF-8",
            "; this is not UTF-8, save the file as UTF-8",
        ),
        (
            b"PBC1\nentry 1\n",
            4,
            "key with no value",
            "; this is a certificate: pageaudit check BASE CERT",
        ),
        (
            b"PBC2\nentry 1\n",
            4,
            "key with no value",
            "; this is a certificate: pageaudit check BASE CERT",
        ),
        (b"PBC = 1\nPBC1\n", 12, "key with no value", ""),
    ];
    have_hints(rt.alloc(), &faults)
}

#[test]
fn a_key_that_is_defined_twice(rt: HostRuntime) -> Result<(), Fail> {
    let duplicate = "duplicate key";
    let faults: [Fault<'_>; 8] = [
        (
            b"entry = 1\n\nentry = 2\n",
            11,
            duplicate,
            "; \"entry\" is defined already on line 1",
        ),
        (
            b"[[frame]]\nid = 1\n[[frame]]\n\nid = 2\nid = 3",
            35,
            duplicate,
            "; \"id\" is defined already on line 5",
        ),
        (
            b"routes = { 0 = 1, 0 = 2 }\n",
            18,
            duplicate,
            "; \"0\" is defined already on line 1",
        ),
        (
            b"[[frame]]\nroutes.1 = 2\n[ frame . routes ]\n",
            23,
            duplicate,
            "; \"routes\" is defined already on line 2",
        ),
        (b"\"a\" = 1\na = 2\n", 8, duplicate, ""),
        (b"a = [\"b\"]\n\"c\" = 1\n'c' = 2\n", 18, duplicate, ""),
        (
            b"[[frame]]\n[frame]\n",
            10,
            duplicate,
            "; write [[frame]] with two brackets",
        ),
        (
            b"\n[frame]\n[[frame]]\n",
            9,
            duplicate,
            "; write [[frame]] with two brackets on line 2",
        ),
    ];
    have_hints(rt.alloc(), &faults)
}

#[test]
fn brackets_and_headers_that_lack_one(rt: HostRuntime) -> Result<(), Fail> {
    let two_brackets = "; write [[frame]] with two brackets";
    let list = "; [ of line 2 is not closed";
    let faults: [Fault<'_>; 9] = [
        (b"[[frame]\n", 8, "unclosed array table", two_brackets),
        (b"[[frame\n", 7, "unclosed table", two_brackets),
        (b"[frame]]\n", 7, "unexpected key or value", two_brackets),
        (b"a = 1\nrows = [\"A\"\n\nb = 2\n", 19, NO_COMMA, list),
        (b"\nrows = [\n  \"A\",\n[[frame]]\n", 19, BAD_VALUE, list),
        (b"\nrows = [", 9, BAD_VALUE, list),
        (
            b"a = { 0 = 1,\n\n[[frame]]\n",
            14,
            "invalid key",
            "; { of line 1 is not closed",
        ),
        (
            b"rows = [\n  \"A\"\n  \"B\",\n]\n",
            17,
            NO_COMMA,
            "; put a comma before it",
        ),
        (b"a = { 0 = 1 }\nb =", 17, BAD_VALUE, ""),
    ];
    have_hints(rt.alloc(), &faults)
}

#[test]
fn marks_at_the_ends_of_lines(rt: HostRuntime) -> Result<(), Fail> {
    let comma = "; leave out the comma at the line's end";
    let semicolon = "; leave out the ; at the line's end";
    let faults: [Fault<'_>; 4] = [
        (b"rows = [\"A\"],\n", 12, UNEXPECTED, comma),
        (b"price = 5, \r\n", 9, UNEXPECTED, comma),
        (b"id = \"1a\";", 9, UNEXPECTED, semicolon),
        (
            b"price = 1,5\n",
            9,
            UNEXPECTED,
            "; a price is whole pence: write 15",
        ),
    ];
    have_hints(rt.alloc(), &faults)
}

#[test]
fn saved_screens(rt: HostRuntime) -> Result<(), Fail> {
    let saved = "; this is a saved screen: pageaudit import FILE";
    let codes = [b'~'; 960];
    let faults: [Fault<'_>; 4] = [
        (b"\xFE\x01\x06", 0, "invalid UTF-8", saved),
        (b"DE,\nPN,10000\n", 2, "key with no value", saved),
        (&codes, 0, "invalid key", saved),
        (&codes[..959], 0, "invalid key", ""),
    ];
    have_hints(rt.alloc(), &faults)
}

#[test]
fn marks_and_words(rt: HostRuntime) -> Result<(), Fail> {
    let missing = "; a quotation mark is missing";
    let faults: [Fault<'_>; 13] = [
        (b"id = \"1a\nb = 1\n", 8, "invalid string", missing),
        (b"rows = [\"A, \"B\", \"\\\"\"]\n", 13, NO_COMMA, missing),
        (b"rows = [0612\", \"B\"]\n", 8, BAD_VALUE, missing),
        (
            b"rows = [\"A\" \"\\\"B\"]\n",
            12,
            NO_COMMA,
            "; put a comma before it",
        ),
        (
            b"id = \xE2\x80\x9C1a\xE2\x80\x9D\n",
            5,
            BAD_VALUE,
            "; use straight quotation marks",
        ),
        (
            b"a = 1 // one\n",
            6,
            "unexpected key or value",
            "; a comment begins with #",
        ),
        (
            b"entry = 01\n",
            8,
            BAD_VALUE,
            "; a number has no leading zero",
        ),
        (
            b"next = True\n",
            7,
            BAD_VALUE,
            "; write true or false, in small letters",
        ),
        (
            b"next = no\n",
            7,
            BAD_VALUE,
            "; write true or false, in small letters",
        ),
        (
            b"lead = clear\n",
            7,
            BAD_VALUE,
            "; put a text in quotation marks",
        ),
        (
            b"id = 012a\n",
            5,
            BAD_VALUE,
            "; put a text in quotation marks",
        ),
        (b"a = 12cd\n", 4, BAD_VALUE, ""),
        (
            b"a = [0 1]\n",
            5,
            BAD_VALUE,
            "; put a comma between two values",
        ),
    ];
    have_hints(rt.alloc(), &faults)
}

// A price, a page and a truth value, written as people do.
#[test]
fn values_by_their_keys(rt: HostRuntime) -> Result<(), Fail> {
    let pence = "; a price is whole pence: write 15";
    let page = "; a page number has no letter: write 620";
    let truth = "; true or false, without quotation marks";
    let faults: [Fault<'_>; 11] = [
        (b"price = 15p\n", 8, BAD_VALUE, pence),
        (b"price = \xC2\xA30.15 # c\n", 8, BAD_VALUE, pence),
        (
            b"price = 1,500\n",
            9,
            "unexpected key or value",
            "; a price is whole pence: write 1500",
        ),
        (b"price = free\n", 8, BAD_VALUE, "; a price is whole pence"),
        (b"entry = 620a\n", 8, BAD_VALUE, page),
        (b"outside = [0, 620a]\n", 14, BAD_VALUE, page),
        (b"routes = { 0 = 1, 1 = 620a }\n", 22, BAD_VALUE, page),
        (b"routes.0 = 620a\n", 11, BAD_VALUE, page),
        (b"next = 620b\n", 7, BAD_VALUE, truth),
        (
            b"group = A\n",
            8,
            BAD_VALUE,
            "; a group is a number from 1 to 65535",
        ),
        (
            b"routes = { 0 = 1 2 = 1 }\n",
            15,
            BAD_VALUE,
            "; put a comma between two values",
        ),
    ];
    have_hints(rt.alloc(), &faults)
}

#[test]
fn comments_marks_and_line_ends(rt: HostRuntime) -> Result<(), Fail> {
    let comment = "; a comment begins with #";
    let space = "; this is a no-break space (U+00A0), write a space";
    let inside = "; write \\\" inside a text";
    let escape = "invalid escape sequence";
    let faults: [Fault<'_>; 13] = [
        (b"; c\nentry = 1\n", 0, "invalid key", comment),
        (b"entry = 1 ; c\n", 10, "unexpected key or value", comment),
        (b"entry\xC2\xA0= 1\n", 5, "key with no value", space),
        (
            b"# a\rentry = 1\r",
            3,
            "invalid key",
            "; its lines end with CR alone, save it with LF or CR LF",
        ),
        (
            b"rows = [\"\\81 A\"]\n",
            10,
            escape,
            "; \\u takes four digits: write \\u0081",
        ),
        (
            b"rows = [\"\\8A A\"]\n",
            10,
            escape,
            "; \\u takes four digits: write \\u008A",
        ),
        (
            b"rows = [\"Fish\\chips\"]\n",
            14,
            escape,
            "; write \\\\ for a backslash",
        ),
        (b"rows = [\"The \"Mary\" crew\"]\n", 14, NO_COMMA, inside),
        (b"lead = \"a\"b\"\n", 10, "unexpected key or value", inside),
        (
            b"rows = ['WHAT'S ON']\n",
            14,
            NO_COMMA,
            "; write a text with ' in it in double quotation marks",
        ),
        (
            b"rows = [\"\x1B A\"]\n",
            9,
            "invalid string",
            "; write a control character as an escape, as \\u001B",
        ),
        (
            b"routes = { 0 = 1, # = 62022 }\n\n[[frame]]\n",
            31,
            "invalid key",
            "; # begins a comment: for the next frame write next = true",
        ),
        (b"lead = \"a\" \"b\"\n", 11, "unexpected key or value", ""),
    ];
    have_hints(rt.alloc(), &faults)
}
