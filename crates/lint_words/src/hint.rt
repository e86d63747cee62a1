//! What may be wrong, and how it is said.

use crate::line::Line;
use crate::piece::Piece::{Code, Grouped, Key, Number, Quoted, Text};
use crate::piece::{Piece, Wording};
use crate::values::as_text;
use base_text::Field;
use page_ids::hex_digit;
use std::alloc::{AllocError, Global};

#[derive(Clone, Copy)]
pub enum Hint<'a> {
    Words(&'static str),
    // A header of a frame that lacks a bracket, on this line.
    TwoBracketsOn(usize),
    // A key that was defined before, on this line.
    Defined(&'a str, usize),
    // A bracket or a brace of this line.
    NotClosed(&'static str, usize),
    // A key of the top, which belongs above this line.
    Above(usize),
    // The price that was meant, in pence.
    Pence(u32),
    // A page number that had a letter.
    PageAlone(&'a str),
    // The page of a list of one.
    Outside(&'a str),
    // A route: its digit and its page.
    Routes(&'a str, &'a str),
    // The line on which the routes are.
    Braces(usize),
    // The items of a list, and the pairs of `routes`.
    List(&'a str),
    Pairs(&'a str),
    // A number, in two parts.
    Joined(&'a str, &'a str),
    // The id of a frame: its page, and its letter.
    FrameId(&'a str, &'a str),
    // The same in quotation marks.
    IdText(&'a str, &'a str),
    // The id of a frame that was written as a header.
    Header(&'a str),
    Lead(&'a str),
    // The two digits of an escape.
    Escape([u8; 2]),
    Meant(Field),
    // A character that can't be seen, one that looks like a space, and one that looks like a letter.
    Unseen(char),
    Space(char),
    Alike(char, char),
    // The code of a mosaic.
    Mosaic(u8),
    // The rows that a body writes, and the characters of a body without line ends.
    Rows(usize),
    Length(usize),
}

// A hint made of pieces.
pub(crate) fn hint_of(alloc: Global, pieces: &[Piece<'_>]) -> Result<Option<Line>, AllocError> {
    let mut words = Vec::new(alloc);
    words.say(pieces)?;
    Ok(Some(Line::of(alloc, &words)?))
}

fn line_number(line: usize) -> Piece<'static> {
    Number(line as u64)
}

// Appends the words of a hint about a character.
fn push_about_chars(out: &mut Vec<u8>, hint: Hint<'_>) -> Result<(), AllocError> {
    match hint {
        Hint::Unseen(c) => out.say(&[Code(c), Text(" can't be seen: leave it out")]),
        Hint::Space(c) => out.say(&[Text("this is "), Code(c), Text(", write a space")]),
        Hint::Alike(c, letter) => {
            let mut bytes = [0; 4];
            let letter: &str = letter.encode_utf8(&mut bytes);
            let words = Text(" looks like the letter ");
            out.say(&[Code(c), words, Text(letter), Text(", write that")])
        }
        Hint::Mosaic(code) => {
            let digits = [hex_digit(code / 16), hex_digit(code % 16)];
            let words = Text("write its code after \\u0091 to \\u0097: \\u00");
            out.say(&[words, Text(as_text(&digits))])
        }
        Hint::Escape(digits) => {
            let words = Text("\\u takes four digits: write \\u00");
            out.say(&[words, Text(as_text(&digits))])
        }
        _ => Ok(()),
    }
}

// Appends the words of a hint about lines, of the file or of a frame.
fn push_about_lines(out: &mut Vec<u8>, hint: Hint<'_>) -> Result<(), AllocError> {
    match hint {
        Hint::TwoBracketsOn(line) => out.say(&[
            Text("write [[frame]] with two brackets on line "),
            line_number(line),
        ]),
        Hint::Defined(name, line) => out.say(&[
            Quoted(name),
            Text(" is defined already on line "),
            line_number(line),
        ]),
        Hint::NotClosed(bracket, line) => out.say(&[
            Text(bracket),
            Text(" of line "),
            line_number(line),
            Text(" is not closed"),
        ]),
        Hint::Above(line) => out.say(&[
            Text("move it above line "),
            line_number(line),
            Text(", where the first frame begins"),
        ]),
        Hint::Braces(line) => out.say(&[
            Text("write it into the braces of line "),
            line_number(line),
        ]),
        Hint::Rows(rows) => out.say(&[Grouped(rows), Text(" rows are written, 22 are free")]),
        Hint::Length(length) => out.say(&[
            Grouped(length),
            Text(" characters are written, 880 are free"),
        ]),
        _ => push_about_chars(out, hint),
    }
}

// Appends the words of a hint.
fn push_hint(out: &mut Vec<u8>, hint: Hint<'_>) -> Result<(), AllocError> {
    match hint {
        Hint::Words(words) => out.say(&[Text(words)]),
        Hint::Meant(field) => out.say(&[Text("did you mean "), Key(field), Text("?")]),
        Hint::Lead(word) => out.say(&[Text("write lead = "), Quoted(word)]),
        Hint::Pence(pence) => out.say(&[
            Text("a price is whole pence: write "),
            Number(u64::from(pence)),
        ]),
        Hint::PageAlone(page) => {
            out.say(&[Text("a page number has no letter: write "), Text(page)])
        }
        Hint::Joined(front, back) => out.say(&[
            Text("a number has no spaces: write "),
            Text(front),
            Text(back),
        ]),
        Hint::FrameId(page, letter) => out.say(&[Text("write "), Text(page), Text(letter)]),
        Hint::IdText(page, letter) => {
            out.say(&[Text("write \""), Text(page), Text(letter), Text("\"")])
        }
        Hint::Header(id) => out.say(&[Text("write [[frame]], and below it id = "), Quoted(id)]),
        Hint::Outside(page) => out.say(&[Text("write ["), Text(page), Text("]")]),
        Hint::List(items) => out.say(&[Text("write ["), Text(items), Text("]")]),
        Hint::Pairs(pairs) => out.say(&[Text("write { "), Text(pairs), Text(" }")]),
        Hint::Routes(digit, page) => out.say(&[
            Text("write routes = { "),
            Text(digit),
            Text(" = "),
            Text(page),
            Text(" }"),
        ]),
        _ => push_about_lines(out, hint),
    }
}

// The words of a hint.
pub(crate) fn words_of(alloc: Global, hint: Hint<'_>) -> Result<Option<Line>, AllocError> {
    let mut words = Vec::new(alloc);
    push_hint(&mut words, hint)?;
    Ok(Some(Line::of(alloc, &words)?))
}

// The words of a hint, if there is one.
pub(crate) fn said(alloc: Global, hint: Option<Hint<'_>>) -> Result<Option<Line>, AllocError> {
    match hint {
        None => Ok(None),
        Some(hint) => words_of(alloc, hint),
    }
}
