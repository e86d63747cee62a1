//! The outlines of letters. Written by tools/letter-outlines from letters.txt.

ghost use Rattle.std.specs.Prelude.{◌≡◌};
ghost use Rattle.screens.specs.Letters as letters;
ghost use Rattle.screens.specs.Outlines as spec;

use crate::look::Height;

fn single_1(c: char) -> &'static [u8]
    ensures { result.now ≡ (letters.letters_1 c).single }
{
    match c {
        '!' => b"m6 2h2v10h-2zm0 12h2v2h-2z",
        '"' => b"m4 2h2v6h-2zm4 0h2v6h-2z",
        '#' =>
            b"m4 2h2v4h2v-4h2v4h2v2h-2v2h2v2h-2v4h-2v-4h-2v4h-2v-4h-2v-2h2v-2h-2v-2h2zm2 6v2h2v-2z",
        '$' =>
            b"m4 2h6v1h1v1h1v2h-2v-1h-1v-1h-1v4h2v1h1v1h1v4h-1v1h-1v1h-6v-1h-1v-1h-1v-2h2v1h1v1h1v-4h-2v-1h-1v-1h-1v-4h1v-1h1zm1 2v1h-1v2h1v1h1v-4zm3 6v4h1v-1h1v-2h-1v-1z",
        '%' =>
            b"m2 2h4v4h-4zm8 2h2v2h-1v1h-1v1h-1v1h-1v1h-1v1h-1v1h-1v1h-1v1h-2v-2h1v-1h1v-1h1v-1h1v-1h1v-1h1v-1h1v-1h1zm-2 8h4v4h-4z",
        '&' =>
            b"m4 2h2v1h1v1h1v4h-1v2h1v1h2v-1h2v2h-1v2h1v2h-2v-1h-2v1h-4v-1h-1v-1h-1v-4h1v-2h-1v-4h1v-1h1zm0 3v2h2v-2zm0 6v2h1v1h2v-2h-1v-1z",
        '\'' => b"m6 2h2v4h-1v1h-1v1h-2v-2h1v-1h1z",
        '(' =>
            b"m8 2h2v2h-1v1h-1v1h-1v1h-1v4h1v1h1v1h1v1h1v2h-2v-1h-1v-1h-1v-1h-1v-1h-1v-6h1v-1h1v-1h1v-1h1z",
        ')' =>
            b"m4 2h2v1h1v1h1v1h1v1h1v6h-1v1h-1v1h-1v1h-1v1h-2v-2h1v-1h1v-1h1v-1h1v-4h-1v-1h-1v-1h-1v-1h-1z",
        '*' =>
            b"m6 2h2v4h1v-1h1v-1h2v2h-1v1h-1v1h-2v2h2v1h1v1h1v2h-2v-1h-1v-1h-1v4h-2v-4h-1v1h-1v1h-2v-2h1v-1h1v-1h2v-2h-2v-1h-1v-1h-1v-2h2v1h1v1h1z",
        '+' => b"m6 4h2v4h4v2h-4v4h-2v-4h-4v-2h4z",
        ',' => b"m6 12h2v4h-1v1h-1v1h-2v-2h1v-1h1z",
        '-' => b"m4 8h6v2h-6z",
        '.' => b"m6 14h2v2h-2z",
        '/' =>
            b"m10 4h2v2h-1v1h-1v1h-1v1h-1v1h-1v1h-1v1h-1v1h-1v1h-2v-2h1v-1h1v-1h1v-1h1v-1h1v-1h1v-1h1v-1h1z",
        '0' =>
            b"m6 2h2v1h1v1h1v1h1v1h1v6h-1v1h-1v1h-1v1h-1v1h-2v-1h-1v-1h-1v-1h-1v-1h-1v-6h1v-1h1v-1h1v-1h1zm0 3v1h-1v1h-1v4h1v1h1v1h2v-1h1v-1h1v-4h-1v-1h-1v-1z",
        '1' => b"m6 2h2v12h2v2h-6v-2h2v-8h-2v-2h2z",
        '2' =>
            b"m4 2h6v1h1v1h1v4h-1v1h-1v1h-3v1h-1v1h-1v1h-1v1h8v2h-10v-4h1v-1h1v-1h1v-1h1v-1h3v-1h1v-2h-1v-1h-4v1h-1v1h-2v-2h1v-1h1z",
        '3' =>
            b"m2 2h10v4h-1v1h-1v2h1v1h1v4h-1v1h-1v1h-6v-1h-1v-1h-1v-2h2v1h1v1h4v-1h1v-2h-1v-1h-3v-2h2v-2h1v-1h1v-1h-8z",
        _ => b"",
    }
}

fn single_2(c: char) -> &'static [u8]
    ensures { result.now ≡ (letters.letters_2 c).single }
{
    match c {
        '4' => b"m8 2h2v8h2v2h-2v4h-2v-4h-6v-4h1v-1h1v-1h1v-1h1v-1h2zm-1 4v1h-1v1h-1v1h-1v1h4v-4z",
        '5' =>
            b"m2 2h10v2h-8v2h6v1h1v1h1v6h-1v1h-1v1h-6v-1h-1v-1h-1v-2h2v1h1v1h4v-1h1v-4h-1v-1h-7z",
        '6' =>
            b"m6 2h4v2h-3v1h-1v1h-1v1h-1v1h6v1h1v1h1v4h-1v1h-1v1h-6v-1h-1v-1h-1v-8h1v-1h1v-1h1v-1h1zm-2 8v3h1v1h4v-1h1v-2h-1v-1z",
        '7' => b"m2 2h10v4h-1v1h-1v1h-1v1h-1v1h-1v1h-1v5h-2v-6h1v-1h1v-1h1v-1h1v-1h1v-1h1v-1h-8z",
        '8' =>
            b"m4 2h6v1h1v1h1v4h-1v2h1v4h-1v1h-1v1h-6v-1h-1v-1h-1v-4h1v-2h-1v-4h1v-1h1zm1 2v1h-1v2h1v1h4v-1h1v-2h-1v-1zm0 6v1h-1v2h1v1h4v-1h1v-2h-1v-1z",
        '9' =>
            b"m4 2h6v1h1v1h1v8h-1v1h-1v1h-1v1h-1v1h-4v-2h3v-1h1v-1h1v-1h1v-1h-6v-1h-1v-1h-1v-4h1v-1h1zm1 2v1h-1v2h1v1h5v-3h-1v-1z",
        ':' => b"m6 6h2v2h-2zm0 8h2v2h-2z",
        ';' => b"m6 6h2v2h-2zm0 6h2v4h-1v1h-1v1h-2v-2h1v-1h1z",
        '<' =>
            b"m8 2h2v2h-1v1h-1v1h-1v1h-1v1h-1v2h1v1h1v1h1v1h1v1h1v2h-2v-1h-1v-1h-1v-1h-1v-1h-1v-1h-1v-1h-1v-2h1v-1h1v-1h1v-1h1v-1h1v-1h1z",
        '=' => b"m2 6h10v2h-10zm0 4h10v2h-10z",
        '>' =>
            b"m4 2h2v1h1v1h1v1h1v1h1v1h1v1h1v2h-1v1h-1v1h-1v1h-1v1h-1v1h-1v1h-2v-2h1v-1h1v-1h1v-1h1v-1h1v-2h-1v-1h-1v-1h-1v-1h-1v-1h-1z",
        '?' =>
            b"m4 2h6v1h1v1h1v2h-1v1h-1v1h-1v1h-1v3h-2v-4h1v-1h1v-1h1v-2h-4v1h-1v1h-2v-2h1v-1h1zm2 12h2v2h-2z",
        '@' =>
            b"m4 2h6v1h1v1h1v8h-6v-6h4v-1h-1v-1h-4v1h-1v8h1v1h5v2h-6v-1h-1v-1h-1v-10h1v-1h1zm4 6v2h2v-2z",
        'A' =>
            b"m6 2h2v1h1v1h1v1h1v1h1v10h-2v-4h-6v4h-2v-10h1v-1h1v-1h1v-1h1zm0 3v1h-1v1h-1v3h6v-3h-1v-1h-1v-1z",
        'B' =>
            b"m2 2h8v1h1v1h1v4h-1v2h1v4h-1v1h-1v1h-8zm2 2v4h5v-1h1v-2h-1v-1zm0 6v4h5v-1h1v-2h-1v-1z",
        'C' =>
            b"m4 2h6v1h1v1h1v2h-2v-1h-1v-1h-4v1h-1v8h1v1h4v-1h1v-1h2v2h-1v1h-1v1h-6v-1h-1v-1h-1v-10h1v-1h1z",
        'D' => b"m2 2h8v1h1v1h1v10h-1v1h-1v1h-8zm2 2v10h5v-1h1v-8h-1v-1z",
        'E' => b"m2 2h10v2h-8v4h6v2h-6v4h8v2h-10z",
        'F' => b"m2 2h10v2h-8v4h6v2h-6v6h-2z",
        _ => b"",
    }
}

fn single_3(c: char) -> &'static [u8]
    ensures { result.now ≡ (letters.letters_3 c).single }
{
    match c {
        'G' =>
            b"m4 2h6v1h1v1h1v2h-2v-1h-1v-1h-4v1h-1v8h1v1h5v-2h-2v-2h4v6h-8v-1h-1v-1h-1v-10h1v-1h1z",
        'H' => b"m2 2h2v6h6v-6h2v14h-2v-6h-6v6h-2z",
        'I' => b"m4 2h6v2h-2v10h2v2h-6v-2h2v-10h-2z",
        'J' => b"m10 2h2v12h-1v1h-1v1h-6v-1h-1v-1h-1v-2h2v1h1v1h4v-1h1z",
        'K' =>
            b"m2 2h2v6h1v-1h1v-1h1v-1h1v-1h1v-1h1v-1h2v2h-1v1h-1v1h-1v1h-1v1h-1v2h1v1h1v1h1v1h1v1h1v2h-2v-1h-1v-1h-1v-1h-1v-1h-1v-1h-1v-1h-1v6h-2z",
        'L' => b"m2 2h2v12h8v2h-10z",
        'M' => b"m2 2h2v2h2v1h2v-1h2v-2h2v14h-2v-10h-1v1h-1v3h-2v-3h-1v-1h-1v10h-2z",
        'N' => b"m2 2h2v4h2v1h1v1h1v1h1v1h1v-8h2v14h-2v-4h-2v-1h-1v-1h-1v-1h-1v-1h-1v8h-2z",
        'O' =>
            b"m4 2h6v1h1v1h1v10h-1v1h-1v1h-6v-1h-1v-1h-1v-10h1v-1h1zm1 2v1h-1v8h1v1h4v-1h1v-8h-1v-1z",
        'P' => b"m2 2h8v1h1v1h1v4h-1v1h-1v1h-6v6h-2zm2 2v4h5v-1h1v-2h-1v-1z",
        'Q' =>
            b"m4 2h6v1h1v1h1v8h-1v2h1v2h-2v-1h-2v1h-4v-1h-1v-1h-1v-10h1v-1h1zm1 2v1h-1v8h1v1h2v-2h-1v-2h2v1h2v-6h-1v-1z",
        'R' =>
            b"m2 2h8v1h1v1h1v4h-1v1h-1v1h-2v1h1v1h1v1h1v1h1v2h-2v-1h-1v-1h-1v-1h-1v-1h-1v-2h-2v6h-2zm2 2v4h5v-1h1v-2h-1v-1z",
        'S' =>
            b"m4 2h6v1h1v1h1v2h-2v-1h-1v-1h-4v1h-1v2h1v1h5v1h1v1h1v4h-1v1h-1v1h-6v-1h-1v-1h-1v-2h2v1h1v1h4v-1h1v-2h-1v-1h-5v-1h-1v-1h-1v-4h1v-1h1z",
        'T' => b"m2 2h10v2h-4v12h-2v-12h-4z",
        'U' => b"m2 2h2v11h1v1h4v-1h1v-11h2v12h-1v1h-1v1h-6v-1h-1v-1h-1z",
        'V' =>
            b"m2 2h2v5h1v1h1v3h2v-3h1v-1h1v-5h2v6h-1v1h-1v3h-1v1h-1v3h-2v-3h-1v-1h-1v-3h-1v-1h-1z",
        'W' => b"m2 2h2v11h2v-5h2v5h2v-11h2v12h-1v1h-1v1h-2v-1h-2v1h-2v-1h-1v-1h-1z",
        'X' =>
            b"m2 2h2v3h1v1h1v1h2v-1h1v-1h1v-3h2v4h-1v1h-1v1h-1v2h1v1h1v1h1v4h-2v-3h-1v-1h-1v-1h-2v1h-1v1h-1v3h-2v-4h1v-1h1v-1h1v-2h-1v-1h-1v-1h-1z",
        'Y' =>
            b"m2 2h2v3h1v1h1v1h2v-1h1v-1h1v-3h2v4h-1v1h-1v1h-1v1h-1v7h-2v-7h-1v-1h-1v-1h-1v-1h-1z",
        _ => b"",
    }
}

fn single_4(c: char) -> &'static [u8]
    ensures { result.now ≡ (letters.letters_4 c).single }
{
    match c {
        'Z' =>
            b"m2 2h10v4h-1v1h-1v1h-1v1h-1v1h-1v1h-1v1h-1v1h-1v1h8v2h-10v-4h1v-1h1v-1h1v-1h1v-1h1v-1h1v-1h1v-1h1v-1h-8z",
        'a' => b"m4 6h6v1h1v1h1v8h-8v-1h-1v-1h-1v-2h1v-1h1v-1h6v-1h-1v-1h-5zm1 6v2h5v-2z",
        'b' => b"m2 2h2v4h6v1h1v1h1v6h-1v1h-1v1h-8zm2 6v6h5v-1h1v-4h-1v-1z",
        'c' => b"m4 6h8v2h-7v1h-1v4h1v1h7v2h-8v-1h-1v-1h-1v-6h1v-1h1z",
        'd' => b"m10 2h2v14h-8v-1h-1v-1h-1v-6h1v-1h1v-1h6zm-5 6v1h-1v4h1v1h5v-6z",
        'e' => b"m4 6h6v1h1v1h1v4h-8v1h1v1h5v2h-6v-1h-1v-1h-1v-6h1v-1h1zm1 2v1h-1v1h6v-1h-1v-1z",
        'f' => b"m8 2h2v2h-1v1h-1v3h2v2h-2v6h-2v-6h-2v-2h2v-4h1v-1h1z",
        'g' =>
            b"m4 6h8v12h-1v1h-1v1h-6v-2h5v-1h1v-1h-6v-1h-1v-1h-1v-6h1v-1h1zm1 2v1h-1v4h1v1h5v-6z",
        'h' => b"m2 2h2v4h6v1h1v1h1v8h-2v-7h-1v-1h-5v8h-2z",
        'i' => b"m6 2h2v2h-2zm-2 4h4v8h2v2h-6v-2h2v-6h-2z",
        'j' => b"m6 2h2v2h-2zm0 4h2v12h-1v1h-1v1h-2v-2h1v-1h1z",
        'k' =>
            b"m4 2h2v8h1v-1h1v-1h1v-1h1v-1h2v2h-1v1h-1v1h-1v2h1v1h1v1h1v2h-2v-1h-1v-1h-1v-1h-1v-1h-1v4h-2z",
        'l' => b"m4 2h4v12h2v2h-6v-2h2v-10h-2z",
        'm' => b"m2 6h4v1h2v-1h2v1h1v1h1v8h-2v-7h-2v7h-2v-7h-1v-1h-1v8h-2z",
        'n' => b"m2 6h8v1h1v1h1v8h-2v-7h-1v-1h-5v8h-2z",
        'o' =>
            b"m4 6h6v1h1v1h1v6h-1v1h-1v1h-6v-1h-1v-1h-1v-6h1v-1h1zm1 2v1h-1v4h1v1h4v-1h1v-4h-1v-1z",
        'p' => b"m2 6h8v1h1v1h1v6h-1v1h-1v1h-6v4h-2zm2 2v6h5v-1h1v-4h-1v-1z",
        'q' => b"m4 6h8v14h-2v-4h-6v-1h-1v-1h-1v-6h1v-1h1zm1 2v1h-1v4h1v1h5v-6z",
        'r' => b"m4 6h2v2h1v-1h1v-1h4v2h-3v1h-1v1h-2v6h-2z",
        _ => b"",
    }
}

fn single_5(c: char) -> &'static [u8]
    ensures { result.now ≡ (letters.letters_5 c).single }
{
    match c {
        's' => b"m4 6h8v2h-7v2h5v1h1v1h1v2h-1v1h-1v1h-8v-2h7v-2h-5v-1h-1v-1h-1v-2h1v-1h1z",
        't' => b"m6 2h2v4h2v2h-2v5h1v1h1v2h-2v-1h-1v-1h-1v-6h-2v-2h2z",
        'u' => b"m2 6h2v7h1v1h5v-8h2v10h-8v-1h-1v-1h-1z",
        'v' =>
            b"m2 6h2v3h1v1h1v3h2v-3h1v-1h1v-3h2v4h-1v1h-1v3h-1v1h-1v1h-2v-1h-1v-1h-1v-3h-1v-1h-1z",
        'w' => b"m2 6h2v7h2v-3h2v3h2v-7h2v8h-1v1h-1v1h-2v-1h-2v1h-2v-1h-1v-1h-1z",
        'x' =>
            b"m2 6h2v1h1v1h1v1h2v-1h1v-1h1v-1h2v2h-1v1h-1v1h-1v2h1v1h1v1h1v2h-2v-1h-1v-1h-1v-1h-2v1h-1v1h-1v1h-2v-2h1v-1h1v-1h1v-2h-1v-1h-1v-1h-1z",
        'y' => b"m2 6h2v7h1v1h5v-8h2v12h-1v1h-1v1h-6v-2h5v-1h1v-1h-6v-1h-1v-1h-1z",
        'z' => b"m2 6h10v2h-2v2h-1v1h-1v1h-1v1h-1v1h6v2h-10v-2h2v-2h1v-1h1v-1h1v-1h1v-1h-6z",
        '£' =>
            b"m6 2h4v1h1v1h1v2h-2v-1h-1v-1h-2v1h-1v3h2v2h-2v4h6v2h-10v-2h2v-4h-2v-2h2v-4h1v-1h1z",
        '¼' => b"m4 2h2v10h-2zm6 8h2v10h-2v-2h-4v-4h1v-1h1v-1h2zm-1 4v1h-1v1h2v-2z",
        '½' => b"m2 2h2v10h-2zm4 8h4v1h1v1h1v2h-1v1h-1v1h-1v1h-1v1h4v2h-6v-4h1v-1h1v-1h1v-2h-3z",
        '¾' =>
            b"m2 2h4v1h1v1h1v2h-1v2h1v2h-1v1h-1v1h-4v-2h3v-2h-3v-2h3v-2h-3zm8 8h2v10h-2v-2h-4v-4h1v-1h1v-1h2zm-1 4v1h-1v1h2v-2z",
        '÷' => b"m6 4h2v2h-2zm-4 4h10v2h-10zm4 4h2v2h-2z",
        '—' => b"m2 8h10v2h-10z",
        '‖' => b"m4 2h2v14h-2zm4 0h2v14h-2z",
        '←' => b"m6 4h2v2h-1v1h-1v1h6v2h-6v1h1v1h1v2h-2v-1h-1v-1h-1v-2h-2v-2h2v-2h1v-1h1z",
        '↑' => b"m6 4h2v2h2v1h1v1h1v2h-2v-1h-1v-1h-1v6h-2v-6h-1v1h-1v1h-2v-2h1v-1h1v-1h2z",
        '→' => b"m6 4h2v1h1v1h1v2h2v2h-2v2h-1v1h-1v1h-2v-2h1v-1h1v-1h-6v-2h6v-1h-1v-1h-1z",
        '■' => b"m2 2h10v14h-10z",
        _ => b"",
    }
}

fn single(c: char) -> &'static [u8]
    ensures { result.now ≡ (letters.letter_drawn c).single }
{
    if c < '4' {
        single_1(c)
    } else if c < 'G' {
        single_2(c)
    } else if c < 'Z' {
        single_3(c)
    } else if c < 's' {
        single_4(c)
    } else {
        single_5(c)
    }
}

fn upper_1(c: char) -> &'static [u8]
    ensures { result.now ≡ (letters.letters_1 c).upper }
{
    match c {
        '!' => b"m6 4h2v16h-2z",
        '"' => b"m4 4h2v12h-2zm4 0h2v12h-2z",
        '#' => b"m4 4h2v8h2v-8h2v8h2v4h-2v4h-2v-4h-2v4h-2v-4h-2v-4h2z",
        '$' =>
            b"m4 4h6v2h1v2h1v4h-2v-2h-1v-2h-1v8h2v2h1v2h-7v-2h-1v-2h-1v-8h1v-2h1zm1 4v2h-1v4h1v2h1v-8z",
        '%' => b"m2 4h4v8h-4zm8 4h2v4h-1v2h-1v2h-1v2h-1v2h-3v-2h1v-2h1v-2h1v-2h1v-2h1z",
        '&' => b"m4 4h2v2h1v2h1v8h-1v4h-4v-4h-1v-8h1v-2h1zm0 6v4h2v-4z",
        '\'' => b"m6 4h2v8h-1v2h-1v2h-2v-4h1v-2h1z",
        '(' => b"m8 4h2v4h-1v2h-1v2h-1v2h-1v6h-2v-8h1v-2h1v-2h1v-2h1z",
        ')' => b"m4 4h2v2h1v2h1v2h1v2h1v8h-2v-6h-1v-2h-1v-2h-1v-2h-1z",
        '*' => b"m6 4h2v8h1v-2h1v-2h2v4h-1v2h-1v2h-2v4h-2v-4h-2v-2h-1v-2h-1v-4h2v2h1v2h1z",
        '+' => b"m6 8h2v8h4v4h-10v-4h4z",
        ',' => b"",
        '-' => b"m4 16h6v4h-6z",
        '.' => b"",
        '/' => b"m10 8h2v4h-1v2h-1v2h-1v2h-1v2h-3v-2h1v-2h1v-2h1v-2h1v-2h1z",
        '0' => b"m6 4h2v2h1v2h1v2h1v2h1v8h-2v-6h-1v-2h-1v-2h-2v2h-1v2h-1v6h-2v-8h1v-2h1v-2h1v-2h1z",
        '1' => b"m6 4h2v16h-2v-8h-2v-4h2z",
        '2' => b"m4 4h6v2h1v2h1v8h-1v2h-1v2h-5v-2h1v-2h3v-2h1v-4h-1v-2h-4v2h-1v2h-2v-4h1v-2h1z",
        '3' => b"m2 4h10v8h-1v2h-1v4h1v2h-5v-4h2v-4h1v-2h1v-2h-8z",
        _ => b"",
    }
}

fn upper_2(c: char) -> &'static [u8]
    ensures { result.now ≡ (letters.letters_2 c).upper }
{
    match c {
        '4' => b"m8 4h2v16h-2v-8h-1v2h-1v2h-1v2h-1v2h-2v-4h1v-2h1v-2h1v-2h1v-2h2z",
        '5' => b"m2 4h10v4h-8v4h6v2h1v2h1v4h-2v-2h-1v-2h-7z",
        '6' => b"m6 4h4v4h-3v2h-1v2h-1v2h-1v2h6v2h1v2h-9v-8h1v-2h1v-2h1v-2h1z",
        '7' => b"m2 4h10v8h-1v2h-1v2h-1v2h-1v2h-3v-2h1v-2h1v-2h1v-2h1v-2h1v-2h-8z",
        '8' => b"m4 4h6v2h1v2h1v8h-1v4h-8v-4h-1v-8h1v-2h1zm1 4v2h-1v4h1v2h4v-2h1v-4h-1v-2z",
        '9' => b"m4 4h6v2h1v2h1v12h-8v-2h-1v-2h-1v-8h1v-2h1zm1 4v2h-1v4h1v2h5v-6h-1v-2z",
        ':' => b"m6 12h2v4h-2z",
        ';' => b"m6 12h2v4h-2z",
        '<' => b"m8 4h2v4h-1v2h-1v2h-1v2h-1v2h-1v4h-3v-4h1v-2h1v-2h1v-2h1v-2h1v-2h1z",
        '=' => b"m2 12h10v4h-10z",
        '>' => b"m4 4h2v2h1v2h1v2h1v2h1v2h1v2h1v4h-3v-4h-1v-2h-1v-2h-1v-2h-1v-2h-1z",
        '?' => b"m4 4h6v2h1v2h1v4h-1v2h-1v2h-1v2h-1v2h-2v-4h1v-2h1v-2h1v-4h-4v2h-1v2h-2v-4h1v-2h1z",
        '@' => b"m4 4h6v2h1v2h1v12h-2v-4h-2v4h-2v-8h4v-2h-1v-2h-4v2h-1v10h-2v-12h1v-2h1z",
        'A' => b"m6 4h2v2h1v2h1v2h1v2h1v8h-2v-6h-1v-2h-1v-2h-2v2h-1v2h-1v6h-2v-8h1v-2h1v-2h1v-2h1z",
        'B' => b"m2 4h8v2h1v2h1v8h-1v4h-9zm2 4v8h5v-2h1v-4h-1v-2z",
        'C' => b"m4 4h6v2h1v2h1v4h-2v-2h-1v-2h-4v2h-1v10h-2v-12h1v-2h1z",
        'D' => b"m2 4h8v2h1v2h1v12h-2v-10h-1v-2h-5v12h-2z",
        'E' => b"m2 4h10v4h-8v8h6v4h-8z",
        'F' => b"m2 4h10v4h-8v8h6v4h-8z",
        _ => b"",
    }
}

fn upper_3(c: char) -> &'static [u8]
    ensures { result.now ≡ (letters.letters_3 c).upper }
{
    match c {
        'G' => b"m4 4h6v2h1v2h1v4h-2v-2h-1v-2h-4v2h-1v10h-2v-12h1v-2h1z",
        'H' => b"m2 4h2v12h6v-12h2v16h-10z",
        'I' => b"m4 4h6v4h-2v12h-2v-12h-2z",
        'J' => b"m10 4h2v16h-2z",
        'K' => b"m2 4h2v12h1v-2h1v-2h1v-2h1v-2h1v-2h1v-2h2v4h-1v2h-1v2h-1v2h-1v2h-1v4h-5z",
        'L' => b"m2 4h2v16h-2z",
        'M' => b"m2 4h2v4h2v2h2v-2h2v-4h2v16h-2v-8h-1v2h-1v6h-2v-6h-1v-2h-1v8h-2z",
        'N' => b"m2 4h2v8h2v2h1v2h1v2h1v2h-3v-2h-1v-2h-1v4h-2zm8 0h2v16h-2z",
        'O' => b"m4 4h6v2h1v2h1v12h-2v-10h-1v-2h-4v2h-1v10h-2v-12h1v-2h1z",
        'P' => b"m2 4h8v2h1v2h1v8h-1v2h-1v2h-8zm2 4v8h5v-2h1v-4h-1v-2z",
        'Q' => b"m4 4h6v2h1v2h1v12h-2v-10h-1v-2h-4v2h-1v10h-2v-12h1v-2h1z",
        'R' => b"m2 4h8v2h1v2h1v8h-1v2h-1v2h-8zm2 4v8h5v-2h1v-4h-1v-2z",
        'S' => b"m4 4h6v2h1v2h1v4h-2v-2h-1v-2h-4v2h-1v4h1v2h5v2h1v2h-7v-2h-1v-2h-1v-8h1v-2h1z",
        'T' => b"m2 4h10v4h-4v12h-2v-12h-4z",
        'U' => b"m2 4h2v16h-2zm8 0h2v16h-2z",
        'V' => b"m2 4h2v10h1v2h1v4h-2v-2h-1v-2h-1zm8 0h2v12h-1v2h-1v2h-2v-4h1v-2h1z",
        'W' => b"m2 4h2v16h-2zm8 0h2v16h-2zm-4 12h2v4h-2z",
        'X' => b"m2 4h2v6h1v2h1v2h2v-2h1v-2h1v-6h2v8h-1v2h-1v2h-1v4h-4v-4h-1v-2h-1v-2h-1z",
        'Y' =>
            b"m2 4h2v6h1v2h1v2h2v-2h1v-2h1v-6h2v8h-1v2h-1v2h-1v2h-1v2h-2v-2h-1v-2h-1v-2h-1v-2h-1z",
        _ => b"",
    }
}

fn upper_4(c: char) -> &'static [u8]
    ensures { result.now ≡ (letters.letters_4 c).upper }
{
    match c {
        'Z' => b"m2 4h10v8h-1v2h-1v2h-1v2h-1v2h-3v-2h1v-2h1v-2h1v-2h1v-2h1v-2h-8z",
        'a' => b"m4 12h6v2h1v2h1v4h-2v-2h-1v-2h-5z",
        'b' => b"m2 4h2v8h6v2h1v2h1v4h-2v-2h-1v-2h-5v4h-2z",
        'c' => b"m4 12h8v4h-7v2h-1v2h-2v-4h1v-2h1z",
        'd' => b"m10 4h2v16h-2v-4h-5v2h-1v2h-2v-4h1v-2h1v-2h6z",
        'e' => b"m4 12h6v2h1v2h1v4h-2v-2h-1v-2h-4v2h-1v2h-2v-4h1v-2h1z",
        'f' => b"m8 4h2v4h-1v2h-1v6h2v4h-6v-4h2v-8h1v-2h1z",
        'g' => b"m4 12h8v8h-2v-4h-5v2h-1v2h-2v-4h1v-2h1z",
        'h' => b"m2 4h2v8h6v2h1v2h1v4h-2v-2h-1v-2h-5v4h-2z",
        'i' => b"m6 4h2v4h-2zm-2 8h4v8h-2v-4h-2z",
        'j' => b"m6 4h2v4h-2zm0 8h2v8h-2z",
        'k' => b"m4 4h2v16h-2zm6 8h2v4h-1v2h-1v2h-3v-2h1v-2h1v-2h1z",
        'l' => b"m4 4h4v16h-2v-12h-2z",
        'm' => b"m2 12h4v2h2v-2h2v2h1v2h1v4h-2v-2h-2v2h-2v-2h-1v-2h-1v4h-2z",
        'n' => b"m2 12h8v2h1v2h1v4h-2v-2h-1v-2h-5v4h-2z",
        'o' => b"m4 12h6v2h1v2h1v4h-2v-2h-1v-2h-4v2h-1v2h-2v-4h1v-2h1z",
        'p' => b"m2 12h8v2h1v2h1v4h-2v-2h-1v-2h-5v4h-2z",
        'q' => b"m4 12h8v8h-2v-4h-5v2h-1v2h-2v-4h1v-2h1z",
        'r' => b"m4 12h2v4h1v-2h1v-2h4v4h-3v2h-1v2h-4z",
        _ => b"",
    }
}

fn upper_5(c: char) -> &'static [u8]
    ensures { result.now ≡ (letters.letters_5 c).upper }
{
    match c {
        's' => b"m4 12h8v4h-7v4h-3v-4h1v-2h1z",
        't' => b"m6 4h2v8h2v4h-2v4h-2v-4h-2v-4h2z",
        'u' => b"m2 12h2v8h-2zm8 0h2v8h-2z",
        'v' => b"m2 12h2v6h1v2h-3zm8 0h2v8h-3v-2h1z",
        'w' => b"m2 12h2v8h-2zm8 0h2v8h-2z",
        'x' => b"m2 12h2v2h1v2h1v2h2v-2h1v-2h1v-2h2v4h-1v2h-1v2h-6v-2h-1v-2h-1z",
        'y' => b"m2 12h2v8h-2zm8 0h2v8h-2z",
        'z' => b"m2 12h10v4h-2v4h-3v-2h1v-2h-6z",
        '£' => b"m6 4h4v2h1v2h1v4h-2v-2h-1v-2h-2v2h-1v6h2v4h-6v-4h2v-8h1v-2h1z",
        '¼' => b"m4 4h2v16h-2z",
        '½' => b"m2 4h2v16h-2z",
        '¾' => b"m2 4h4v2h1v2h1v4h-1v4h1v4h-3v-4h-3v-4h3v-4h-3z",
        '÷' => b"m6 8h2v4h-2zm-4 8h10v4h-10z",
        '—' => b"m2 16h10v4h-10z",
        '‖' => b"m4 4h2v16h-2zm4 0h2v16h-2z",
        '←' => b"m6 8h2v4h-1v2h-1v2h6v4h-10v-4h2v-4h1v-2h1z",
        '↑' => b"m6 8h2v4h2v2h1v2h1v4h-2v-2h-1v-2h-1v4h-2v-4h-1v2h-1v2h-2v-4h1v-2h1v-2h2z",
        '→' => b"m6 8h2v2h1v2h1v4h2v4h-10v-4h6v-2h-1v-2h-1z",
        '■' => b"m2 4h10v16h-10z",
        _ => b"",
    }
}

fn upper(c: char) -> &'static [u8]
    ensures { result.now ≡ (letters.letter_drawn c).upper }
{
    if c < '4' {
        upper_1(c)
    } else if c < 'G' {
        upper_2(c)
    } else if c < 'Z' {
        upper_3(c)
    } else if c < 's' {
        upper_4(c)
    } else {
        upper_5(c)
    }
}

fn lower_1(c: char) -> &'static [u8]
    ensures { result.now ≡ (letters.letters_1 c).lower }
{
    match c {
        '!' => b"m6 0h2v4h-2zm0 8h2v4h-2z",
        '"' => b"",
        '#' => b"m2 0h10v4h-2v8h-2v-8h-2v8h-2v-8h-2z",
        '$' => b"m6 0h2v8h1v-2h1v-4h-1v-2h3v8h-1v2h-1v2h-6v-2h-1v-2h-1v-4h2v2h1v2h1z",
        '%' => b"m4 0h3v2h-1v2h-1v2h-1v2h-2v-4h1v-2h1zm4 4h4v8h-4z",
        '&' => b"m2 0h6v2h2v-2h2v4h-1v4h1v4h-2v-2h-2v2h-4v-2h-1v-2h-1zm2 2v4h1v2h2v-4h-1v-2z",
        '\'' => b"",
        '(' => b"m4 0h2v2h1v2h1v2h1v2h1v4h-2v-2h-1v-2h-1v-2h-1v-2h-1z",
        ')' => b"m8 0h2v4h-1v2h-1v2h-1v2h-1v2h-2v-4h1v-2h1v-2h1v-2h1z",
        '*' => b"m4 0h6v2h1v2h1v4h-2v-2h-1v-2h-1v8h-2v-8h-1v2h-1v2h-2v-4h1v-2h1z",
        '+' => b"m6 0h2v8h-2z",
        ',' => b"m6 4h2v8h-1v2h-1v2h-2v-4h1v-2h1z",
        '-' => b"",
        '.' => b"m6 8h2v4h-2z",
        '/' => b"m4 0h3v2h-1v2h-1v2h-1v2h-2v-4h1v-2h1z",
        '0' =>
            b"m2 0h2v2h1v2h1v2h2v-2h1v-2h1v-2h2v4h-1v2h-1v2h-1v2h-1v2h-2v-2h-1v-2h-1v-2h-1v-2h-1z",
        '1' => b"m6 0h2v8h2v4h-6v-4h2z",
        '2' => b"m4 0h3v2h-1v2h-1v2h-1v2h8v4h-10v-8h1v-2h1z",
        '3' => b"m9 0h3v8h-1v2h-1v2h-6v-2h-1v-2h-1v-4h2v2h1v2h4v-2h1v-4h-1z",
        _ => b"",
    }
}

fn lower_2(c: char) -> &'static [u8]
    ensures { result.now ≡ (letters.letters_2 c).lower }
{
    match c {
        '4' => b"m2 0h10v4h-2v8h-2v-8h-6z",
        '5' => b"m10 0h2v8h-1v2h-1v2h-6v-2h-1v-2h-1v-4h2v2h1v2h4v-2h1z",
        '6' => b"m2 0h2v6h1v2h4v-2h1v-4h-1v-2h3v8h-1v2h-1v2h-6v-2h-1v-2h-1z",
        '7' => b"m4 0h3v2h-1v10h-2z",
        '8' => b"m2 0h3v2h-1v4h1v2h4v-2h1v-4h-1v-2h3v8h-1v2h-1v2h-6v-2h-1v-2h-1z",
        '9' => b"m10 0h2v4h-1v2h-1v2h-1v2h-1v2h-4v-4h3v-2h1v-2h1v-2h1z",
        ':' => b"m6 8h2v4h-2z",
        ';' => b"m6 4h2v8h-1v2h-1v2h-2v-4h1v-2h1z",
        '<' => b"m3 0h3v2h1v2h1v2h1v2h1v4h-2v-2h-1v-2h-1v-2h-1v-2h-1v-2h-1z",
        '=' => b"m2 0h10v4h-10z",
        '>' => b"m8 0h3v2h-1v2h-1v2h-1v2h-1v2h-1v2h-2v-4h1v-2h1v-2h1v-2h1z",
        '?' => b"m6 0h2v4h-2zm0 8h2v4h-2z",
        '@' => b"m2 0h2v6h1v2h5v4h-6v-2h-1v-2h-1zm4 0h6v4h-6z",
        'A' => b"m2 0h10v12h-2v-8h-6v8h-2z",
        'B' => b"m2 0h2v8h5v-2h1v-4h-1v-2h3v8h-1v2h-1v2h-8z",
        'C' => b"m2 0h2v6h1v2h4v-2h1v-2h2v4h-1v2h-1v2h-6v-2h-1v-2h-1z",
        'D' => b"m2 0h2v8h5v-2h1v-6h2v8h-1v2h-1v2h-8z",
        'E' => b"m2 0h2v8h8v4h-10z",
        'F' => b"m2 0h2v12h-2z",
        _ => b"",
    }
}

fn lower_3(c: char) -> &'static [u8]
    ensures { result.now ≡ (letters.letters_3 c).lower }
{
    match c {
        'G' => b"m2 0h2v6h1v2h5v-4h-2v-4h4v12h-8v-2h-1v-2h-1z",
        'H' => b"m2 0h2v12h-2zm8 0h2v12h-2z",
        'I' => b"m6 0h2v8h2v4h-6v-4h2z",
        'J' => b"m10 0h2v8h-1v2h-1v2h-6v-2h-1v-2h-1v-4h2v2h1v2h4v-2h1z",
        'K' => b"m2 0h2v12h-2zm3 0h3v2h1v2h1v2h1v2h1v4h-2v-2h-1v-2h-1v-2h-1v-2h-1v-2h-1z",
        'L' => b"m2 0h2v8h8v4h-10z",
        'M' => b"m2 0h2v12h-2zm8 0h2v12h-2z",
        'N' => b"m2 0h2v12h-2zm5 0h5v12h-2v-8h-2v-2h-1z",
        'O' => b"m2 0h2v6h1v2h4v-2h1v-6h2v8h-1v2h-1v2h-6v-2h-1v-2h-1z",
        'P' => b"m2 0h2v12h-2z",
        'Q' => b"m2 0h2v6h1v2h2v-4h-1v-4h2v2h2v-2h2v4h-1v4h1v4h-2v-2h-2v2h-4v-2h-1v-2h-1z",
        'R' => b"m2 0h2v12h-2zm4 0h2v2h1v2h1v2h1v2h1v4h-2v-2h-1v-2h-1v-2h-1v-2h-1z",
        'S' => b"m9 0h3v8h-1v2h-1v2h-6v-2h-1v-2h-1v-4h2v2h1v2h4v-2h1v-4h-1z",
        'T' => b"m6 0h2v12h-2z",
        'U' => b"m2 0h2v6h1v2h4v-2h1v-6h2v8h-1v2h-1v2h-6v-2h-1v-2h-1z",
        'V' => b"m4 0h2v2h2v-2h2v4h-1v2h-1v6h-2v-6h-1v-2h-1z",
        'W' => b"m2 0h2v6h2v-6h2v6h2v-6h2v8h-1v2h-1v2h-2v-2h-2v2h-2v-2h-1v-2h-1z",
        'X' => b"m4 0h6v2h1v2h1v8h-2v-6h-1v-2h-1v-2h-2v2h-1v2h-1v6h-2v-8h1v-2h1z",
        'Y' => b"m6 0h2v12h-2z",
        _ => b"",
    }
}

fn lower_4(c: char) -> &'static [u8]
    ensures { result.now ≡ (letters.letters_4 c).lower }
{
    match c {
        'Z' => b"m4 0h3v2h-1v2h-1v2h-1v2h8v4h-10v-8h1v-2h1z",
        'a' => b"m4 0h8v12h-8v-2h-1v-2h-1v-4h1v-2h1zm1 4v4h5v-4z",
        'b' => b"m2 0h2v8h5v-2h1v-6h2v8h-1v2h-1v2h-8z",
        'c' => b"m2 0h2v6h1v2h7v4h-8v-2h-1v-2h-1z",
        'd' => b"m2 0h2v6h1v2h5v-8h2v12h-8v-2h-1v-2h-1z",
        'e' => b"m2 0h10v4h-8v2h1v2h5v4h-6v-2h-1v-2h-1z",
        'f' => b"m6 0h2v12h-2z",
        'g' => b"m2 0h2v6h1v2h5v-8h2v16h-1v2h-1v2h-6v-4h5v-2h1v-2h-6v-2h-1v-2h-1z",
        'h' => b"m2 0h2v12h-2zm8 0h2v12h-2z",
        'i' => b"m6 0h2v8h2v4h-6v-4h2z",
        'j' => b"m6 0h2v16h-1v2h-1v2h-2v-4h1v-2h1z",
        'k' => b"m4 0h5v4h1v2h1v2h1v4h-2v-2h-1v-2h-1v-2h-1v-2h-1v8h-2z",
        'l' => b"m6 0h2v8h2v4h-6v-4h2z",
        'm' => b"m2 0h2v12h-2zm4 0h2v12h-2zm4 0h2v12h-2z",
        'n' => b"m2 0h2v12h-2zm8 0h2v12h-2z",
        'o' => b"m2 0h2v6h1v2h4v-2h1v-6h2v8h-1v2h-1v2h-6v-2h-1v-2h-1z",
        'p' => b"m2 0h2v8h5v-2h1v-6h2v8h-1v2h-1v2h-6v8h-2z",
        'q' => b"m2 0h2v6h1v2h5v-8h2v20h-2v-8h-6v-2h-1v-2h-1z",
        'r' => b"m4 0h2v12h-2z",
        _ => b"",
    }
}

fn lower_5(c: char) -> &'static [u8]
    ensures { result.now ≡ (letters.letters_5 c).lower }
{
    match c {
        's' => b"m3 0h7v2h1v2h1v4h-1v2h-1v2h-8v-4h7v-4h-5v-2h-1z",
        't' => b"m6 0h2v6h1v2h1v4h-2v-2h-1v-2h-1z",
        'u' => b"m2 0h2v6h1v2h5v-8h2v12h-8v-2h-1v-2h-1z",
        'v' => b"m3 0h3v6h2v-6h3v2h-1v6h-1v2h-1v2h-2v-2h-1v-2h-1v-6h-1z",
        'w' => b"m2 0h2v6h2v-6h2v6h2v-6h2v8h-1v2h-1v2h-2v-2h-2v2h-2v-2h-1v-2h-1z",
        'x' => b"m5 0h4v4h1v2h1v2h1v4h-2v-2h-1v-2h-1v-2h-2v2h-1v2h-1v2h-2v-4h1v-2h1v-2h1z",
        'y' => b"m2 0h2v6h1v2h5v-8h2v16h-1v2h-1v2h-6v-4h5v-2h1v-2h-6v-2h-1v-2h-1z",
        'z' => b"m6 0h3v2h-1v2h-1v2h-1v2h6v4h-10v-4h2v-4h1v-2h1z",
        '£' => b"m4 0h2v8h6v4h-10v-4h2z",
        '¼' => b"m4 0h2v4h-2zm6 0h2v20h-2v-4h-4v-8h1v-2h1v-2h2zm-1 8v2h-1v2h2v-4z",
        '½' => b"m2 0h2v4h-2zm4 0h4v2h1v2h1v4h-1v2h-1v2h-1v2h-1v2h4v4h-6v-8h1v-2h1v-2h1v-4h-3z",
        '¾' => b"m2 0h5v2h-1v2h-4zm8 0h2v20h-2v-4h-4v-8h1v-2h1v-2h2zm-1 8v2h-1v2h2v-4z",
        '÷' => b"m6 4h2v4h-2z",
        '—' => b"",
        '‖' => b"m4 0h2v12h-2zm4 0h2v12h-2z",
        '←' => b"m4 0h2v2h1v2h1v4h-2v-2h-1v-2h-1z",
        '↑' => b"m6 0h2v8h-2z",
        '→' => b"m8 0h2v4h-1v2h-1v2h-2v-4h1v-2h1z",
        '■' => b"m2 0h10v12h-10z",
        _ => b"",
    }
}

fn lower(c: char) -> &'static [u8]
    ensures { result.now ≡ (letters.letter_drawn c).lower }
{
    if c < '4' {
        lower_1(c)
    } else if c < 'G' {
        lower_2(c)
    } else if c < 'Z' {
        lower_3(c)
    } else if c < 's' {
        lower_4(c)
    } else {
        lower_5(c)
    }
}

// The outline of a character, from the left upper corner of its cell; of a half its own.
pub fn outline(height: Height, c: char) -> &'static [u8]
    ensures { result.now ≡ spec.outline height c }
{
    match height {
        Height::Single => single(c),
        Height::Upper => upper(c),
        Height::Lower => lower(c),
    }
}
