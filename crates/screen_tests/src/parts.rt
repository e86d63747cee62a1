use screens::{Colour, Glyph, Height, Look, Mosaic, Sextants, Shown, character};
use std::test::Fail;
use test_support::{same, same_in};

// Sums of blocks, and their characters: below 21, between 21 and 42, above 42.
const SEXTANTS: [(u8, char); 9] = [
    (1, '\u{1FB00}'),
    (20, '\u{1FB13}'),
    (21, '\u{258C}'),
    (22, '\u{1FB14}'),
    (41, '\u{1FB27}'),
    (42, '\u{2590}'),
    (43, '\u{1FB28}'),
    (62, '\u{1FB3B}'),
    (63, '\u{2588}'),
];

#[test]
fn sextants_have_one_to_six_blocks() -> Result<(), Fail> {
    for (number, wanted) in SEXTANTS {
        let found = Sextants::new(number).map(|blocks| (blocks.get(), blocks.character()));
        same_in(number, found, Some((number, wanted)))?;
    }
    same(Sextants::new(0), None)?;
    same(Sextants::new(64), None)
}

#[test]
fn a_mosaic_has_the_low_five_bits_and_bit_6_of_its_code() -> Result<(), Fail> {
    for (code, wanted) in [
        (0x20, None),
        (0x3f, Some(31)),
        (0x60, Some(32)),
        (0x6a, Some(42)),
        (0x7f, Some(63)),
    ] {
        let found = Mosaic::of(code, true);
        same_in(
            code,
            found.map(|mosaic| (mosaic.sextants.get(), mosaic.separated)),
            wanted.map(|six| (six, true)),
        )?;
    }
    Ok(())
}

#[test]
fn colours_have_the_last_digits_of_their_attributes() -> Result<(), Fail> {
    for number in 0..8 {
        same(Colour::of(number).number(), number)?;
    }
    same(Colour::of(1), Colour::Red)?;
    same(Colour::of(6), Colour::Cyan)?;
    same(Colour::of(8), Colour::Black)
}

#[test]
fn what_is_no_character_is_a_space() -> Result<(), Fail> {
    for (code, wanted) in [(0x1f, ' '), (0x20, ' '), (0x7a, 'z'), (0x80, ' ')] {
        same_in(code, character(code), wanted)?;
    }
    Ok(())
}

fn letter(height: Height, concealed: bool) -> Look {
    Look {
        glyph: Glyph::Char('A'),
        foreground: Colour::Red,
        background: Colour::Blue,
        flash: true,
        concealed,
        height,
    }
}

#[test]
fn of_a_concealed_or_blank_cell_the_background_shows() -> Result<(), Fail> {
    let open = letter(Height::Single, false);
    same(open.shown(), Shown::All(open))?;
    same(
        letter(Height::Single, true).shown(),
        Shown::Ground(Colour::Blue),
    )?;
    same(Look::BLANK.shown(), Shown::Ground(Colour::Black))?;
    let block = Glyph::of(Mosaic::of(0x21, false));
    same(block.is_space(), false)?;
    same(Glyph::of(None).is_space(), true)
}

#[test]
fn below_an_upper_half_is_its_lower_half_and_else_a_space() -> Result<(), Fail> {
    let mut look = letter(Height::Upper, true);
    look.go_below();
    same(look, letter(Height::Lower, true))?;
    look.go_below();
    let mut wanted = letter(Height::Single, true);
    wanted.glyph = Glyph::Char(' ');
    same(look, wanted)
}
