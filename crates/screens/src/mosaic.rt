//! The mosaics: blocks of 2 × 3.

ghost use Rattle.std.specs.Prelude.{◌≡◌, ◌<◌};
ghost use Rattle.screens.specs.Table as spec;

/// Which of the six blocks of a mosaic are there: at least one, since only [`Sextants::new`] makes one. Its number is the sum
/// of 1 top left, 2 top right, 4 and 8 the middle, 16 and 32 the bottom.
#[derive(Debug, Clone, Copy, PartialEq, Eq)]
pub struct Sextants {
    six: u8,
}

impl Sextants {
    /// The blocks of a number; `None` of 0 and above 63.
    pub fn new(six: u8) -> Option<Sextants>
        ensures { result ≡ spec.sextants_of six }
    {
        if six > 0 && six < 64 {
            Some(Sextants { six })
        } else {
            None
        }
    }

    /// The number, 1 to 63.
    pub fn get(self) -> u8
        ensures { result ≡ spec.six self }
    {
        self.six
    }

    /// The character: one of the half and full blocks, or one from U+1FB00 to U+1FB3B.
    pub fn character(self) -> char
        ensures { result ≡ spec.sextants_char (spec.six self) }
    {
        match self.get() {
            21 => '▌',
            42 => '▐',
            63 => '█',
            six => {
                let past = (six > 21) as u32 + (six > 42) as u32;
                char::from_u32(0x1faff + six as u32 - past).unwrap_or(' ')
            }
        }
    }
}

/// A mosaic.
#[derive(Debug, Clone, Copy, PartialEq, Eq)]
pub struct Mosaic {
    /// Its blocks.
    pub sextants: Sextants,
    /// Whether its blocks are apart.
    pub separated: bool,
}

impl Mosaic {
    /// The mosaic of a code from 20 to 3F or 60 to 7F; `None` of 20, which has no blocks. Other codes mean nothing here.
    pub fn of(code: u8, separated: bool) -> Option<Mosaic>
        ensures { result ≡ spec.mosaic_of code separated }
    {
        let sextants = Sextants::new(code % 32 + code / 64 * 32)?;
        Some(Mosaic {
            sextants,
            separated,
        })
    }
}

/// Whether a code is a mosaic if mosaics are on.
pub fn is_mosaic(code: u8) -> bool
    ensures { result ≡ spec.is_mosaic code }
{
    matches!(code, 0x20..=0x3f | 0x60..=0x7f)
}
