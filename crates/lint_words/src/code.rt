ghost use Rattle.std.specs.Prelude.{◌≡◌};
ghost use Rattle.lint_words.specs.Codes.{code_word, code_name};

/// What kind of finding it is.
#[derive(Debug, Clone, Copy, PartialEq, Eq)]
pub enum Code {
    TooLong,
    NotToml,
    UnknownKey,
    Absent,
    WrongKind,
    Range,
    BodyAndRows,
    RowTooLong,
    RowCode,
    BadFrame,
    TooMany,
    BodyTooLong,
    NextAfterZ,
    Duplicate,
    OutsideInside,
    EntryMissing,
    EntryClosed,
    Price,
    Touches,
    Missing,
    Closed,
    NoReturn,
    Unreached,
    /// A row that the double height of the row above hides.
    Hidden,
    /// A line end in a body that is a line feed alone.
    LineEnd,
    /// An escape that is shown as it is written.
    Escape,
    /// A line of a menu whose digit has no route.
    Menu,
    /// A closed frame to which no way leads.
    Unsought,
}

impl Code {
    /// The code as it is printed first, as `X6`; of a finding of the audit a word in capitals, as `PRICE`.
    pub fn word(self) -> &'static str
        ensures { result.now ≡ code_word self }
    {
        match self {
            Code::TooLong => "X1",
            Code::NotToml => "X2",
            Code::UnknownKey => "X3",
            Code::Absent => "X4",
            Code::WrongKind => "X5",
            Code::Range => "X6",
            Code::BodyAndRows => "X7",
            Code::RowTooLong => "X8",
            Code::RowCode => "X9",
            Code::BadFrame => "I2",
            Code::TooMany => "B4",
            Code::BodyTooLong => "B5",
            Code::NextAfterZ => "B3",
            Code::Duplicate => "B1",
            Code::OutsideInside => "B2",
            Code::EntryMissing => "ENTRYMISSING",
            Code::EntryClosed => "ENTRYCLOSED",
            Code::Price => "PRICE",
            Code::Touches => "TOUCHES",
            Code::Missing => "MISSING",
            Code::Closed => "CLOSED",
            Code::NoReturn => "NORETURN",
            Code::Unreached => "UNREACHED",
            Code::Hidden => "HIDDEN",
            Code::LineEnd => "LINEEND",
            Code::Escape => "ESCAPE",
            Code::Menu => "MENU",
            Code::Unsought => "UNSOUGHT",
        }
    }

    /// The name that is printed after the code, as `Range`; empty if the code is a word itself.
    pub fn name(self) -> &'static str
        ensures { result.now ≡ code_name self }
    {
        match self {
            Code::TooLong => "TooLong",
            Code::NotToml => "NotToml",
            Code::UnknownKey => "UnknownKey",
            Code::Absent => "Absent",
            Code::WrongKind => "WrongKind",
            Code::Range => "Range",
            Code::BodyAndRows => "BodyAndRows",
            Code::RowTooLong => "RowTooLong",
            Code::RowCode => "RowCode",
            Code::BadFrame => "BadFrame",
            Code::TooMany => "TooMany",
            Code::BodyTooLong => "BodyTooLong",
            Code::NextAfterZ => "NextAfterZ",
            Code::Duplicate => "Duplicate",
            Code::OutsideInside => "OutsideInside",
            _ => "",
        }
    }
}
