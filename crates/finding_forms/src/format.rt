/// How findings are printed.
#[derive(Debug, Clone, Copy, PartialEq, Eq)]
pub enum Format {
    /// The line of [`Format::Line`], then the line of the text and carets below the span.
    Full,
    /// [`Format::Full`] in the colours of a terminal (SGR of ECMA-48): the place is bold, the level and the carets are red or yellow, and
    /// the lines' numbers are blue.
    Coloured,
    /// `PATH:LINE:COLUMN: error: CODE NAME: MESSAGE; HINT`.
    Line,
    /// An object of JSON on one line: `code`, `column`, `end_column`, `end_line`, `file`, `fix`, `frame`, `hint`, `key`, `keys`,
    /// `level`, `line` and `message`, of which `fix`, `frame`, `hint`, `key` and `keys` may be null.
    Json,
    /// A workflow command of GitHub: `::error file=PATH,line=..,endLine=..,col=..,endColumn=..,title=CODE NAME::MESSAGE; HINT`.
    Github,
}
