/// How `list` prints a frame.
#[derive(Debug, Clone, Copy, PartialEq, Eq)]
pub enum ListForm {
    /// `FRAME id RANK n PRICE n GROUP n SCRIPT keys`, or `UNREACHED id PRICE n GROUP n`.
    Line,
    /// An object of JSON on one line: `frame`, `reached`, `rank`, `price`, `group` and `script`. A rank, a group or a script that
    /// there isn't is null; the entry frame's script is empty. If the entry frame isn't found: `frame` and `fault`.
    Json,
}
