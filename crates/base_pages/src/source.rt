use lint::WrittenFrames;

/// The text of a base: the name of its file, and where it writes the frames. The text itself isn't needed.
#[derive(Drop)]
pub struct BaseSource<'a> {
    pub name: &'a str,
    /// The lines of the base's frames. Of a frame whose line isn't known the page says none.
    pub lines: &'a WrittenFrames,
}
