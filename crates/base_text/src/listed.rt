use frame_records::Frame;

/// A frame of a text, with the index of its table, from 0.
#[derive(Debug, Drop)]
pub struct Listed {
    pub frame: Frame,
    pub table: usize,
}
