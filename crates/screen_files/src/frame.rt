use frame_records::Pence;
use page_ids::FrameId;

/// A frame that shows a screen.
#[derive(Debug, Clone, Copy, PartialEq, Eq)]
pub struct ScreenFrame {
    /// Its id.
    pub id: FrameId,
    /// Its price, if row 0 shows one.
    pub price: Option<Pence>,
    /// The 960 codes of the screen.
    pub codes: [u8; 960],
}
