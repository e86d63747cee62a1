/// The destination of a way without its frame, in one byte.
#[derive(Clone, Copy)]
pub enum Aim {
    /// The frame doesn't offer the way.
    NotOffered,
    /// The frame that is sought is open to the caller.
    Found,
    /// The base has the frame and it isn't open to the caller.
    Closed,
    /// The base lacks the frame.
    Missing,
    /// The base lacks the frame of a route's page, and the page is listed as outside.
    Outside,
}
