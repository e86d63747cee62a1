// What a search back makes of a place.
#[derive(Clone, Copy)]
pub enum Turn {
    Found,
    Stop,
    Continue,
}
