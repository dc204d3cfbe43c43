/// A bar across a picture, by places from 0 to 100,000 of its width.
#[derive(Clone, Copy, Debug)]
pub struct Span {
    /// Where it begins.
    pub x: u32,
    /// How wide it is.
    pub width: u32,
}
