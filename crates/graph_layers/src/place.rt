/// Where a box stands in the picture: its upper left corner, in pixels.
#[derive(Clone, Copy, Debug)]
pub struct Place {
    /// How far to the right.
    pub x: u32,
    /// How far down.
    pub y: u32,
}
