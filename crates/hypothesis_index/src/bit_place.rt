/// A bit of a word of 64 bits. Both count from 0, and bit 0 is the least one.
#[derive(Clone, Copy, Debug, PartialEq, Eq)]
pub struct BitPlace {
    pub word: u32,
    pub bit: u32,
}
