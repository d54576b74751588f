/// Why no slot was taken. The map is then as it was.
#[derive(Clone, Copy, Debug, PartialEq, Eq)]
pub enum TakeFault {
    /// No slot of the boundary is left.
    Full,
    /// A table couldn't grow. The map takes all its memory when it is made, and so never answers this.
    NoMemory,
}
