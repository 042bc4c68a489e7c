/// A slot that left.
#[derive(Clone, Copy, Debug, PartialEq, Eq)]
pub struct Leaving {
    pub slot: u32,
    /// The tree that it left with.
    pub tree: u64,
}
