/// A slot of the lock table by its number.
#[derive(Clone, Copy, Debug, PartialEq, Eq)]
pub struct Slot(pub u32);

/// A row of the node table by its number.
#[derive(Clone, Copy, Debug, PartialEq, Eq)]
pub struct Row(pub u32);
