//! Which slots of a table are free, taken, or left: a slot that left is free again once no walk can be in its tree.
#![tactic(auto)]

mod leaving;
mod slots;

pub use leaving::Leaving;
pub use slots::AreaSlots;
