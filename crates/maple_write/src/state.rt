//! The state of a store, as `struct ma_wr_state` of Linux' `lib/maple_tree.c`: where it is in the tree, and what it puts there.

use crate::descent::Descent;
use crate::rows::FewItems;

/// What replaces items of a level: at most three items beside each other, the page where they begin, and the page where they end.
#[derive(Drop)]
pub(crate) struct Replacement {
    pub(crate) begin: u64,
    pub(crate) end: u64,
    pub(crate) items: FewItems,
}

/// A store at a level, which is counted from the entries up: the way down the old tree, the first page of the store, and what replaces
/// the level's items from there on.
#[derive(Drop)]
pub(crate) struct WriteState<'a> {
    pub(crate) descent: &'a Descent,
    pub(crate) level: u32,
    pub(crate) lo: u64,
    pub(crate) replacement: Replacement,
}
