//! Tests of the tree and of the words that readers share with the writer: a crate of tests alone, of what no clause says.
//!
//! A contract of a table speaks of what one caller is told. It doesn't say that memory enough makes a table, that a row is in use while a
//! snapshot needs it and free two scans later, or that a call ends that waits for a reader: so a table of nodes and one of rows under the
//! lock are gone through by hand. Nor does it say in which rows a tree lies, how high it is, or how many words of rows a store changes: so
//! trees of areas are read place by place. And no clause speaks of bytes: a counter of steps has none.
#![tactic(auto)]

#[cfg(test)]
mod search_tests;
#[cfg(test)]
mod seat_tests;
#[cfg(test)]
mod step_tests;
#[cfg(test)]
mod table_tests;
#[cfg(test)]
mod write_tests;
