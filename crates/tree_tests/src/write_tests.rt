//! Trees that are stored into: how they lie in their rows, and how few words of rows a store changes.

mod bench;
mod changes;
mod layout;
mod row;
