//! What is called round each operation of a thread.

use std::sync::Wait;
use std::thread::Threads;

/// Is called round each operation of a thread. It may wait, as for another thread's turn, and has no part
/// in any result.
pub trait Gate: Sync {
    /// Is called before the operation on this line of the trace, counted from 1.
    fn before<R: Threads + Wait + Sync>(&self, rt: &R, line: u64);

    /// Is called after the operation on this line of the trace, counted from 1.
    fn after<R: Threads + Wait + Sync>(&self, rt: &R, line: u64);
}

/// The gate that does nothing.
#[derive(Clone, Copy, Debug, PartialEq, Eq, Default)]
pub struct PlainGate;

impl Gate for PlainGate {
    fn before<R: Threads + Wait + Sync>(&self, _rt: &R, _line: u64) {}

    fn after<R: Threads + Wait + Sync>(&self, _rt: &R, _line: u64) {}
}
