//! Who watches the operations of a pass.

use io_edge::Gate;
use std::sync::Wait;
use std::thread::Threads;

/// Is told of each line before its operation and after it. It has no part in any result.
pub trait Watcher<R: Wait> {
    /// The operation on this line of the trace, counted from 1, comes next.
    fn before(&self, rt: &R, line: u64);

    /// The operation on this line of the trace, counted from 1, was made, or memory ran out in it.
    fn after(&self, rt: &R, line: u64);
}

/// Nobody is told.
#[derive(Clone, Copy, Debug)]
pub struct NoWatcher;

impl<R: Wait> Watcher<R> for NoWatcher {
    fn before(&self, _rt: &R, _line: u64) {}

    fn after(&self, _rt: &R, _line: u64) {}
}

/// A gate is told, which may hold the pass.
#[derive(Drop)]
pub struct GateWatcher<'a, G: Gate>(pub &'a G);

impl<'a, R: Threads + Wait + Sync, G: Gate> Watcher<R> for GateWatcher<'a, G> {
    fn before(&self, rt: &R, line: u64) {
        self.0.before(rt, line);
    }

    fn after(&self, rt: &R, line: u64) {
        self.0.after(rt, line);
    }
}
