//! A lock round a value, as the kernel's `mmap_lock` lies round the state of an address space: one caller at a time has
//! the value. What the value's type keeps holds each time the lock is taken. A caller that has the lock can't take it again, and
//! how often it takes it is counted, for contracts alone.
#![tactic(auto)]

ghost use Rattle.std.specs.Prelude.{ℕ, ◌≡◌, ◌+◌};
ghost use Rattle.std.specs.Borrow.{sem};
ghost use Rattle.std.specs.Io.BufRead.{Rests};
ghost use Rattle.std.specs.Sync.Mutex.{mutex_guard_value};

use std::marker::PhantomData;
use std::sync::{Mutex, MutexGuard, Wait};

/// What says that its owner doesn't have a lock, and counts how often it was lent for a take.
pub trait CountsTakes {
    ghost takes: { Self → ℕ };

    /// Counts one take.
    fn count_take(&mut self)
        ensures { Self.takes self.new ≡ Self.takes self.old + 1 };
}

/// A lock round a value. Nothing else reaches the value while the lock stands. Each caller owns one `U`, which says that it
/// doesn't have the lock.
#[derive(Drop)]
pub struct MmapLock<T, U> {
    value: Mutex<T>,
    callers: PhantomData<U>,
}

/// A caller's `U`, lent for one take.
#[derive(Drop)]
pub struct Lent<'a, U> {
    by: &'a U,
}

/// The lock, taken. It is released when the guard is dropped.
#[derive(Drop)]
pub struct MmapGuard<'a, T> {
    guard: MutexGuard<'a, T>,
}

impl<T, U> MmapLock<T, U> {
    /// Puts a value under a lock that nobody has taken. No memory is taken.
    pub fn new(value: T) -> MmapLock<T, U> {
        MmapLock {
            value: Mutex::new(value),
            callers: PhantomData,
        }
    }

    /// Waits until nobody has the lock, and takes it. The caller has lent its `U` for as long as it has the lock: a second take under
    /// the guard, which would wait for ever, does not compile. One loan is for one take, so the `U` has counted it.
    pub fn take<'a, R: Wait>(&'a self, rt: &R, _lent: Lent<'a, U>) -> MmapGuard<'a, T> {
        MmapGuard {
            guard: self.value.lock(rt),
        }
    }

    /// Takes the value out. No one has the lock then, since its last owner gives it up.
    pub fn into_inner(self) -> T {
        self.value.into_inner()
    }
}

impl<'a, U: CountsTakes> Lent<'a, U> {
    /// Lends a `U` for one take, which it counts.
    pub fn of(unlocked: &'a mut U) -> Lent<'a, U>
        ensures* { sem 𝓛 (Rests U.row unlocked.entry (λ new. U.takes new ≡ U.takes unlocked.old + 1)) }
    {
        unlocked.count_take();
        Lent { by: unlocked }
    }
}

impl<T> MmapGuard<'_, T> {
    /// The value.
    pub fn value(&mut self) -> &mut T
        ensures { result.now ≡ mutex_guard_value self.old.guard }
    {
        &mut self.guard
    }
}
