//! A counter that contracts see as a number, and that has no bytes at run time.

ghost use Rattle.std.specs.Prelude.{◌≡◌, ◌+◌};

use std::marker::{Model, PhantomData};
use std::mem;
use std::snapshot::Snapshot;

/// How many steps were made: as contracts see it a number without a bound, since each step remembers the ones before.
#[derive(Drop)]
enum Ticks {
    Zero,
    More(Snapshot<Ticks>),
}

/// A counter of steps. Contracts see it as the exact number, and it has no bytes at run time. `L` is any type, a name of the
/// caller's, so that counts of two kinds are not mixed up.
pub struct Steps<L> {
    marker: PhantomData<L>,
    ticks: Snapshot<Ticks>,
}

impl<L> Model for Steps<L> {
    ghost use Rattle.std.specs.Prelude.{ℕ};
    ghost use Rattle.mm_types.specs.Ticks.{ticks_of};

    ghost Value = { ℕ };

    ghost view = { λ steps. ticks_of steps.ticks.value };
}

impl<L> Steps<L> {
    /// No steps.
    pub fn new() -> Steps<L>
        ensures { result ≡ 0 }
    {
        Steps {
            marker: PhantomData,
            ticks: Snapshot::of(&Ticks::Zero),
        }
    }

    /// Counts one step.
    pub fn tick(&mut self)
        ensures { self.new ≡ self.old + 1 }
    {
        let before = mem::replace(&mut self.ticks, Snapshot::of(&Ticks::Zero));
        self.ticks = Snapshot::of(&Ticks::More(before));
    }
}

impl<L> Drop for Steps<L> {
    fn drop(self) {
        let Self {
            marker: _,
            ticks: _,
        } = self;
    }
}
