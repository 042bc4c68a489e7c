//! What a replay answers.
ghost use Rattle.std.specs.Prelude.{◌≡◌, [], MatchResult};
ghost use Rattle.vma_replay.specs.declared.status.Status.TheVariants.{Done};

use crate::status::Status;
use mm_space::Closed;
use std::alloc::Global;
use std::marker::Model;

/// What a replay results in, with the runs that its output was made of.
#[derive(Drop)]
pub struct Replayed {
    pub status: Status,
    /// The closed runs, where the status is `Done`; none else.
    pub runs: Runs,
}

impl Replayed {
    /// A replay of which no run is kept.
    pub(crate) fn without_runs(alloc: Global, status: Status) -> Replayed
        ensures { (result.status ≡ status) × (result.runs ≡ []) }
    {
        Replayed {
            status,
            runs: Runs::none(alloc),
        }
    }

    /// The replay that is done with these runs, or that ended early.
    pub(crate) fn of(alloc: Global, done: Result<Runs, Status>) -> Replayed
        ensures { MatchResult done (λ runs. (result.status ≡ Done) × (result.runs ≡ runs)) (λ status. (result.status ≡ status) × (result.runs ≡ [])) }
    {
        match done {
            Ok(runs) => Replayed {
                status: Status::Done,
                runs,
            },
            Err(status) => Replayed::without_runs(alloc, status),
        }
    }
}

/// Closed runs, seen by contracts as a list of closed spaces.
#[derive(Drop)]
pub struct Runs {
    items: Vec<Closed>,
}

impl Model for Runs {
    ghost use Rattle.std.specs.Prelude.{List};
    ghost use Rattle.mm_space.specs.Closing.{ClosedView};

    ghost Value = { List ClosedView };

    ghost view = { λ r. r.items.items };
}

impl Runs {
    /// No run.
    pub(crate) fn none(alloc: Global) -> Runs
        ensures { result ≡ [] }
    {
        Runs {
            items: Vec::new(alloc),
        }
    }

    /// These runs.
    pub(crate) fn of(items: Vec<Closed>) -> Runs
        ensures { result ≡ items.items }
    {
        Runs { items }
    }

    /// Shows the runs.
    pub fn items(&self) -> &[Closed]
        ensures { result.now ≡ self.now }
    {
        self.items.as_slice()
    }
}
