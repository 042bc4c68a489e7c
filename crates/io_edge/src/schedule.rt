//! Which calls of a source or a sink over memory are to fail, how many calls and faults there were, and whether the last call failed.
ghost use Rattle.std.specs.Prelude.{◌≡◌, ◌↔◌, ◌≤◌, IsTrue, Contains, false, if◌then◌else◌};
ghost use Rattle.io_edge.specs.Edge.{counted};

/// The numbers of the calls that are to fail, the number of the next call, the count of faults, and whether the last call was one.
#[derive(Debug, Drop)]
pub(crate) struct FailureSchedule {
    pub(crate) fail: Vec<u64>,
    pub(crate) calls: u64,
    pub(crate) faults: u64,
    pub(crate) just_failed: bool,
}

impl FailureSchedule {
    /// The schedule before the first call.
    pub(crate) fn new(fail: Vec<u64>) -> FailureSchedule
        ensures { result ≡ record { fail = fail; calls = 0; faults = 0; just_failed = false } }
    {
        FailureSchedule {
            fail,
            calls: 0,
            faults: 0,
            just_failed: false,
        }
    }

    /// Counts a call, and a fault where the call is to fail. Answers whether it is.
    pub(crate) fn is_fault(&mut self) -> bool
        ensures fails { IsTrue result ↔ Contains self.old.fail.items self.old.calls }
        ensures calls { self.new.calls ≡ counted self.old.calls }
        ensures faults { self.new.faults ≡ (if result then counted self.old.faults else self.old.faults) }
        ensures told { self.new.just_failed ≡ result }
        ensures later { self.old.faults ≤ self.new.faults }
        ensures fail { self.new.fail ≡ self.old.fail }
    {
        let is_fault = self.fail.contains(&self.calls);
        self.calls = self.calls.saturating_add(1);
        self.just_failed = is_fault;
        if is_fault {
            self.faults = self.faults.saturating_add(1);
        }
        is_fault
    }
}
