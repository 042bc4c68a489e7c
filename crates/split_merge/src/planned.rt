use mm_types::{Counters, Reply};

/// What a planned call answers, and the counters after it.
#[derive(Clone, Copy, Debug, PartialEq, Eq)]
pub struct Planned {
    pub reply: Reply,
    pub counters: Counters,
}
