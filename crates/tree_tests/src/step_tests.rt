//! The counter of steps that the clauses on costs speak of.

use mm_types::Steps;
use std::mem::size_of;

struct Visits;

#[test]
fn counters_have_no_bytes(rt: HostRuntime) {
    assert_eq!(rt; size_of::<Steps<Visits>>(), 0);
}
