//! Tests of address spaces, as their parts and as a whole: a crate of tests alone, of what no clause says.
//!
//! The contracts say each answer; not that there is one. So each operation is made once with memory enough, and a load of 20,000
//! operations is gone through by plans and, beside them, in the model, whose functions the program calls nowhere else. The contracts of
//! threads say nothing of when a call waits and that its wait ends, which areas it marks, and that a held area keeps no other call: two
//! callers, one of which is in the way of the other, show it. Last, a plan may change an area by one step or by two that come to the same,
//! and readers are stopped by two: the plan itself is looked at.
#![tactic(auto)]

#[cfg(test)]
mod asking;
#[cfg(test)]
mod bench;
#[cfg(test)]
mod chunks;
#[cfg(test)]
mod fault_tests;
#[cfg(test)]
mod loads;
#[cfg(test)]
mod marking;
#[cfg(test)]
mod operations;
#[cfg(test)]
mod settings;
#[cfg(test)]
mod waiting;
