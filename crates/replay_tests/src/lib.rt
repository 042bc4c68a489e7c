//! Tests of whole runs and of the histories that they stand for: a crate of tests alone, of what no clause says.
//!
//! The contract of `replay` says which outputs of a trace are right. It doesn't say that two threads, or two children, are at work at once,
//! nor when a gate is told of a line: gates that wait for others show it. How long the pieces are that move from the source and to the
//! sink, and that a sink may take a part of one, stands in no clause either. And `check` and its like answer for a history that is a value,
//! which no input of the program is: right ones and changed ones are judged here once, by hand, of generated traces, and of 2,000 drawn ones
//! whose threads give way to one another. And `drive` and `in_order`, which no program calls, run a trace over spaces that are opened here.
#![tactic(auto)]

#[cfg(test)]
mod by_hand;
#[cfg(test)]
mod driving_tests;
#[cfg(test)]
mod failure_tests;
#[cfg(test)]
mod fork_tests;
#[cfg(test)]
mod growing_tests;
#[cfg(test)]
mod history_tests;
#[cfg(test)]
mod judging;
#[cfg(test)]
mod load_tests;
#[cfg(test)]
mod order_tests;
#[cfg(test)]
mod piece_tests;
#[cfg(test)]
mod running;
#[cfg(test)]
mod thread_tests;
