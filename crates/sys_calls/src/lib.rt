//! One call of any kind as a plan.
#![tactic(auto)]

mod plans;

pub use plans::plan_call;
