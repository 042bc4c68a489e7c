//! The call of mremap(2) as a plan over a list of areas.
#![tactic(auto)]

mod destination;
mod plan_cases;
mod refusal;
mod remapping;

pub use remapping::plan_mremap;
