//! The call of mseal(2) as a plan over a list of areas, and the seals as they guard all other calls.
#![tactic(auto)]

mod guarding;
mod sealing;

pub use guarding::guard;
pub use sealing::plan_seal;
