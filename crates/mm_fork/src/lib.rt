//! Child spaces (fork(2)): what a child begins with, which lines are its own, its history, and whether a history is legal and of them.
#![tactic(auto)]

mod checking;
mod histories;
mod inheriting;
mod laws;
mod lines;

pub use checking::check_child;
pub use histories::child_history;
pub use inheriting::inherit;
pub use laws::{
    child_answers_by_its_own_calls, child_run_makes_a_legal_history,
    children_of_equal_spaces_answer_alike, inherited_entries_keep_the_space, spaces_have_traces,
};
pub use lines::has_child;
