//! What ties Linux's rules to the profile's: the rows of docs/KERNEL.md by both, and laws.
#![tactic(auto)]

mod changing;
mod faulting;
mod joining;
mod ordering;
mod rows;
mod unmapping;

pub use changing::changes_are_of_the_profile;
pub use faulting::{plain_access_is_of_the_profile, plain_growth_is_of_the_profile};
pub use joining::linux_joins_no_more;
pub use ordering::lists_stay_in_order;
pub use rows::rows_are_computed;
pub use unmapping::munmap_maps_as_the_profile;
