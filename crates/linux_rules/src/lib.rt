//! Linux's own rules of an address space, by version: what each call, fault and fork answers and changes, as definitions in the words of
//! mm/, and what kernels answered to recorded traces, which the definitions compute.
#![tactic(auto)]

mod area;
mod errors;
mod kernel;
mod recorded;
mod verdict;

pub use area::{AnonVma, VmFlags, Vma};
pub use errors::{
    EACCES, EBADF, EEXIST, EFAULT, EINVAL, ENOMEM, ENOSYS, EOPNOTSUPP, EOVERFLOW, EPERM,
};
pub use kernel::{Kernel, Machine, Rules, Vsyscall};
pub use recorded::{
    linux_6_1_is_as_recorded, linux_6_12_is_as_recorded, linux_6_16_is_as_recorded,
    linux_6_17_is_as_recorded, linux_6_18_15_is_as_recorded, linux_6_18_is_as_recorded,
    linux_7_2_is_as_recorded,
};
pub use verdict::LinuxVerdict;
