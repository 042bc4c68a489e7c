//! The errors of the calls by their numbers, as in asm-generic/errno-base.h and errno.h.

/// `EPERM`.
pub const EPERM: u64 = 1;

/// `EBADF`.
pub const EBADF: u64 = 9;

/// `ENOMEM`.
pub const ENOMEM: u64 = 12;

/// `EACCES`.
pub const EACCES: u64 = 13;

/// `EFAULT`.
pub const EFAULT: u64 = 14;

/// `EEXIST`.
pub const EEXIST: u64 = 17;

/// `EINVAL`.
pub const EINVAL: u64 = 22;

/// `ENOSYS`.
pub const ENOSYS: u64 = 38;

/// `EOVERFLOW`.
pub const EOVERFLOW: u64 = 75;

/// `EOPNOTSUPP`.
pub const EOPNOTSUPP: u64 = 95;
