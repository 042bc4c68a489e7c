/// Out of memory, the one answer that no clause ties to its cause.
#[derive(Clone, Copy, Debug, PartialEq, Eq)]
pub struct NoMemory;

impl From<std::alloc::AllocError> for NoMemory {
    fn from(_error: std::alloc::AllocError) -> NoMemory {
        NoMemory
    }
}

impl<T: Drop> From<std::alloc::AllocFailed<T>> for NoMemory {
    fn from(_error: std::alloc::AllocFailed<T>) -> NoMemory {
        NoMemory
    }
}
