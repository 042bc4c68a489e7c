use mm_types::Prot;

/// The flags of an area (`vm_flags`), as far as the calls of a trace can set them.
#[derive(Clone, Copy, Debug, PartialEq, Eq)]
pub struct VmFlags {
    /// `VM_READ`, `VM_WRITE`, `VM_EXEC`.
    pub access: Prot,
    /// `VM_MAYREAD`, `VM_MAYWRITE`, `VM_MAYEXEC`.
    pub may: Prot,
    /// `VM_SHARED`: writes are seen by others. A shared mapping of a file that is open for reading alone lacks it.
    pub shared: bool,
    /// `VM_MAYSHARE`: mapped with `MAP_SHARED`.
    pub mayshare: bool,
    /// `VM_GROWSDOWN`: a stack-like area.
    pub growsdown: bool,
    /// `VM_ACCOUNT`: its pages are charged as promised memory.
    pub account: bool,
    /// `VM_NORESERVE`.
    pub noreserve: bool,
    /// `VM_NOHUGEPAGE`, which `MAP_STACK` sets.
    pub nohugepage: bool,
    /// The protection key of memory that may only be executed.
    pub pkey: bool,
    /// `VM_SEALED`.
    pub sealed: bool,
}

/// An `anon_vma`: what private areas share whose pages were written together.
#[derive(Clone, Copy, Debug, PartialEq, Eq)]
pub struct AnonVma {
    /// Two are the same where they have one number.
    pub number: u32,
    /// A fork made it, so the area's chain of `anon_vma`s is not singular.
    pub forked: bool,
}

/// An area (`struct vm_area_struct`). Its numbers are pages.
#[derive(Clone, Copy, Debug, PartialEq, Eq)]
pub struct Vma {
    /// `vm_start`.
    pub lo: u64,
    /// `vm_end`.
    pub hi: u64,
    /// `vm_flags`.
    pub flags: VmFlags,
    /// `vm_file`: 0 for private anonymous memory, else the number of a file or of a shared anonymous object.
    pub file: u32,
    /// `vm_pgoff`, which anonymous memory has too.
    pub pgoff: u64,
    /// `anon_vma`.
    pub anon: Option<AnonVma>,
}
