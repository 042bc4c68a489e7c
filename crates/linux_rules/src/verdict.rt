use crate::area::Vma;

/// The answer to an access, with the signal codes of sigaction(2).
#[derive(Clone, Copy, Debug, PartialEq, Eq)]
pub enum LinuxVerdict {
    /// An area serves it, and the page is this one of its object; 0 for private anonymous memory.
    Served { vma: Vma, index: u64 },
    /// `SEGV_MAPERR`: no area has the page.
    MapErr,
    /// `SEGV_ACCERR`: the area does not allow the access.
    AccErr,
    /// `SEGV_PKUERR`: the area's protection key does not allow it.
    PkuErr,
    /// `BUS_ADRERR`: the page lies past the end of the file.
    BusErr,
    /// `SI_KERNEL`: the address is not canonical.
    NotCanonical,
}
