//! What Linux's munmap leaves, beside the profile's.

ghost use Rattle.linux_beside.specs.Unmapping.{RefusedKeepsPages, UnmapsAsProfile, UnmapsItsRange};

/// munmap that succeeds unmaps its range and nothing else, so it maps the same pages in the same way as the profile's that succeeds.
/// One that is refused, also halfway, maps each page as before.
pub fn munmap_maps_as_the_profile()
    ensures range { UnmapsItsRange }
    ensures refused { RefusedKeepsPages }
    ensures profile { UnmapsAsProfile }
{}
