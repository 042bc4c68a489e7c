//! What Linux answers to an access beside the profile.

ghost use Rattle.linux_beside.specs.Faulting.{GrowsAsProfile, GrowthHasVerdictOfProfile, HasVerdictOfProfile, KeepsWhatProfileKnows};

/// An access to user memory has the profile's verdict and changes nothing that the profile knows, where no stack-like area lies next
/// above it and no protection key denies it, outside the rows of docs/KERNEL.md that the premises name.
pub fn plain_access_is_of_the_profile()
    ensures verdict { HasVerdictOfProfile }
    ensures kept { KeepsWhatProfileKnows }
{}

/// An access to the page next below a stack-like area, which the profile grows, is served, and the area takes the page, outside the rows
/// that the premises name.
pub fn plain_growth_is_of_the_profile()
    ensures verdict { GrowthHasVerdictOfProfile }
    ensures grown { GrowsAsProfile }
{}
