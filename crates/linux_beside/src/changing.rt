//! What Linux's mprotect and mseal change, beside the profile's.

ghost use Rattle.linux_beside.specs.Changing.{ProtectsAsProfile, ProtectsItsRange, RefusedProtectsPrefix, RefusedSealsPrefix, SealsAsProfile, SealsItsRange};

/// mprotect and mseal that succeed change the pages of their range and nothing else, so they map the same pages in the same way as the
/// profile's that succeed. Where they are refused, also halfway, they change the pages before one of them.
pub fn changes_are_of_the_profile()
    ensures protects { ProtectsItsRange }
    ensures protected { ProtectsAsProfile }
    ensures protects_prefix { RefusedProtectsPrefix }
    ensures seals { SealsItsRange }
    ensures sealed { SealsAsProfile }
    ensures seals_prefix { RefusedSealsPrefix }
{}
