//! The name of a space.
ghost use Rattle.mm_space.specs.Names.{SpaceId, no_space};

use std::marker::Brand;

/// What a space's types know of it: which tables it has, its configuration, the entries from before, and how many operations each
/// caller may make. The caller that opens a space picks its name at `Brand`.
pub trait SpaceName {
    ghost name: { SpaceId };
}

impl SpaceName for Brand {
    ghost name = { no_space };
}
