//! What Linux joins, beside the profile.

ghost use Rattle.linux_beside.specs.Forgetting.{JoinsOnTheLeft, JoinsOnTheRight};

/// Linux joins only what the profile joins: its borders are the profile's, and more.
pub fn linux_joins_no_more()
    ensures left { JoinsOnTheLeft }
    ensures right { JoinsOnTheRight }
{}
