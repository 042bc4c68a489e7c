//! That Linux's lists stay in order.

ghost use Rattle.linux_beside.specs.Ordering.{ChildIsInOrder, OperationsKeepOrder};

/// Each call, each access and each fork leaves the areas in order, with a page each and none in common, whatever it answers. So does
/// a fork to the child.
pub fn lists_stay_in_order()
    ensures operations { OperationsKeepOrder }
    ensures child { ChildIsInOrder }
{}
