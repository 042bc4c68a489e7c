//! The order of a history.
ghost use Rattle.std.specs.Prelude.{◌≡◌, ◌<◌, ◌+◌, ◌*◌, ◌^◌, ◌↔◌, All, AllPairs, IsOk, IsTrue, OnOk, if◌then◌else◌, true};
ghost use Rattle.std.specs.Bool.{OnTrue};
ghost use Rattle.history.specs.declared.items.Item.{Item};
ghost use Rattle.history.specs.Histories.{goes_first, gather};
ghost use Rattle.history.specs.Runs.{place_key};

use crate::items::Item;
use mm_types::NoMemory;

/// What a version counts for in a place: more than any caller does.
const VERSION_STEP: u128 = 1 << 33;

/// Puts items in the order of a history, those that tie in the order that they had; where they are so already, in linear time and without
/// memory.
pub(crate) fn put_in_order(items: &mut Vec<Item>) -> Result<(), NoMemory>
    requires { All (λ item. item.caller < 2 ^ 32) items.old.items }
    ensures order { OnOk result (items.new.items ≡ gather items.old.items) }
    ensures pairs { OnOk result (AllPairs (λ a b. goes_first a b ≡ true) items.new.items) }
    // A sort may find no memory, so there is none.
    ensures at_once { AllPairs (λ a b. goes_first a b ≡ true) items.old.items → IsOk result }
{
    if are_in_order(items.as_slice()) {
        return Ok(());
    }
    items.sort_by_key(|item| place(item))?;
    Ok(())
}

/// Whether items are in the order of a history: their places do not fall.
pub(crate) fn are_in_order(items: &[Item]) -> bool
    requires { All (λ item. item.caller < 2 ^ 32) items.now }
    ensures order { OnTrue result (items.now ≡ gather items.now) }
    ensures pairs { IsTrue result ↔ AllPairs (λ a b. goes_first a b ≡ true) items.now }
{
    let mut last = 0;
    for item in items {
        let now = place(item);
        if now < last {
            return false;
        }
        last = now;
    }
    true
}

/// Where an item stands in a history, as a number.
fn place(item: &Item) -> u128
    ensures { result ≡ place_key item.now }
{
    place_at(item.version, item.is_call(), item.caller)
}

/// Where what a caller did at a version stands in a history, as a number: first the call of the version, and then its reads by caller.
pub(crate) fn place_at(version: u64, is_call: bool, caller: u32) -> u128
    ensures { result ≡ version * 2 ^ 33 + (if is_call then 0 else caller + 1) }
{
    let reader = if is_call { 0 } else { u128::from(caller) + 1 };
    u128::from(version) * VERSION_STEP + reader
}
