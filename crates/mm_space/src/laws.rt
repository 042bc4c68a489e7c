//! Laws of a space. Each is the contract of a function that does nothing.
ghost use Rattle.std.specs.Prelude.{ℕ, ◌≤◌, List, length, take};
ghost use Rattle.mm_types.specs.declared.area.Page.{Page};
ghost use Rattle.mm_types.specs.declared.area.Access.{Access};
ghost use Rattle.mm_types.specs.declared.call.Call.{Call};
ghost use Rattle.mm_types.specs.declared.call.Entry.{Entry};
ghost use Rattle.mm_types.specs.declared.call.Reply.{Reply};
ghost use Rattle.lock_core.specs.Core.{StartsWith};
ghost use Rattle.fault_path.specs.Passes.{PassView, IsLater, seen_by};
ghost use Rattle.mm_space.specs.declared.space.Faulted.{Faulted};
ghost use Rattle.mm_space.specs.Spaces.{Calls, Hears, IsFaultDone};

/// A fault has a version at or above that of each call that its caller was told of: where the one that told had seen the call, as
/// a munmap, the fault is answered over a list after it.
pub fn faults_lie_behind_calls_that_were_heard()
    ensures { (told : List Entry) (asked made before old new : PassView) (call : Call) (reply : Reply) (place : ℕ) (page : Page) (access : Access)
        (done : Faulted) → Calls asked made call reply place → StartsWith told (seen_by made) → Hears before told old → IsLater old new
        → IsFaultDone page access old new done → place ≤ done.version }
{}

/// A fault after a note was heard has a version at or above the place of all that was told, and the entries before its version begin
/// with what was told. So where a munmap was told, the list that it is answered over has no area that this munmap took away.
pub fn faults_lie_behind_what_was_heard()
    ensures { (told : List Entry) (before old new : PassView) (page : Page) (access : Access) (done : Faulted) → Hears before told old
        → IsLater old new → IsFaultDone page access old new done
        → (length told ≤ done.version) × StartsWith (take done.version (seen_by new)) told }
{}
