//! What closing a space does with its passes.
ghost use Rattle.std.specs.Prelude.{◌≡◌, ◌≤◌, ◌<◌, ◌++◌, length, map, vec_len, vec_capacity, option_to_list, All, IfSome};
ghost use Rattle.fault_path.specs.Passes.{SitsAtTables, IsLater};
ghost use Rattle.mm_space.specs.Closing.{IsIn};
ghost use Rattle.mm_space.specs.Names.{IsViewOf, IsPassOf, ArePasses};

use crate::name::SpaceName;
use crate::named::Named;
use fault_path::{FaultView, Pass};
use mm_types::Seen;

/// Meets each pass with the state, joins it into the next, and gathers the logs in the order of the passes.
pub(crate) fn gather_logs<N: SpaceName>(
    view: &FaultView,
    state: &mut Named<N>,
    passes: Vec<Pass>,
    logs: Vec<Vec<Seen>>,
) -> Vec<Vec<Seen>>
    requires view { IsViewOf N.name view.now }
    requires passes { ArePasses N.name passes.items }
    requires empty { vec_len logs ≡ 0 }
    requires room { length passes.items ≤ vec_capacity logs }
    ensures state { state.new ≡ state.old }
    ensures logs { map (λ log. log.items) result.items ≡ map (λ pass. pass.log) passes.items }
    ensures each { All (IsIn N.name.config state.old.journal) passes.items }
{
    let mut logs = logs;
    let mut last: Option<Pass> = None;
    for pass in passes {
        let next = settle(state, pass);
        last = Some(join_next(view, last, next, &mut logs));
    }
    if let Some(pass) = last {
        logs.push_reserved(pass.into_log());
    }
    logs
}

/// A pass that has seen the whole journal of the state.
fn settle<N: SpaceName>(state: &mut Named<N>, pass: Pass) -> Pass
    requires { IsPassOf N.name pass }
    ensures state { state.new ≡ state.old }
    ensures later { IsLater pass result }
    ensures log { result.log ≡ pass.log }
    ensures lies { IsIn N.name.config state.old.journal pass }
{
    let mut pass = pass;
    state.meet(&mut pass.reader);
    pass
}

/// Joins the last pass, if there is one, into the next, and adds its log to the logs.
fn join_next(view: &FaultView, last: Option<Pass>, next: Pass, logs: &mut Vec<Vec<Seen>>) -> Pass
    requires next { SitsAtTables view.now next }
    requires last { IfSome last (SitsAtTables view.now) }
    requires room { vec_len logs.old < vec_capacity logs.old }
    ensures later { IsLater next result }
    ensures log { result.log ≡ next.log }
    ensures logs { map (λ log. log.items) logs.new.items ≡ map (λ log. log.items) logs.old.items ++ map (λ pass. pass.log) (option_to_list last) }
    ensures room { vec_capacity logs.new ≡ vec_capacity logs.old }
{
    let mut next = next;
    if let Some(pass) = last {
        logs.push_reserved(view.join(&mut next, pass));
    }
    next
}
