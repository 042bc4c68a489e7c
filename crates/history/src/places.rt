//! The lines of each caller of a trace, found once.
ghost use Rattle.std.specs.Prelude.{◌≡◌, All, IfOk, vec_len};
ghost use Rattle.history.specs.declared.callers.TheConstants.{MOST_THREADS};
ghost use Rattle.history.specs.CallerPlaces.{callers_of, ArePlaces};
ghost use Rattle.history.specs.Threads.{counts_below};

use crate::callers::Callers;
use crate::space_lines::SpaceLines;
use mm_types::NoMemory;
use std::alloc::Global;

/// For each caller that runs the lines of a trace, the places of its lines, counted from 0. Fails only where memory runs out.
pub fn places_by_caller(alloc: Global, lines: &SpaceLines<'_>) -> Result<Vec<Vec<u32>>, NoMemory>
    ensures { IfOk result (λ places. ArePlaces lines.now (callers_of lines.now) places.items) }
{
    places_of(alloc, lines, &Callers::of(lines))
}

/// The same, where the callers of the lines are known.
pub(crate) fn places_of(
    alloc: Global,
    lines: &SpaceLines<'_>,
    callers: &Callers,
) -> Result<Vec<Vec<u32>>, NoMemory>
    requires { callers.now ≡ counts_below MOST_THREADS lines.now }
    ensures { IfOk result (λ places. ArePlaces lines.now (callers_of lines.now) places.items) }
{
    let lines = lines.items();
    let mut places = empty_places(alloc, callers.count().max(1))?;
    for (place, line) in lines.iter().enumerate() {
        let caller = callers.caller(line.thread) as usize;
        places[caller].push(place as u32)?;
    }
    Ok(places)
}

/// So many lists of places with none in them.
fn empty_places(alloc: Global, count: usize) -> Result<Vec<Vec<u32>>, NoMemory>
    ensures count { IfOk result (λ places. vec_len places ≡ count) }
    ensures empty { IfOk result (λ places. All (λ own. vec_len own ≡ 0) places.items) }
{
    let mut places = Vec::with_capacity(alloc, count)?;
    for _ in 0..count {
        places.push(Vec::new(alloc))?;
    }
    Ok(places)
}
