//! Why imports aren't merged.

use super::failure::Failure;
use super::handing::Handed;
use super::merge_forms::call_json;
use super::pointing::{place_json, place_text, push_snippet};
use serde_json::{Value, json};
use std::alloc::{AllocError, Global};
use wac_component::WorldId;
use wac_types::{
    AggregateAllError, AggregateError, Call, Frame, MergeFrame, are_semver_compatible,
};
use wac_wit_changes::{Problem, fault_text, steps_of};
use wac_wit_places::{
    FilePlace, Map, PackageSources, SourceSide, SourceWalk, places_of, syntax_of,
};

/// Says which import isn't merged, and where it and those on its track stand.
pub(crate) fn refusal_text(
    alloc: Global,
    handed: &Handed<'_>,
    refusal: &AggregateAllError,
) -> Result<String, Failure> {
    let (Some(call), Some(source)) = (handed.calls.get(refusal.at), handed.source_of(refusal.at))
    else {
        return Err(Failure::Missing);
    };
    let problem = problem_of(alloc, refusal)?;
    let said = problem.message(alloc)?;
    let (name, world) = (call.name, source.name.as_str());
    let message = format!(in alloc; "error: import `{name}` of `{world}` can't be merged: {said}")?;
    let places = places(alloc, handed, refusal)?;
    let mut out = String::new(alloc);
    match places.first() {
        Some((_, Some(place))) => push_snippet(&mut out, &source.input, *place, message)?,
        _ => writeln!(out, "{message}")?,
    }
    for (index, place) in places.iter().skip(1) {
        let (Some(other), Some(place)) = (handed.source_of(*index), place) else {
            continue;
        };
        let (world, place) = (&other.name, place_text(alloc, &other.input, *place)?);
        writeln!(out, "  = merged before, of `{world}`: {place}")?;
    }
    Ok(out)
}

/// The same as JSON.
pub(crate) fn refusal_json(
    alloc: Global,
    handed: &Handed<'_>,
    refusal: &AggregateAllError,
) -> Result<Value, Failure> {
    let places = places(alloc, handed, refusal)?;
    let involved = involved_json(alloc, handed, &places)?;
    Ok(problem_json(alloc, &problem_of(alloc, refusal)?, involved)?)
}

fn problem_json(
    alloc: Global,
    problem: &Problem,
    involved: Vec<Value>,
) -> Result<Value, AllocError> {
    let path = path_json(alloc, &problem.path)?;
    let fault = problem.fault.as_str();
    json!(in alloc; {
        "merged": false,
        "path": path,
        "fault": fault,
        "imports": involved
    })
}

fn path_json(alloc: Global, steps: &[String]) -> Result<Vec<Value>, AllocError> {
    let mut path = Vec::new(alloc);
    for step in steps {
        path.push(Value::try_from_str(alloc, step)?)?;
    }
    Ok(path)
}

// The imports, each with its place.
fn involved_json(
    alloc: Global,
    handed: &Handed<'_>,
    places: &[(usize, Option<FilePlace>)],
) -> Result<Vec<Value>, Failure> {
    let mut involved = Vec::new(alloc);
    for (index, place) in places {
        involved.push(one_involved_json(alloc, handed, *index, *place)?)?;
    }
    Ok(involved)
}

fn one_involved_json(
    alloc: Global,
    handed: &Handed<'_>,
    index: usize,
    place: Option<FilePlace>,
) -> Result<Value, Failure> {
    let Some(source) = handed.source_of(index) else {
        return Err(Failure::Missing);
    };
    let place = place_json(alloc, &source.input, place)?;
    let import = call_json(alloc, handed, index)?;
    Ok(json!(in alloc; {"import": import, "place": place})?)
}

// The path and what is wrong.
fn problem_of(alloc: Global, refusal: &AggregateAllError) -> Result<Problem, AllocError> {
    let AggregateError::Mismatch { frames, error } = &refusal.error else {
        let fault = &refusal.error;
        return Problem::new(alloc, format!(in alloc; "{fault}"), None, None);
    };
    let mut path = Vec::new(alloc);
    for frame in frames {
        path.push(match frame {
            MergeFrame::Interface(name) | MergeFrame::Export(name) => {
                format!(in alloc; "`{name}`")?
            }
        })?;
    }
    for step in steps_of(alloc, error)? {
        path.push(step)?;
    }
    let fault = fault_text(alloc, error)?;
    Ok(Problem {
        path,
        fault,
        before: None,
        after: None,
    })
}

// The places of the import that isn't merged, and then of those on its track before it, each with
// the index of its call.
fn places(
    alloc: Global,
    handed: &Handed<'_>,
    refusal: &AggregateAllError,
) -> Result<Vec<(usize, Option<FilePlace>)>, Failure> {
    let Some(source) = handed.source_of(refusal.at) else {
        return Err(Failure::Missing);
    };
    let syntax = syntax_of(alloc, &source.input.files)?;
    let sources = PackageSources::new(alloc, &source.input.files, &syntax)?;
    let exports = exports_to(alloc, &refusal.error)?;
    let map = Map {
        types: &source.types,
        sources: &sources,
    };
    let start = SourceSide {
        map,
        walk: walk_of(&map, handed, source.world, refusal.at),
    };
    let new = SourceSide {
        map,
        walk: end_of(&start, &exports, &refusal.error),
    };
    places_beside(alloc, handed, refusal, &exports, &new)
}

// The same, where it is known where the path leads in what isn't merged.
fn places_beside(
    alloc: Global,
    handed: &Handed<'_>,
    refusal: &AggregateAllError,
    exports: &[Frame],
    new: &SourceSide<'_, '_>,
) -> Result<Vec<(usize, Option<FilePlace>)>, Failure> {
    let at = refusal.at;
    let Some(call) = handed.calls.get(at) else {
        return Err(Failure::Missing);
    };
    let mut places = Vec::new(alloc);
    for (index, other) in handed.calls.iter().enumerate().take(at) {
        if is_on_track(alloc, other, call)? {
            let (here, there) = places_in(alloc, handed, refusal, exports, new, index)?;
            if places.is_empty() {
                places.push((at, here))?;
            }
            places.push((index, there))?;
        }
    }
    if places.is_empty() {
        let same = SourceSide {
            map: new.map,
            walk: new.at_end(&[]).walk,
        };
        let (here, _) = fault_places(alloc, &refusal.error, new, &same)?;
        places.push((at, here))?;
    }
    Ok(places)
}

fn is_on_track(alloc: Global, a: &Call<'_>, b: &Call<'_>) -> Result<bool, AllocError> {
    if a.name == b.name {
        return Ok(true);
    }
    are_semver_compatible(alloc, a.name, b.name)
}

// Where the fault is in what isn't merged, and in what was handed in by an earlier call.
fn places_in(
    alloc: Global,
    handed: &Handed<'_>,
    refusal: &AggregateAllError,
    exports: &[Frame],
    new: &SourceSide<'_, '_>,
    index: usize,
) -> Result<(Option<FilePlace>, Option<FilePlace>), Failure> {
    let Some(source) = handed.source_of(index) else {
        return Err(Failure::Missing);
    };
    let syntax = syntax_of(alloc, &source.input.files)?;
    let sources = PackageSources::new(alloc, &source.input.files, &syntax)?;
    let map = Map {
        types: &source.types,
        sources: &sources,
    };
    let start = SourceSide {
        map,
        walk: walk_of(&map, handed, source.world, index),
    };
    let old = SourceSide {
        map,
        walk: end_of(&start, exports, &refusal.error),
    };
    Ok(fault_places(alloc, &refusal.error, new, &old)?)
}

// The exports that a refusal leads through before its items are compared.
fn exports_to(alloc: Global, error: &AggregateError) -> Result<Vec<Frame>, AllocError> {
    let mut exports = Vec::new(alloc);
    if let AggregateError::Mismatch { frames, error: _ } = error {
        for frame in frames {
            if let MergeFrame::Export(name) = frame {
                exports.push(Frame::Export(name.clone()?))?;
            }
        }
    }
    Ok(exports)
}

// The end of a refusal's path.
fn end_of<'d>(
    side: &SourceSide<'_, 'd>,
    exports: &[Frame],
    error: &AggregateError,
) -> Option<SourceWalk<'d>> {
    let below = SourceSide {
        map: side.map,
        walk: side.at_end(exports).walk,
    };
    match error {
        AggregateError::Mismatch { frames: _, error } => below.at_end(error.frames()).walk,
        _ => below.walk,
    }
}

// The places of a fault at the ends of its path.
fn fault_places(
    alloc: Global,
    error: &AggregateError,
    new: &SourceSide<'_, '_>,
    old: &SourceSide<'_, '_>,
) -> Result<(Option<FilePlace>, Option<FilePlace>), AllocError> {
    if let AggregateError::Mismatch { frames: _, error } = error
        && let Some(fault) = error.fault()
    {
        return places_of(alloc, new, old, fault);
    }
    Ok((new.place(), old.place()))
}

// The position of what is handed in by a call.
fn walk_of<'d>(
    map: &Map<'_, 'd>,
    handed: &Handed<'_>,
    world: WorldId,
    call: usize,
) -> Option<SourceWalk<'d>> {
    match handed.calls.get(call) {
        Some(call) => map.at_extern(world, call.name, &call.kind),
        None => None,
    }
}
