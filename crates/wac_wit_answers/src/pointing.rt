//! Points at places in the sources, for people and as JSON.

use super::input::Input;
use indexmap::{IndexMap, IndexSet};
use serde_json::{Value, json};
use std::alloc::{AllocError, Global};
use wac_wit_changes::Problem;
use wac_wit_places::FilePlace;
use wac_wit_syntax::{Position, Refusal, push_report};

// How many lines are shown in a run.
const MAX_SNIPPETS: usize = 100;

/// What two packages are to each other.
#[derive(Clone, Copy)]
pub(crate) enum PackageSides {
    /// An old one and a new one.
    Versions,
    /// A component's and a target's.
    Target,
}

impl PackageSides {
    // What the place in the first is called.
    fn label(self) -> &'static str {
        match self {
            PackageSides::Versions => "before",
            PackageSides::Target => "component",
        }
    }

    // The key of the first place in JSON.
    fn first_key(self) -> &'static str {
        match self {
            PackageSides::Versions => "old",
            PackageSides::Target => "component",
        }
    }

    // The key of the second place in JSON.
    fn second_key(self) -> &'static str {
        match self {
            PackageSides::Versions => "new",
            PackageSides::Target => "target",
        }
    }
}

/// The two sides of problems, and what has been shown of them.
pub(crate) struct Pointer<'i> {
    pub(crate) alloc: Global,
    /// The input of the old package, or the component's.
    pub(crate) before: &'i Input,
    /// The input of the new package, or the target's.
    pub(crate) after: &'i Input,
    /// What the two are to each other.
    pub(crate) sides: PackageSides,
    shown: IndexSet<String>,
}

impl Drop for Pointer<'_> {
    fn drop(self) {
        let Pointer {
            alloc: _,
            before: _,
            after: _,
            sides: _,
            shown: _,
        } = self;
    }
}

impl<'i> Pointer<'i> {
    /// Nothing was shown yet.
    pub(crate) fn new(
        alloc: Global,
        before: &'i Input,
        after: &'i Input,
        sides: PackageSides,
    ) -> Pointer<'i> {
        Pointer {
            alloc,
            before,
            after,
            sides,
            shown: IndexSet::new(alloc),
        }
    }

    /// Puts problems last. Where several paths lead to one fault, the first of them is shown, and
    /// how many more there are; so it is for each import and export of a world.
    pub(crate) fn push_all(
        &mut self,
        out: &mut String,
        severity: &str,
        problems: &[Problem],
    ) -> Result<(), AllocError> {
        let paths = paths_to(self.alloc, problems)?;
        for (problem, count) in problems.iter().zip(&paths) {
            if *count > 0 {
                self.push(out, severity, problem)?;
                push_more(out, count.saturating_sub(1))?;
            }
        }
        Ok(())
    }

    // Puts a problem last: its place, what is wrong, the line with a caret, and the other place.
    // A line that was shown with the same fault isn't shown again.
    fn push(
        &mut self,
        out: &mut String,
        severity: &str,
        problem: &Problem,
    ) -> Result<(), AllocError> {
        let said = problem.message(self.alloc)?;
        let message = format!(in self.alloc; "{severity}: {said}")?;
        let (main, input, other) = match (problem.after, problem.before) {
            (Some(after), before) => (after, self.after, before),
            (None, Some(before)) => (before, self.before, None),
            (None, None) => return writeln!(out, "{message}"),
        };
        if self.is_new(main, &problem.fault)? {
            push_snippet(out, input, main, message)?;
        } else {
            let place = place_text(self.alloc, input, main)?;
            writeln!(out, "{place}: {message}")?;
        }
        if let Some(other) = other {
            let (label, place) = (
                self.sides.label(),
                place_text(self.alloc, self.before, other)?,
            );
            writeln!(out, "  = {label}: {place}")?;
        }
        Ok(())
    }

    // Whether a fault wasn't shown at a place yet, and its line is to be shown.
    fn is_new(&mut self, place: FilePlace, fault: &str) -> Result<bool, AllocError> {
        if self.shown.len() == MAX_SNIPPETS {
            return Ok(false);
        }
        let (file, start) = (place.file, place.span.start);
        let key = format!(in self.alloc; "{file}:{start}:{fault}")?;
        Ok(self.shown.insert(key)?)
    }

    /// A problem as JSON.
    pub(crate) fn json(&self, problem: &Problem) -> Result<Value, AllocError> {
        let alloc = self.alloc;
        let mut path = Vec::new(alloc);
        for step in &problem.path {
            path.push(Value::try_from_str(alloc, step)?)?;
        }
        let before = place_json(alloc, self.before, problem.before)?;
        let after = place_json(alloc, self.after, problem.after)?;
        let fault = problem.fault.as_str();
        let mut value = json!(in alloc; {"path": path, "fault": fault})?;
        if let Some(members) = value.as_object_mut() {
            serde_json::put(members, alloc, self.sides.first_key(), before)?;
            serde_json::put(members, alloc, self.sides.second_key(), after)?;
        }
        Ok(value)
    }
}

// How many paths lead to the fault of each problem: none, where one before it has the same fault.
fn paths_to(alloc: Global, problems: &[Problem]) -> Result<Vec<usize>, AllocError> {
    let mut firsts: IndexMap<String, usize> = IndexMap::new(alloc);
    let mut counts = Vec::new(alloc);
    for (index, problem) in problems.iter().enumerate() {
        counts.push(0usize)?;
        let key = key_of(alloc, problem)?;
        let first = match firsts.get(key.as_str()) {
            Some(first) => *first,
            None => {
                firsts.insert(key, index)?;
                index
            }
        };
        if let Some(count) = counts.get_mut(first) {
            *count = count.saturating_add(1);
        }
    }
    Ok(counts)
}

// What problems have in common that several paths lead to: of a world the import or the export, the
// places, and the fault.
fn key_of(alloc: Global, problem: &Problem) -> Result<String, AllocError> {
    let (file, start) = start_of(problem.before);
    let (there, new_start) = start_of(problem.after);
    let step = extern_step(&problem.path);
    let fault = problem.fault.as_str();
    format!(in alloc; "{file}:{start} {there}:{new_start} {step}\n{fault}")
}

// The file of a place, counted from 1, and the byte where it begins.
fn start_of(place: Option<FilePlace>) -> (usize, usize) {
    match place {
        Some(place) => (place.file.saturating_add(1), place.span.start),
        None => (0, 0),
    }
}

// The first step of a path, if it leads to an import or an export of a world.
fn extern_step(path: &[String]) -> &str {
    match path.first() {
        Some(step) if !step.starts_with('`') => step.as_str(),
        _ => "",
    }
}

// Says how many more paths lead to a fault.
fn push_more(out: &mut String, count: usize) -> Result<(), AllocError> {
    match count {
        0 => Ok(()),
        1 => out.push_str("  = one more path leads to it\n"),
        count => writeln!(out, "  = {count} more paths lead to it"),
    }
}

/// Puts a message last, with the line of its place and a caret.
pub(crate) fn push_snippet(
    out: &mut String,
    input: &Input,
    place: FilePlace,
    message: String,
) -> Result<(), AllocError> {
    let refusal = Refusal {
        span: place.span,
        message,
    };
    match input.files.get(place.file) {
        Some(file) => push_report(out, &file.name, &file.text, &refusal),
        None => Ok(()),
    }
}

// The line and the column of a place.
fn position(input: &Input, place: FilePlace) -> Option<Position> {
    match input.lines.get(place.file) {
        Some(lines) => Some(lines.position(place.span.start)),
        None => None,
    }
}

// The name of the file of a place.
fn file_name(input: &Input, place: FilePlace) -> &str {
    match input.files.get(place.file) {
        Some(file) => file.name.as_str(),
        None => "",
    }
}

/// A place, as `file:line:column`.
pub(crate) fn place_text(
    alloc: Global,
    input: &Input,
    place: FilePlace,
) -> Result<String, AllocError> {
    let Some(Position { line, column }) = position(input, place) else {
        return Ok(String::new(alloc));
    };
    let name = file_name(input, place);
    format!(in alloc; "{name}:{line}:{column}")
}

/// A place as JSON, or null.
pub(crate) fn place_json(
    alloc: Global,
    input: &Input,
    place: Option<FilePlace>,
) -> Result<Value, AllocError> {
    let Some(place) = place else {
        return Ok(Value::Null);
    };
    let Some(Position { line, column }) = position(input, place) else {
        return Ok(Value::Null);
    };
    let name = file_name(input, place);
    json!(in alloc; {"file": name, "line": line, "column": column})
}
