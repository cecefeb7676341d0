//! What doesn't fit, with its path and its places.

use std::alloc::{AllocError, Global};
use wac_types::{Frame, SubtypeError};
use wac_wit_places::FilePlace;

/// What doesn't fit. What is compared has two sides: an old package and a new one, or a component
/// and a target.
pub struct Problem {
    /// The steps to it, the outermost first.
    pub path: Vec<String>,
    /// What is wrong there.
    pub fault: String,
    /// Where that stands in the old package, or in the component's.
    pub before: Option<FilePlace>,
    /// Where that stands in the new package, or in the target's.
    pub after: Option<FilePlace>,
}

impl Drop for Problem {
    fn drop(self) {
        let Problem {
            path: _,
            fault: _,
            before: _,
            after: _,
        } = self;
    }
}

impl Problem {
    /// A problem that has no path.
    pub fn new(
        alloc: Global,
        fault: Result<String, AllocError>,
        before: Option<FilePlace>,
        after: Option<FilePlace>,
    ) -> Result<Problem, AllocError> {
        Ok(Problem {
            path: Vec::new(alloc),
            fault: fault?,
            before,
            after,
        })
    }

    /// Puts it behind one more step.
    pub(crate) fn put_under(&mut self, step: String) -> Result<(), AllocError> {
        self.path.insert(0, step)?;
        Ok(())
    }

    /// The path and what is wrong, on one line.
    pub fn message(&self, alloc: Global) -> Result<String, AllocError> {
        let mut text = String::new(alloc);
        for step in &self.path {
            if !text.is_empty() {
                text.push_str(", ")?;
            }
            text.push_str(step)?;
        }
        if !text.is_empty() {
            text.push_str(": ")?;
        }
        text.push_str(&self.fault)?;
        Ok(text)
    }
}

/// The steps of a path in words.
pub fn steps_of(alloc: Global, error: &SubtypeError) -> Result<Vec<String>, AllocError> {
    let mut steps = Vec::new(alloc);
    for frame in error.frames() {
        steps.push(step_text(alloc, frame)?)?;
    }
    Ok(steps)
}

fn step_text(alloc: Global, frame: &Frame) -> Result<String, AllocError> {
    match frame {
        Frame::Export(name) | Frame::Import(name) => format!(in alloc; "`{name}`"),
        Frame::CoreImport(from, name) => format!(in alloc; "`{from}::{name}`"),
        Frame::Parameter(name) => format!(in alloc; "parameter `{name}`"),
        Frame::Field(name) => format!(in alloc; "field `{name}`"),
        Frame::Case(name) => format!(in alloc; "case `{name}`"),
        Frame::Item(index) => format!(in alloc; "item {index}"),
        Frame::FuncResult => String::from_str(alloc, "the result"),
        Frame::ListElement | Frame::FixedSizeListElement => {
            String::from_str(alloc, "the list's element")
        }
        Frame::MapKey => String::from_str(alloc, "the map's key"),
        Frame::MapValue => String::from_str(alloc, "the map's value"),
        Frame::FuturePayload => String::from_str(alloc, "the future's payload"),
        Frame::StreamPayload => String::from_str(alloc, "the stream's payload"),
        Frame::Option => String::from_str(alloc, "the option's type"),
        Frame::Ok => String::from_str(alloc, "`ok`"),
        Frame::Err => String::from_str(alloc, "`err`"),
    }
}

/// What is wrong at the end of a path.
pub fn fault_text(alloc: Global, error: &SubtypeError) -> Result<String, AllocError> {
    match error.fault() {
        Some(fault) => format!(in alloc; "{fault}"),
        None => format!(in alloc; "{error}"),
    }
}
