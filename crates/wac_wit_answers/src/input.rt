//! Packages that are read of their texts.

use super::failure::Failure;
use super::lines::Lines;
use std::alloc::{AllocError, Global};
use wac_component::Types;
use wac_wit::{Features, SourceFile, Wit, WitError, read_packages};

/// The texts of a package and of those that it uses.
#[derive(Drop)]
pub struct Texts {
    /// What messages call all of them, as the path that they were read at.
    pub path: String,
    /// The texts, of which those of group 0 are the package itself.
    pub files: Vec<SourceFile>,
}

/// Packages that were read.
pub(crate) struct Input {
    /// What messages call them.
    pub(crate) path: String,
    /// The texts.
    pub(crate) files: Vec<SourceFile>,
    /// The packages, whose interfaces and worlds stand in a collection.
    pub(crate) wit: Wit,
    /// Where the lines of each text begin.
    pub(crate) lines: Vec<Lines>,
}

impl Drop for Input {
    fn drop(self) {
        let Input {
            path: _,
            files: _,
            wit: _,
            lines: _,
        } = self;
    }
}

impl Input {
    /// Reads packages into a collection.
    pub(crate) fn read(
        alloc: Global,
        types: &mut Types,
        texts: Texts,
        features: Features<'_>,
    ) -> Result<Input, Failure> {
        match read_packages(alloc, types, &texts.files, features) {
            Ok(wit) => Ok(Input::new(alloc, texts, wit)?),
            Err(error) => Err(not_read(alloc, &error, &texts.files)),
        }
    }

    /// Packages that were read of these texts.
    pub(crate) fn new(alloc: Global, texts: Texts, wit: Wit) -> Result<Input, AllocError> {
        let Texts { path, files } = texts;
        Ok(Input {
            path,
            lines: lines_of(alloc, &files)?,
            files,
            wit,
        })
    }
}

/// Why files aren't read.
pub(crate) fn not_read(alloc: Global, error: &WitError, files: &[SourceFile]) -> Failure {
    match error {
        WitError::Memory => Failure::Memory,
        WitError::Missing => Failure::Missing,
        WitError::Refused(_) => {
            let mut text = String::new(alloc);
            match error.push_report(&mut text, files) {
                Ok(()) => Failure::Refused(text),
                Err(_) => Failure::Memory,
            }
        }
    }
}

// Where the lines of each text begin.
fn lines_of(alloc: Global, files: &[SourceFile]) -> Result<Vec<Lines>, AllocError> {
    let mut lines = Vec::new(alloc);
    for file in files {
        lines.push(Lines::new(alloc, &file.text)?)?;
    }
    Ok(lines)
}
