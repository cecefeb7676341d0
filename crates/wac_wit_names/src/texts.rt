//! The names of packages, of interfaces and of worlds.

use std::alloc::{AllocError, Global};
use wac_wit_syntax::PackageName;

/// Three texts as one.
pub fn joined(alloc: Global, first: &str, second: &str, third: &str) -> Result<String, AllocError> {
    let mut text = String::from_str(alloc, first)?;
    text.push_str(second)?;
    text.push_str(third)?;
    Ok(text)
}

/// The name of a package, as `wasi:http`.
pub(crate) fn name_of(alloc: Global, name: &PackageName) -> Result<String, AllocError> {
    joined(alloc, &name.namespace.name, ":", &name.name.name)
}

/// The version of a package, if there is one.
pub(crate) fn version_of(name: &PackageName) -> Option<&str> {
    match &name.version {
        Some(version) => Some(version.text.as_str()),
        None => None,
    }
}

/// A package with its version, as `wasi:http@0.2.0`.
pub(crate) fn key_of(alloc: Global, name: &PackageName) -> Result<String, AllocError> {
    versioned(alloc, name_of(alloc, name)?, version_of(name))
}

/// The identifier of an interface or a world.
pub(crate) fn id_of(
    alloc: Global,
    package: &str,
    name: &str,
    version: Option<&str>,
) -> Result<String, AllocError> {
    versioned(alloc, joined(alloc, package, "/", name)?, version)
}

fn versioned(alloc: Global, name: String, version: Option<&str>) -> Result<String, AllocError> {
    match version {
        Some(version) => joined(alloc, &name, "@", version),
        None => Ok(name),
    }
}
