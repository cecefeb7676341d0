//! The parts of identifiers.

/// An identifier's parts, as of `wasi:http/types@0.2.0`.
#[derive(Clone, Copy, PartialEq, Eq, Debug)]
pub struct IdentifierParts<'a> {
    /// The package, as `wasi:http`.
    pub package: &'a str,
    /// The name in the package, as `types`.
    pub name: &'a str,
    /// The version, if there is one, as `0.2.0`.
    pub version: Option<&'a str>,
}

/// The parts of an identifier; none of a plain name.
pub fn parts_of(id: &str) -> Option<IdentifierParts<'_>> {
    let (package, rest) = id.split_once('/')?;
    let parts = match rest.split_once('@') {
        Some((name, version)) => IdentifierParts {
            package,
            name,
            version: Some(version),
        },
        None => IdentifierParts {
            package,
            name: rest,
            version: None,
        },
    };
    Some(parts)
}

/// The version of a package, if it has one.
pub fn version_of(version: &Option<String>) -> Option<&str> {
    match version {
        Some(version) => Some(version.as_str()),
        None => None,
    }
}
