//! Which items are there, by their attributes.

ghost use Rattle.std.specs.Prelude.{◌≡◌};
ghost use Rattle.std.specs.List.{list_any};
ghost use Rattle.std.specs.Str.{bytes_eq};
ghost use Rattle.wac_wit_names.specs.Features.{has_feature};

use super::error::Fault;
use super::reason::Reason;
use semver::Version;
use std::alloc::{AllocError, Global};
use std::cmp::Ordering;
use wac_wit_syntax::{Gate, Gates, Span};

/// Which features are on, and so which items with `@unstable` are there.
#[derive(Clone, Copy)]
pub enum Features<'f> {
    /// None.
    Stable,
    /// Those of these names.
    Named(&'f [&'f str]),
    /// All.
    All,
}

impl Features<'_> {
    /// Whether a feature is on.
    pub fn has(&self, name: &str) -> bool
        ensures { result ≡ has_feature self.now name.now }
    {
        match self {
            Features::Stable => false,
            Features::Named(names) => has_name(names, name),
            Features::All => true,
        }
    }
}

fn has_name(names: &[&str], name: &str) -> bool
    ensures { result ≡ list_any (λ on. bytes_eq on.now name.now) names.now }
{
    names.iter().any(|on| *on == name)
}

/// Whether an item is there.
pub(crate) fn is_there(features: &Features<'_>, gates: &Gates) -> bool {
    match &gates.unstable {
        Some(feature) => features.has(&feature.text),
        None => true,
    }
}

/// Refuses an item that is said to be younger than its package, which has this version.
pub(crate) fn check_since(
    alloc: Global,
    file: usize,
    version: Option<&str>,
    since: &Gate,
    span: Span,
) -> Result<(), Fault> {
    let Some(version) = version else {
        let message = String::from_str(
            alloc,
            "`@since` stands before this item, but the package has no version",
        );
        return Err(Fault::at(file, span, message).because(Reason::Unversioned));
    };
    if is_younger(alloc, &since.text, version) {
        let message = younger(alloc, &since.text, version);
        return Err(Fault::at(file, span, message).because(Reason::Younger));
    }
    Ok(())
}

// Whether a version is above that of a package.
fn is_younger(alloc: Global, item: &str, package: &str) -> bool {
    match (Version::parse(alloc, item), Version::parse(alloc, package)) {
        (Ok(item), Ok(package)) => item.cmp_precedence(&package) == Ordering::Greater,
        _ => false,
    }
}

fn younger(alloc: Global, item: &str, package: &str) -> Result<String, AllocError> {
    format!(in alloc; "this item is there since {item}, but the package has the version {package}")
}
