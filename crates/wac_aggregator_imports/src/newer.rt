//! Which of two names on one track has the higher version.

ghost use Rattle.std.specs.Prelude.{◌≡◌, IfOk};
ghost use Rattle.semver.specs.Identifiers.{parts_of};
ghost use Rattle.semver.specs.Parse.{Parts};
ghost use Rattle.wac_model.specs.Text.{Text};
ghost use Rattle.wac_names.specs.Track.{HasTrackKey, IsTracked, SameKey};
ghost use Rattle.wac_aggregator_imports.specs.Import.{IsNewerBy};

use semver::Version;
use std::alloc::{AllocError, Global};
use std::cmp::Ordering;
use wac_names::read_version;

/// Whether a name has a higher version than another one on its track.
pub(crate) fn is_newer(alloc: Global, name: &str, than: &str) -> Result<bool, AllocError>
    requires { SameKey name.now than.now }
    ensures { IfOk result (λ b. IsNewerBy name.now than.now b) }
{
    let version = track_version(alloc, name)?;
    let other = track_version(alloc, than)?;
    Ok(version.cmp(&other) == Ordering::Greater)
}

// The version of a name on a track. Its track key isn't cut out, for it is known to have one.
fn track_version(alloc: Global, name: &str) -> Result<Version, AllocError>
    requires { (key : Text) × HasTrackKey name.now key }
    ensures { IfOk result (λ v. (key : Text) (parts : Parts) → IsTracked name.now key parts → parts_of v ≡ parts) }
{
    let (_, text) = name.split_once('@').unwrap();
    let version = read_version(alloc, text)?;
    Ok(version.unwrap())
}
