//! The tracks of names.

ghost use Rattle.std.specs.Prelude.{◌≡◌, ◌≤◌, ◌↔◌, [], Ok, None, IfOk, IsOk, IsTrue, MatchOption, length, take};
ghost use Rattle.std.specs.Option.{option_copied};
ghost use Rattle.std.specs.Str.{IsCharBoundary};
ghost use Rattle.semver.specs.Identifiers.{parts_of};
ghost use Rattle.semver.specs.Parse.{Parts, memory_error};
ghost use Rattle.wac_model.specs.Text.{Text};
ghost use Rattle.wac_names.specs.Reading.{IsKeyFront, IsNoVersionText, IsVersionText};
ghost use Rattle.wac_names.specs.Track.{IsCompatible, IsKeyOf, IsPlainName, IsTracked, IsVersionOrder};

use semver::Version;
use std::alloc::{AllocError, Global};
use std::cmp::Ordering;

// Whether an error of a reader is a failed allocation.
fn is_memory(e: &semver::Error) -> bool
    ensures { IsTrue result ↔ (e.now ≡ memory_error) }
{
    *e == semver::Error::from(AllocError)
}

/// The version that a text is, where it is one of SemVer 2.0.0 (items 2, 9
/// and 10) with numbers below 2^64.
///
/// `Err` is a failed allocation; only a version with a pre-release or build metadata asks for one.
pub fn read_version(alloc: Global, text: &str) -> Result<Option<Version>, AllocError>
    ensures read { IfOk result (λ r. MatchOption r (IsNoVersionText text.now) (λ v. IsVersionText text.now (parts_of v))) }
    ensures no_version { IsNoVersionText text.now → result ≡ Ok None }
    ensures plain { (p : Parts) → IsVersionText text.now p → p.3 ≡ [] → p.4 ≡ [] → IsOk result }
{
    match Version::parse(alloc, text) {
        Ok(version) => Ok(Some(version)),
        Err(e) => {
            if is_memory(&e) {
                Err(AllocError)
            } else {
                Ok(None)
            }
        }
    }
}

// How much of a version's text ends its track key.
fn key_front(text: &str, version: &Version) -> Option<usize>
    requires { IsVersionText text.now (parts_of version.now) }
    ensures { MatchOption result ((version.now.major ≡ 0) × (version.now.minor ≡ 0)) (λ n. (n ≤ length text.now) × IsCharBoundary text.now n × IsKeyFront (parts_of version.now) (take n text.now)) }
{
    let (major, rest) = text.split_once('.').unwrap();
    if version.major != 0 {
        return Some(major.len());
    }
    if version.minor == 0 {
        return None;
    }
    let (minor, _) = rest.split_once('.').unwrap();
    Some(major.len() + 1 + minor.len())
}

/// The track key of a name and its version, where it has one.
pub(crate) fn tracked(alloc: Global, name: &str) -> Result<Option<(&str, Version)>, AllocError>
    ensures key { IfOk result (λ r. MatchOption r ((key : Text) (p : Parts) → IsTracked name.now key p → ⊥) (λ r. IsTracked name.now r.0.now (parts_of r.1))) }
    ensures no_memory { IsPlainName name.now → IsOk result }
{
    let Some((base, text)) = name.split_once('@') else {
        return Ok(None);
    };
    let Some(version) = read_version(alloc, text)? else {
        return Ok(None);
    };
    if !version.pre.is_empty() {
        return Ok(None);
    }
    let Some(n) = key_front(text, &version) else {
        return Ok(None);
    };
    Ok(Some((&name[..base.len() + 1 + n], version)))
}

/// The track key of a name, where it has one: `x:y/z@1` of `x:y/z@1.2.3`, and `x:y/z@0.2` of
/// `x:y/z@0.2.3`. What stands after the first `@` has to be a version of SemVer 2.0.0 (items 2, 9
/// and 10) with numbers below 2^64, no pre-release, and a major or a minor number that is not 0.
///
/// `Err` is a failed allocation; only a version with a pre-release or build metadata asks for one.
pub fn track_of(alloc: Global, name: &str) -> Result<Option<&str>, AllocError>
    ensures key { IfOk result (λ r. IsKeyOf name.now (option_copied r)) }
    ensures no_memory { IsPlainName name.now → IsOk result }
{
    let Some((key, _version)) = tracked(alloc, name)? else {
        return Ok(None);
    };
    Ok(Some(key))
}

/// Whether two names are equal or have the same track key.
///
/// `Err` is a failed allocation; only versions with a pre-release or build metadata ask for one.
pub fn are_semver_compatible(alloc: Global, a: &str, b: &str) -> Result<bool, AllocError>
    ensures answer { IfOk result (λ r. IsTrue r ↔ IsCompatible a.now b.now) }
    ensures no_memory { IsPlainName a.now → IsPlainName b.now → IsOk result }
    ensures itself { a.now ≡ b.now → IsOk result }
{
    if a == b {
        return Ok(true);
    }
    let Some(key) = track_of(alloc, a)? else {
        return Ok(false);
    };
    match track_of(alloc, b)? {
        Some(other) => Ok(key == other),
        None => Ok(false),
    }
}

/// How the version of a name stands to that of another on the track that both stand on: by
/// major, minor and patch number (SemVer 2.0.0, item 11), and then by build metadata. None where
/// they stand on no common track.
///
/// `Err` is a failed allocation; only versions with a pre-release or build metadata ask for one.
pub fn version_cmp(alloc: Global, a: &str, b: &str) -> Result<Option<Ordering>, AllocError>
    ensures answer { IfOk result (IsVersionOrder a.now b.now) }
    ensures no_memory { IsPlainName a.now → IsPlainName b.now → IsOk result }
{
    let Some((key, version)) = tracked(alloc, a)? else {
        return Ok(None);
    };
    let Some((other, other_version)) = tracked(alloc, b)? else {
        return Ok(None);
    };
    if key == other {
        return Ok(Some(version.cmp(&other_version)));
    }
    Ok(None)
}
