//! The answer about two packages.

use super::lines::push_on_one_line;
use semver::Version;
use std::alloc::{AllocError, Global};
use std::cmp::Ordering;
use wac_names::read_version;
use wac_package::{BorrowedPackageKey, PackageKey, same_key};
use wac_script_syntax::{ScriptError, read_name, unexpected};

// The version that a word is, or none for `-`.
fn version_of(alloc: Global, word: &str) -> Result<Option<Version>, ScriptError<'_>> {
    if word == "-" {
        return Ok(None);
    }
    match read_version(alloc, word)? {
        Some(version) => Ok(Some(version)),
        None => Err(unexpected("a version", word)),
    }
}

// The key of a package.
fn key_of<'a>(
    alloc: Global,
    name: &'a str,
    version: &'a str,
) -> Result<PackageKey, ScriptError<'a>> {
    let name = read_name(alloc, name)?;
    let version = version_of(alloc, version)?;
    let key = BorrowedPackageKey::from_name_and_version(name.as_str(), version.as_ref());
    Ok(key.into_owned(alloc)?)
}

// Puts the text of a key on one line and a space last.
fn push_key(alloc: Global, text: &mut String, key: &PackageKey) -> Result<(), AllocError> {
    push_on_one_line(text, &key.to_string(alloc)?)?;
    text.push_str(" ")
}

// How two keys are ordered, and a space.
fn ordering_word(a: &PackageKey, b: &PackageKey) -> &'static str {
    match a.cmp(b) {
        Ordering::Less => "less ",
        Ordering::Equal => "equal ",
        Ordering::Greater => "greater ",
    }
}

/// Puts the answer to `pkg` last: the texts of the two keys, each on one line; `less`, `equal`
/// or `greater` by the order of keys; and `same` or `different`. `Keys` comes where the call
/// through `dyn` doesn't say of two keys what `==` does; no contract can tell here what the
/// keys that it is given stand for.
pub(crate) fn packages<'a>(
    alloc: Global,
    text: &mut String,
    words: &[&'a str],
) -> Result<(), ScriptError<'a>> {
    let [name, version, other, other_version] = *words else {
        return Err(ScriptError::Misused("pkg NAME VERSION|- NAME VERSION|-"));
    };
    let left = key_of(alloc, name, version)?;
    let right = key_of(alloc, other, other_version)?;
    push_keys(alloc, text, &left, &right)
}

// Puts the texts of two keys, how they are ordered, and whether they are equal last.
fn push_keys<'a>(
    alloc: Global,
    text: &mut String,
    a: &PackageKey,
    b: &PackageKey,
) -> Result<(), ScriptError<'a>> {
    let same = a == b;
    if same_key(a, b) != same {
        return Err(ScriptError::Keys);
    }
    push_key(alloc, text, a)?;
    push_key(alloc, text, b)?;
    text.push_str(ordering_word(a, b))?;
    text.push_str(if same { "same" } else { "different" })?;
    Ok(())
}
