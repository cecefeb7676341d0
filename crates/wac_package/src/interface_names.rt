//! The names of interfaces.

ghost use Rattle.std.specs.Prelude.{◌≡◌, ◌↔◌, IfOk, IsTrue};
ghost use Rattle.std.specs.List.{list_all};
ghost use Rattle.semver.specs.Parse.{Parts};
ghost use Rattle.wac_names.specs.Reading.{IsVersionText};
ghost use Rattle.wac_package.specs.InterfaceName.{IsInterfaceName, IsInterfacePath, IsLabel, begins_with_letter, is_acronym_byte, is_label_fragment, is_lowercase_or_digit};

use std::alloc::{AllocError, Global};
use wac_names::read_version;

/// Whether a name is that of an interface, as `wasi:http/types` or `wasi:http/types@0.2.0`.
///
/// `Err` is a failed allocation; only a version with a pre-release or build metadata asks for one.
pub(crate) fn is_interface_name(alloc: Global, name: &str) -> Result<bool, AllocError>
    ensures { IfOk result (λ r. IsTrue r ↔ IsInterfaceName name.now) }
{
    let Some((path, version)) = name.split_once('@') else {
        return Ok(is_interface_path(name));
    };
    if !is_interface_path(path) {
        return Ok(false);
    }
    is_version(alloc, version)
}

// Whether a text is a version of SemVer 2.0.0.
fn is_version(alloc: Global, text: &str) -> Result<bool, AllocError>
    ensures { IfOk result (λ r. IsTrue r ↔ ((p : Parts) × IsVersionText text.now p)) }
{
    let version = read_version(alloc, text)?;
    Ok(version.is_some())
}

// Whether a text is `namespace:package/interface`.
fn is_interface_path(text: &str) -> bool
    ensures { IsTrue result ↔ IsInterfacePath text.now }
{
    let Some((namespace, rest)) = text.split_once(':') else {
        return false;
    };
    let Some((package, interface)) = rest.split_once('/') else {
        return false;
    };
    is_label(namespace) && is_label(package) && is_label(interface)
}

// Whether a text is a label.
fn is_label(text: &str) -> bool
    ensures { IsTrue result ↔ IsLabel text.now }
{
    starts_with_letter(text) && text.split('-').all(is_label_fragment)
}

fn starts_with_letter(text: &str) -> bool
    ensures { result ≡ begins_with_letter text.now }
{
    match text.as_bytes().first() {
        Some(b) => b.is_ascii_alphabetic(),
        None => false,
    }
}

// Whether a part of a label is a word or an acronym.
fn is_label_fragment(part: &str) -> bool
    ensures { result ≡ is_label_fragment part.now }
{
    let bytes = part.as_bytes();
    !bytes.is_empty() && (is_word(bytes) || is_acronym(bytes))
}

fn is_word(bytes: &[u8]) -> bool
    ensures { result ≡ list_all is_lowercase_or_digit bytes.now }
{
    bytes
        .iter()
        .all(|b| b.is_ascii_lowercase() || b.is_ascii_digit())
}

fn is_acronym(bytes: &[u8]) -> bool
    ensures { result ≡ list_all is_acronym_byte bytes.now }
{
    bytes
        .iter()
        .all(|b| b.is_ascii_uppercase() || b.is_ascii_digit())
}
