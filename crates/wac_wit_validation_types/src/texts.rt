//! Texts of packages and of interfaces.

ghost use Rattle.std.specs.Prelude.{◌≡◌, ◌++◌, IfSome, IsTrue, Option, Some, codes, string_bytes, ◌≢◌};
ghost use Rattle.std.specs.Option.{option_map};
ghost use Rattle.wac_wit_scopes.specs.WitSources.{interface_identifier, package_id, version_part, version_text};
ghost use Rattle.wac_wit_validation_types.specs.Placed.{package_text, PlacedInterface, placed_identifier};

use wac_wit_syntax::{Gate, PackageName};

/// What stands behind a word, if a text begins with it.
pub(crate) fn behind<'t>(word: &str, text: &'t str) -> Option<&'t str>
    ensures { IfSome result (λ rest. text.now ≡ word.now ++ rest.now) }
{
    text.strip_prefix(word)
}

/// Whether two texts are one.
pub fn is_word(left: &str, right: &str) -> bool
    ensures { IsTrue result → left.now ≡ right.now }
{
    left == right
}

/// Whether a text is the name of a package without its version.
pub fn is_package_text(package: &PackageName, text: &str) -> bool
    ensures { IsTrue result → package_text (package_id «package».now) ≡ text.now }
{
    let Some(rest) = behind(&package.namespace.name, text) else {
        return false;
    };
    match behind(":", rest) {
        Some(rest) => is_word(rest, &package.name.name),
        None => false,
    }
}

/// Whether a text is the version of a package, or none where it has none.
pub fn is_version_text(package: &PackageName, text: &Option<String>) -> bool
    ensures { IsTrue result → version_text «package».now.version ≡ option_map string_bytes text.now }
{
    match (&package.version, text) {
        (Some(version), Some(text)) => version.text == *text,
        (None, None) => true,
        _ => false,
    }
}

/// Whether there is a text, which is the identifier of an interface of a package.
pub fn is_identifier_of(package: &PackageName, name: &str, text: &Option<String>) -> bool
    ensures { IsTrue result → option_map string_bytes text.now ≡ Some (interface_identifier (package_id «package».now) name.now) }
{
    let Some(text) = text else {
        return false;
    };
    is_identifier_text(package, name, text)
}

/// Whether a text is the identifier of an interface of a package.
pub fn is_identifier_text(package: &PackageName, name: &str, text: &str) -> bool
    ensures { IsTrue result → text.now ≡ interface_identifier (package_id «package».now) name.now }
{
    let Some(rest) = behind(&package.namespace.name, text) else {
        return false;
    };
    let Some(rest) = behind(":", rest) else {
        return false;
    };
    let Some(rest) = behind(&package.name.name, rest) else {
        return false;
    };
    is_name_with_version(&package.version, name, rest)
}

// Whether a text is a name behind a slash, and a version, if there is one.
fn is_name_with_version(version: &Option<Gate>, name: &str, text: &str) -> bool
    ensures { IsTrue result → text.now ≡ codes "/" ++ name.now ++ version_part (version_text version.now) }
{
    let Some(rest) = behind("/", text) else {
        return false;
    };
    match behind(name, rest) {
        Some(rest) => is_version_suffix(version, rest),
        None => false,
    }
}

fn is_version_suffix(version: &Option<Gate>, text: &str) -> bool
    ensures { IsTrue result → text.now ≡ version_part (version_text version.now) }
{
    match version {
        Some(version) => is_text_behind_at(&version.text, text),
        None => text.is_empty(),
    }
}

fn is_text_behind_at(version: &str, text: &str) -> bool
    ensures { IsTrue result → text.now ≡ codes "@" ++ version.now }
{
    match behind("@", text) {
        Some(rest) => is_word(rest, version),
        None => false,
    }
}

/// Whether a name isn't the identifier of an interface.
pub fn is_plain(name: &str) -> bool
    ensures { IsTrue result → (i : PlacedInterface) → name.now ≢ placed_identifier i }
{
    !name.contains("/")
}
