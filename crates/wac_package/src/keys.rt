//! The keys of packages.

ghost use Rattle.std.specs.Prelude.{◌≡◌, ◌↔◌, IfOk, IsTrue, Some};
ghost use Rattle.std.specs.Option.{option_map};
ghost use Rattle.semver.specs.Identifiers.{parts_of};
ghost use Rattle.wac_package.specs.Key.{KeyContent, borrowed_content, key_cmp, key_eq, key_text, key_writes};
ghost use Rattle.wac_package.specs.KeyLaws.{key_cmp_total, key_eq_equiv, key_ties, keys_fed_alike};
ghost use Rattle.std.specs.Cmp.{on_equiv, on_per, partial_equiv_from_equiv, po};
ghost use Rattle.std.proofs.Common.{refl};

use crate::packages::Package;
use semver::Version;
use std::alloc::{AllocError, Global};
use std::cmp::Ordering;
use std::fmt;
use std::hash::{Hash, Hasher};
use std::marker::Model;

/// Identifies a package: its name, and its version if it has one.
///
/// Keys are ordered by name, and those of one name by version, of which none comes first.
#[derive(Debug, Drop)]
pub struct PackageKey {
    name: String,
    version: Option<Version>,
}

impl Model for PackageKey {
    ghost use Rattle.wac_package.specs.Key.{KeyContent};

    ghost Value = { KeyContent };

    ghost use Rattle.std.specs.Prelude.{string_bytes};
    ghost use Rattle.std.specs.Option.{option_map};
    ghost use Rattle.semver.specs.Identifiers.{parts_of};

    ghost view = { λ k. record { name = string_bytes k.name; version = option_map parts_of k.version } };
}

impl PackageKey {
    /// The key of a package. `Err` is a failed allocation.
    pub fn new(alloc: Global, package: &Package) -> Result<PackageKey, AllocError>
        ensures { IfOk result (λ k. k ≡ «package».now.key) }
    {
        BorrowedPackageKey::new(package).into_owned(alloc)
    }

    /// The name of the package.
    pub fn name(&self) -> &str
        ensures { result.now ≡ self.now.name }
    {
        self.name.as_str()
    }

    /// The version of the package.
    pub fn version(&self) -> Option<&Version>
        ensures { option_map (λ v. parts_of v.now) result ≡ self.now.version }
    {
        self.version.as_ref()
    }
}

impl Clone for PackageKey {
    ghost is_clone = { λ j k. k ≡ j };

    fn clone(&self) -> Result<PackageKey, AllocError> {
        Ok(PackageKey {
            name: self.name.clone()?,
            version: self.version.clone()?,
        })
    }
}

impl PartialEq for PackageKey {
    ghost eq = { key_eq };

    ghost laws = { partial_equiv_from_equiv key_eq_equiv };

    fn eq(&self, other: &PackageKey) -> bool {
        self.name == other.name && self.version == other.version
    }
}

impl Eq for PackageKey {
    ghost laws = { key_eq_equiv };
}

impl PartialOrd for PackageKey {
    ghost partial_cmp = { λ j k. Some (key_cmp j k) };

    ghost laws = { po key_cmp_total key_ties };

    fn partial_cmp(&self, other: &PackageKey) -> Option<Ordering> {
        Some(self.cmp(other))
    }
}

impl Ord for PackageKey {
    ghost cmp = { key_cmp };

    ghost total = { key_cmp_total };

    ghost matches_partial_cmp = { λ j k. refl };

    ghost matches_eq = { key_ties };

    fn cmp(&self, other: &PackageKey) -> Ordering {
        self.name
            .cmp(&other.name)
            .then(self.version.cmp(&other.version))
    }
}

impl Hash for PackageKey {
    ghost hash_input = { key_writes };

    ghost respects_eq = { keys_fed_alike };

    fn hash<H: Hasher>(&self, state: &mut H) {
        self.name.hash(state);
        self.version.hash(state);
    }
}

impl fmt::Display for PackageKey {
    ghost output = { λ k. Some (key_text k) };

    fn fmt<W: fmt::Write>(&self, f: &mut fmt::Formatter<W>) -> fmt::Result {
        fmt::Display::fmt(&self.borrowed_key(), f)
    }
}

/// A key whose name and version are borrowed.
#[derive(Clone, Copy)]
pub struct BorrowedPackageKey<'a> {
    /// The name of the package.
    pub name: &'a str,
    /// The version of the package.
    pub version: Option<&'a Version>,
}

impl<'a> BorrowedPackageKey<'a> {
    /// The key of a package.
    pub fn new(package: &'a Package) -> Self
        ensures { borrowed_content result ≡ «package».entry.now.key }
    {
        package.key()
    }

    /// The key of a package of this name and this version.
    pub fn from_name_and_version(name: &'a str, version: Option<&'a Version>) -> Self
        ensures name { result.name ≡ name.entry }
        ensures version { result.version ≡ version.entry }
    {
        Self { name, version }
    }

    /// A key of its own with the same name and the same version. `Err` is a failed allocation.
    pub fn into_owned(self, alloc: Global) -> Result<PackageKey, AllocError>
        ensures { IfOk result (λ k. k ≡ borrowed_content self.entry) }
    {
        let name = String::from_str(alloc, self.name)?;
        let version = match self.version {
            Some(version) => Some(version.clone()?),
            None => None,
        };
        Ok(PackageKey { name, version })
    }
}

impl PartialEq for BorrowedPackageKey<'_> {
    ghost eq = { λ j k. key_eq (borrowed_content j) (borrowed_content k) };

    ghost laws = { on_per borrowed_content (partial_equiv_from_equiv key_eq_equiv) };

    fn eq(&self, other: &Self) -> bool {
        self.version == other.version && self.name == other.name
    }
}

impl Eq for BorrowedPackageKey<'_> {
    ghost laws = { on_equiv borrowed_content key_eq_equiv };
}

impl Hash for BorrowedPackageKey<'_> {
    ghost hash_input = { λ k. key_writes (borrowed_content k) };

    ghost respects_eq = { λ j k. keys_fed_alike (borrowed_content j) (borrowed_content k) };

    fn hash<H: Hasher>(&self, state: &mut H) {
        (self.name, self.version).hash(state);
    }
}

impl fmt::Display for BorrowedPackageKey<'_> {
    ghost output = { λ k. Some (key_text (borrowed_content k)) };

    fn fmt<W: fmt::Write>(&self, f: &mut fmt::Formatter<W>) -> fmt::Result {
        let BorrowedPackageKey { name, version } = self;
        match version {
            Some(version) => write!(f, "{name}@{version}"),
            None => write!(f, "{name}"),
        }
    }
}

/// What can be borrowed as a package key.
pub trait BorrowedKey {
    // What the key stands for.
    ghost key: { Self → KeyContent };

    /// Borrows the key as a borrowed package key.
    fn borrowed_key(&self) -> BorrowedPackageKey<'_>
        ensures { borrowed_content result ≡ key self.now };
}

impl BorrowedKey for PackageKey {
    ghost key = { λ k. k };

    fn borrowed_key(&self) -> BorrowedPackageKey<'_> {
        BorrowedPackageKey {
            name: self.name(),
            version: self.version(),
        }
    }
}

impl BorrowedKey for BorrowedPackageKey<'_> {
    ghost key = { borrowed_content };

    fn borrowed_key(&self) -> BorrowedPackageKey<'_> {
        *self
    }
}

/// Whether two keys have the same name and the same version, where what borrows as a key is known.
pub fn is_same_key<A: BorrowedKey, B: BorrowedKey>(a: &A, b: &B) -> bool
    ensures { IsTrue result ↔ (A.key a.now ≡ B.key b.now) }
{
    a.borrowed_key() == b.borrowed_key()
}

/// Whether two keys have the same name and the same version. `is_same_key` says the same of keys
/// whose types are known, to a caller that is proved.
pub fn same_key(a: &dyn BorrowedKey, b: &dyn BorrowedKey) -> bool
    ensures { IsTrue result ↔ (key a.now ≡ key b.now) }
{
    a.borrowed_key() == b.borrowed_key()
}
