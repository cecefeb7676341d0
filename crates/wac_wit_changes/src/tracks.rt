//! Which packages of two versions belong together, and what their versions promise.

ghost use Rattle.std.specs.Prelude.{◌≡◌, ◌↔◌, ◌++◌, ℕ, List, [], ◌∷◌, IfOk, IsTrue, OnOk, codes, length, string_bytes};
ghost use Rattle.std.specs.Option.{option_map};
ghost use Rattle.wac_component.specs.Growth.{Extends};
ghost use Rattle.wac_targets.specs.Named.{IsMapOf};
ghost use Rattle.wac_types.specs.Pairs.{IsFound, with_pair};
ghost use Rattle.wac_types.specs.Text.{Text};
ghost use Rattle.wac_wit.specs.declared.packages.WitPackage.{WitPackage};
ghost use Rattle.wac_wit_changes.specs.Comparing.{AreOnTrack, IsPromiseOf, identifier_in};
ghost use Rattle.wac_wit_changes.specs.Sides.{FindsCounterpart, KnowsPackages};
ghost use Rattle.wac_wit_changes.specs.declared.report.Promise.{Promise};
ghost use Rattle.wac_wit_scopes.specs.WitSources.{version_part};

use super::report::Promise;
use indexmap::IndexMap;
use std::alloc::{AllocError, Global};
use wac_component::{ItemKind, Types, WorldId};
use wac_types::{NameMap, NameMapNoIntern};
use wac_wit::{Wit, WitPackage};
use wac_wit_entries::{EntryError, parts_of, version_of, world};

/// The new package that an old one is compared with.
#[derive(Clone, Copy)]
pub(crate) struct Counterpart {
    /// The index among the new packages.
    pub(crate) index: usize,
    /// Whether both are on one track of SemVer, so that nothing may break.
    pub(crate) is_on_track: bool,
}

/// The indices of new packages, by what is known of them.
pub(crate) struct NewPackages {
    // the last of each name
    names: IndexMap<String, usize>,
    // by the identifier of an interface `a` in it: of one version, or else of the greatest on its
    // track
    versions: NameMap<String, usize>,
}

impl Drop for NewPackages {
    fn drop(self) {
        let NewPackages {
            names: _,
            versions: _,
        } = self;
    }
}

impl NewPackages {
    /// Those of these packages.
    pub(crate) fn new(alloc: Global, packages: &[WitPackage]) -> Result<NewPackages, AllocError>
        ensures { IfOk result (KnowsPackages packages.now) }
    {
        let mut known = NewPackages {
            names: IndexMap::new(alloc),
            versions: NameMap::new(alloc),
        };
        for (index, package) in packages.iter().enumerate() {
            known.add(package, index)?;
        }
        Ok(known)
    }

    // Those of one package more, which has this index.
    fn add(&mut self, new: &WitPackage, index: usize) -> Result<(), AllocError>
        ensures { (news : List WitPackage) → KnowsPackages news self.old → index ≡ length news → OnOk result (KnowsPackages (news ++ new.now ∷ []) self.new) }
    {
        let version = identifier_in(new)?;
        put(&mut self.versions, &version, index)?;
        self.names.insert(new.name.clone()?, index)?;
        Ok(())
    }

    // The package of a version, or else the one of the greatest version on its track.
    fn on_track(&self, version: &str) -> Result<Option<usize>, AllocError>
        ensures { (ps : List (Text × ℕ)) → IsMapOf self.now.versions ps → IfOk result (IsFound ps version.now) }
    {
        Ok(self.versions.get(version, &NameMapNoIntern)?.copied())
    }

    /// The new package that an old one is compared with: of several of its name the one of its
    /// version, or else the one of the greatest version on its track, or else the last.
    pub(crate) fn counterpart(&self, old: &WitPackage) -> Result<Option<Counterpart>, AllocError>
        ensures { (news : List WitPackage) → KnowsPackages news self.now → IfOk result (FindsCounterpart news old.now) }
    {
        let version = identifier_in(old)?;
        if let Some(index) = self.on_track(&version)? {
            let is_on_track = true;
            return Ok(Some(Counterpart { index, is_on_track }));
        }
        let is_on_track = false;
        match self.names.get(old.name.as_str()) {
            Some(index) => Ok(Some(Counterpart {
                index: *index,
                is_on_track,
            })),
            None => Ok(None),
        }
    }
}

/// What the versions of an old package and of the one that it is compared with promise.
pub(crate) fn promise_of(is_on_track: bool) -> Promise
    ensures promise { (old new : WitPackage) → (IsTrue is_on_track ↔ AreOnTrack old new) → IsPromiseOf old new result }
    ensures own { result ≡ Promise.Same → IsTrue is_on_track }
{
    if is_on_track {
        Promise::Same
    } else {
        Promise::Other
    }
}

// The identifier of an interface `a` in a package.
fn identifier_in(of: &WitPackage) -> Result<String, AllocError>
    ensures { IfOk result (λ t. string_bytes t ≡ identifier_in of.now (codes "a")) }
{
    let mut text = of.name.clone()?;
    text.push_str("/")?;
    text.push_str("a")?;
    push_version(&mut text, &of.version)?;
    Ok(text)
}

fn push_version(text: &mut String, version: &Option<String>) -> Result<(), AllocError>
    ensures { OnOk result (string_bytes text.new ≡ string_bytes text.old ++ version_part (option_map string_bytes version.now)) }
{
    let Some(version) = version else {
        return Ok(());
    };
    text.push_str("@")?;
    text.push_str(version)?;
    Ok(())
}

/// A world whose imports and exports have the versions that new packages have, where no new package
/// is on the track of theirs: so worlds of two tracks are compared by names.
pub(crate) fn moved_world(
    alloc: Global,
    types: &mut Types,
    id: WorldId,
    new: &Wit,
    packages: &NewPackages,
) -> Result<WorldId, EntryError>
    ensures { Extends types.old types.new }
{
    let Some(old) = world(types, id) else {
        return Err(EntryError::Missing);
    };
    let mut moved = old.clone()?;
    moved.imports = moved_names(alloc, &moved.imports, new, packages)?;
    moved.exports = moved_names(alloc, &moved.exports, new, packages)?;
    if !types.can_add_world(&moved) {
        return Err(EntryError::Missing);
    }
    Ok(types.add_world(moved)?)
}

fn moved_names(
    alloc: Global,
    items: &IndexMap<String, ItemKind>,
    new: &Wit,
    packages: &NewPackages,
) -> Result<IndexMap<String, ItemKind>, AllocError> {
    let mut moved = IndexMap::new(alloc);
    for (name, item) in items {
        moved.insert(moved_name(alloc, name, new, packages)?, *item)?;
    }
    Ok(moved)
}

fn moved_name(
    alloc: Global,
    id: &str,
    new: &Wit,
    packages: &NewPackages,
) -> Result<String, AllocError> {
    let Some(parts) = parts_of(id) else {
        return String::from_str(alloc, id);
    };
    let version = id_in(alloc, parts.package, parts.version)?;
    if packages.on_track(&version)?.is_some() {
        return String::from_str(alloc, id);
    }
    let Some(package) = last_named(new, packages, parts.package) else {
        return String::from_str(alloc, id);
    };
    let (of, name) = (parts.package, parts.name);
    match version_of(&package.version) {
        Some(version) => format!(in alloc; "{of}/{name}@{version}"),
        None => format!(in alloc; "{of}/{name}"),
    }
}

// The identifier of an interface `a` in a package of this name and version.
fn id_in(alloc: Global, package: &str, version: Option<&str>) -> Result<String, AllocError> {
    match version {
        Some(version) => format!(in alloc; "{package}/a@{version}"),
        None => format!(in alloc; "{package}/a"),
    }
}

// The last new package of a name.
fn last_named<'n>(new: &'n Wit, packages: &NewPackages, name: &str) -> Option<&'n WitPackage> {
    new.packages.get(*packages.names.get(name)?)
}

/// Items by their names and the tracks of those, as the library looks names up.
pub(crate) fn by_tracks(
    alloc: Global,
    items: &IndexMap<String, ItemKind>,
) -> Result<NameMap<String, ItemKind>, AllocError> {
    let mut tracks = NameMap::new(alloc);
    for (name, item) in items {
        put(&mut tracks, name, *item)?;
    }
    Ok(tracks)
}

// Puts a value under a name, whatever was there.
fn put<V: Drop>(map: &mut NameMap<String, V>, name: &str, value: V) -> Result<(), AllocError>
    ensures { (ps : List (Text × V)) → IsMapOf map.old ps → OnOk result (IsMapOf map.new (with_pair ps name.now value)) }
{
    match map.insert(name, &mut NameMapNoIntern, true, value) {
        Ok(_) => Ok(()),
        Err(_) => Err(AllocError),
    }
}

/// The item under a name, or else the one of the highest version on its track.
pub(crate) fn on_track<'t>(
    tracks: &'t NameMap<String, ItemKind>,
    name: &str,
) -> Result<Option<&'t ItemKind>, AllocError> {
    tracks.get(name, &NameMapNoIntern)
}
