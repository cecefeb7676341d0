//! Packages.

ghost use Rattle.std.specs.Prelude.{◌≡◌, ◌∷◌, ◌++◌, [], None, length, IfOk, OnErr, OnOk};
ghost use Rattle.std.specs.Option.{option_map};
ghost use Rattle.semver.specs.Identifiers.{parts_of};
ghost use Rattle.wac_component.specs.Content.{interface_content, named, world_content};
ghost use Rattle.wac_component.specs.Growth.{Extends};
ghost use Rattle.wac_component.specs.Key.{Stands, interface_key, world_key};
ghost use Rattle.wac_package.specs.Definitions.{AreDefinitions};
ghost use Rattle.wac_package.specs.Key.{borrowed_content};
ghost use Rattle.wac_package.specs.Package.{world_exports};

use crate::definitions::find_definitions;
use crate::keys::{BorrowedKey, BorrowedPackageKey, PackageKey};
use indexmap::IndexMap;
use semver::Version;
use std::alloc::{AllocError, Global};
use std::fmt;
use std::marker::Model;
use wac_component::{Interface, InterfaceId, ItemKind, Types, World, WorldId};

/// A package: a component, with its name and its version.
pub struct Package {
    key: PackageKey,
    bytes: Vec<u8>,
    ty: WorldId,
    instance_type: InterfaceId,
    definitions: IndexMap<String, ItemKind>,
}

// By hand, as of `Types`.
impl Drop for Package {
    fn drop(self) {
        let Package {
            key: _,
            bytes: _,
            ty: _,
            instance_type: _,
            definitions: _,
        } = self;
    }
}

impl Model for Package {
    ghost use Rattle.wac_package.specs.Package.{PackageContent};

    ghost Value = { PackageContent };

    ghost use Rattle.wac_component.specs.Content.{named};

    ghost view = { λ p. record { key = p.key; bytes = p.bytes.items; ty = p.ty; instance_type = p.instance_type; definitions = named (λ k. k) p.definitions.entries } };
}

impl Package {
    /// A package of this name and version, whose component has the type `world`.
    ///
    /// An interface without identifier and uses is added to the collection, with the exports of the
    /// world: it is the type of the component's instances. `Err` is a failed allocation, and leaves
    /// the collection as it was. Nothing is said of the bytes.
    pub fn from_world(
        alloc: Global,
        name: &str,
        version: Option<&Version>,
        bytes: Vec<u8>,
        types: &mut Types,
        world: WorldId,
    ) -> Result<Package, AllocError>
        requires { Stands types.old (world_key world) }
        ensures key { IfOk result (λ p. p.key ≡ record { name = name.now; version = option_map (λ v. parts_of v.now) version.entry }) }
        ensures bytes { IfOk result (λ p. p.bytes ≡ bytes.items) }
        ensures ty { IfOk result (λ p. p.ty ≡ world) }
        ensures instance_type { IfOk result (λ p. p.instance_type ≡ record { number = types.old.number; index = length types.old.interfaces }) }
        ensures definitions { IfOk result (λ p. AreDefinitions types.old (world_exports types.old world) p.definitions) }

        // The interface is added, and nothing else changes.
        ensures added { OnOk result (types.new ≡ record types.old { interfaces = types.old.interfaces ++ record { id = None; uses = []; exports = world_exports types.old world } ∷ [] }) }
        ensures stands { IfOk result (λ p. Stands types.new (interface_key p.instance_type)) }
        ensures grows { Extends types.old types.new }
        ensures err { OnErr result (types.new ≡ types.old) }
    {
        let key = BorrowedPackageKey::from_name_and_version(name, version).into_owned(alloc)?;
        let definitions = find_definitions(alloc, types, &types[world].exports)?;
        let interface = instance_of(alloc, &types[world])?;
        let instance_type = types.add_interface(interface)?;
        Ok(Package {
            key,
            bytes,
            ty: world,
            instance_type,
            definitions,
        })
    }

    /// The key of the package.
    pub fn key(&self) -> BorrowedPackageKey<'_>
        ensures { borrowed_content result ≡ self.now.key }
    {
        self.key.borrowed_key()
    }

    /// The name of the package.
    pub fn name(&self) -> &str
        ensures { result.now ≡ self.now.key.name }
    {
        self.key.name()
    }

    /// The version of the package.
    pub fn version(&self) -> Option<&Version>
        ensures { option_map (λ v. parts_of v.now) result ≡ self.now.key.version }
    {
        self.key.version()
    }

    /// The bytes of the package, a binary-encoded component.
    pub fn bytes(&self) -> &[u8]
        ensures { result.now ≡ self.now.bytes }
    {
        &self.bytes
    }

    /// The world of the component.
    pub fn ty(&self) -> WorldId
        ensures { result ≡ self.now.ty }
    {
        self.ty
    }

    /// The interface of the component's instances.
    pub fn instance_type(&self) -> InterfaceId
        ensures { result ≡ self.now.instance_type }
    {
        self.instance_type
    }

    /// The interfaces and worlds that the package defines, by name, in the order of the exports
    /// that define them.
    pub fn definitions(&self) -> &IndexMap<String, ItemKind>
        ensures { named (λ k. k) result.now.entries ≡ self.now.definitions }
    {
        &self.definitions
    }
}

// The interface of the instances of a world's components.
fn instance_of(alloc: Global, world: &World) -> Result<Interface, AllocError>
    ensures { IfOk result (λ i. interface_content i ≡ record { id = None; uses = []; exports = (world_content world.now).exports }) }
{
    Ok(Interface {
        id: None,
        uses: IndexMap::new(alloc),
        exports: world.exports.clone()?,
    })
}

impl Clone for Package {
    ghost is_clone = { λ p q. q ≡ p };

    fn clone(&self) -> Result<Package, AllocError> {
        Ok(Package {
            key: self.key.clone()?,
            bytes: self.bytes.clone()?,
            ty: self.ty,
            instance_type: self.instance_type,
            definitions: self.definitions.clone()?,
        })
    }
}

impl fmt::Debug for Package {
    fn fmt<W: fmt::Write>(&self, f: &mut fmt::Formatter<W>) -> fmt::Result {
        f.debug_struct("Package")
            .field("name", &self.name())
            .field("version", &self.version())
            .field("bytes", &"...")
            .field("ty", &self.ty)
            .field("instance_type", &self.instance_type)
            .field("definitions", &self.definitions)
            .finish()
    }
}
