//! A caller of `Package::from_world`, and of its definitions.

ghost use Rattle.std.specs.Prelude.{◌≡◌, IfOk, OnErr};
ghost use Rattle.wac_types.specs.Definitions.{AreDefinitions};
ghost use Rattle.wac_types.specs.Key.{Stands, world_key};
ghost use Rattle.wac_types.specs.Package.{world_exports};

use semver::Version;
use std::alloc::{AllocError, Global};
use wac_types::{ItemKind, Package, Types, WorldId};

/// The first version of a package, whose component has the type `world`. Its definitions are those
/// among the world's exports, and the type of its instances is added to the collection.
pub fn first_version(
    alloc: Global,
    types: &mut Types,
    name: &str,
    world: WorldId,
) -> Result<Package, AllocError>
    requires { Stands types.old (world_key world) }
    ensures definitions { IfOk result (λ p. AreDefinitions types.old (world_exports types.old world) p.definitions) }
    ensures err { OnErr result (types.new ≡ types.old) }
{
    let version = Version::new(1, 0, 0);
    let bytes = Vec::new(alloc);
    Package::from_world(alloc, name, Some(&version), bytes, types, world)
}

/// What a package defines under a name: an interface or a world, as a type.
pub fn definition(package: &Package, name: &str) -> Option<ItemKind> {
    package.definitions().get(name).copied()
}
