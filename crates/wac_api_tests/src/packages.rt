//! What a package and its key hold and show, and their clones.

use semver::Version;
use std::alloc::{AllocError, Global};
use std::test::Fail;
use wac_script_entries::built;
use wac_test_tools::{debugs, world};
use wac_types::{BorrowedKey, BorrowedPackageKey, Package, PackageKey, same_key};

// A world that imports an instance as `in` and exports it as `out`, and exports the type of a world
// that exports it under the name of an interface as `d`.
const PLUG: &str = "func sync -
iface - e:f=F:fn0
world - e:wasi:http/types=I:i0
world - m:in=I:i0 e:out=I:i0 e:d=T:w0";

// A package of three bytes.
fn package(alloc: Global, version: Option<&Version>) -> Result<Package, Fail> {
    let mut types = built(alloc, 1, PLUG)?;
    let world = world(&types, 1)?;
    let bytes = vec![in alloc; 0, 97, 115]?;
    Ok(Package::from_world(alloc, "a:b", version, bytes, &mut types, world)?)
}

fn package_of_two(alloc: Global) -> Result<Package, Fail> {
    let two = Version::new(0, 2, 0);
    package(alloc, Some(&two))
}

// Whether a package holds what it was made of.
fn holds(package: &Package) -> bool {
    let named = package.name() == "a:b" && package.version() == Some(&Version::new(0, 2, 0));
    let ids = package.ty().index() == 1 && package.instance_type().index() == 1;
    let defined = "{\"d\": Type(Interface(InterfaceId { number: 1, index: 0 }))}";
    named
        && ids
        && package.bytes() == [0, 97, 115].as_slice()
        && debugs(package.definitions(), defined)
}

fn clone_holds(package: &Package) -> Result<bool, AllocError> {
    let copy = package.clone()?;
    Ok(holds(&copy))
}

#[test]
fn a_package_holds_what_it_is_made_of_and_its_clone_does(rt: HostRuntime) -> Result<(), Fail> {
    let package = package_of_two(rt.alloc())?;
    assert!(&rt; holds(&package));
    assert!(&rt; clone_holds(&package)?);
    Ok(())
}

const SHOWN: &str =
    "Package { name: \"a:b\", version: None, bytes: \"...\", ty: WorldId { number: 1, index: 1 }, instance_type: InterfaceId { number: 1, index: 1 }, definitions: {\"d\": Type(Interface(InterfaceId { number: 1, index: 0 }))} }";

#[test]
fn the_bytes_of_a_package_are_not_shown(rt: HostRuntime) -> Result<(), Fail> {
    let package = package(rt.alloc(), None)?;
    assert!(&rt; debugs(&package, SHOWN));
    Ok(())
}

// Whether a key is that of a package, owned and borrowed.
fn is_key_of(key: &PackageKey, package: &Package) -> bool {
    same_key(key, &BorrowedPackageKey::new(package)) && package.key() == key.borrowed_key()
}

#[test]
fn a_key_of_a_package_and_its_clone_have_its_name_and_version(rt: HostRuntime) -> Result<(), Fail> {
    let package = package(rt.alloc(), None)?;
    let key = PackageKey::new(rt.alloc(), &package)?;
    assert!(&rt; is_key_of(&key, &package) && is_key_of(&key.clone()?, &package));
    assert!(&rt; debugs(&key, "PackageKey { name: \"a:b\", version: None }"));
    Ok(())
}
