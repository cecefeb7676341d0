//! Packages and their keys.

use super::cases::{Case, Tried, try_each};
use super::cloning::clone;
use super::filling::{UNCHANGED, demand_lines};
use super::trial::Trial;
use semver::Version;
use wac_test_tools::{debugs, shows, world};
use wac_types::{BorrowedKey, BorrowedPackageKey, Package, PackageKey, Types};

// A world that exports an instance, and the type of a world that exports it under the name of an
// interface.
const PLUG: &[&str] = &[
    "func sync -",
    "iface - e:f=F:fn0",
    "world - e:wasi:http/types=I:i0",
    "world - m:in=I:i0 e:out=I:i0 e:d=T:w0",
];

const SHOWN: &str =
    "Package { name: \"a:b\", version: Some(Version { major: 0, minor: 2, patch: 0 }), bytes: \"...\", ty: WorldId { number: 1, index: 1 }, instance_type: InterfaceId { number: 1, index: 1 }, definitions: {\"d\": Type(Interface(InterfaceId { number: 1, index: 0 }))} }";

// The interface that is added for a package.
const ADDED: &[&str] = &["iface - e:out=I:i0 e:d=T:w0"];

// Makes a key of a package, owns a borrowed one, and clones it: the keys are alike, and like the
// package's own.
fn make_key(package: &Package, trial: &mut Trial) {
    let made = PackageKey::new(trial.alloc, package);
    let owned = package.key().into_owned(trial.alloc);
    match (&made, &owned) {
        (Ok(made), Ok(owned)) => {
            trial.demand(made == owned);
            trial.demand(made.borrowed_key() == BorrowedPackageKey::new(package));
            clone(made, trial);
        }
        _ => trial.refuse(),
    }
    trial.demand(shows(&package.key(), "a:b@0.2.0"));
}

// Looks at a package that was made: as it is in one way, and in two others after it is cloned, or
// keys of it are made.
fn look(package: &Package, way: usize, trial: &mut Trial) {
    trial.demand(debugs(package, SHOWN));
    match way {
        0 => {}
        1 => clone(package, trial),
        _ => make_key(package, trial),
    }
    trial.demand(debugs(package, SHOWN));
}

// Whether a package of the second world of a collection is made, which is then looked at.
fn make(types: &mut Types, way: usize, trial: &mut Trial) -> bool {
    let Ok(world) = world(types, 1) else {
        trial.demand(false);
        return false;
    };
    let Ok(bytes) = vec![in trial.alloc; 0, 97, 115] else {
        trial.refuse();
        return false;
    };
    let version = Version::new(0, 2, 0);
    match Package::from_world(trial.alloc, "a:b", Some(&version), bytes, types, world) {
        Ok(package) => {
            look(&package, way, trial);
            true
        }
        Err(_) => {
            trial.refuse();
            false
        }
    }
}

// What is added, if a package is made.
fn lines_added(is_made: bool) -> &'static [&'static str] {
    if is_made { ADDED } else { &[] }
}

// Makes a package, for which an interface is added, or nothing where it is refused.
pub(crate) fn make_package(types: &mut Types, way: usize, trial: &mut Trial) {
    let is_made = make(types, way, trial);
    demand_lines(types, PLUG, &UNCHANGED, lines_added(is_made), trial);
}

static CASES: [Case; 1] = [Case {
    shown: "a package",
    lines: PLUG,
    ways: 3,
    tried: Tried::Package,
}];

#[test]
fn a_package_that_is_refused_leaves_the_collection(rt: HostRuntime) {
    try_each(&rt, rt.alloc(), &CASES);
}
