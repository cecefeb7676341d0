//! Makes packages of files, and says whether they are what the texts denote.

ghost use Rattle.std.specs.Prelude.{◌≡◌, IfOk, IsTrue};
ghost use Rattle.wac_wit.specs.Read.{AreReadInterfaces, AreReadWorlds, IsEachRead, IsReadPackage, KeepsKnowing};
ghost use Rattle.wac_wit.specs.Reading.{ResolvesSources};
ghost use Rattle.wac_wit_validation.specs.WorldChecking.{KnowsWorlds};
ghost use Rattle.wac_wit_scopes.specs.WitSources.{WitSources};

use super::complete::lists_all;
use indexmap::IndexMap;
use std::alloc::{AllocError, Global};
use wac_component::{InterfaceId, Types, WorldId};
use wac_wit_elaboration::MadeEntry;
use wac_wit_names::{Catalog, Fault, Package, Refusals};
use wac_wit_resolution::make_all;
use wac_wit_scopes::SourceTrees;
use wac_wit_validation::Validator;

/// A package.
pub struct WitPackage {
    /// The name, as `wasi:http`.
    pub name: String,
    /// The version, if there is one.
    pub version: Option<String>,
    /// The group of its files.
    pub group: usize,
    /// The interfaces, by their names in the package.
    pub interfaces: IndexMap<String, InterfaceId>,
    /// The worlds, by their names in the package.
    pub worlds: IndexMap<String, WorldId>,
}

impl Drop for WitPackage {
    fn drop(self) {
        let WitPackage {
            name: _,
            version: _,
            group: _,
            interfaces: _,
            worlds: _,
        } = self;
    }
}

/// Packages, whose interfaces and worlds are entries of a collection.
pub struct Wit {
    /// The packages, in the order of their files, and behind them those written inside of files.
    pub packages: Vec<WitPackage>,
}

impl Drop for Wit {
    fn drop(self) {
        let Wit { packages: _ } = self;
    }
}

/// What was made of files. Whether it is what the texts denote isn't known yet.
pub(crate) struct Resolved<'a> {
    sources: SourceTrees<'a>,
    catalog: Catalog<'a>,
    // the interfaces and the worlds, each behind those that it needs
    order: Vec<usize>,
    made: Vec<MadeEntry>,
    wit: Wit,
}

impl Drop for Resolved<'_> {
    fn drop(self) {
        let Resolved {
            sources: _,
            catalog: _,
            order: _,
            made: _,
            wit: _,
        } = self;
    }
}

impl<'a> Resolved<'a> {
    /// Puts what files say into a collection. Where something is refused, there is no answer.
    pub(crate) fn new(
        alloc: Global,
        types: &mut Types,
        sources: &SourceTrees<'a>,
        refusals: &mut Refusals,
    ) -> Result<Resolved<'a>, Fault>
        ensures { IfOk result (λ r. r.sources ≡ sources.now) }
    {
        let (files, documents) = (sources.files, sources.documents);
        let catalog = Catalog::new(alloc, files, documents, sources.features, refusals)?;
        let order = catalog.order(refusals)?;
        let made = make_all(alloc, &catalog, &order, types, refusals)?;
        let wit = listed(alloc, &catalog, &made)?;
        if !refusals.is_empty() {
            return Err(Fault::Known);
        }
        Ok(Resolved {
            sources: *sources,
            catalog,
            order,
            made,
            wit,
        })
    }

    /// Whether the packages are what their texts denote, and have all that is there.
    pub(crate) fn is_denoted(&self, alloc: Global, types: &Types) -> Result<bool, AllocError>
        ensures { IfOk result (λ is. IsTrue is → ResolvesSources types.now self.now) }
    {
        let Some(mut validator) = Validator::new(alloc, types, &self.catalog, &self.sources)? else {
            return Ok(false);
        };
        if !are_added(&mut validator, &self.order, &self.made)? {
            return Ok(false);
        }
        if !are_listed(&validator, &self.wit) {
            return Ok(false);
        }
        lists_all(alloc, &validator, &self.wit.packages)
    }

    /// The packages.
    pub(crate) fn into_wit(self) -> Wit
        ensures { result ≡ self.entry.wit }
    {
        let Resolved {
            sources: _,
            catalog: _,
            order: _,
            made: _,
            wit,
        } = self;
        wit
    }
}

// Takes in what was made, in order, and says whether each interface and each world is what its
// text denotes.
fn are_added(
    validator: &mut Validator<'_>,
    order: &[usize],
    made: &[MadeEntry],
) -> Result<bool, AllocError>
    ensures { KeepsKnowing validator.old validator.new }
{
    for index in order {
        if !is_added(validator, *index, made)? {
            return Ok(false);
        }
    }
    Ok(true)
}

fn is_added(
    validator: &mut Validator<'_>,
    index: usize,
    made: &[MadeEntry],
) -> Result<bool, AllocError>
    ensures { KeepsKnowing validator.old validator.new }
{
    match made.get(index) {
        Some(MadeEntry::Interface(it)) => validator.add_interface(index, it.id),
        Some(MadeEntry::World(it)) => validator.add_world(index, it.id),
        _ => Ok(true),
    }
}

// Whether all interfaces and all worlds of packages are among those that were taken in.
fn are_listed(validator: &Validator<'_>, wit: &Wit) -> bool
    ensures { IsTrue result → (of : WitSources) → KnowsWorlds of validator.now → IsEachRead of validator.now.types.now wit.now }
{
    for package in &wit.packages {
        if !is_listed(validator, package) {
            return false;
        }
    }
    true
}

fn is_listed(validator: &Validator<'_>, package: &WitPackage) -> bool
    ensures { IsTrue result → (of : WitSources) → KnowsWorlds of validator.now → IsReadPackage of validator.now.types.now «package».now }
{
    has_interfaces(validator, package) && has_worlds(validator, package)
}

fn has_worlds(validator: &Validator<'_>, package: &WitPackage) -> bool
    ensures { IsTrue result → (of : WitSources) → KnowsWorlds of validator.now → AreReadWorlds of validator.now.types.now «package».now }
{
    for index in 0..package.worlds.len() {
        let Some((name, id)) = package.worlds.get_index(index) else {
            return false;
        };
        if !validator.is_world_of(&package.name, &package.version, name, *id) {
            return false;
        }
    }
    true
}

fn has_interfaces(validator: &Validator<'_>, package: &WitPackage) -> bool
    ensures { IsTrue result → (of : WitSources) → KnowsWorlds of validator.now → AreReadInterfaces of validator.now.types.now «package».now }
{
    for index in 0..package.interfaces.len() {
        let Some((name, id)) = package.interfaces.get_index(index) else {
            return false;
        };
        if !validator.is_interface_of(&package.name, &package.version, name, *id) {
            return false;
        }
    }
    true
}

// The packages, with what became of their interfaces and worlds.
fn listed(alloc: Global, catalog: &Catalog<'_>, made: &[MadeEntry]) -> Result<Wit, AllocError> {
    let mut packages = Vec::new(alloc);
    for of in &catalog.packages {
        let mut package = named_package(alloc, of)?;
        for (name, node) in &of.members {
            if let Some(made) = made.get(*node) {
                put_member(&mut package, name, made)?;
            }
        }
        packages.push(package)?;
    }
    Ok(Wit { packages })
}

// A package with nothing in it.
fn named_package(alloc: Global, of: &Package<'_>) -> Result<WitPackage, AllocError> {
    let version = match of.version {
        Some(version) => Some(String::from_str(alloc, version)?),
        None => None,
    };
    Ok(WitPackage {
        name: of.name.clone()?,
        version,
        group: of.group,
        interfaces: IndexMap::new(alloc),
        worlds: IndexMap::new(alloc),
    })
}

fn put_member(package: &mut WitPackage, name: &String, made: &MadeEntry) -> Result<(), AllocError> {
    match made {
        MadeEntry::Interface(it) => {
            package.interfaces.insert(name.clone()?, it.id)?;
        }
        MadeEntry::World(it) => {
            package.worlds.insert(name.clone()?, it.id)?;
        }
        MadeEntry::Nothing => {}
    }
    Ok(())
}
