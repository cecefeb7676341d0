//! Whether packages have all that their texts do.

ghost use Rattle.std.specs.Prelude.{Contains, IfOk, IsTrue};
ghost use Rattle.wac_wit.specs.Read.{ListsAll};
ghost use Rattle.wac_wit.specs.Reading.{IsListing};
ghost use Rattle.wac_wit.specs.declared.packages.WitPackage.{WitPackage as PackageOf};
ghost use Rattle.wac_wit_scopes.specs.WitSources.{WitSources};
ghost use Rattle.wac_wit_validation.specs.WorldChecking.{KnowsWorlds};
ghost use Rattle.wac_wit_validation.specs.declared.listing.PackageListing.{PackageListing as ListingOf};

use super::packages::WitPackage;
use std::alloc::{AllocError, Global};
use wac_wit_validation::{PackageListing, Validator};

/// Whether packages have each interface and each world that is there.
pub(crate) fn lists_all(
    alloc: Global,
    validator: &Validator<'_>,
    packages: &[WitPackage],
) -> Result<bool, AllocError>
    ensures { IfOk result (λ is. IsTrue is → (of : WitSources) → KnowsWorlds of validator.now → ListsAll of packages.now) }
{
    let listed = listings(alloc, packages)?;
    validator.lists_all(&listed)
}

// What packages have.
fn listings<'p>(
    alloc: Global,
    packages: &'p [WitPackage],
) -> Result<Vec<PackageListing<'p>>, AllocError>
    ensures each { IfOk result (λ ls. (l : ListingOf) → Contains ls.items l → (p : PackageOf) × Contains packages.now p × IsListing l p) }
    ensures all { IfOk result (λ ls. (p : PackageOf) → Contains packages.now p → (l : ListingOf) × Contains ls.items l × IsListing l p) }
{
    let mut listed = Vec::new(alloc);
    for package in packages {
        listed.push(listing(package))?;
    }
    Ok(listed)
}

fn listing(package: &WitPackage) -> PackageListing<'_>
    ensures { IsListing result «package».now }
{
    PackageListing {
        package: &package.name,
        version: &package.version,
        group: package.group,
        interfaces: &package.interfaces,
        worlds: &package.worlds,
    }
}
