//! Compares packages with older ones.

ghost use Rattle.std.specs.Prelude.{◌≡◌, ◌≢◌, ◌↔◌, List, [], Some, All, IfOk, option_map, slice_get, string_bytes};
ghost use Rattle.std.specs.List.{AllZip};
ghost use Rattle.wac_component.specs.Collection.{Collection};
ghost use Rattle.wac_component.specs.Growth.{Extends};
ghost use Rattle.wac_wit.specs.declared.packages.WitPackage.{WitPackage};
ghost use Rattle.wac_wit_changes.specs.Comparing.{IsComparedInterface, IsComparedWorld, AreItemsOnPackage, IsPromiseOf, IsReportOfBoth, IsReportOn, NoneHasName};
ghost use Rattle.wac_wit_changes.specs.Sides.{olds_of, IsMove};
ghost use Rattle.wac_wit_changes.specs.Worlds.{RunsIn};
ghost use Rattle.wac_wit_changes.specs.declared.report.Promise.{Promise};

use super::checking::check_imports_used;
use super::comparing::ComparedPair;
use super::moves::{Move, moves_of};
use super::problem::Problem;
use super::report::{Added, ComparedItem, PackageReport, Promise, ReportSort};
use super::tracks::{by_tracks, on_track, promise_of};
use super::worlds::{ComparedWorlds, Question};
use indexmap::IndexMap;
use std::alloc::{AllocError, Global};
use wac_component::{InterfaceId, ItemKind, Types, WorldId};
use wac_wit::{SourceFile, Wit, WitPackage};
use wac_wit_entries::{EntryError, interface, sort_of, world};
use wac_wit_places::{FilePlace, Map, PackageSources, syntax_of};
use wac_wit_syntax::Document;

/// Packages with the files that they were read from.
#[derive(Clone, Copy)]
pub struct Read<'r> {
    /// The files.
    pub files: &'r [SourceFile],
    /// The packages.
    pub wit: &'r Wit,
}

/// Says of each interface and each world of old packages whether the new ones, which stand in the
/// same collection, serve whoever was built against it.
///
/// An interface serves those who import it where the new one fits where the old one is asked for. A
/// world serves the components that were made for it where one that imports and exports all of the
/// old world fits the new one as a target. Packages, interfaces and worlds belong together by their
/// names. The collection gets a world more for each one that has another track's versions.
pub fn compare(
    alloc: Global,
    types: &mut Types,
    old: Read<'_>,
    new: Read<'_>,
) -> Result<Vec<PackageReport>, EntryError>
    ensures grows { Extends types.old types.new }
    ensures reports { IfOk result (λ rs. AllZip (IsReportOn types.new new.entry.wit.now.packages.items) old.entry.wit.now.packages.items rs.items) }
{
    let moves = moves_of(alloc, types, old.wit, new.wit)?;
    compared(alloc, types, old.files, new, &moves)
}

/// Says why a component that imports and exports all of a world doesn't run where another one is
/// the target: nothing where it does. Both worlds stand in one collection, and each has the files
/// that it was read from.
pub fn target_problems(
    alloc: Global,
    types: &Types,
    component: (&[SourceFile], WorldId),
    target: (&[SourceFile], WorldId),
) -> Result<Vec<Problem>, EntryError>
    ensures { IfOk result (λ ps. (ps.items ≡ []) ↔ RunsIn types.now component.entry.1 target.entry.1) }
{
    let (from_files, from) = component;
    let (to_files, to) = target;
    let from_syntax = syntax_of(alloc, from_files)?;
    let to_syntax = syntax_of(alloc, to_files)?;
    let worlds = ComparedWorlds {
        component: from,
        before: from,
        after: to,
    };
    let before = PackageSources::new(alloc, from_files, &from_syntax)?;
    world_problems(alloc, types, &before, (to_files, &to_syntax), &worlds)
}

// The same, where the files of the component are looked through.
fn world_problems(
    alloc: Global,
    types: &Types,
    before: &PackageSources<'_>,
    target: (&[SourceFile], &[Document]),
    worlds: &ComparedWorlds,
) -> Result<Vec<Problem>, EntryError>
    ensures { IfOk result (λ ps. (ps.items ≡ []) ↔ RunsIn types.now worlds.now.component worlds.now.after) }
{
    let (files, syntax) = target;
    let after = PackageSources::new(alloc, files, syntax)?;
    pair_of(alloc, types, before, &after).world_problems(worlds, Question::Target)
}

// Two sides of one collection.
fn pair_of<'s, 'd>(
    alloc: Global,
    types: &'s Types,
    before: &'s PackageSources<'d>,
    after: &'s PackageSources<'d>,
) -> ComparedPair<'s, 'd>
    ensures { result.types.now ≡ types.now }
{
    ComparedPair {
        alloc,
        types,
        before: Map {
            types,
            sources: before,
        },
        after: Map {
            types,
            sources: after,
        },
    }
}

// Compares all packages.
fn compared(
    alloc: Global,
    types: &Types,
    old: &[SourceFile],
    new: Read<'_>,
    moves: &[Move<'_>],
) -> Result<Vec<PackageReport>, EntryError>
    requires moves { All (IsMove new.wit.now.packages.items) moves.now }
    ensures { IfOk result (λ rs. AllZip (IsReportOn types.now new.entry.wit.now.packages.items) (olds_of moves.now) rs.items) }
{
    let Read { files, wit } = new;
    let old_syntax = syntax_of(alloc, old)?;
    let new_syntax = syntax_of(alloc, files)?;
    let before = PackageSources::new(alloc, old, &old_syntax)?;
    compared_with(alloc, types, &before, (wit, files, &new_syntax), moves)
}

// Compares all packages, where the files of the old ones are looked through.
fn compared_with(
    alloc: Global,
    types: &Types,
    before: &PackageSources<'_>,
    new: (&Wit, &[SourceFile], &[Document]),
    moves: &[Move<'_>],
) -> Result<Vec<PackageReport>, EntryError>
    requires moves { All (IsMove new.0.now.packages.items) moves.now }
    ensures { IfOk result (λ rs. AllZip (IsReportOn types.now new.entry.0.now.packages.items) (olds_of moves.now) rs.items) }
{
    let (wit, files, syntax) = new;
    let after = PackageSources::new(alloc, files, syntax)?;
    package_reports(&pair_of(alloc, types, before, &after), moves, wit)
}

// Compares all packages of a pair.
fn package_reports(
    pair: &ComparedPair<'_, '_>,
    moves: &[Move<'_>],
    new: &Wit,
) -> Result<Vec<PackageReport>, EntryError>
    requires moves { All (IsMove new.now.packages.items) moves.now }
    ensures { IfOk result (λ rs. AllZip (IsReportOn pair.now.types.now new.now.packages.items) (olds_of moves.now) rs.items) }
{
    let mut reports = Vec::new(pair.alloc);
    for of in moves {
        reports.push(package_report(pair, of, new)?)?;
    }
    Ok(reports)
}

// Compares a package.
fn package_report(
    pair: &ComparedPair<'_, '_>,
    of: &Move<'_>,
    new: &Wit,
) -> Result<PackageReport, EntryError>
    requires { IsMove new.now.packages.items of.now }
    ensures { IfOk result (IsReportOn pair.now.types.now new.now.packages.items of.now.old.now) }
{
    let Some(found) = of.new else {
        return Ok(lost_report(pair.alloc, of.old)?);
    };
    let new = named_at(new, found.index, &of.old.name)?;
    report_of_both(pair, of, new, promise_of(found.is_on_track))
}

// The package at an index, which has to be of this name.
fn named_at<'w>(wit: &'w Wit, index: usize, name: &str) -> Result<&'w WitPackage, EntryError>
    ensures { IfOk result (λ p. (slice_get wit.now.packages.items index ≡ Some p.now) × (string_bytes p.now.name ≡ name.now)) }
{
    match wit.packages.get(index) {
        Some(package) if package.name.as_str() == name => Ok(package),
        _ => Err(EntryError::Missing),
    }
}

// What is said of a package of whose name there is no new one.
fn lost_report(alloc: Global, old: &WitPackage) -> Result<PackageReport, AllocError>
    ensures { (types : Collection) (news : List WitPackage) → NoneHasName news (string_bytes old.now.name) → IfOk result (IsReportOn types news old.now) }
{
    Ok(PackageReport {
        name: old.name.clone()?,
        old_version: old.version.clone()?,
        new_version: None,
        promise: if old.group == 0 {
            Promise::Gone
        } else {
            Promise::Dropped
        },
        compared: Vec::new(alloc),
        added: Vec::new(alloc),
    })
}

// What is said of a package that is compared with a new one.
fn report_of_both(
    pair: &ComparedPair<'_, '_>,
    of: &Move<'_>,
    new: &WitPackage,
    promise: Promise,
) -> Result<PackageReport, EntryError>
    requires promise { IsPromiseOf of.now.old.now new.now promise }
    requires own { promise ≡ Promise.Same → of.now.moved.entries ≡ [] }
    ensures { IfOk result (λ r. IsReportOfBoth pair.now.types.now of.now.old.now new.now r × (string_bytes r.name ≡ string_bytes of.now.old.now.name)) }
{
    let old = of.old;
    Ok(PackageReport {
        name: old.name.clone()?,
        old_version: old.version.clone()?,
        new_version: version_in(new)?,
        promise,
        compared: compared_items(pair, of, new)?,
        added: added_in(pair.alloc, old, new)?,
    })
}

// The version of a package, if it has one.
fn version_in(of: &WitPackage) -> Result<Option<String>, AllocError>
    ensures { IfOk result (λ v. option_map string_bytes v ≡ option_map string_bytes of.now.version) }
{
    match &of.version {
        Some(version) => Ok(Some(version.clone()?)),
        None => Ok(None),
    }
}

// Which interfaces and worlds only the new package has.
fn added_in(alloc: Global, old: &WitPackage, new: &WitPackage) -> Result<Vec<Added>, AllocError> {
    let mut added = Vec::new(alloc);
    for name in new.interfaces.keys() {
        if old.interfaces.get(name.as_str()).is_none() {
            added.push(Added {
                sort: ReportSort::Interface,
                name: name.clone()?,
            })?;
        }
    }
    for name in new.worlds.keys() {
        if old.worlds.get(name.as_str()).is_none() {
            added.push(Added {
                sort: ReportSort::World,
                name: name.clone()?,
            })?;
        }
    }
    Ok(added)
}

// What became of the interfaces and the worlds of an old package.
fn compared_items(
    pair: &ComparedPair<'_, '_>,
    of: &Move<'_>,
    new: &WitPackage,
) -> Result<Vec<ComparedItem>, EntryError>
    ensures { (p : Promise) → (p ≡ Promise.Same → of.now.moved.entries ≡ []) → IfOk result (λ items. AreItemsOnPackage pair.now.types.now of.now.old.now new.now p items.items) }
{
    let mut items = compared_interfaces(pair, of.old, new)?;
    let mut worlds = compared_worlds(pair, of, new)?;
    items.append(&mut worlds)?;
    Ok(items)
}

// What became of the interfaces of an old package.
fn compared_interfaces(
    pair: &ComparedPair<'_, '_>,
    old: &WitPackage,
    new: &WitPackage,
) -> Result<Vec<ComparedItem>, EntryError>
    ensures { IfOk result (λ items. AllZip (IsComparedInterface pair.now.types.now new.now) old.now.interfaces.entries items.items) }
{
    let mut items = Vec::new(pair.alloc);
    for (name, id) in &old.interfaces {
        items.push(compared_interface(pair, name, *id, new)?)?;
    }
    Ok(items)
}

// What became of the worlds of an old package.
fn compared_worlds(
    pair: &ComparedPair<'_, '_>,
    of: &Move<'_>,
    new: &WitPackage,
) -> Result<Vec<ComparedItem>, EntryError>
    ensures { (p : Promise) → (p ≡ Promise.Same → of.now.moved.entries ≡ []) → IfOk result (λ items. AllZip (IsComparedWorld pair.now.types.now new.now p) of.now.old.now.worlds.entries items.items) }
{
    let mut items = Vec::new(pair.alloc);
    for (name, id) in &of.old.worlds {
        let component = component_of(of, name, *id);
        items.push(compared_world(pair, name, (*id, component), new)?)?;
    }
    Ok(items)
}

// The world that the library is asked about.
fn component_of(of: &Move<'_>, name: &str, id: WorldId) -> WorldId
    ensures { of.now.moved.entries ≡ [] → result ≡ id }
{
    match of.moved.get(name) {
        Some(moved) => *moved,
        None => id,
    }
}

// What became of an old interface.
fn compared_interface(
    pair: &ComparedPair<'_, '_>,
    name: &String,
    old: InterfaceId,
    beside: &WitPackage,
) -> Result<ComparedItem, EntryError>
    ensures { IfOk result (IsComparedInterface pair.now.types.now beside.now (name.now, old)) }
{
    let sort = ReportSort::Interface;
    match beside.interfaces.get(name.as_str()) {
        Some(new) => Ok(ComparedItem {
            sort,
            name: name.clone()?,
            problems: pair.interface_problems(old, *new)?,
            added: added_exports(pair, old, *new)?,
        }),
        None => {
            let place = match pair.before.at_interface(old) {
                Some(walk) => Some(walk.place),
                None => None,
            };
            Ok(gone_item(pair.alloc, sort, name, place)?)
        }
    }
}

// What became of an old world: its id, and that of the world that the library is asked about.
fn compared_world(
    pair: &ComparedPair<'_, '_>,
    name: &String,
    old: (WorldId, WorldId),
    beside: &WitPackage,
) -> Result<ComparedItem, EntryError>
    ensures { (p : Promise) → (p ≡ Promise.Same → old.1 ≡ old.0) → IfOk result (IsComparedWorld pair.now.types.now beside.now p (name.now, old.0)) }
{
    let sort = ReportSort::World;
    let (before, component) = old;
    match beside.worlds.get(name.as_str()) {
        Some(new) => {
            check_imports_used(pair.alloc, pair.types, component, *new)?;
            let worlds = ComparedWorlds {
                component,
                before,
                after: *new,
            };
            Ok(ComparedItem {
                sort,
                name: name.clone()?,
                problems: pair.world_problems(&worlds, Question::Change)?,
                added: added_externs(pair, component, *new)?,
            })
        }
        None => {
            let place = pair.before.world_place(before);
            Ok(gone_item(pair.alloc, sort, name, place)?)
        }
    }
}

// What is said of an interface or a world that the new package doesn't have.
fn gone_item(
    alloc: Global,
    sort: ReportSort,
    name: &String,
    place: Option<FilePlace>,
) -> Result<ComparedItem, AllocError>
    ensures sort { IfOk result (λ it. it.sort ≡ sort) }
    ensures name { IfOk result (λ it. string_bytes it.name ≡ string_bytes name.now) }
    ensures problems { IfOk result (λ it. it.problems.items ≢ []) }
{
    let word = sort.word();
    let fault = format!(in alloc; "the {word} is gone");
    let mut problems = Vec::new(alloc);
    problems.push(Problem::new(alloc, fault, place, None)?)?;
    Ok(ComparedItem {
        sort,
        name: name.clone()?,
        problems,
        added: Vec::new(alloc),
    })
}

// Which exports of an interface are new.
fn added_exports(
    pair: &ComparedPair<'_, '_>,
    old: InterfaceId,
    new: InterfaceId,
) -> Result<Vec<String>, EntryError> {
    let (Some(old), Some(new)) = (interface(pair.types, old), interface(pair.types, new)) else {
        return Err(EntryError::Missing);
    };
    let mut added = Vec::new(pair.alloc);
    push_new_items(pair.alloc, &mut added, "", &old.exports, &new.exports)?;
    Ok(added)
}

// Which imports and exports of a world are new.
fn added_externs(
    pair: &ComparedPair<'_, '_>,
    old: WorldId,
    new: WorldId,
) -> Result<Vec<String>, EntryError> {
    let (Some(old), Some(new)) = (world(pair.types, old), world(pair.types, new)) else {
        return Err(EntryError::Missing);
    };
    let mut added = Vec::new(pair.alloc);
    let (imports, exports) = ("import of the ", "export of the ");
    push_new_items(pair.alloc, &mut added, imports, &old.imports, &new.imports)?;
    push_new_items(pair.alloc, &mut added, exports, &old.exports, &new.exports)?;
    Ok(added)
}

// Puts last what items are new, in words.
fn push_new_items(
    alloc: Global,
    added: &mut Vec<String>,
    before: &str,
    old: &IndexMap<String, ItemKind>,
    new: &IndexMap<String, ItemKind>,
) -> Result<(), AllocError> {
    let tracks = by_tracks(alloc, old)?;
    for (name, item) in new {
        if on_track(&tracks, name)?.is_none() {
            let sort = sort_of(*item);
            added.push(format!(in alloc; "{before}{sort} `{name}`")?)?;
        }
    }
    Ok(())
}
