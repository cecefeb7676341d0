//! The packages of merged interfaces as WIT text.

use indexmap::{IndexMap, IndexSet};
use std::alloc::{AllocError, Global};
use wac_component::{InterfaceId, ItemKind};
use wac_types::TypeAggregator;
use wac_wit_entries::{IdentifierParts, interface, interface_id, parts_of};
use wac_wit_text::Printer;

/// An interface of a package, under the name that leads to it.
pub(crate) type NamedInterface<'t> = (&'t str, IdentifierParts<'t>, InterfaceId);

/// The interfaces of packages that are imported, and those whose types they use. An interface keeps
/// the identifier of the first that was merged into it, and is imported under the highest one.
pub(crate) fn interfaces_of(
    alloc: Global,
    merged: &TypeAggregator,
) -> Result<Vec<NamedInterface<'_>>, AllocError> {
    let mut interfaces = Vec::new(alloc);
    let mut known = IndexSet::new(alloc);
    push_imported(&mut interfaces, &mut known, merged)?;
    push_used(&mut interfaces, &mut known, merged)?;
    Ok(interfaces)
}

// Puts the interfaces last that are imported.
fn push_imported<'t>(
    interfaces: &mut Vec<NamedInterface<'t>>,
    known: &mut IndexSet<InterfaceId>,
    merged: &'t TypeAggregator,
) -> Result<(), AllocError> {
    for (name, item) in merged.imports() {
        if let ItemKind::Instance(id) = item {
            push_interface(interfaces, known, name, id)?;
        }
    }
    Ok(())
}

// Puts those last whose types they use.
fn push_used<'t>(
    interfaces: &mut Vec<NamedInterface<'t>>,
    known: &mut IndexSet<InterfaceId>,
    merged: &'t TypeAggregator,
) -> Result<(), AllocError> {
    let types = merged.types();
    for (_, item) in merged.imports() {
        if let ItemKind::Instance(id) = item
            && let Some(of) = interface(types, id)
        {
            for used in of.uses.values() {
                let id = interface_id(types, used.interface).unwrap_or("");
                let name = merged.canonical_import_name(id);
                push_interface(interfaces, known, name, used.interface)?;
            }
        }
    }
    Ok(())
}

// Puts an interface last that isn't there, if it has the name of one of a package.
fn push_interface<'t>(
    interfaces: &mut Vec<NamedInterface<'t>>,
    known: &mut IndexSet<InterfaceId>,
    name: &'t str,
    id: InterfaceId,
) -> Result<(), AllocError> {
    let Some(parts) = parts_of(name) else {
        return Ok(());
    };
    if !known.insert(id)? {
        return Ok(());
    }
    match interfaces.push((name, parts, id)) {
        Ok(()) => Ok(()),
        Err(_) => Err(AllocError),
    }
}

/// Writes the interfaces of each package in braces.
pub(crate) fn put_packages<'t>(
    alloc: Global,
    printer: &mut Printer<'t>,
    interfaces: &[NamedInterface<'t>],
) -> Result<(), AllocError> {
    for indices in by_package(alloc, interfaces)?.values() {
        put_package(printer, interfaces, indices)?;
    }
    Ok(())
}

// The indices of the interfaces of each package: of each name the first one's.
fn by_package(
    alloc: Global,
    interfaces: &[NamedInterface<'_>],
) -> Result<IndexMap<String, Vec<usize>>, AllocError> {
    let mut packages = IndexMap::new(alloc);
    for index in &first_indices(alloc, interfaces)? {
        if let Some((_, parts, _)) = interfaces.get(*index) {
            let package = package_key(alloc, parts)?;
            push_index(alloc, &mut packages, package, *index)?;
        }
    }
    Ok(packages)
}

// The index of the first interface of each name.
fn first_indices(
    alloc: Global,
    interfaces: &[NamedInterface<'_>],
) -> Result<Vec<usize>, AllocError> {
    let mut names = IndexSet::new(alloc);
    let mut indices = Vec::new(alloc);
    for (index, (name, _, _)) in interfaces.iter().enumerate() {
        if names.insert(String::from_str(alloc, name)?)? {
            indices.push(index)?;
        }
    }
    Ok(indices)
}

// A package with its version.
fn package_key(alloc: Global, parts: &IdentifierParts<'_>) -> Result<String, AllocError> {
    let package = parts.package;
    match parts.version {
        Some(version) => format!(in alloc; "{package}@{version}"),
        None => String::from_str(alloc, package),
    }
}

// Puts an index last among those of a package.
fn push_index(
    alloc: Global,
    packages: &mut IndexMap<String, Vec<usize>>,
    package: String,
    index: usize,
) -> Result<(), AllocError> {
    if let Some(indices) = packages.get_mut(package.as_str()) {
        indices.push(index)?;
        return Ok(());
    }
    packages.insert(package, vec![in alloc; index]?)?;
    Ok(())
}

fn put_package<'t>(
    printer: &mut Printer<'t>,
    interfaces: &[NamedInterface<'t>],
    indices: &[usize],
) -> Result<(), AllocError> {
    let mut is_first = true;
    for index in indices {
        if let Some((_, parts, id)) = interfaces.get(*index) {
            printer.put("\n")?;
            if is_first {
                printer.open_package(parts.package, parts.version, true)?;
            }
            printer.put_interface(parts.name, *id)?;
            is_first = false;
        }
    }
    printer.close()
}
