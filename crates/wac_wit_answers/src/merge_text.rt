//! Merged imports as WIT text.

use super::handing::{Handed, Leading, calls_to};
use super::merge_packages::{NamedInterface, interfaces_of, put_packages};
use super::merging::Source;
use indexmap::IndexMap;
use std::alloc::{AllocError, Global};
use wac_component::{InterfaceId, ItemKind, Types, UsedType};
use wac_types::TypeAggregator;
use wac_wit_entries::{interface_id, world};
use wac_wit_text::Printer;

// The merged imports by their names, and which of the types among them are used ones.
struct Imports {
    items: IndexMap<String, ItemKind>,
    uses: IndexMap<String, UsedType>,
}

impl Drop for Imports {
    fn drop(self) {
        let Imports { items: _, uses: _ } = self;
    }
}

/// A world that imports what is merged, with comments on which names lead to each import, and the
/// packages of the interfaces: one file that can be read.
pub(crate) fn merged_text(
    alloc: Global,
    handed: &Handed<'_>,
    merged: &TypeAggregator,
    leading: &Leading,
) -> Result<String, AllocError> {
    let imports = imports_of(alloc, handed, merged)?;
    let interfaces = interfaces_of(alloc, merged)?;
    let mut printer = named_printer(alloc, merged.types(), &interfaces)?;
    put_merged(&mut printer, handed, leading, &imports)?;
    put_packages(alloc, &mut printer, &interfaces)?;
    Ok(printer.text)
}

fn imports_of(
    alloc: Global,
    handed: &Handed<'_>,
    merged: &TypeAggregator,
) -> Result<Imports, AllocError> {
    let items = items_of(alloc, merged)?;
    let uses = uses_of(alloc, handed, merged, &items)?;
    Ok(Imports { items, uses })
}

fn items_of(
    alloc: Global,
    merged: &TypeAggregator,
) -> Result<IndexMap<String, ItemKind>, AllocError> {
    let mut items = IndexMap::new(alloc);
    for (name, item) in merged.imports() {
        items.insert(String::from_str(alloc, name)?, item)?;
    }
    Ok(items)
}

// A printer that knows the interfaces' names.
fn named_printer<'t>(
    alloc: Global,
    types: &'t Types,
    interfaces: &[NamedInterface<'t>],
) -> Result<Printer<'t>, AllocError> {
    let mut printer = Printer::new(alloc, types);
    for (name, _, id) in interfaces {
        printer.name_interface(*id, name)?;
    }
    Ok(printer)
}

// Writes the world. Its types stand first, and with them the functions of resources.
fn put_merged(
    printer: &mut Printer<'_>,
    handed: &Handed<'_>,
    leading: &Leading,
    imports: &Imports,
) -> Result<(), AllocError> {
    printer.open_package("merged:imports", None, false)?;
    printer.put("\nworld merged")?;
    printer.open()?;
    for (name, item) in &imports.items {
        if is_in_types(name, *item) {
            put_comments(printer, handed, calls_to(leading, name))?;
        }
    }
    printer.put_types(&imports.items, &imports.uses)?;
    for (name, item) in &imports.items {
        if !is_in_types(name, *item) {
            put_comments(printer, handed, calls_to(leading, name))?;
            printer.put_extern("import ", name, item)?;
        }
    }
    printer.close()
}

// Whether an import is written with the types.
fn is_in_types(name: &str, item: ItemKind) -> bool {
    match item {
        ItemKind::Type(_) => true,
        ItemKind::Func(_) => name.starts_with('['),
        _ => false,
    }
}

// Says which names of which worlds lead to an import.
fn put_comments(
    printer: &mut Printer<'_>,
    handed: &Handed<'_>,
    calls: &[usize],
) -> Result<(), AllocError> {
    for index in calls {
        if let (Some(call), Some(source)) = (handed.calls.get(*index), handed.source_of(*index)) {
            printer.begin()?;
            let (world, path, name) = (&source.name, &source.input.path, call.name);
            write!(printer.text, "// {name} of {world} in ")?;
            put_line(&mut printer.text, path)?;
            printer.put("\n")?;
        }
    }
    Ok(())
}

// Puts a text last that may have characters which end a line.
fn put_line(out: &mut String, text: &str) -> Result<(), AllocError> {
    for c in text.chars() {
        out.push(if c.is_control() { ' ' } else { c })?;
    }
    Ok(())
}

// Which of the merged types are used ones, as the worlds say it.
fn uses_of(
    alloc: Global,
    handed: &Handed<'_>,
    merged: &TypeAggregator,
    imports: &IndexMap<String, ItemKind>,
) -> Result<IndexMap<String, UsedType>, AllocError> {
    let mut uses = IndexMap::new(alloc);
    for source in handed.sources {
        let Some(of) = world(&source.types, source.world) else {
            continue;
        };
        for (name, used) in &of.uses {
            if let Some(interface) = merged_owner(source, merged, imports, used) {
                let used = UsedType {
                    interface,
                    name: used.name.clone()?,
                };
                uses.insert(name.clone()?, used)?;
            }
        }
    }
    Ok(uses)
}

// The merged interface that a used type comes from.
fn merged_owner(
    source: &Source,
    merged: &TypeAggregator,
    imports: &IndexMap<String, ItemKind>,
    used: &UsedType,
) -> Option<InterfaceId> {
    let id = interface_id(&source.types, used.interface)?;
    match imports.get(merged.canonical_import_name(id))? {
        ItemKind::Instance(id) => Some(*id),
        _ => None,
    }
}
