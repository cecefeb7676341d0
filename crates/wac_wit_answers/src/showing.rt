//! Shows packages as WIT text in one canonical form.

use super::answer::{Answer, json_text, text_or_null};
use super::failure::Failure;
use super::finding::{FoundItem, find, not_there};
use super::input::{Input, Texts};
use super::options::{Form, Options};
use serde_json::{Value, json};
use std::alloc::{AllocError, Global};
use wac_component::Types;
use wac_wit::WitPackage;
use wac_wit_entries::{parts_of, version_of};
use wac_wit_text::Printer;

/// Shows all packages that are read, or one interface or world of them.
pub fn show(
    alloc: Global,
    texts: Texts,
    item: Option<&str>,
    options: &Options<'_>,
) -> Result<Answer, Failure> {
    let mut types = Types::new(alloc, 1);
    let input = Input::read(alloc, &mut types, texts, options.features)?;
    let text = match item {
        Some(name) => show_item(alloc, &types, &input, name, options.form)?,
        None if options.form == Form::Json => all_json(alloc, &types, &input)?,
        None => all_text(alloc, &types, &input)?,
    };
    Ok(Answer { is_yes: true, text })
}

// One interface or world.
fn show_item(
    alloc: Global,
    types: &Types,
    input: &Input,
    name: &str,
    form: Form,
) -> Result<String, Failure> {
    let Some(found) = find(types, &input.wit, name) else {
        return Err(not_there(alloc, input, name));
    };
    let text = item_text(alloc, types, &found, last_name(name))?;
    if form != Form::Json {
        return Ok(text);
    }
    let sort = match &found {
        FoundItem::Interface(_) => "interface",
        FoundItem::World(_) => "world",
    };
    let answer = json!(in alloc; {"kind": sort, "name": last_name(name), "wit": text})?;
    Ok(json_text(alloc, &answer)?)
}

// The name in its package, of an identifier.
fn last_name(name: &str) -> &str {
    match parts_of(name) {
        Some(parts) => parts.name,
        None => name,
    }
}

// An interface or a world as WIT text, in which all other packages are named in full.
fn item_text(
    alloc: Global,
    types: &Types,
    found: &FoundItem,
    name: &str,
) -> Result<String, AllocError> {
    let mut printer = Printer::new(alloc, types);
    put_item(&mut printer, found, name)?;
    Ok(printer.text)
}

fn put_item(printer: &mut Printer<'_>, found: &FoundItem, name: &str) -> Result<(), AllocError> {
    match found {
        FoundItem::Interface(id) => printer.put_interface(name, *id),
        FoundItem::World(id) => printer.put_world(name, *id),
    }
}

// All packages as one file: the package itself, and those that it uses in braces.
fn all_text(alloc: Global, types: &Types, input: &Input) -> Result<String, AllocError> {
    let mut printer = Printer::new(alloc, types);
    put_packages(&mut printer, &input.wit.packages)?;
    Ok(printer.text)
}

fn put_packages<'t>(
    printer: &mut Printer<'t>,
    packages: &'t [WitPackage],
) -> Result<(), AllocError> {
    let mut is_first = true;
    for package in packages {
        let is_nested = !is_first || package.group != 0;
        put_gap(printer, is_first)?;
        put_package(printer, package, is_nested)?;
        is_first = false;
    }
    Ok(())
}

// Writes a package as a file, or in braces inside the file of another one.
fn put_package<'t>(
    printer: &mut Printer<'t>,
    package: &'t WitPackage,
    is_nested: bool,
) -> Result<(), AllocError> {
    printer.open_package(&package.name, version_of(&package.version), is_nested)?;
    let mut is_first = is_nested;
    for (name, id) in &package.interfaces {
        put_gap(printer, is_first)?;
        printer.put_interface(name, *id)?;
        is_first = false;
    }
    for (name, id) in &package.worlds {
        put_gap(printer, is_first)?;
        printer.put_world(name, *id)?;
        is_first = false;
    }
    if is_nested {
        printer.close()?;
    }
    Ok(())
}

// An empty line before what isn't the first.
fn put_gap(printer: &mut Printer<'_>, is_first: bool) -> Result<(), AllocError> {
    if is_first {
        return Ok(());
    }
    printer.put("\n")
}

fn all_json(alloc: Global, types: &Types, input: &Input) -> Result<String, AllocError> {
    let mut packages = Vec::new(alloc);
    for package in &input.wit.packages {
        packages.push(package_json(alloc, types, package)?)?;
    }
    json_text(alloc, &json!(in alloc; {"packages": packages})?)
}

// An interface or a world of a package.
fn item_json(
    alloc: Global,
    types: &Types,
    found: &FoundItem,
    name: &str,
) -> Result<Value, AllocError> {
    let wit = item_text(alloc, types, found, name)?;
    json!(in alloc; {"name": name, "wit": wit})
}

fn interfaces_json(
    alloc: Global,
    types: &Types,
    of: &WitPackage,
) -> Result<Vec<Value>, AllocError> {
    let mut all = Vec::new(alloc);
    for (name, id) in &of.interfaces {
        all.push(item_json(alloc, types, &FoundItem::Interface(*id), name)?)?;
    }
    Ok(all)
}

fn worlds_json(alloc: Global, types: &Types, of: &WitPackage) -> Result<Vec<Value>, AllocError> {
    let mut all = Vec::new(alloc);
    for (name, id) in &of.worlds {
        all.push(item_json(alloc, types, &FoundItem::World(*id), name)?)?;
    }
    Ok(all)
}

fn package_json(alloc: Global, types: &Types, of: &WitPackage) -> Result<Value, AllocError> {
    let interfaces = interfaces_json(alloc, types, of)?;
    let worlds = worlds_json(alloc, types, of)?;
    let version = text_or_null(alloc, version_of(&of.version))?;
    json!(in alloc; {
        "name": of.name.as_str(),
        "version": version,
        "interfaces": interfaces,
        "worlds": worlds
    })
}
