//! Components and target worlds.

ghost use Rattle.wac_component.specs.Key.{Stands, world_key};

use super::collections::Collections;
use super::comparisons::push_path;
use super::lines::{push_binding, push_on_one_line};
use indexmap::IndexMap;
use std::alloc::{AllocError, Global};
use wac_component::{ExternKind, ItemKind, Types, WorldId};
use wac_script_entries::find_world;
use wac_script_syntax::{ScriptError, push_name, read_number, read_world};
use wac_targets::{ItemText, TargetError, TargetValidationReport, validate_target};

// Puts last that a target world can't be read, since an interface that it uses has no identifier.
fn push_refusal(text: &mut String, error: TargetError) -> Result<(), AllocError> {
    match error {
        TargetError::Memory => Err(AllocError),
        error => write!(text, "refused: {error}"),
    }
}

/// Puts the answer to `validate` last: whether a component fits a target world, and if not, each
/// part of the report in its order.
pub(crate) fn validate<'a>(
    alloc: Global,
    text: &mut String,
    collections: &Collections,
    words: &[&'a str],
) -> Result<(), ScriptError<'a>> {
    let [collection, target, component] = *words else {
        return Err(ScriptError::Misused("validate COLL wTARGET wCOMPONENT"));
    };
    let number = read_number(collection)?;
    let (target, component) = (read_world(target)?, read_world(component)?);
    let types = collections.get(number)?;
    let target = find_world(types, target)?;
    let component = find_world(types, component)?;
    Ok(push_validation(alloc, text, types, target, component)?)
}

fn push_validation(
    alloc: Global,
    text: &mut String,
    types: &Types,
    target: WorldId,
    component: WorldId,
) -> Result<(), AllocError>
    requires target { Stands types.now (world_key target) }
    requires component { Stands types.now (world_key component) }
{
    match validate_target(alloc, types, target, component) {
        Ok(Ok(())) => text.push_str("ok"),
        Ok(Err(report)) => push_report(alloc, text, &report),
        Err(error) => push_refusal(text, error),
    }
}

// Puts `no`, and the lines of a report last.
fn push_report(
    alloc: Global,
    text: &mut String,
    report: &TargetValidationReport,
) -> Result<(), AllocError> {
    text.push_str("no")?;
    push_imports(text, report)?;
    push_missing(text, report)?;
    push_mismatched(alloc, text, report)?;
    text.push_str("\n  text ")?;
    push_on_one_line(text, &report.to_string(alloc)?)
}

fn push_imports(text: &mut String, report: &TargetValidationReport) -> Result<(), AllocError> {
    for name in report.imports_not_in_target() {
        text.push_str("\n  not-in-target ")?;
        push_name(text, name)?;
    }
    Ok(())
}

fn push_missing(text: &mut String, report: &TargetValidationReport) -> Result<(), AllocError> {
    for (name, item) in report.missing_exports() {
        text.push_str("\n  missing ")?;
        push_name(text, name)?;
        let item = ItemText(*item);
        write!(text, " {item}")?;
    }
    Ok(())
}

fn push_mismatched(
    alloc: Global,
    text: &mut String,
    report: &TargetValidationReport,
) -> Result<(), AllocError> {
    for (name, kind, error) in report.mismatched_types() {
        text.push_str("\n  mismatched ")?;
        push_name(text, name)?;
        text.push_str(kind_text(*kind))?;
        push_path(alloc, text, error)?;
    }
    Ok(())
}

fn kind_text(kind: ExternKind) -> &'static str {
    match kind {
        ExternKind::Import => " Import: ",
        ExternKind::Export => " Export: ",
    }
}

/// Puts the answer to `implicit` last: the interfaces from which a world and its imports use types,
/// as instances under their identifiers.
pub(crate) fn implicit_imports<'a>(
    alloc: Global,
    text: &mut String,
    collections: &Collections,
    words: &[&'a str],
) -> Result<(), ScriptError<'a>> {
    let [collection, world] = *words else {
        return Err(ScriptError::Misused("implicit COLL wN"));
    };
    let (number, world) = (read_number(collection)?, read_world(world)?);
    let types = collections.get(number)?;
    let world = find_world(types, world)?;
    Ok(push_implicit_imports(alloc, text, types, world)?)
}

fn push_implicit_imports(
    alloc: Global,
    text: &mut String,
    types: &Types,
    world: WorldId,
) -> Result<(), AllocError>
    requires { Stands types.now (world_key world) }
{
    match types[world].implicit_imported_interfaces(alloc, types) {
        Ok(imports) => push_instances(text, &imports),
        Err(error) => push_refusal(text, error),
    }
}

fn push_instances(text: &mut String, imports: &IndexMap<&str, ItemKind>) -> Result<(), AllocError> {
    text.push_str("ok")?;
    for (name, item) in imports {
        push_binding(text, name, *item)?;
    }
    Ok(())
}
