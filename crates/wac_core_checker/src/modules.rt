//! Whether a core module fits where another is asked for.

ghost use Rattle.std.specs.Prelude.{◌≡◌, ◌<◌, length, slice_get, string_bytes, codes, Some, MatchResult, IfOk};
ghost use Rattle.std.specs.Option.{option_map, option_copied};
ghost use Rattle.std.specs.Str.{bytes_eq};
ghost use Rattle.wac_model.specs.Text.{import_name_eq, lookup};
ghost use Rattle.wac_model.specs.CoreTree.{ModuleFits};
ghost use Rattle.wac_core.specs.Content.{core_tree, import_name, module_content};
ghost use Rattle.wac_core.specs.Texts.{core_extern_text};
ghost use Rattle.wac_mismatch.specs.Steps.{IsMissingExport};
ghost use Rattle.wac_core_checker.specs.Verdict.{AreCoreServed, ExplainsModules, IsMissingCoreImport};

use crate::externs::{core_extern_fits, sort_text};
use std::alloc::{AllocError, Global};
use wac_core::{CoreExtern, ModuleType};
use wac_mismatch::refusals::{here_with, turned_check, under_core_import, under_export};
use wac_mismatch::{Fault, SubtypeCheck, SubtypeError};

// The import at an index.
fn import_at(of: &ModuleType, index: usize) -> (&(String, String), &CoreExtern)
    requires { index < length of.now.imports.entries }
    ensures at { slice_get (module_content of.now).imports index ≡ Some (import_name result.0.now, core_tree result.1.now) }
    ensures named { lookup import_name_eq (module_content of.now).imports (import_name result.0.now) ≡ Some (core_tree result.1.now) }
{
    of.imports.get_index(index).unwrap()
}

// The import of a name.
fn import_of<'a>(of: &'a ModuleType, name: &(String, String)) -> Option<&'a CoreExtern>
    ensures { option_map core_tree (option_copied result) ≡ lookup import_name_eq (module_content of.now).imports (import_name name.now) }
{
    of.imports.get(name)
}

// The fault of an import that is missing.
fn import_fault(
    check: SubtypeCheck,
    name: &(String, String),
    asked: &CoreExtern,
) -> Result<Fault, AllocError>
    ensures { IfOk result (λ f. IsMissingCoreImport f (core_extern_text (core_tree asked.now)) (import_name name.now) check) }
{
    Ok(Fault::MissingCoreImport {
        kind: sort_text(asked),
        module: name.0.clone()?,
        name: name.1.clone()?,
        check,
    })
}

// Whether the right module imports what the left one does, and the left's fit
// where the right's are asked for.
fn imports_fit(
    check: SubtypeCheck,
    alloc: Global,
    a: &ModuleType,
    b: &ModuleType,
) -> Result<(), SubtypeError>
    ensures { let x = module_content a.now in let y = module_content b.now in MatchResult result (λ _. AreCoreServed import_name_eq y.imports x.imports) (ExplainsModules check x y) }
{
    for i in 0..a.imports.len() {
        let (name, asked) = import_at(a, i);
        match import_of(b, name) {
            Some(given) => {
                if let Err(e) = core_extern_fits(turned_check(check), alloc, given, asked) {
                    return Err(under_core_import(e, &name.0, &name.1));
                }
            }
            None => return Err(here_with(alloc, import_fault(check, name, asked))),
        }
    }
    Ok(())
}

// The export at an index.
fn export_at(of: &ModuleType, index: usize) -> (&String, &CoreExtern)
    requires { index < length of.now.exports.entries }
    ensures at { slice_get (module_content of.now).exports index ≡ Some (string_bytes result.0.now, core_tree result.1.now) }
    ensures named { lookup bytes_eq (module_content of.now).exports (string_bytes result.0.now) ≡ Some (core_tree result.1.now) }
{
    of.exports.get_index(index).unwrap()
}

// The export of a name.
fn export_of<'a>(of: &'a ModuleType, name: &String) -> Option<&'a CoreExtern>
    ensures { option_map core_tree (option_copied result) ≡ lookup bytes_eq (module_content of.now).exports (string_bytes name.now) }
{
    of.exports.get(name)
}

// The fault of an export that is missing.
fn export_fault(check: SubtypeCheck, name: &String, asked: &CoreExtern) -> Result<Fault, AllocError>
    ensures { IfOk result (IsMissingExport (codes "module") (core_extern_text (core_tree asked.now)) (string_bytes name.now) check) }
{
    Ok(Fault::MissingExport {
        holder: "module",
        kind: sort_text(asked),
        name: name.clone()?,
        check,
    })
}

// Whether the left module exports what the right one does, and what it exports fits.
fn exports_fit(
    check: SubtypeCheck,
    alloc: Global,
    a: &ModuleType,
    b: &ModuleType,
) -> Result<(), SubtypeError>
    ensures { MatchResult result (λ _. AreCoreServed bytes_eq (module_content a.now).exports (module_content b.now).exports) (ExplainsModules check (module_content a.now) (module_content b.now)) }
{
    for i in 0..b.exports.len() {
        let (name, asked) = export_at(b, i);
        match export_of(a, name) {
            Some(given) => {
                if let Err(e) = core_extern_fits(SubtypeCheck::Covariant, alloc, given, asked) {
                    return Err(under_export(e, name));
                }
            }
            None => return Err(here_with(alloc, export_fault(check, name, asked))),
        }
    }
    Ok(())
}

/// Whether the left module fits where the right one is asked for: it exports what the right one
/// does, and imports no more. Imports are compared with the sides exchanged and the direction
/// turned, and exports are worded covariantly in either direction.
pub fn module_fits(
    check: SubtypeCheck,
    alloc: Global,
    a: &ModuleType,
    b: &ModuleType,
) -> Result<(), SubtypeError>
    ensures { MatchResult result (λ _. ModuleFits (module_content a.now) (module_content b.now)) (ExplainsModules check (module_content a.now) (module_content b.now)) }
{
    imports_fit(check, alloc, a, b)?;
    exports_fit(check, alloc, a, b)
}
