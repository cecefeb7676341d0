//! The contents of core modules, as words describe them.

use super::contents::check_parts;
use indexmap::IndexMap;
use std::alloc::Global;
use wac_core::{CoreExtern, ModuleType};
use wac_script_syntax::{ScriptError, read_extern, read_name, split_named, unexpected};

// The imports of a core module: the members `m:NAME,NAME=EXTERN`.
fn imports_of<'a>(
    alloc: Global,
    members: &[&'a str],
) -> Result<IndexMap<(String, String), CoreExtern>, ScriptError<'a>> {
    let mut imports = IndexMap::new(alloc);
    for &member in members {
        if let Some(word) = member.strip_prefix("m:") {
            add_import(alloc, &mut imports, word)?;
        }
    }
    Ok(imports)
}

// One more of these, under names that weren't there.
fn add_import<'a>(
    alloc: Global,
    imports: &mut IndexMap<(String, String), CoreExtern>,
    word: &'a str,
) -> Result<(), ScriptError<'a>> {
    let (names, of) = split_named("`NAME,NAME=EXTERN`", word)?;
    let Some((source, name)) = names.split_once(',') else {
        return Err(unexpected("`NAME,NAME=EXTERN`", word));
    };
    let key = (read_name(alloc, source)?, read_name(alloc, name)?);
    match imports.insert(key, read_extern(alloc, of)?)? {
        None => Ok(()),
        Some(_) => Err(ScriptError::Repeated(names)),
    }
}

// The exports of a core module: the members `e:NAME=EXTERN`.
fn exports_of<'a>(
    alloc: Global,
    members: &[&'a str],
) -> Result<IndexMap<String, CoreExtern>, ScriptError<'a>> {
    let mut exports = IndexMap::new(alloc);
    for &member in members {
        if let Some(word) = member.strip_prefix("e:") {
            add_export(alloc, &mut exports, word)?;
        }
    }
    Ok(exports)
}

// One more of these, under a name that wasn't there.
fn add_export<'a>(
    alloc: Global,
    exports: &mut IndexMap<String, CoreExtern>,
    word: &'a str,
) -> Result<(), ScriptError<'a>> {
    let (name, of) = split_named("`NAME=EXTERN`", word)?;
    let of = read_extern(alloc, of)?;
    let key = read_name(alloc, name)?;
    match exports.insert(key, of)? {
        None => Ok(()),
        Some(_) => Err(ScriptError::Repeated(name)),
    }
}

/// A core module type: `(m:NAME,NAME=EXTERN)* (e:NAME=EXTERN)*`.
pub(crate) fn module_of<'a>(
    alloc: Global,
    members: &[&'a str],
) -> Result<ModuleType, ScriptError<'a>> {
    check_parts(&["m", "e"], "`m:..` or `e:..`", members)?;
    let imports = imports_of(alloc, members)?;
    let exports = exports_of(alloc, members)?;
    Ok(ModuleType { imports, exports })
}
