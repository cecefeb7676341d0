//! The texts of core modules.

use super::core_words::push_extern;
use super::texts::{key_text, push_in_order, push_key};
use indexmap::IndexMap;
use std::alloc::{AllocError, Global};
use std::collections::BTreeMap;
use wac_core::{CoreExtern, ModuleType};
use wac_script_syntax::push_name;

// Puts the text of a core module last.
pub(crate) fn push_module(
    alloc: Global,
    text: &mut String,
    ty: &ModuleType,
) -> Result<(), AllocError> {
    text.push_str("imports{")?;
    push_imports(alloc, text, &ty.imports)?;
    text.push_str("}exports{")?;
    push_exports(alloc, text, &ty.exports)?;
    text.push_str("}")
}

// Puts the imports of a core module last, in the order of their names.
fn push_imports(
    alloc: Global,
    text: &mut String,
    imports: &IndexMap<(String, String), CoreExtern>,
) -> Result<(), AllocError> {
    let mut texts = BTreeMap::new(alloc);
    for ((source, name), of) in imports {
        let text = import_text(alloc, source, name, of)?;
        texts.insert((source.as_str(), name.as_str()), text)?;
    }
    push_in_order(text, &texts)
}

// The text of an import.
fn import_text(
    alloc: Global,
    source: &str,
    name: &str,
    of: &CoreExtern,
) -> Result<String, AllocError> {
    let mut text = String::new(alloc);
    push_name(&mut text, source)?;
    push_key(&mut text, ",", name)?;
    push_extern(&mut text, of)?;
    Ok(text)
}

// Puts the exports of a core module last, in the order of their names.
fn push_exports(
    alloc: Global,
    text: &mut String,
    exports: &IndexMap<String, CoreExtern>,
) -> Result<(), AllocError> {
    let mut texts = BTreeMap::new(alloc);
    for (name, of) in exports {
        texts.insert(name.as_str(), export_text(alloc, name, of)?)?;
    }
    push_in_order(text, &texts)
}

// The text of an export.
fn export_text(alloc: Global, name: &str, of: &CoreExtern) -> Result<String, AllocError> {
    let mut text = key_text(alloc, name)?;
    push_extern(&mut text, of)?;
    Ok(text)
}
