//! Texts under names, one after another.

use std::alloc::{AllocError, Global};
use std::collections::BTreeMap;
use wac_script_syntax::push_name;

/// Puts a separator, a name and `=` last.
pub(crate) fn push_key(text: &mut String, separator: &str, name: &str) -> Result<(), AllocError> {
    text.push_str(separator)?;
    push_name(text, name)?;
    text.push_str("=")
}

/// A name and `=`.
pub(crate) fn key_text(alloc: Global, name: &str) -> Result<String, AllocError> {
    let mut text = String::new(alloc);
    push_key(&mut text, "", name)?;
    Ok(text)
}

/// Puts the texts of a map last in the order of their names, with semicolons between them.
pub(crate) fn push_in_order<K: Ord>(
    text: &mut String,
    texts: &BTreeMap<K, String>,
) -> Result<(), AllocError> {
    let mut is_first = true;
    for of in texts.values() {
        if !is_first {
            text.push_str(";")?;
        }
        text.push_str(of)?;
        is_first = false;
    }
    Ok(())
}
