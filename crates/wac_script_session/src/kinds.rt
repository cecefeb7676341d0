//! The answer about kinds.

use wac_component::{ExternKind, FuncKind};
use wac_script_syntax::ScriptError;

/// Puts the texts of the kinds of functions and of externs last: the answer to `kinds`.
pub(crate) fn kinds<'a>(text: &mut String, words: &[&'a str]) -> Result<(), ScriptError<'a>> {
    if !words.is_empty() {
        return Err(ScriptError::Misused("kinds"));
    }
    let free = FuncKind::Free;
    let method = FuncKind::Method;
    let of_type = FuncKind::Static;
    let constructor = FuncKind::Constructor;
    let import = ExternKind::Import;
    let export = ExternKind::Export;
    write!(
        text,
        "{free} | {method} | {of_type} | {constructor} | {import} | {export}"
    )?;
    Ok(())
}
