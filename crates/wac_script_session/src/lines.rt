//! Parts of answers.

use std::alloc::AllocError;
use wac_component::ItemKind;
use wac_script_entries::push_item;
use wac_script_syntax::push_name;

/// Puts a text last, on one line: a line feed is written `\n`, and a backslash `\\`.
pub(crate) fn push_on_one_line(text: &mut String, of: &str) -> Result<(), AllocError> {
    for c in of.chars() {
        match c {
            '\n' => text.push_str("\\n")?,
            '\\' => text.push_str("\\\\")?,
            _ => text.push(c)?,
        }
    }
    Ok(())
}

/// Puts a space, and what a name stands for last, as `NAME=ITEM`.
pub(crate) fn push_binding(
    text: &mut String,
    name: &str,
    item: ItemKind,
) -> Result<(), AllocError> {
    text.push_str(" ")?;
    push_name(text, name)?;
    text.push_str("=")?;
    push_item(text, item)
}

/// Puts `yes` or `no` last.
pub(crate) fn push_yes_or_no(text: &mut String, answer: bool) -> Result<(), AllocError> {
    text.push_str(if answer { "yes" } else { "no" })
}
