//! What a command answers.

use serde_json::Value;
use std::alloc::{AllocError, Global};

/// What a command answers.
pub struct Answer {
    /// Whether it is a yes.
    pub is_yes: bool,
    /// What is printed.
    pub text: String,
}

impl Drop for Answer {
    fn drop(self) {
        let Answer { is_yes: _, text: _ } = self;
    }
}

/// A value as JSON, on lines of its own.
pub(crate) fn json_text(alloc: Global, value: &Value) -> Result<String, AllocError> {
    let mut text = value.to_string_pretty(alloc)?;
    text.push('\n')?;
    Ok(text)
}

/// A text as JSON, or null where there is none.
pub(crate) fn text_or_null(alloc: Global, text: Option<&str>) -> Result<Value, AllocError> {
    match text {
        Some(text) => Value::try_from_str(alloc, text),
        None => Ok(Value::Null),
    }
}
