//! Merged imports as JSON, and as a graph for Graphviz.

use super::handing::{Handed, Leading, calls_to};
use super::merge_text::merged_text;
use serde_json::{Value, json};
use std::alloc::{AllocError, Global};
use wac_types::TypeAggregator;
use wac_wit_entries::sort_of;

/// The imports with the names that lead to each, and the world as WIT text.
pub(crate) fn merged_json(
    alloc: Global,
    handed: &Handed<'_>,
    merged: &TypeAggregator,
    leading: &Leading,
) -> Result<Value, AllocError> {
    let mut imports = Vec::new(alloc);
    for (name, item) in merged.imports() {
        let from = names_json(alloc, handed, calls_to(leading, name))?;
        let sort = sort_of(item);
        imports.push(json!(in alloc; {"name": name, "kind": sort, "from": from})?)?;
    }
    let wit = merged_text(alloc, handed, merged, leading)?;
    json!(in alloc; {"merged": true, "imports": imports, "wit": wit})
}

// The names that lead to an import.
fn names_json(
    alloc: Global,
    handed: &Handed<'_>,
    calls: &[usize],
) -> Result<Vec<Value>, AllocError> {
    let mut names = Vec::new(alloc);
    for index in calls {
        names.push(call_json(alloc, handed, *index)?)?;
    }
    Ok(names)
}

/// An import of a world, by its name.
pub(crate) fn call_json(
    alloc: Global,
    handed: &Handed<'_>,
    call: usize,
) -> Result<Value, AllocError> {
    let (Some(of), Some(source)) = (handed.calls.get(call), handed.source_of(call)) else {
        return Ok(Value::Null);
    };
    json!(in alloc; {
        "name": (of.name),
        "world": (source.name.as_str()),
        "input": (source.input.path.as_str())
    })
}

/// The worlds, the merged imports, and arrows from each world to the imports that its names lead
/// to, with the names on them.
pub(crate) fn merged_dot(
    alloc: Global,
    handed: &Handed<'_>,
    leading: &Leading,
) -> Result<String, AllocError> {
    let mut out = String::from_str(alloc, "digraph merged {\n  rankdir=LR;\n")?;
    for (index, source) in handed.sources.iter().enumerate() {
        write!(out, "  world{index} [shape=component, label=\"")?;
        push_escaped(&mut out, &source.name)?;
        out.push_str("\\n")?;
        push_escaped(&mut out, &source.input.path)?;
        out.push_str("\"];\n")?;
    }
    let mut number = 0usize;
    for name in leading.keys() {
        write!(out, "  import{number} [shape=box, label=\"")?;
        push_escaped(&mut out, name)?;
        out.push_str("\"];\n")?;
        number = number.saturating_add(1);
    }
    number = 0;
    for calls in leading.values() {
        push_arrows(&mut out, handed, number, calls)?;
        number = number.saturating_add(1);
    }
    out.push_str("}\n")?;
    Ok(out)
}

// Puts the arrows to an import last.
fn push_arrows(
    out: &mut String,
    handed: &Handed<'_>,
    number: usize,
    calls: &[usize],
) -> Result<(), AllocError> {
    for index in calls {
        if let (Some(call), Some(owner)) = (handed.calls.get(*index), handed.owners.get(*index)) {
            write!(out, "  world{owner} -> import{number} [label=\"")?;
            push_escaped(out, call.name)?;
            out.push_str("\"];\n")?;
        }
    }
    Ok(())
}

// Puts a text last as it stands between the quotes of a label.
fn push_escaped(out: &mut String, text: &str) -> Result<(), AllocError> {
    for c in text.chars() {
        match c {
            '"' | '\\' => {
                out.push('\\')?;
                out.push(c)?;
            }
            c if c.is_control() => out.push(' ')?,
            c => out.push(c)?,
        }
    }
    Ok(())
}
