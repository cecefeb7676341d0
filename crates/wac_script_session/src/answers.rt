//! Answers to queries that change nothing.

use super::collections::Collections;
use super::core_externs::{core, core_subtype};
use super::kinds::kinds;
use super::name_maps::name_map;
use super::names::{compatible, track};
use super::packages::packages;
use super::questions::{ItemQuery, about, contains, count};
use super::targets::{implicit_imports, validate};
use super::visits::visit;
use std::alloc::Global;
use wac_script_syntax::{ScriptError, unexpected};

/// Puts the answer to a query that changes nothing last, by its command and the words after it.
pub(crate) fn answer<'a>(
    alloc: Global,
    text: &mut String,
    collections: &Collections,
    command: &'a str,
    words: &[&'a str],
) -> Result<(), ScriptError<'a>> {
    match command {
        "coresub" => core_subtype(alloc, text, words),
        "core" => core(alloc, text, words),
        "track" => track(alloc, text, words),
        "compatible" => compatible(alloc, text, words),
        "namemap" => name_map(alloc, text, words),
        "pkg" => packages(alloc, text, words),
        "kinds" => kinds(text, words),
        "tree" => about(alloc, text, collections, ItemQuery::Tree, words),
        "desc" => about(alloc, text, collections, ItemQuery::Desc, words),
        "promote" => about(alloc, text, collections, ItemQuery::Promoted, words),
        "ty" => about(alloc, text, collections, ItemQuery::Type, words),
        "entry" => about(alloc, text, collections, ItemQuery::Entry, words),
        "borrows" => about(alloc, text, collections, ItemQuery::Borrows, words),
        "resolve" => about(alloc, text, collections, ItemQuery::Root, words),
        "visit" => visit(alloc, text, collections, words),
        "contains" => contains(text, collections, words),
        "validate" => validate(alloc, text, collections, words),
        "implicit" => implicit_imports(alloc, text, collections, words),
        "count" => count(text, collections, words),
        _ => Err(unexpected("a command", command)),
    }
}
