//! Adding entries, and replacing them.

ghost use Rattle.std.specs.Prelude.{◌≡◌, OnErr};

use super::contents::{func_of, interface_of, resource_of, world_of};
use super::definitions::definition_of;
use super::modules::module_of;
use super::names::{
    find_defined, find_func, find_interface, find_module, find_resource, find_world,
};
use std::alloc::Global;
use wac_component::{ModuleError, ReplaceError, Types};
use wac_script_syntax::{Content, EntryName, ScriptError, Sort};

/// Puts the entry that a content describes last in the list of its sort. Refused, the collection is
/// unchanged: `NoEntry` where an index in the content names no entry, `Limits` where a table or a
/// memory starts above its maximum, `Memory` where an allocation fails, another error where the
/// content's words are malformed.
pub fn add<'a>(
    alloc: Global,
    types: &mut Types,
    content: Content<'a>,
) -> Result<(), ScriptError<'a>>
    ensures number { types.new.number ≡ types.old.number }
    ensures err { OnErr result (types.new ≡ types.old) }
{
    let sort = content.sort;
    let words = &content.words;
    match sort {
        Sort::DefinedType => {
            let entry = definition_of(alloc, types, words)?;
            let _ = types.add_defined_type(entry)?;
        }
        Sort::Resource => {
            let entry = resource_of(alloc, types, words)?;
            let _ = types.add_resource(entry)?;
        }
        Sort::Func => {
            let entry = func_of(alloc, types, words)?;
            let _ = types.add_func_type(entry)?;
        }
        Sort::Interface => {
            let entry = interface_of(alloc, types, words)?;
            let _ = types.add_interface(entry)?;
        }
        Sort::World => {
            let entry = world_of(alloc, types, words)?;
            let _ = types.add_world(entry)?;
        }
        Sort::Module => add_module(alloc, types, words)?,
    }
    Ok(())
}

// Puts the core module that words describe last.
fn add_module<'a>(
    alloc: Global,
    types: &mut Types,
    words: &[&'a str],
) -> Result<(), ScriptError<'a>>
    ensures number { types.new.number ≡ types.old.number }
    ensures err { OnErr result (types.new ≡ types.old) }
{
    let entry = module_of(alloc, words)?;
    match types.add_module_type(entry) {
        Ok(_) => Ok(()),
        Err(ModuleError::Limits) => Err(ScriptError::Limits),
        Err(ModuleError::Memory) => Err(ScriptError::Memory),
    }
}

/// What became of an entry that was to be replaced.
#[derive(Clone, Copy)]
pub enum Replacement {
    /// It has the new content.
    Done,
    /// The new content leads back to it, so it has the content that it had.
    Cycle,
}

/// Puts the entry of its sort that words describe in the place of the one of this name, unless it
/// leads back to it: then, and where the call is refused, the collection is unchanged. `NoEntry`
/// where a name names no entry, `Limits` where a table or a memory starts above its maximum,
/// `Memory` where an allocation fails, another error where the words are malformed.
///
/// Who replaces an entry empties each checker's cache that holds an item which leads to it.
pub fn replace<'a>(
    alloc: Global,
    types: &mut Types,
    entry: EntryName,
    words: &[&'a str],
) -> Result<Replacement, ScriptError<'a>>
    ensures { types.new.number ≡ types.old.number }
{
    let index = entry.index;
    match entry.sort {
        Sort::DefinedType => {
            let id = find_defined(types, index)?;
            let content = definition_of(alloc, types, words)?;
            outcome(types.replace_defined_type(id, content))
        }
        Sort::Resource => {
            let id = find_resource(types, index)?;
            let content = resource_of(alloc, types, words)?;
            outcome(types.replace_resource(id, content))
        }
        Sort::Func => {
            let id = find_func(types, index)?;
            let content = func_of(alloc, types, words)?;
            outcome(types.replace_func_type(id, content))
        }
        Sort::Interface => {
            let id = find_interface(types, index)?;
            let content = interface_of(alloc, types, words)?;
            outcome(types.replace_interface(id, content))
        }
        Sort::World => {
            let id = find_world(types, index)?;
            let content = world_of(alloc, types, words)?;
            outcome(types.replace_world(id, content))
        }
        Sort::Module => {
            let id = find_module(types, index)?;
            let content = module_of(alloc, words)?;
            outcome(types.replace_module_type(id, content))
        }
    }
}

// What a call that replaces an entry came to.
fn outcome<'a, T: Drop>(
    replaced: Result<(), ReplaceError<T>>,
) -> Result<Replacement, ScriptError<'a>> {
    match replaced {
        Ok(()) => Ok(Replacement::Done),
        Err(ReplaceError::Cycle(_)) => Ok(Replacement::Cycle),
        Err(ReplaceError::Memory(_)) => Err(ScriptError::Memory),
        Err(ReplaceError::Limits(_)) => Err(ScriptError::Limits),
    }
}
