//! Meets and joins of core modules.

ghost use Rattle.std.specs.Prelude.{Some, IsTrue, IfOk, IfSome};
ghost use Rattle.std.specs.Option.{option_map, option_copied};
ghost use Rattle.wac_model.specs.CoreTree.{Serves, is_valid_extern, is_valid_module};
ghost use Rattle.wac_bounds.specs.MeetIn.{IsMeetIn, IsJoinIn};
ghost use Rattle.wac_bounds.specs.Valid.{ValidFits, ValidModuleFits};
ghost use Rattle.indexmap.specs.IndexMap.{IsUnique};
ghost use Rattle.wac_core.specs.Content.{core_tree, module_content};
ghost use Rattle.wac_core_merge.specs.Entries.{AreValid, IsJoinAt, IsEachMetIfAny, IsEachJoined, AreAllMet};
ghost use Rattle.wac_core_merge.specs.NameOrder.{IsMeetInOrder, IsJoinInOrder};
ghost use Rattle.wac_core_merge.specs.Origin.{IsModuleFrom};

use crate::externs::{join_externs, meet_externs};
use crate::names::{add_new, insert_if_any, insert_new};
use indexmap::IndexMap;
use std::alloc::{AllocError, Global};
use std::hash::Hash;
use wac_core::{CoreExtern, ModuleType};

// An extern, met with what another module has under its name.
fn meet_with(of: CoreExtern, other: Option<&CoreExtern>) -> Result<Option<CoreExtern>, AllocError>
    requires { IsTrue (is_valid_extern (core_tree of)) }
    ensures { IfOk result (λ m. IsMeetIn (Serves ValidFits) (Some (core_tree of)) (option_map core_tree (option_copied other.entry)) (option_map Some (option_map core_tree m))) }
{
    match other {
        Some(other) => meet_externs(&of, other),
        None => Ok(Some(of)),
    }
}

// An extern, joined with what another module has under its name.
fn join_with(of: CoreExtern, other: Option<&CoreExtern>) -> Result<Option<CoreExtern>, AllocError>
    ensures { IfOk result (λ m. IsJoinAt (Some (core_tree of)) (option_map core_tree (option_copied other.entry)) (option_map core_tree m)) }
{
    match other {
        Some(other) => join_externs(&of, other),
        None => Ok(None),
    }
}

// The externs of the first map, each met with what the second has under its name. None where some
// have no meet.
fn meet_each<K: Eq + Hash + Drop>(
    alloc: Global,
    first: IndexMap<K, CoreExtern>,
    second: &IndexMap<K, CoreExtern>,
) -> Result<Option<IndexMap<K, CoreExtern>>, AllocError>
    requires { AreValid first.entries }
    ensures met { IfOk result (λ m. IsEachMetIfAny K.eq first.entries second.now.entries (option_map (λ t. t.entries) m)) }
    ensures unique { IsUnique K.eq first }
{
    let mut met = IndexMap::new(alloc);
    for (name, of) in first {
        let Some(kept) = meet_with(of, second.get(&name))? else {
            return Ok(None);
        };
        insert_new(&mut met, name, kept)?;
    }
    Ok(Some(met))
}

// The externs of all names, those of one name met: the first map's names come first, and then what
// only the second has. None where some have no meet.
fn meet_all<K: Eq + Hash + Drop>(
    alloc: Global,
    first: IndexMap<K, CoreExtern>,
    second: IndexMap<K, CoreExtern>,
) -> Result<Option<IndexMap<K, CoreExtern>>, AllocError>
    requires { AreValid first.entries }
    ensures met { IfOk result (λ m. AreAllMet K.eq first.entries second.entries (option_map (λ t. t.entries) m)) }
    ensures unique { IsUnique K.eq first }
    ensures second_unique { IfOk result (λ m. IfSome m (λ _. IsUnique K.eq second)) }
{
    let Some(mut met) = meet_each(alloc, first, &second)? else {
        return Ok(None);
    };
    add_new(&mut met, second)?;
    Ok(Some(met))
}

// The externs of the names that both maps have, joined, in the first map's order. Those without a
// join are left out.
fn join_each<K: Eq + Hash + Drop>(
    alloc: Global,
    first: IndexMap<K, CoreExtern>,
    second: &IndexMap<K, CoreExtern>,
) -> Result<IndexMap<K, CoreExtern>, AllocError>
    ensures joined { IfOk result (λ m. IsEachJoined K.eq first.entries second.now.entries m.entries) }
    ensures unique { IsUnique K.eq first }
{
    let mut joined = IndexMap::new(alloc);
    for (name, of) in first {
        let kept = join_with(of, second.get(&name))?;
        insert_if_any(&mut joined, name, kept)?;
    }
    Ok(joined)
}

/// The greatest core module of valid externs that fits where either is asked for, if any does. It
/// exports what either does, where they export one name the meet of both exports, and imports what
/// both do, joined (WebAssembly core specification, "Import Subtyping"). An import whose types have
/// no join is left out. Exports have the first module's order, and then the second's; imports the
/// first's.
pub fn meet_modules(
    alloc: Global,
    a: &ModuleType,
    b: &ModuleType,
) -> Result<Option<ModuleType>, AllocError>
    requires a { IsTrue (is_valid_module (module_content a.now)) }
    requires b { IsTrue (is_valid_module (module_content b.now)) }
    ensures meet { IfOk result (λ m. IsMeetIn ValidModuleFits (module_content a.now) (module_content b.now) (option_map module_content m)) }
    ensures names { IfOk result (λ m. IfSome m (λ t. IsModuleFrom (module_content a.now) (module_content b.now) (module_content t))) }
    ensures order { IfOk result (λ m. IfSome m (λ t. IsMeetInOrder (module_content a.now) (module_content b.now) (module_content t))) }
{
    let Some(exports) = meet_all(alloc, a.exports.clone()?, b.exports.clone()?)? else {
        return Ok(None);
    };
    let imports = join_each(alloc, a.imports.clone()?, &b.imports)?;
    Ok(Some(ModuleType { imports, exports }))
}

/// The least core module of valid externs where either fits, if there is one. It exports what both
/// do, joined, and imports what either does, where they import one name the meet of both imports
/// (WebAssembly core specification, "Import Subtyping"). An export whose types have no join is left
/// out. Imports have the first module's order, and then the second's; exports the first's.
pub fn join_modules(
    alloc: Global,
    a: &ModuleType,
    b: &ModuleType,
) -> Result<Option<ModuleType>, AllocError>
    requires a { IsTrue (is_valid_module (module_content a.now)) }
    requires b { IsTrue (is_valid_module (module_content b.now)) }
    ensures join { IfOk result (λ m. IsJoinIn ValidModuleFits (module_content a.now) (module_content b.now) (option_map module_content m)) }
    ensures names { IfOk result (λ m. IfSome m (λ t. IsModuleFrom (module_content a.now) (module_content b.now) (module_content t))) }
    ensures order { IfOk result (λ m. IfSome m (λ t. IsJoinInOrder (module_content a.now) (module_content b.now) (module_content t))) }
{
    let Some(imports) = meet_all(alloc, a.imports.clone()?, b.imports.clone()?)? else {
        return Ok(None);
    };
    let exports = join_each(alloc, a.exports.clone()?, &b.exports)?;
    Ok(Some(ModuleType { imports, exports }))
}
