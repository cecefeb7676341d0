//! Where the exports of two core modules clash.

ghost use Rattle.std.specs.Prelude.{IfOk, IsTrue};
ghost use Rattle.std.specs.List.{list_all};
ghost use Rattle.std.specs.Option.{option_map, option_copied};
ghost use Rattle.wac_model.specs.CoreTree.{is_valid_extern};
ghost use Rattle.wac_model.specs.ItemTree.{Kind};
ghost use Rattle.wac_component.specs.Key.{AllStand, Stands, item_keys, type_keys, module_key};
ghost use Rattle.wac_component.specs.Content.{named};
ghost use Rattle.wac_component.specs.Tree.{item_tree};
ghost use Rattle.wac_component.specs.declared.items.ItemKind.TheVariants.{«Type» as OfType};
ghost use Rattle.wac_core.specs.Content.{core_tree};
ghost use Rattle.wac_merge.specs.Items.{entry_item};
ghost use Rattle.wac_aggregator_errors.specs.Found.{IsSearchBeside, IsCoreSearchOf, IsCoreSearchBelow};

use crate::checks::core_error;
use indexmap::IndexMap;
use std::alloc::{AllocError, Global};
use wac_component::{ItemKind, ModuleTypeId, Type, Types};
use wac_core::CoreExtern;
use wac_core_merge::meet_externs;
use wac_mismatch::SubtypeError;

// Two exports of one name of core modules that have no meet, by what is said of them.
#[derive(Drop)]
pub(crate) struct CoreClash {
    pub(crate) name: String,
    pub(crate) error: SubtypeError,
}

// The first exports of one name that have no meet, of two core modules.
pub(crate) fn module_clash(
    alloc: Global,
    own: &Types,
    existing: ItemKind,
    new: ItemKind,
) -> Result<Option<CoreClash>, AllocError>
    requires existing { AllStand own.now (item_keys existing) }
    requires new { AllStand own.now (item_keys new) }
    ensures { IfOk result (IsCoreSearchBelow (item_tree own.now existing) (item_tree own.now new)) }
{
    match (&existing, &new) {
        (ItemKind::Module(x), ItemKind::Module(y)) => module_type_clash(alloc, own, *x, *y),
        (ItemKind::Type(x), ItemKind::Type(y)) => type_clash(alloc, own, *x, *y),
        _ => Ok(None),
    }
}

// The same of two types.
fn type_clash(
    alloc: Global,
    own: &Types,
    existing: Type,
    new: Type,
) -> Result<Option<CoreClash>, AllocError>
    requires existing { AllStand own.now (type_keys existing) }
    requires new { AllStand own.now (type_keys new) }
    ensures { IfOk result (IsCoreSearchBelow (item_tree own.now (OfType existing)) (item_tree own.now (OfType new))) }
{
    match (&existing, &new) {
        (Type::Module(x), Type::Module(y)) => module_type_clash(alloc, own, *x, *y),
        _ => Ok(None),
    }
}

// The same of two core module types.
fn module_type_clash(
    alloc: Global,
    own: &Types,
    existing: ModuleTypeId,
    new: ModuleTypeId,
) -> Result<Option<CoreClash>, AllocError>
    requires existing { Stands own.now (module_key existing) }
    requires new { Stands own.now (module_key new) }
    ensures { IfOk result (λ o. (k : Kind) → IsCoreSearchBelow (item_tree own.now (entry_item k (module_key existing))) (item_tree own.now (entry_item k (module_key new))) o) }
{
    first_core_clash(alloc, &own[existing].exports, &own[new].exports)
}

// The first two of one name that have no meet, of valid core externs and others.
fn first_core_clash(
    alloc: Global,
    first: &IndexMap<String, CoreExtern>,
    second: &IndexMap<String, CoreExtern>,
) -> Result<Option<CoreClash>, AllocError>
    requires valid { IsTrue (list_all (λ e. is_valid_extern e.1) (named core_tree first.now.entries)) }
    ensures { IfOk result (IsCoreSearchOf (named core_tree first.now.entries) (named core_tree second.now.entries)) }
{
    for (name, existing) in first {
        if let Some(error) = core_clash(alloc, existing, second.get(name))? {
            return Ok(Some(CoreClash {
                name: name.clone()?,
                error,
            }));
        }
    }
    Ok(None)
}

// What is said of a valid core extern and of what the other side has, if these have no meet.
fn core_clash(
    alloc: Global,
    existing: &CoreExtern,
    other: Option<&CoreExtern>,
) -> Result<Option<SubtypeError>, AllocError>
    requires valid { IsTrue (is_valid_extern (core_tree existing.now)) }
    ensures { IfOk result (IsSearchBeside (core_tree existing.now) (option_map core_tree (option_copied other.entry))) }
{
    let Some(new) = other else {
        return Ok(None);
    };
    if meet_externs(existing, new)?.is_some() {
        return Ok(None);
    }
    Ok(Some(core_error(alloc, existing, new)?))
}
