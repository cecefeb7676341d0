//! The meet of two own items.

ghost use Rattle.std.specs.Prelude.{IfOk};
ghost use Rattle.wac_component.specs.Key.{AllStand, item_keys};
ghost use Rattle.wac_aggregator_taking.specs.Growing.{IsMetIfAny};

use std::alloc::{AllocError, Global};
use wac_component::{ItemKind, Types};
use wac_merge::meet;

/// The meet of two own items, or none where they have no common lower
/// bound. Entries are only added.
pub fn meet_own(
    alloc: Global,
    types: &mut Types,
    existing: ItemKind,
    new: ItemKind,
) -> Result<Option<ItemKind>, AllocError>
    requires existing { AllStand types.old (item_keys existing) }
    requires new { AllStand types.old (item_keys new) }
    ensures { IfOk result (IsMetIfAny types.old types.new existing new) }
{
    types.sound();
    let met = meet(alloc, types, existing, new)?;
    types.sound();
    Ok(met)
}
