//! An import that is merged with what was taken in for it.

ghost use Rattle.std.specs.Prelude.{◌≡◌, Some, IsSome, IfErr, IfOk, MatchResult};
ghost use Rattle.wac_component.specs.Id.{Id};
ghost use Rattle.wac_component.specs.Key.{AllStand, item_keys};
ghost use Rattle.wac_component.specs.declared.items.ItemKind.TheVariants.{Instance};
ghost use Rattle.wac_aggregator_imports.specs.Import.{ImportContent, import_of, IsImportNoted};
ghost use Rattle.wac_names.specs.Class.{class_of};
ghost use Rattle.wac_aggregator_errors.specs.declared.error.AggregateError.TheVariants.{Memory};
ghost use Rattle.wac_aggregator_taking.specs.Growing.{IsOwnMeet};
ghost use Rattle.wac_aggregator_taking.specs.Refused.{IsMergeRefusal};
ghost use Rattle.wac_aggregator.specs.Advances.{IsMerged};

use super::cases::is_one_instance;
use std::alloc::AllocError;
use wac_aggregator_errors::{AggregateError, mismatch};
use wac_aggregator_taking::{Merging, meet_own};
use wac_aggregator_uses::check_uses_of;
use wac_component::ItemKind;
use wac_names::NameClass;

/// Merges an item that was taken in into the import of a class.
pub(crate) fn note_import(
    state: &mut Merging,
    class: NameClass,
    name: &str,
    existing: ItemKind,
    own: ItemKind,
) -> Result<(), AggregateError>
    requires existing { AllStand state.old.types (item_keys existing) }
    requires own { AllStand state.old.types (item_keys own) }
    requires of { class ≡ class_of name.now }
    requires found { IsSome (import_of state.old.imports class) }
    ensures merged { MatchResult result (λ u. IsMerged state.old state.new name.now existing own) (IsMergeRefusal state.old.types existing own) }
    ensures itself { (i : Id) → existing ≡ Instance i → own ≡ Instance i → IfErr result (λ e. e ≡ Memory) }
{
    match merge_items(state, existing, own) {
        Ok(met) => Ok(note(state, class, name, met)?),
        Err(error) => Err(error),
    }
}

// The meet of an import and of what was taken in for it: the import itself, where both are
// instances of one interface. Two interfaces or two worlds may not disagree in what they use.
fn merge_items(
    state: &mut Merging,
    existing: ItemKind,
    own: ItemKind,
) -> Result<ItemKind, AggregateError>
    requires existing { AllStand state.old.types (item_keys existing) }
    requires own { AllStand state.old.types (item_keys own) }
    ensures same { state.new ≡ record state.old { types = state.new.types } }
    ensures met { MatchResult result (IsOwnMeet state.old.types state.new.types existing own) (IsMergeRefusal state.old.types existing own) }
    ensures itself { (i : Id) → existing ≡ Instance i → own ≡ Instance i → IfErr result (λ e. e ≡ Memory) }
{
    if is_one_instance(existing, own) {
        state.types.sound();
        return Ok(existing);
    }
    let alloc = state.alloc();
    check_uses_of(alloc, &state.types, existing, own)?;
    match meet_own(alloc, &mut state.types, existing, own)? {
        Some(met) => Ok(met),
        None => {
            let frames = Vec::new(alloc);
            Err(mismatch(alloc, &mut state.types, state.check, frames, existing, own)?)
        }
    }
}

// Notes what the import of a class became.
fn note(state: &mut Merging, class: NameClass, name: &str, met: ItemKind) -> Result<(), AllocError>
    requires of { class ≡ class_of name.now }
    requires found { IsSome (import_of state.old.imports class) }
    ensures same { state.new ≡ record state.old { imports = state.new.imports } }
    ensures noted { IfOk result (λ u. (i : ImportContent) → import_of state.old.imports class ≡ Some i → IsImportNoted state.old.imports state.new.imports class i.0 name.now met) }
{
    let alloc = state.alloc();
    let name = String::from_str(alloc, name)?;
    state.imports.note(alloc, class, name, met)
}
