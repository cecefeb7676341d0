//! One call: an item becomes an import, or is merged into one.

ghost use Rattle.std.specs.Prelude.{◌≡◌, ◌⊎◌, Some, None, IsSome, IfErr, MatchResult};
ghost use Rattle.std.specs.Option.{option_map};
ghost use Rattle.wac_model.specs.Desc.{item_desc};
ghost use Rattle.wac_component.specs.Id.{Id};
ghost use Rattle.wac_component.specs.Key.{AllStand, item_keys};
ghost use Rattle.wac_component.specs.Tree.{item_tree};
ghost use Rattle.wac_aggregator_promises.specs.Case.{case_of};
ghost use Rattle.wac_aggregator_promises.specs.Entries.{ReachesByUses};
ghost use Rattle.wac_aggregator_promises.specs.Reason.{kinds, taken};
ghost use Rattle.wac_aggregator_imports.specs.Import.{import_of};
ghost use Rattle.wac_names.specs.Class.{class_of};
ghost use Rattle.wac_aggregator_errors.specs.declared.error.AggregateError.TheVariants.{Memory};
ghost use Rattle.wac_aggregator_taking.specs.Members.{AnswersMembers};
ghost use Rattle.wac_aggregator_errors.specs.Said.{said};
ghost use Rattle.wac_aggregator_taking.specs.Takes.{MayTake};
ghost use Rattle.wac_aggregator.specs.HandedIn.{called};
ghost use Rattle.wac_aggregator.specs.Advances.{Advances, PutsLast, IsRefusedCall};
ghost use Rattle.wac_aggregator.specs.Wit.{MayHandIn};

use super::all::Call;
use super::cases::{as_interface, same_case};
use super::noting::note_import;
use std::alloc::AllocError;
use wac_aggregator_errors::AggregateError;
use wac_aggregator_taking::{HandedIn, Merging, take_item};
use wac_component::{ItemKind, Types};
use wac_names::NameClass;

/// Imports an item under a name, and notes what is told of a mismatch.
pub(crate) fn advance(state: &mut Merging, call: &Call<'_>) -> Result<(), AggregateError>
    requires source { AllStand call.now.types.now (item_keys call.now.kind) }
    requires state { MayTake call.now.types.now state.old }
    ensures advances { MatchResult result (λ u. Advances (called call.now) state.old state.new) (IsRefusedCall (called call.now) state.old) }
    ensures members { (i : Id) → MayHandIn (called call.now) state.old i → AnswersMembers result call.now.types.now state.old state.new (ReachesByUses call.now.types.now i) }
{
    let class = NameClass::of(state.alloc(), call.name)?;
    note_handed_in(state, call, &class)?;
    import(state, class, call)
}

// Notes the interface that is handed in, for what is told of a mismatch, and the class of the name
// that it is handed in under.
fn note_handed_in(state: &mut Merging, call: &Call<'_>, class: &NameClass) -> Result<(), AllocError>
    requires of { class.now ≡ class_of call.now.name.now }
    ensures { state.new ≡ record state.old { handed_in = state.new.handed_in } }
{
    state.handed_in = match as_interface(&call.kind) {
        Some(interface) => Some(HandedIn::new(state.alloc(), interface, call.name, class)?),
        None => None,
    };
    Ok(())
}

// Imports an item under a name: into the import on the name's track, if there is one.
fn import(state: &mut Merging, class: NameClass, call: &Call<'_>) -> Result<(), AggregateError>
    requires source { AllStand call.now.types.now (item_keys call.now.kind) }
    requires state { MayTake call.now.types.now state.old }
    requires of { class ≡ class_of call.now.name.now }
    ensures advances { MatchResult result (λ u. Advances (called call.now) state.old state.new) (IsRefusedCall (called call.now) state.old) }
    ensures members { (i : Id) → MayHandIn (called call.now) state.old i → AnswersMembers result call.now.types.now state.old state.new (ReachesByUses call.now.types.now i) }
{
    match state.imports.kind_of(&class) {
        Some(existing) => merge_import(state, class, existing, call),
        None => add_import(state, class, call),
    }
}

// Takes in an item, and makes it an import.
fn add_import(state: &mut Merging, class: NameClass, call: &Call<'_>) -> Result<(), AggregateError>
    requires source { AllStand call.now.types.now (item_keys call.now.kind) }
    requires state { MayTake call.now.types.now state.old }
    requires of { class ≡ class_of call.now.name.now }
    requires new { import_of state.old.imports class ≡ None }
    ensures advances { MatchResult result (λ u. Advances (called call.now) state.old state.new) (IsRefusedCall (called call.now) state.old) }
    ensures members { (i : Id) → MayHandIn (called call.now) state.old i → AnswersMembers result call.now.types.now state.old state.new (ReachesByUses call.now.types.now i) }
{
    match take_item(state, call.types, call.kind, None) {
        Ok(own) => put_import(state, class, call.name, own),
        Err(error) => Err(error),
    }
}

// Puts an import last, unless its class got one while its item was taken in: that of an owner.
fn put_import(
    state: &mut Merging,
    class: NameClass,
    name: &str,
    own: ItemKind,
) -> Result<(), AggregateError>
    requires of { class ≡ class_of name.now }
    ensures { MatchResult result (λ u. PutsLast state.old state.new name.now own) (λ e. (e ≡ Memory) ⊎ (IsSome (import_of state.old.imports (class_of name.now)) × (said e ≡ Some (taken name.now)))) }
{
    let name = String::from_str(state.alloc(), name)?;
    if state.imports.kind_of(&class).is_some() {
        return Err(AggregateError::Taken { name });
    }
    state.imports.put_last(class, name, own)?;
    Ok(())
}

// Takes in an item, and merges it into the import of a class.
fn merge_import(
    state: &mut Merging,
    class: NameClass,
    existing: ItemKind,
    call: &Call<'_>,
) -> Result<(), AggregateError>
    requires source { AllStand call.now.types.now (item_keys call.now.kind) }
    requires state { MayTake call.now.types.now state.old }
    requires of { class ≡ class_of call.now.name.now }
    requires found { option_map (λ i. i.1) (import_of state.old.imports class) ≡ Some existing }
    ensures advances { MatchResult result (λ u. Advances (called call.now) state.old state.new) (IsRefusedCall (called call.now) state.old) }
    ensures members { (i : Id) → MayHandIn (called call.now) state.old i → AnswersMembers result call.now.types.now state.old state.new (ReachesByUses call.now.types.now i) }
{
    match check_case(&state.types, &existing, call.types, &call.kind) {
        Ok(()) => merge_taken(state, class, existing, call),
        Err(error) => Err(error),
    }
}

// The same of an item of the import's case: the interface that it is merged with is near to it.
fn merge_taken(
    state: &mut Merging,
    class: NameClass,
    existing: ItemKind,
    call: &Call<'_>,
) -> Result<(), AggregateError>
    requires source { AllStand call.now.types.now (item_keys call.now.kind) }
    requires state { MayTake call.now.types.now state.old }
    requires of { class ≡ class_of call.now.name.now }
    requires found { option_map (λ i. i.1) (import_of state.old.imports class) ≡ Some existing }
    ensures advances { MatchResult result (λ u. Advances (called call.now) state.old state.new) (IsRefusedCall (called call.now) state.old) }
    ensures members { (i : Id) → MayHandIn (called call.now) state.old i → AnswersMembers result call.now.types.now state.old state.new (ReachesByUses call.now.types.now i) }
{
    let near = as_interface(&existing);
    match take_item(state, call.types, call.kind, near) {
        Ok(own) => note_import(state, class, call.name, existing, own),
        Err(error) => Err(error),
    }
}

// Refuses an item of another case than the import.
fn check_case(
    own: &Types,
    existing: &ItemKind,
    types: &Types,
    kind: &ItemKind,
) -> Result<(), AggregateError>
    requires existing { AllStand own.now (item_keys existing.now) }
    requires found { AllStand types.now (item_keys kind.now) }
    ensures cases { IfErr result (λ e. ¬ (case_of (item_tree own.now existing.now) ≡ case_of (item_tree types.now kind.now))) }
    ensures says { IfErr result (λ e. said e ≡ Some (kinds (item_desc (item_tree own.now existing.now)) (item_desc (item_tree types.now kind.now)))) }
{
    if same_case(*existing, *kind) {
        return Ok(());
    }
    Err(AggregateError::Kinds {
        existing: existing.desc(own),
        found: kind.desc(types),
    })
}
