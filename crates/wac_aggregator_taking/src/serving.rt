//! Shared entries that serve as they stand what is merged into them.

ghost use Rattle.std.specs.Prelude.{◌≡◌, Some, IfSome, IsTrue, string_bytes};
ghost use Rattle.std.specs.Option.{option_and_then};
ghost use Rattle.std.specs.Str.{bytes_eq};
ghost use Rattle.wac_model.specs.Order.{Fits};
ghost use Rattle.wac_model.specs.Text.{lookup};
ghost use Rattle.wac_component.specs.Content.{named, use_content};
ghost use Rattle.wac_component.specs.Id.{Id};
ghost use Rattle.wac_component.specs.Key.{Stands, AllStand, item_keys, interface_key, named_keys, use_keys};
ghost use Rattle.wac_component.specs.Tree.{item_tree};
ghost use Rattle.wac_component.specs.declared.items.ItemKind.{ItemKind as Kind};
ghost use Rattle.wac_checker.specs.Compared.{KnowsTruly};
ghost use Rattle.wac_core_merge.specs.Names.{with_new};
ghost use Rattle.wac_merge.specs.Items.{AreUnhidden, extern_keys, extern_list};
ghost use Rattle.wac_aggregator_uses.specs.Uses.{UsesAgree};
ghost use Rattle.wac_aggregator_taking.specs.Growing.{AreMetWith};
ghost use Rattle.wac_aggregator_taking.specs.Serving.{AreUsesKept, IsServing, own_exports, own_items, own_used, own_uses};
ghost use Rattle.wac_aggregator_taking.specs.Takes.{MayTake, shared_in};

use super::state::Merging;
use indexmap::IndexMap;
use std::alloc::Global;
use wac_aggregator_uses::{check_uses, check_uses_of};
use wac_checker::Compared;
use wac_component::laws::names_in_an_interface_are_distinct;
use wac_component::{InterfaceId, ItemKind, Types, UsedType};
use wac_merge::extern_named;
use wac_names::NameClass;

// The shared entry of a class, if there is one.
pub(crate) fn shared_entry(state: &Merging, class: &Option<NameClass>) -> Option<InterfaceId>
    ensures { result ≡ option_and_then (shared_in state.now.shared.entries) class.now }
{
    let Some(class) = class else {
        return None;
    };
    state.shared.get(class).copied()
}

// The shared entry on an interface's track, if it serves that, whose parts were taken in.
pub(crate) fn serving_entry(
    state: &Merging,
    own: &Option<InterfaceId>,
    types: &Types,
    id: InterfaceId,
) -> Option<InterfaceId>
    requires state { MayTake types.now state.now }
    requires own { (i : Id) → own.now ≡ Some i → Stands state.now.types (interface_key i) }
    requires source { Stands types.now (interface_key id) }
    requires uses { AllStand state.now.types (named_keys use_keys (own_uses types.now state.now id)) }
    requires exports { AllStand state.now.types (extern_keys (own_exports types.now state.now id)) }
    ensures own { IfSome result (λ i. own.now ≡ Some i) }
    ensures serves { IfSome result (λ own. IsServing state.now.types own (own_uses types.now state.now id) (own_exports types.now state.now id)) }
{
    let Some(own) = *own else {
        return None;
    };
    if serves(state, own, types, id) {
        return Some(own);
    }
    None
}

// Whether an interface stays as it is where another one, whose parts were taken in, is merged into
// it: it has uses of that one's names, and what it exports fits where that one's exports are asked
// for. No export is copied for it. A no says nothing; no refusal is told here.
fn serves(state: &Merging, own: InterfaceId, types: &Types, id: InterfaceId) -> bool
    requires own { Stands state.now.types (interface_key own) }
    requires source { Stands types.now (interface_key id) }
    requires uses { AllStand state.now.types (named_keys use_keys (own_uses types.now state.now id)) }
    requires exports { AllStand state.now.types (extern_keys (own_exports types.now state.now id)) }
    ensures { IsTrue result → IsServing state.now.types own (own_uses types.now state.now id) (own_exports types.now state.now id) }
{
    types.sound();
    state.types.sound();
    let entry = &state.types[own];
    let interface = &types[id];
    // A name stands once in a map, so that what stands under it is what a look-up finds.
    names_in_an_interface_are_distinct(entry);
    own_uses_serve(state, &entry.uses, &interface.uses)
        && exports_serve(state, &entry.exports, &interface.exports)
}

// Whether uses are of all the names of others, and agree with them; the interfaces of the others
// were taken in.
fn own_uses_serve(
    state: &Merging,
    existing: &IndexMap<String, UsedType>,
    uses: &IndexMap<String, UsedType>,
) -> bool
    requires existing { AllStand state.now.types (named_keys use_keys (named use_content existing.now.entries)) }
    requires new { AllStand state.now.types (named_keys use_keys (own_used state.now (named use_content uses.now.entries))) }
    ensures kept { IsTrue result → AreUsesKept (named use_content existing.now.entries) (own_used state.now (named use_content uses.now.entries)) }
    ensures agree { IsTrue result → UsesAgree state.now.types (named use_content existing.now.entries) (own_used state.now (named use_content uses.now.entries)) }
{
    match state.taken.renamed_uses(uses) {
        Ok(new) => uses_serve(state.alloc(), &state.types, existing, &new),
        Err(_) => false,
    }
}

// Whether uses are of all the names of others, and agree with them.
fn uses_serve(
    alloc: Global,
    types: &Types,
    existing: &IndexMap<String, UsedType>,
    new: &IndexMap<String, UsedType>,
) -> bool
    requires existing { AllStand types.now (named_keys use_keys (named use_content existing.now.entries)) }
    requires new { AllStand types.now (named_keys use_keys (named use_content new.now.entries)) }
    ensures kept { IsTrue result → with_new (λ s t. bytes_eq (string_bytes s) (string_bytes t)) existing.now.entries new.now.entries ≡ existing.now.entries }
    ensures agree { IsTrue result → UsesAgree types.now (named use_content existing.now.entries) (named use_content new.now.entries) }
{
    has_names(existing, new) && check_uses(alloc, types, existing, new).is_ok()
}

// Whether there are uses of all the names of others.
fn has_names(existing: &IndexMap<String, UsedType>, new: &IndexMap<String, UsedType>) -> bool
    ensures { IsTrue result → with_new (λ s t. bytes_eq (string_bytes s) (string_bytes t)) existing.now.entries new.now.entries ≡ existing.now.entries }
{
    for (name, _) in new {
        if !existing.contains_key(name) {
            return false;
        }
    }
    true
}

// Whether each of some exports, of which all that they name was taken in, is served. A pair of
// entries that they name is compared once for all of them.
fn exports_serve(
    state: &Merging,
    existing: &IndexMap<String, ItemKind>,
    exports: &IndexMap<String, ItemKind>,
) -> bool
    requires existing { AllStand state.now.types (extern_keys (extern_list existing.now)) }
    requires new { AllStand state.now.types (extern_keys (own_items state.now (extern_list exports.now))) }
    ensures met { IsTrue result → AreMetWith state.now.types state.now.types (extern_list existing.now) (own_items state.now (extern_list exports.now)) (extern_list existing.now) }
    ensures found { AreUnhidden (own_items state.now (extern_list exports.now)) }
{
    let alloc = state.alloc();
    let mut compared = Compared::new(alloc);
    for (name, kind) in exports {
        let new = state.taken.renamed_item(*kind);
        if !export_serves(alloc, &mut compared, &state.types, existing, name, new) {
            return false;
        }
    }
    true
}

// Whether what is exported under a name fits where an item is asked for, and
// agrees with it in what it uses.
fn export_serves(
    alloc: Global,
    compared: &mut Compared,
    types: &Types,
    existing: &IndexMap<String, ItemKind>,
    name: &String,
    kind: ItemKind,
) -> bool
    requires existing { AllStand types.now (extern_keys (extern_list existing.now)) }
    requires new { AllStand types.now (item_keys kind) }
    requires truly { KnowsTruly types.now types.now compared.old }
    ensures served { IsTrue result → (b : Kind) × (lookup bytes_eq (extern_list existing.now) (string_bytes name.now) ≡ Some b) × Fits (item_tree types.now b) (item_tree types.now kind) }
    ensures truly { KnowsTruly types.now types.now compared.new }
{
    let Some(given) = extern_named(existing, name) else {
        return false;
    };
    item_serves(alloc, compared, types, &given, &kind)
}

// Whether an item fits where another is asked for, and agrees with it in what it uses.
fn item_serves(
    alloc: Global,
    compared: &mut Compared,
    types: &Types,
    existing: &ItemKind,
    new: &ItemKind,
) -> bool
    requires existing { AllStand types.now (item_keys existing.now) }
    requires new { AllStand types.now (item_keys new.now) }
    requires truly { KnowsTruly types.now types.now compared.old }
    ensures served { IsTrue result → Fits (item_tree types.now existing.now) (item_tree types.now new.now) }
    ensures truly { KnowsTruly types.now types.now compared.new }
{
    if check_uses_of(alloc, types, *existing, *new).is_err() {
        return false;
    }
    match compared.fits(alloc, *existing, types, *new, types) {
        Ok(fits) => fits,
        Err(_) => false,
    }
}
