//! The meet and the join of two items of a collection.

ghost use Rattle.std.specs.Prelude.{◌≤◌, ◌+◌, ◌*◌, ◌∷◌, [], IfOk, IfSome};
ghost use Rattle.std.specs.Option.{option_map};
ghost use Rattle.wac_bounds.specs.Bounds.{IsMeetIfAny, IsJoinIfAny};
ghost use Rattle.wac_component.specs.Growth.{Extends};
ghost use Rattle.wac_component.specs.Key.{AllStand, item_keys};
ghost use Rattle.wac_component.specs.Sound.{entry_count};
ghost use Rattle.wac_component.specs.Tree.{item_tree};
ghost use Rattle.wac_merge.specs.Bounded.{KeepsFitting};
ghost use Rattle.wac_merge.specs.Built.{Builds};

use crate::memo::Bound;
use crate::steps::bound_of;
use std::alloc::{AllocError, Global};
use wac_component::{ItemKind, Types};

/// The meet of two items: the greatest item that fits where either is asked for, or `None` where no
/// item fits where both are (Component Model explainer, "Subtyping").
///
/// It is `a` where that fits where `b` is asked for, else `b` where that fits where `a` is, else a
/// new entry with no identifier: an interface that exports what both do, with the exports of one
/// name met; a world that imports only names that both import, with what both have there joined; a
/// core module likewise. Functions, values and resources have a meet where they are equal.
///
/// Entries are only added, also where the answer is `None` or an error: at most one meet and one
/// join of each ordered pair of entries that stood.
pub fn meet(
    alloc: Global,
    types: &mut Types,
    a: ItemKind,
    b: ItemKind,
) -> Result<Option<ItemKind>, AllocError>
    requires left { AllStand types.old (item_keys a) }
    requires right { AllStand types.old (item_keys b) }
    ensures meet { IfOk result (λ m. IsMeetIfAny (option_map (item_tree types.new) m) (item_tree types.old a ∷ item_tree types.old b ∷ [])) }
    ensures kept { IfOk result (KeepsFitting (item_tree types.old a) (item_tree types.old b) a b) }
    ensures standing { IfOk result (λ m. IfSome m (λ k. AllStand types.new (item_keys k))) }
    ensures builds { Builds types.old types.new a b result }
    ensures grows { Extends types.old types.new }
    ensures bounded { entry_count types.new ≤ entry_count types.old + 2 * entry_count types.old * entry_count types.old }
{
    bound_of(alloc, types, Bound::Meet, a, b)
}

/// The join of two items: the least item where whatever fits where one of the two is asked for
/// fits, or `None` where there is no such item (Component Model explainer, "Subtyping").
///
/// It is `b` where `a` fits where that is asked for, else `a` where `b` does, else a new entry with
/// no identifier: an interface that exports the names that both do, with what both have there
/// joined, and without those that have no join; a world that exports likewise and imports what both
/// do, with the imports of one name met; a core module likewise. Functions, values and resources
/// have a join where they are equal.
///
/// Entries are only added, also where the answer is `None` or an error: at most one meet and one
/// join of each ordered pair of entries that stood.
pub fn join(
    alloc: Global,
    types: &mut Types,
    a: ItemKind,
    b: ItemKind,
) -> Result<Option<ItemKind>, AllocError>
    requires left { AllStand types.old (item_keys a) }
    requires right { AllStand types.old (item_keys b) }
    ensures join { IfOk result (λ j. IsJoinIfAny (option_map (item_tree types.new) j) (item_tree types.old a ∷ item_tree types.old b ∷ [])) }
    ensures kept { IfOk result (KeepsFitting (item_tree types.old a) (item_tree types.old b) b a) }
    ensures standing { IfOk result (λ j. IfSome j (λ k. AllStand types.new (item_keys k))) }
    ensures builds { Builds types.old types.new a b result }
    ensures grows { Extends types.old types.new }
    ensures bounded { entry_count types.new ≤ entry_count types.old + 2 * entry_count types.old * entry_count types.old }
{
    bound_of(alloc, types, Bound::Join, a, b)
}
