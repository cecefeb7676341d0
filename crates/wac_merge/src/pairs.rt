//! The entries that two items name alike.

ghost use Rattle.std.specs.Prelude.{◌≡◌, IfSome, None};
ghost use Rattle.std.specs.Option.{option_map};
ghost use Rattle.wac_component.specs.Collection.{Collection};
ghost use Rattle.wac_component.specs.Tree.{item_tree};
ghost use Rattle.wac_component.specs.declared.items.ItemKind.TheVariants.{«Type» as OfType};
ghost use Rattle.wac_model.specs.ItemTree.{type_item};
ghost use Rattle.wac_merge.specs.Bounded.{AreUnlike};
ghost use Rattle.wac_merge.specs.Items.{entry_item};
ghost use Rattle.wac_merge.specs.Memo.{sort_kind, first_key, second_key, bound_key};

use crate::memo::{BoundId, BoundPair};
use wac_component::{ItemKind, Type};

/// The two entries of two items, and whether both are types; `None` where the items are not alike.
pub(crate) fn pair_of(a: &ItemKind, b: &ItemKind) -> Option<(bool, BoundPair)>
    ensures alike { IfSome result (λ r. (a.now ≡ entry_item (sort_kind r.0) (first_key r.1)) × (b.now ≡ entry_item (sort_kind r.0) (second_key r.1))) }
    ensures unlike { result ≡ None → (c : Collection) → AreUnlike (item_tree c a.now) (item_tree c b.now) }
{
    match (a, b) {
        (ItemKind::Type(x), ItemKind::Type(y)) => Some((true, pair_of_types(x, y)?)),
        (ItemKind::Instance(x), ItemKind::Instance(y)) => Some((
            false,
            BoundPair::Interfaces(*x, *y),
        )),
        (ItemKind::Component(x), ItemKind::Component(y)) => Some((
            false,
            BoundPair::Worlds(*x, *y),
        )),
        (ItemKind::Module(x), ItemKind::Module(y)) => Some((false, BoundPair::Modules(*x, *y))),
        _ => None,
    }
}

// The same of two types.
fn pair_of_types(a: &Type, b: &Type) -> Option<BoundPair>
    ensures alike { IfSome result (λ p. (OfType a.now ≡ entry_item type_item (first_key p)) × (OfType b.now ≡ entry_item type_item (second_key p))) }
    ensures unlike { result ≡ None → (c : Collection) → AreUnlike (item_tree c (OfType a.now)) (item_tree c (OfType b.now)) }
{
    match (a, b) {
        (Type::Interface(x), Type::Interface(y)) => Some(BoundPair::Interfaces(*x, *y)),
        (Type::World(x), Type::World(y)) => Some(BoundPair::Worlds(*x, *y)),
        (Type::Module(x), Type::Module(y)) => Some(BoundPair::Modules(*x, *y)),
        _ => None,
    }
}

/// The item, or the type, that names an entry.
pub(crate) fn item_of(is_type: bool, entry: Option<BoundId>) -> Option<ItemKind>
    ensures { result ≡ option_map (λ e. entry_item (sort_kind is_type) (bound_key e)) entry }
{
    let entry = entry?;
    if is_type {
        return Some(ItemKind::Type(type_of(entry)));
    }
    Some(match entry {
        BoundId::Interface(id) => ItemKind::Instance(id),
        BoundId::World(id) => ItemKind::Component(id),
        BoundId::Module(id) => ItemKind::Module(id),
    })
}

// The type that an entry is.
fn type_of(entry: BoundId) -> Type
    ensures { OfType result ≡ entry_item type_item (bound_key entry) }
{
    match entry {
        BoundId::Interface(id) => Type::Interface(id),
        BoundId::World(id) => Type::World(id),
        BoundId::Module(id) => Type::Module(id),
    }
}
