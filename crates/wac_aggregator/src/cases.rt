//! The cases of items.

ghost use Rattle.std.specs.Prelude.{◌≡◌, [], ◌∷◌, IfSome, false, true};
ghost use Rattle.wac_component.specs.Collection.{Collection};
ghost use Rattle.wac_component.specs.Id.{Id};
ghost use Rattle.wac_component.specs.Key.{item_keys, interface_key};
ghost use Rattle.wac_component.specs.Tree.{item_tree};
ghost use Rattle.wac_component.specs.declared.items.ItemKind.TheVariants.{«Type» as OfType, Instance};
ghost use Rattle.wac_aggregator_promises.specs.Case.{case_of};

use wac_component::{InterfaceId, ItemKind, Type};

/// The interface that an item is an instance of, or that it is as a type.
pub(crate) fn as_interface(kind: &ItemKind) -> Option<InterfaceId>
    ensures { IfSome result (λ i. item_keys kind.now ≡ interface_key i ∷ []) }
{
    match kind {
        ItemKind::Instance(id) => Some(*id),
        ItemKind::Type(Type::Interface(id)) => Some(*id),
        _ => None,
    }
}

/// Whether two items are instances of one interface of a collection.
pub(crate) fn is_one_instance(a: ItemKind, b: ItemKind) -> bool
    ensures only { result ≡ true → a ≡ b }
    ensures found { (i : Id) → a ≡ Instance i → b ≡ Instance i → result ≡ true }
{
    match (&a, &b) {
        (ItemKind::Instance(x), ItemKind::Instance(y)) => x == y,
        _ => false,
    }
}

/// Whether two items are of one case, and where they are types, the types are.
pub(crate) fn same_case(a: ItemKind, b: ItemKind) -> bool
    ensures { result ≡ false → (c d : Collection) → ¬ (case_of (item_tree c a) ≡ case_of (item_tree d b)) }
{
    match a {
        ItemKind::Type(x) => match b {
            ItemKind::Type(y) => same_type_case(x, y),
            _ => false,
        },
        ItemKind::Func(_) => match b {
            ItemKind::Func(_) => true,
            _ => false,
        },
        ItemKind::Instance(_) => match b {
            ItemKind::Instance(_) => true,
            _ => false,
        },
        ItemKind::Component(_) => match b {
            ItemKind::Component(_) => true,
            _ => false,
        },
        ItemKind::Module(_) => match b {
            ItemKind::Module(_) => true,
            _ => false,
        },
        ItemKind::Value(_) => match b {
            ItemKind::Value(_) => true,
            _ => false,
        },
    }
}

// The same of two types.
fn same_type_case(a: Type, b: Type) -> bool
    ensures { result ≡ false → (c d : Collection) → ¬ (case_of (item_tree c (OfType a)) ≡ case_of (item_tree d (OfType b))) }
{
    match a {
        Type::Resource(_) => match b {
            Type::Resource(_) => true,
            _ => false,
        },
        Type::Func(_) => match b {
            Type::Func(_) => true,
            _ => false,
        },
        Type::Value(_) => match b {
            Type::Value(_) => true,
            _ => false,
        },
        Type::Interface(_) => match b {
            Type::Interface(_) => true,
            _ => false,
        },
        Type::World(_) => match b {
            Type::World(_) => true,
            _ => false,
        },
        Type::Module(_) => match b {
            Type::Module(_) => true,
            _ => false,
        },
    }
}
