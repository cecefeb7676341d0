//! A caller of `meet`.

ghost use Rattle.std.specs.Prelude.{◌≡◌, IfNone, IfOk, IfSome};
ghost use Rattle.wac_types.specs.ItemTree.{ItemTree};
ghost use Rattle.wac_types.specs.Key.{AllStand, item_keys};
ghost use Rattle.wac_types.specs.Order.{Fits};
ghost use Rattle.wac_types.specs.Tree.{item_tree};
ghost use Rattle.wac_types.specs.declared.ItemKind.{ItemKind};

use std::alloc::{AllocError, Global};
use wac_types::{ItemKind, Types, meet};

/// An item that fits where either of two is asked for, or `None` where no item does. All that stood
/// in the collection keeps its tree.
pub fn serve_both(
    alloc: Global,
    types: &mut Types,
    a: ItemKind,
    b: ItemKind,
) -> Result<Option<ItemKind>, AllocError>
    requires a { AllStand types.old (item_keys a) }
    requires b { AllStand types.old (item_keys b) }
    ensures fits { IfOk result (λ m. IfSome m (λ k. Fits (item_tree types.new k) (item_tree types.old a) × Fits (item_tree types.new k) (item_tree types.old b))) }
    ensures none { IfOk result (λ m. IfNone m ((t : ItemTree) → Fits t (item_tree types.old a) → Fits t (item_tree types.old b) → ⊥)) }
    ensures stands { IfOk result (λ m. IfSome m (λ k. AllStand types.new (item_keys k))) }
    ensures kept { (i : ItemKind) → AllStand types.old (item_keys i) → item_tree types.new i ≡ item_tree types.old i }
{
    meet(alloc, types, a, b)
}
