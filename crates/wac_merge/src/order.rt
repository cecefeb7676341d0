//! Whether an item fits where another is asked for.

ghost use Rattle.std.specs.Prelude.{◌≡◌, ◌↔◌, IsTrue, IfOk};
ghost use Rattle.wac_model.specs.Order.{Fits};
ghost use Rattle.wac_component.specs.Key.{AllStand, item_keys};
ghost use Rattle.wac_component.specs.Tree.{item_tree};
ghost use Rattle.wac_merge.specs.Memo.{IsTrueMemo, made_of};

use crate::memo::BoundMemo;
use std::alloc::AllocError;
use wac_component::{ItemKind, Types};

// Whether the left item fits where the right one is asked for. What is found of the pairs below
// them is remembered: what merges the two asks about those next.
pub(crate) fn fits(
    types: &Types,
    memo: &mut BoundMemo,
    a: ItemKind,
    b: ItemKind,
) -> Result<bool, AllocError>
    requires left { AllStand types.now (item_keys a) }
    requires right { AllStand types.now (item_keys b) }
    requires memo { IsTrueMemo types.now memo.old }
    ensures answer { IfOk result (λ yes. IsTrue yes ↔ Fits (item_tree types.now a) (item_tree types.now b)) }
    ensures made { made_of memo.new ≡ made_of memo.old }
    ensures memo { IsTrueMemo types.now memo.new }
{
    memo.compared.fits(memo.alloc, a, types, b, types)
}
