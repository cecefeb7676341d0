//! The bound of two items, from what is known of the entries that they name.

ghost use Rattle.std.specs.Prelude.{◌≡◌, ◌++◌, IfOk, IfErr, IfSome};
ghost use Rattle.wac_component.specs.Key.{AllStand, item_keys, optional_keys};
ghost use Rattle.wac_component.specs.Tree.{item_tree};
ghost use Rattle.wac_merge.specs.Bounded.{KeepsFitting};
ghost use Rattle.wac_merge.specs.Built.{IsBuilt, IsBuiltWith};
ghost use Rattle.wac_merge.specs.Memo.{IsTrueMemo, made_of};
ghost use Rattle.wac_merge.specs.Runs.{FromBuilt};
ghost use Rattle.wac_merge.specs.Told.{of_two, IsBoundIn, IsBoundWith, LacksOnly};

use crate::memo::{Asked, Bound, BoundMemo, Untold};
use crate::order::fits;
use crate::pairs::{item_of, pair_of};
use wac_component::{ItemKind, Types};

/// The bound of two items, if they have one.
pub(crate) fn bound_items(
    types: &Types,
    memo: &mut BoundMemo,
    bound: Bound,
    a: ItemKind,
    b: ItemKind,
) -> Result<Option<ItemKind>, Untold>
    requires left { AllStand types.now (item_keys a) }
    requires right { AllStand types.now (item_keys b) }
    requires memo { IsTrueMemo types.now memo.old }
    ensures memo { IsTrueMemo types.now memo.new }
    ensures made { made_of memo.new ≡ made_of memo.old }
    ensures bound { IfOk result (IsBoundIn bound types.now types.now a b) }
    ensures kept { IfOk result (KeepsFitting (item_tree types.now a) (item_tree types.now b) (of_two bound a b) (of_two bound b a)) }
    ensures standing { IfOk result (λ m. IfSome m (λ k. AllStand types.now (item_keys k))) }
    ensures built { FromBuilt (item_keys a ++ item_keys b) types.now (made_of memo.old) (λ c o. IfOk result (λ m. IfSome m (IsBuilt c types.now o a b))) }
    ensures lacks { IfErr result (LacksOnly types.now (item_keys a ++ item_keys b)) }
{
    if fits(types, memo, a, b)? {
        return Ok(Some(bound.of_two(a, b)));
    }
    if fits(types, memo, b, a)? {
        return Ok(Some(bound.of_two(b, a)));
    }
    let Some((is_type, pair)) = pair_of(&a, &b) else {
        return Ok(None);
    };
    let asked = Asked { bound, pair };
    match memo.told_of(&asked) {
        Some(entry) => Ok(item_of(is_type, entry)),
        None => Err(Untold::Lacks(asked)),
    }
}

/// The bound of an item and of what the other side has under its name, if anything: a meet has each
/// name of both, and a join only those that both have.
pub(crate) fn bound_with(
    types: &Types,
    memo: &mut BoundMemo,
    bound: Bound,
    a: ItemKind,
    b: Option<ItemKind>,
) -> Result<Option<ItemKind>, Untold>
    requires left { AllStand types.now (item_keys a) }
    requires right { AllStand types.now (optional_keys item_keys b) }
    requires memo { IsTrueMemo types.now memo.old }
    ensures memo { IsTrueMemo types.now memo.new }
    ensures made { made_of memo.new ≡ made_of memo.old }
    ensures bound { IfOk result (IsBoundWith bound types.now types.now a b) }
    ensures standing { IfOk result (λ m. IfSome m (λ k. AllStand types.now (item_keys k))) }
    ensures built { FromBuilt (item_keys a ++ optional_keys item_keys b) types.now (made_of memo.old) (λ c o. IfOk result (λ m. IfSome m (IsBuiltWith c types.now o a b))) }
    ensures lacks { IfErr result (LacksOnly types.now (item_keys a ++ optional_keys item_keys b)) }
{
    match b {
        Some(b) => bound_items(types, memo, bound, a, b),
        None => Ok(match bound {
            Bound::Meet => Some(a),
            Bound::Join => None,
        }),
    }
}
