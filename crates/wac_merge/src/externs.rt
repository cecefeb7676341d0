//! What two interfaces or two worlds have under names, met or joined.

ghost use Rattle.std.specs.Prelude.{◌≡◌, ◌++◌, IfOk, IfErr, IfSome};
ghost use Rattle.std.specs.Option.{option_map};
ghost use Rattle.wac_component.specs.Key.{AllStand};
ghost use Rattle.wac_merge.specs.Items.{extern_keys, extern_list};
ghost use Rattle.wac_merge.specs.Memo.{IsTrueMemo, made_of};
ghost use Rattle.wac_merge.specs.Told.{AnswersBuilt, AreBound, AreFirstBound, HasBoundNames, HasFirstNames, LacksOnly};

use crate::items::bound_with;
use crate::memo::{Bound, BoundMemo, Untold};
use crate::names::{add_others, extern_named, put_extern};
use indexmap::IndexMap;
use wac_component::{ItemKind, Types};

/// Of a meet the names of both, with what both have met, or none where a name of both has no meet;
/// of a join the names that both have, with what both have joined, without those that have no join.
pub(crate) fn bound_externs(
    types: &Types,
    memo: &mut BoundMemo,
    bound: Bound,
    first: &IndexMap<String, ItemKind>,
    second: &IndexMap<String, ItemKind>,
) -> Result<Option<IndexMap<String, ItemKind>>, Untold>
    requires left { AllStand types.now (extern_keys (extern_list first.now)) }
    requires right { AllStand types.now (extern_keys (extern_list second.now)) }
    requires memo { IsTrueMemo types.now memo.old }
    ensures memo { IsTrueMemo types.now memo.new }
    ensures made { made_of memo.new ≡ made_of memo.old }
    ensures bound { IfOk result (λ r. AreBound bound types.now types.now (extern_list first.now) (extern_list second.now) (option_map extern_list r)) }
    ensures names { IfOk result (λ r. IfSome r (λ m. HasBoundNames bound (extern_list first.now) (extern_list second.now) (extern_list m))) }
    ensures standing { IfOk result (λ r. IfSome r (λ m. AllStand types.now (extern_keys (extern_list m)))) }
    ensures built { AnswersBuilt (extern_keys (extern_list first.now) ++ extern_keys (extern_list second.now)) (extern_list first.now) (extern_list second.now) types.now (made_of memo.old) result }
    ensures lacks { IfErr result (LacksOnly types.now (extern_keys (extern_list first.now) ++ extern_keys (extern_list second.now))) }
{
    let Some(mut parts) = bound_first(types, memo, bound, first, second)? else {
        return Ok(None);
    };
    match bound {
        Bound::Meet => {
            add_others(&mut parts, second)?;
            Ok(Some(parts))
        }
        Bound::Join => Ok(Some(parts)),
    }
}

// The same for the names of the first side alone.
fn bound_first(
    types: &Types,
    memo: &mut BoundMemo,
    bound: Bound,
    first: &IndexMap<String, ItemKind>,
    second: &IndexMap<String, ItemKind>,
) -> Result<Option<IndexMap<String, ItemKind>>, Untold>
    requires left { AllStand types.now (extern_keys (extern_list first.now)) }
    requires right { AllStand types.now (extern_keys (extern_list second.now)) }
    requires memo { IsTrueMemo types.now memo.old }
    ensures memo { IsTrueMemo types.now memo.new }
    ensures made { made_of memo.new ≡ made_of memo.old }
    ensures bound { IfOk result (λ r. AreFirstBound bound types.now types.now (extern_list first.now) (extern_list second.now) (option_map extern_list r)) }
    ensures names { IfOk result (λ r. IfSome r (λ m. HasFirstNames bound (extern_list first.now) (extern_list m))) }
    ensures standing { IfOk result (λ r. IfSome r (λ m. AllStand types.now (extern_keys (extern_list m)))) }
    ensures built { AnswersBuilt (extern_keys (extern_list first.now) ++ extern_keys (extern_list second.now)) (extern_list first.now) (extern_list second.now) types.now (made_of memo.old) result }
    ensures lacks { IfErr result (LacksOnly types.now (extern_keys (extern_list first.now) ++ extern_keys (extern_list second.now))) }
{
    let mut parts = IndexMap::new(memo.alloc);
    for (name, a) in first {
        let b = extern_named(second, name);
        match bound_with(types, memo, bound, *a, b)? {
            Some(kind) => put_extern(&mut parts, name, kind)?,
            None => match bound {
                Bound::Meet => return Ok(None),
                Bound::Join => {}
            },
        }
    }
    Ok(Some(parts))
}
