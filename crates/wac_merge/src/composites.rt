//! The bound of two entries, once that of each two that they name is known.

ghost use Rattle.std.specs.Prelude.{◌≡◌, ◌∷◌, [], IfOk, IfErr, IfSome};
ghost use Rattle.std.specs.Option.{option_map};
ghost use Rattle.wac_component.specs.Key.{Stands, AllStand, interface_key, world_key};
ghost use Rattle.wac_component.specs.Sound.{IsSound};
ghost use Rattle.wac_merge.specs.Items.{extern_keys, extern_list};
ghost use Rattle.wac_merge.specs.Reads.{exports_at};
ghost use Rattle.wac_merge.specs.Memo.{IsTrueMemo, Grows, made_of, first_key, second_key};
ghost use Rattle.wac_merge.specs.Runs.{FromBuilt, Runs};
ghost use Rattle.wac_merge.specs.Told.{AnswersBuilt, LacksOnly, AreBound, HasBoundNames, AreSides, AreSidesBuilt};

use crate::entries::{WorldSides, exports_of, interface_of, joined_side, met_side, world_of};
use crate::externs::bound_externs;
use crate::memo::{Asked, Bound, BoundMemo, BoundPair, Untold};
use crate::modules::bound_modules;
use indexmap::IndexMap;
use wac_component::{InterfaceId, ItemKind, Types, WorldId};

/// Makes the bound of two entries, or notes that they have none.
pub(crate) fn bound_entries(
    types: &mut Types,
    memo: &mut BoundMemo,
    asked: Asked,
) -> Result<(), Untold>
    requires left { Stands types.old (first_key asked.pair) }
    requires right { Stands types.old (second_key asked.pair) }
    requires memo { IsTrueMemo types.old memo.old }
    ensures grows { Grows types.old memo.old types.new memo.new }
    ensures built { Runs (first_key asked.pair ∷ second_key asked.pair ∷ []) types.old (made_of memo.old) types.new (made_of memo.new) }
    ensures lacks { IfErr result (LacksOnly types.old (first_key asked.pair ∷ second_key asked.pair ∷ [])) }
{
    let Asked { bound, pair } = asked;
    match &pair {
        BoundPair::Interfaces(x, y) => bound_interfaces(types, memo, bound, *x, *y),
        BoundPair::Worlds(x, y) => bound_worlds(types, memo, bound, *x, *y),
        BoundPair::Modules(x, y) => bound_modules(types, memo, bound, *x, *y),
    }
}

// The same of two interfaces: its exports are those of both, met or joined.
fn bound_interfaces(
    types: &mut Types,
    memo: &mut BoundMemo,
    bound: Bound,
    x: InterfaceId,
    y: InterfaceId,
) -> Result<(), Untold>
    requires left { Stands types.old (interface_key x) }
    requires right { Stands types.old (interface_key y) }
    requires memo { IsTrueMemo types.old memo.old }
    ensures grows { Grows types.old memo.old types.new memo.new }
    ensures built { Runs (interface_key x ∷ interface_key y ∷ []) types.old (made_of memo.old) types.new (made_of memo.new) }
    ensures lacks { IfErr result (LacksOnly types.old (interface_key x ∷ interface_key y ∷ [])) }
{
    types.sound();
    match exports_of_both(types, memo, bound, x, y)? {
        Some(exports) => {
            interface_of(types, memo, bound, x, y, exports)?;
            Ok(())
        }
        None => Ok(memo.refuse(bound, BoundPair::Interfaces(x, y))?),
    }
}

// What two interfaces export, met or joined.
fn exports_of_both(
    types: &Types,
    memo: &mut BoundMemo,
    bound: Bound,
    x: InterfaceId,
    y: InterfaceId,
) -> Result<Option<IndexMap<String, ItemKind>>, Untold>
    requires sound { IsSound types.now }
    requires left { Stands types.now (interface_key x) }
    requires right { Stands types.now (interface_key y) }
    requires memo { IsTrueMemo types.now memo.old }
    ensures memo { IsTrueMemo types.now memo.new }
    ensures made { made_of memo.new ≡ made_of memo.old }
    ensures bound { IfOk result (λ r. AreBound bound types.now types.now (exports_at types.now (interface_key x)) (exports_at types.now (interface_key y)) (option_map extern_list r)) }
    ensures names { IfOk result (λ r. IfSome r (λ m. HasBoundNames bound (exports_at types.now (interface_key x)) (exports_at types.now (interface_key y)) (extern_list m))) }
    ensures standing { IfOk result (λ r. IfSome r (λ m. AllStand types.now (extern_keys (extern_list m)))) }
    ensures built { AnswersBuilt (interface_key x ∷ interface_key y ∷ []) (exports_at types.now (interface_key x)) (exports_at types.now (interface_key y)) types.now (made_of memo.old) result }
    ensures lacks { IfErr result (LacksOnly types.now (interface_key x ∷ interface_key y ∷ [])) }
{
    let first = exports_of(types, x);
    let second = exports_of(types, y);
    bound_externs(types, memo, bound, first, second)
}

// The same of two worlds: of a meet it exports what both do, met, and imports what both do, joined;
// of a join the other way round.
fn bound_worlds(
    types: &mut Types,
    memo: &mut BoundMemo,
    bound: Bound,
    x: WorldId,
    y: WorldId,
) -> Result<(), Untold>
    requires left { Stands types.old (world_key x) }
    requires right { Stands types.old (world_key y) }
    requires memo { IsTrueMemo types.old memo.old }
    ensures grows { Grows types.old memo.old types.new memo.new }
    ensures built { Runs (world_key x ∷ world_key y ∷ []) types.old (made_of memo.old) types.new (made_of memo.new) }
    ensures lacks { IfErr result (LacksOnly types.old (world_key x ∷ world_key y ∷ [])) }
{
    types.sound();
    match sides_of_both(types, memo, bound, x, y)? {
        Some(sides) => {
            world_of(types, memo, bound, x, y, sides)?;
            Ok(())
        }
        None => Ok(memo.refuse(bound, BoundPair::Worlds(x, y))?),
    }
}

// What two worlds import and export, met or joined.
fn sides_of_both(
    types: &Types,
    memo: &mut BoundMemo,
    bound: Bound,
    x: WorldId,
    y: WorldId,
) -> Result<Option<WorldSides>, Untold>
    requires sound { IsSound types.now }
    requires left { Stands types.now (world_key x) }
    requires right { Stands types.now (world_key y) }
    requires memo { IsTrueMemo types.now memo.old }
    ensures memo { IsTrueMemo types.now memo.new }
    ensures made { made_of memo.new ≡ made_of memo.old }
    ensures bound { IfOk result (AreSides bound types.now (world_key x) (world_key y)) }
    ensures standing { IfOk result (λ r. IfSome r (λ w. AllStand types.now (extern_keys (extern_list w.imports)) × AllStand types.now (extern_keys (extern_list w.exports)))) }
    ensures built { FromBuilt (world_key x ∷ world_key y ∷ []) types.now (made_of memo.old) (λ c o. IfOk result (λ r. IfSome r (AreSidesBuilt c types.now o (world_key x) (world_key y)))) }
    ensures lacks { IfErr result (LacksOnly types.now (world_key x ∷ world_key y ∷ [])) }
{
    let (first, second) = (met_side(types, bound, x), met_side(types, bound, y));
    let Some(met) = bound_externs(types, memo, Bound::Meet, first, second)? else {
        return Ok(None);
    };
    let (first, second) = (joined_side(types, bound, x), joined_side(types, bound, y));
    let Some(joined) = bound_externs(types, memo, Bound::Join, first, second)? else {
        return Ok(None);
    };
    match bound {
        Bound::Meet => Ok(Some(WorldSides {
            imports: joined,
            exports: met,
        })),
        Bound::Join => Ok(Some(WorldSides {
            imports: met,
            exports: joined,
        })),
    }
}
