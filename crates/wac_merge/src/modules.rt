//! The bound of two core module types.

ghost use Rattle.std.specs.Prelude.{◌≡◌, ◌∷◌, [], IsTrue, IfOk, IfErr, IfSome, OnErr};
ghost use Rattle.std.specs.Option.{option_map};
ghost use Rattle.wac_model.specs.CoreTree.{is_valid_module};
ghost use Rattle.wac_core.specs.Content.{module_content};
ghost use Rattle.wac_component.specs.Growth.{Extends};
ghost use Rattle.wac_component.specs.Key.{Stands, module_key};
ghost use Rattle.wac_merge.specs.Built.{IsModuleBuilt};
ghost use Rattle.wac_merge.specs.Memo.{IsTrueMemo, Grows, asked_of_modules, IsMadeAs, IsSame, made_of};
ghost use Rattle.wac_merge.specs.Reads.{IsModuleAdded};
ghost use Rattle.wac_merge.specs.Runs.{Runs};
ghost use Rattle.wac_merge.specs.Told.{IsModuleBoundIn, LacksOnly};

use crate::memo::{Asked, Bound, BoundId, BoundMemo, BoundPair, Untold};
use std::alloc::{AllocError, Global};
use wac_component::valid::add_valid_module_type;
use wac_component::{ModuleTypeId, Types};
use wac_core::ModuleType;
use wac_core_merge::{join_modules, meet_modules};

// The core module type that was made for the two; else this one, put last and noted.
fn module_of(
    types: &mut Types,
    memo: &mut BoundMemo,
    bound: Bound,
    first: ModuleTypeId,
    second: ModuleTypeId,
    ty: ModuleType,
) -> Result<BoundId, AllocError>
    requires { IsTrue (is_valid_module (module_content ty)) }
    ensures made { IfOk result (IsMadeAs types.old memo.old types.new memo.new (asked_of_modules bound first second) BoundId.Module (IsModuleAdded types.old types.new (module_content ty))) }
    ensures grows { Extends types.old types.new }
    ensures err { OnErr result (types.new ≡ types.old) }
    ensures err_memo { OnErr result (IsSame memo.old memo.new) }
{
    let pair = BoundPair::Modules(first, second);
    if let Some(made) = memo.made_for(&Asked { bound, pair }) {
        return Ok(made);
    }
    memo.reserve()?;
    let made = BoundId::Module(add_valid_module_type(types, ty)?);
    memo.put(bound, pair, made)?;
    Ok(made)
}

// The meet of two core modules, or their join.
fn module_of_both(
    alloc: Global,
    bound: Bound,
    a: &ModuleType,
    b: &ModuleType,
) -> Result<Option<ModuleType>, AllocError>
    requires a { IsTrue (is_valid_module (module_content a.now)) }
    requires b { IsTrue (is_valid_module (module_content b.now)) }
    ensures bound { IfOk result (λ m. IsModuleBoundIn bound (module_content a.now) (module_content b.now) (option_map module_content m)) }
    ensures built { IfOk result (λ m. IfSome m (λ t. IsModuleBuilt (module_content a.now) (module_content b.now) (module_content t))) }
{
    match bound {
        Bound::Meet => meet_modules(alloc, a, b),
        Bound::Join => join_modules(alloc, a, b),
    }
}

/// Makes the bound of two core module types, or notes that they have none.
pub(crate) fn bound_modules(
    types: &mut Types,
    memo: &mut BoundMemo,
    bound: Bound,
    x: ModuleTypeId,
    y: ModuleTypeId,
) -> Result<(), Untold>
    requires left { Stands types.old (module_key x) }
    requires right { Stands types.old (module_key y) }
    requires memo { IsTrueMemo types.old memo.old }
    ensures grows { Grows types.old memo.old types.new memo.new }
    ensures built { Runs (module_key x ∷ module_key y ∷ []) types.old (made_of memo.old) types.new (made_of memo.new) }
    ensures lacks { IfErr result (LacksOnly types.old (module_key x ∷ module_key y ∷ [])) }
{
    match module_of_both(memo.alloc, bound, &types[x], &types[y])? {
        Some(ty) => {
            module_of(types, memo, bound, x, y, ty)?;
            Ok(())
        }
        None => Ok(memo.refuse(bound, BoundPair::Modules(x, y))?),
    }
}
