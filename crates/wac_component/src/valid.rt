//! Adding core modules whose limits are known to be valid.

ghost use Rattle.std.specs.Prelude.{◌≡◌, ◌∷◌, [], ◌++◌, IsTrue, OnOk, OnErr, IfOk, length};
ghost use Rattle.wac_model.specs.CoreTree.{is_valid_module};
ghost use Rattle.wac_core.specs.Content.{module_content, core_module_of};
ghost use Rattle.wac_component.specs.Growth.{Extends};
ghost use Rattle.wac_component.specs.Key.{Stands, module_key};
ghost use Rattle.wac_component.specs.Tree.{module_tree};

use super::collection::{ModuleError, Types};
use super::ids::ModuleTypeId;
use std::alloc::AllocError;
use wac_core::ModuleType;

/// Puts a core module type whose tables and memories start within their maximum last; where an
/// allocation fails the collection is unchanged.
pub fn add_valid_module_type(types: &mut Types, ty: ModuleType) -> Result<ModuleTypeId, AllocError>
    requires { IsTrue (is_valid_module (module_content ty)) }
    ensures added { OnOk result (types.new ≡ record types.old { modules = types.old.modules ++ core_module_of ty ∷ [] }) }
    ensures id { IfOk result (λ id. id ≡ record { number = types.old.number; index = length types.old.modules }) }
    ensures stands { IfOk result (λ id. Stands types.new (module_key id)) }
    ensures tree { IfOk result (λ id. (module_tree types.new id).content ≡ module_content ty) }
    ensures grows { Extends types.old types.new }
    ensures err { OnErr result (types.new ≡ types.old) }
{
    match types.add_module_type(ty) {
        Ok(id) => Ok(id),
        Err(ModuleError::Memory) => Err(AllocError),
        Err(ModuleError::Limits) => unreachable!(),
    }
}
