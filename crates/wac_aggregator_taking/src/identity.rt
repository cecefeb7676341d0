//! The identifiers of interfaces, and their classes.

ghost use Rattle.std.specs.Prelude.{◌≡◌, Some, IsSome, IfOk, string_bytes};
ghost use Rattle.std.specs.Option.{option_map};
ghost use Rattle.wac_component.specs.Entries.{identifier_at};
ghost use Rattle.wac_component.specs.Key.{Stands, interface_key};
ghost use Rattle.wac_names.specs.Class.{class_of};

use super::state::Merging;
use std::alloc::AllocError;
use wac_component::{InterfaceId, Types};
use wac_names::NameClass;

// The identifier of an interface that has one.
pub(crate) fn identifier(types: &Types, id: InterfaceId) -> Result<String, AllocError>
    requires stands { Stands types.now (interface_key id) }
    requires has { IsSome (identifier_at types.now (interface_key id)) }
    ensures { IfOk result (λ n. identifier_at types.now (interface_key id) ≡ Some (string_bytes n)) }
{
    types[id].id.as_ref().unwrap().clone()
}

// The class of an identifier, if there is one.
pub(crate) fn class_of_identifier(
    state: &Merging,
    identifier: &Option<String>,
) -> Result<Option<NameClass>, AllocError>
    ensures { IfOk result (λ c. c ≡ option_map class_of (option_map string_bytes identifier.now)) }
{
    let Some(name) = identifier else {
        return Ok(None);
    };
    let class = class_of_name(state, name.as_str())?;
    Ok(Some(class))
}

// The class of a name: it was read already, if an interface was handed in under the name.
fn class_of_name(state: &Merging, name: &str) -> Result<NameClass, AllocError>
    ensures { IfOk result (λ c. c ≡ class_of name.now) }
{
    match &state.handed_in {
        Some(handed_in) => handed_in.class_of(state.alloc(), name),
        None => NameClass::of(state.alloc(), name),
    }
}
