//! A caller of `visit_defined_types`, whose visitor fails.

ghost use Rattle.wac_types.specs.Key.{AllStand, Stands, defined_key, type_keys};

use wac_types::laws::collections::visited_types_stand;
use wac_types::{DefinedType, DefinedTypeId, Type, Types};

/// How many of the defined types that a type refers to come before the first stream among them, if
/// there is one. The visitor's error ends the visit, and is the answer.
pub fn before_stream(types: &Types, ty: Type) -> Option<usize>
    requires { AllStand types.now (type_keys ty) }
{
    types.sound();
    visited_types_stand();
    let mut before = 0usize;
    let mut visitor = |types: &Types, id: DefinedTypeId| -> Result<(), ()>
        requires { Stands types.now (defined_key id) }
    {
        if matches!(&types[id], DefinedType::Stream(_)) {
            return Err(());
        }
        before = before.saturating_add(1);
        Ok(())
    };
    match ty.visit_defined_types(types, &mut visitor) {
        Ok(()) => None,
        Err(()) => Some(before),
    }
}
