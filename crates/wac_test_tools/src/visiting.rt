//! A visit, whose visitor looks at what it is handed.

ghost use Rattle.wac_types.specs.Key.{Stands, defined_key};

use wac_types::laws::collections::visited_types_stand;
use wac_types::{DefinedType, DefinedTypeId, Type, Types, ValueType};

/// How many lists a visit of a defined type sees, by a visitor that looks each id up.
pub fn lists_seen(types: &Types, ty: DefinedTypeId) -> usize
    requires { Stands types.now (defined_key ty) }
{
    types.sound();
    visited_types_stand();
    let ty = Type::Value(ValueType::Defined(ty));
    let mut lists = 0usize;
    let mut visitor = |types: &Types, id: DefinedTypeId| -> Result<(), ()>
        requires { Stands types.now (defined_key id) }
    {
        if matches!(&types[id], DefinedType::List(_)) {
            lists = lists.saturating_add(1);
        }
        Ok(())
    };
    match ty.visit_defined_types(types, &mut visitor) {
        Ok(()) => lists,
        Err(()) => 0,
    }
}
