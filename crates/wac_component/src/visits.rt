//! Visits of the defined types that a type refers to.

ghost use Rattle.std.specs.List.{flat_map};
ghost use Rattle.wac_component.specs.Content.{defined_content, types_of, named};
ghost use Rattle.wac_component.specs.Key.{Stands, AllStand, type_keys, item_keys, named_keys, func_key, interface_key, world_key};
ghost use Rattle.wac_component.specs.Visits.{own_id, optional_ids, extern_ids, externs_ids, referred, member_ids, visits, CallsOn, VisitsEach, MayVisit};

use super::collection::Types;
use super::defined::DefinedType;
use super::ids::{DefinedTypeId, FuncTypeId, InterfaceId, WorldId};
use super::items::{ItemKind, Type, ValueType};
use super::parts::{item_at, value_at};
use indexmap::IndexMap;

impl Type {
    /// Calls the visitor on the defined types that the type refers to, in order, up to its first
    /// error, which is the answer.
    ///
    /// A function refers to those of its parameters and its result, an interface to those of its
    /// exports, and a world to those of its imports and then its exports; functions, instances and
    /// components among these are entered, and so are their types. A defined type refers to itself
    /// and to those that stand directly in it.
    pub fn visit_defined_types<E: Drop, F: FnMut(&Types, DefinedTypeId) -> Result<(), E>>(
        &self,
        types: &Types,
        visitor: &mut F,
    ) -> Result<(), E>
        requires standing { AllStand types.now (type_keys self.now) }
        requires callable { MayVisit F.FnMut types.now visitor.old (visits types.now self.now) }
        ensures visited { VisitsEach (CallsOn F.FnMut types.now) visitor.old (visits types.now self.now) result visitor.new }
    {
        match self {
            Type::Resource(_) | Type::Module(_) => Ok(()),
            Type::Func(id) => visit_func(*id, types, visitor),
            Type::Value(ty) => visit_value_and_members(*ty, types, visitor),
            Type::Interface(id) => visit_interface(*id, types, visitor),
            Type::World(id) => visit_world(*id, types, visitor),
        }
    }
}

// Visits the defined type that a value type is, if it is one, and what stands directly in it.
fn visit_value_and_members<E: Drop, F: FnMut(&Types, DefinedTypeId) -> Result<(), E>>(
    ty: ValueType,
    types: &Types,
    visitor: &mut F,
) -> Result<(), E>
    requires standing { AllStand types.now (type_keys (Type.Value ty)) }
    requires callable { MayVisit F.FnMut types.now visitor.old (visits types.now (Type.Value ty)) }
    ensures visited { VisitsEach (CallsOn F.FnMut types.now) visitor.old (visits types.now (Type.Value ty)) result visitor.new }
{
    let ValueType::Defined(id) = ty else {
        return Ok(());
    };
    visitor(types, id)?;
    visit_members(&types[id], types, visitor)
}

// Visits the defined types that stand directly in one.
fn visit_members<E: Drop, F: FnMut(&Types, DefinedTypeId) -> Result<(), E>>(
    ty: &DefinedType,
    types: &Types,
    visitor: &mut F,
) -> Result<(), E>
    requires { MayVisit F.FnMut types.now visitor.old (member_ids (defined_content ty.now)) }
    ensures visited { VisitsEach (CallsOn F.FnMut types.now) visitor.old (member_ids (defined_content ty.now)) result visitor.new }
{
    match ty {
        DefinedType::Tuple(items) => visit_items(items, types, visitor),
        DefinedType::List(ty) => visit_value(*ty, types, visitor),
        DefinedType::FixedSizeList(ty, _) => visit_value(*ty, types, visitor),
        DefinedType::Map(key, value) => {
            visit_value(*key, types, visitor)?;
            visit_value(*value, types, visitor)
        }
        DefinedType::Option(ty) => visit_value(*ty, types, visitor),
        DefinedType::Result { ok, err } => {
            visit_optional(ok, types, visitor)?;
            visit_optional(err, types, visitor)
        }
        DefinedType::Variant(variant) => visit_cases(&variant.cases, types, visitor),
        DefinedType::Record(record) => visit_fields(&record.fields, types, visitor),
        DefinedType::Flags(_) | DefinedType::Enum(_) | DefinedType::Alias(_) => Ok(()),
        DefinedType::Stream(payload) => visit_optional(payload, types, visitor),
        DefinedType::Future(payload) => visit_optional(payload, types, visitor),
    }
}

// Visits the defined type that a value type is, if it is one.
fn visit_value<E: Drop, F: FnMut(&Types, DefinedTypeId) -> Result<(), E>>(
    ty: ValueType,
    types: &Types,
    visitor: &mut F,
) -> Result<(), E>
    requires { MayVisit F.FnMut types.now visitor.old (own_id ty) }
    ensures visited { VisitsEach (CallsOn F.FnMut types.now) visitor.old (own_id ty) result visitor.new }
{
    match ty {
        ValueType::Defined(id) => visitor(types, id),
        _ => Ok(()),
    }
}

// The same of what is there, if anything is.
fn visit_optional<E: Drop, F: FnMut(&Types, DefinedTypeId) -> Result<(), E>>(
    ty: &Option<ValueType>,
    types: &Types,
    visitor: &mut F,
) -> Result<(), E>
    requires { MayVisit F.FnMut types.now visitor.old (optional_ids ty.now) }
    ensures visited { VisitsEach (CallsOn F.FnMut types.now) visitor.old (optional_ids ty.now) result visitor.new }
{
    match ty {
        Some(ty) => visit_value(*ty, types, visitor),
        None => Ok(()),
    }
}

// The same of the items of a tuple.
fn visit_items<E: Drop, F: FnMut(&Types, DefinedTypeId) -> Result<(), E>>(
    items: &[ValueType],
    types: &Types,
    visitor: &mut F,
) -> Result<(), E>
    requires { MayVisit F.FnMut types.now visitor.old (flat_map own_id items.now) }
    ensures visited { VisitsEach (CallsOn F.FnMut types.now) visitor.old (flat_map own_id items.now) result visitor.new }
{
    for i in 0..items.len() {
        visit_value(item_at(items, i), types, visitor)?;
    }
    Ok(())
}

// The same of the fields of a record, or the parameters of a function.
fn visit_fields<E: Drop, F: FnMut(&Types, DefinedTypeId) -> Result<(), E>>(
    fields: &IndexMap<String, ValueType>,
    types: &Types,
    visitor: &mut F,
) -> Result<(), E>
    requires { MayVisit F.FnMut types.now visitor.old (flat_map own_id (types_of fields.now.entries)) }
    ensures visited { VisitsEach (CallsOn F.FnMut types.now) visitor.old (flat_map own_id (types_of fields.now.entries)) result visitor.new }
{
    for i in 0..fields.len() {
        visit_value(*value_at(fields, i), types, visitor)?;
    }
    Ok(())
}

// The same of the cases of a variant that have a type.
fn visit_cases<E: Drop, F: FnMut(&Types, DefinedTypeId) -> Result<(), E>>(
    cases: &IndexMap<String, Option<ValueType>>,
    types: &Types,
    visitor: &mut F,
) -> Result<(), E>
    requires { MayVisit F.FnMut types.now visitor.old (flat_map optional_ids (types_of cases.now.entries)) }
    ensures visited { VisitsEach (CallsOn F.FnMut types.now) visitor.old (flat_map optional_ids (types_of cases.now.entries)) result visitor.new }
{
    for i in 0..cases.len() {
        visit_optional(value_at(cases, i), types, visitor)?;
    }
    Ok(())
}

// Visits what a function refers to.
fn visit_func<E: Drop, F: FnMut(&Types, DefinedTypeId) -> Result<(), E>>(
    id: FuncTypeId,
    types: &Types,
    visitor: &mut F,
) -> Result<(), E>
    requires standing { Stands types.now (func_key id) }
    requires callable { MayVisit F.FnMut types.now visitor.old (referred types.now (func_key id)) }
    ensures visited { VisitsEach (CallsOn F.FnMut types.now) visitor.old (referred types.now (func_key id)) result visitor.new }
{
    types.sound();
    let func = &types[id];
    visit_fields(&func.params, types, visitor)?;
    visit_optional(&func.result, types, visitor)
}

// Visits what an interface refers to.
#[cycle(visits)]
fn visit_interface<E: Drop, F: FnMut(&Types, DefinedTypeId) -> Result<(), E>>(
    id: InterfaceId,
    types: &Types,
    visitor: &mut F,
) -> Result<(), E>
    requires standing { Stands types.now (interface_key id) }
    requires callable { MayVisit F.FnMut types.now visitor.old (referred types.now (interface_key id)) }
    ensures visited { VisitsEach (CallsOn F.FnMut types.now) visitor.old (referred types.now (interface_key id)) result visitor.new }
{
    types.sound();
    visit_externs(&types[id].exports, types, visitor)
}

// Visits what a world refers to.
#[cycle(visits)]
fn visit_world<E: Drop, F: FnMut(&Types, DefinedTypeId) -> Result<(), E>>(
    id: WorldId,
    types: &Types,
    visitor: &mut F,
) -> Result<(), E>
    requires standing { Stands types.now (world_key id) }
    requires callable { MayVisit F.FnMut types.now visitor.old (referred types.now (world_key id)) }
    ensures visited { VisitsEach (CallsOn F.FnMut types.now) visitor.old (referred types.now (world_key id)) result visitor.new }
{
    types.sound();
    let world = &types[id];
    visit_externs(&world.imports, types, visitor)?;
    visit_externs(&world.exports, types, visitor)
}

// Visits what imports or exports refer to.
#[cycle(visits)]
fn visit_externs<E: Drop, F: FnMut(&Types, DefinedTypeId) -> Result<(), E>>(
    externs: &IndexMap<String, ItemKind>,
    types: &Types,
    visitor: &mut F,
) -> Result<(), E>
    requires standing { AllStand types.now (named_keys item_keys (named (λ k. k) externs.now.entries)) }
    requires callable { MayVisit F.FnMut types.now visitor.old (externs_ids (referred types.now) (named (λ k. k) externs.now.entries)) }
    ensures visited { VisitsEach (CallsOn F.FnMut types.now) visitor.old (externs_ids (referred types.now) (named (λ k. k) externs.now.entries)) result visitor.new }
{
    for i in 0..externs.len() {
        visit_extern(*value_at(externs, i), types, visitor)?;
    }
    Ok(())
}

// Visits what an import or an export refers to.
#[cycle(visits)]
fn visit_extern<E: Drop, F: FnMut(&Types, DefinedTypeId) -> Result<(), E>>(
    kind: ItemKind,
    types: &Types,
    visitor: &mut F,
) -> Result<(), E>
    requires standing { AllStand types.now (item_keys kind) }
    requires callable { MayVisit F.FnMut types.now visitor.old (extern_ids (referred types.now) kind) }
    ensures visited { VisitsEach (CallsOn F.FnMut types.now) visitor.old (extern_ids (referred types.now) kind) result visitor.new }
{
    match kind.ty() {
        Type::Resource(_) | Type::Module(_) => Ok(()),
        Type::Func(id) => visit_func(id, types, visitor),
        Type::Value(ty) => visit_value(ty, types, visitor),
        Type::Interface(id) => visit_interface(id, types, visitor),
        Type::World(id) => visit_world(id, types, visitor),
    }
}
