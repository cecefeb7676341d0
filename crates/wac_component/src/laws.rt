//! Laws of collections and of their entries. Each is the contract of a
//! function that changes nothing.

ghost use Rattle.wac_component.specs.Laws.{IsGrowthReflexive, IsGrowthTransitive, TreesFollowEntries, ImportsAreApart, LeavesDependOnLeaves, OneSourceHasOneName, WalksStand, NoWalkReturns, VisitsStand};
ghost use Rattle.wac_core.specs.Content.{core_module_of};
ghost use Rattle.wac_component.specs.Content.{defined_content, func_content, interface_content, world_content};
ghost use Rattle.wac_component.specs.Distinct.{HasDistinctNames, HasDistinctNamesAt};
ghost use Rattle.wac_component.specs.Key.{defined_entry, func_entry, interface_entry, world_entry, module_entry, Each, Stands, AllStand, defined_key, func_key, interface_key, world_key, module_key, type_keys, value_keys};

use crate::{
    DefinedType, DefinedTypeId, FuncType, FuncTypeId, Interface, InterfaceId, ModuleTypeId, Type,
    Types, ValueType, World, WorldId,
};
use wac_core::ModuleType;

/// A collection extends itself.
pub fn growth_is_reflexive()
    ensures { IsGrowthReflexive }
{}

/// A collection that extends one which extends a third extends the third.
pub fn growth_is_transitive()
    ensures { IsGrowthTransitive }
{}

/// In a sound collection the tree of each id follows from its entry and
/// the trees of what that names.
pub fn trees_follow_entries()
    ensures { TreesFollowEntries }
{}

/// In a sound collection whatever a walk along ids leads to stands.
pub fn walks_stand()
    ensures { WalksStand }
{}

/// In a sound collection no walk along ids leads back to its start.
pub fn no_walk_returns()
    ensures { NoWalkReturns }
{}

/// In a sound collection each defined type that a visit of a type sees stands, if the type does.
pub fn visited_types_stand()
    ensures { VisitsStand }
{}

/// The ids in an entry are those in what it imports and those in the rest of it.
pub fn imports_are_apart()
    ensures { ImportsAreApart }
{}

/// What resources, values and functions stand for depends on the lists of these alone: where two
/// sound collections have them in common, it is the same in both.
pub fn leaves_depend_on_leaves()
    ensures { LeavesDependOnLeaves }
{}

/// Resources whose aliases lead to one resource have one name, whoever owns them.
pub fn one_source_has_one_name()
    ensures { OneSourceHasOneName }
{}

/// The names of a function's parameters are distinct.
pub fn names_in_a_function_are_distinct(func: &FuncType)
    ensures { HasDistinctNames (func_entry (func_content func.now)) }
{
    let _ = func.params.len();
}

/// The names of an interface's uses are distinct, and so are those of its exports.
pub fn names_in_an_interface_are_distinct(interface: &Interface)
    ensures { HasDistinctNames (interface_entry (interface_content interface.now)) }
{
    let _ = interface.uses.len();
    let _ = interface.exports.len();
}

/// The names of a world's uses are distinct, and so are those of its
/// imports and those of its exports.
pub fn names_in_a_world_are_distinct(world: &World)
    ensures { HasDistinctNames (world_entry (world_content world.now)) }
{
    let _ = world.uses.len();
    let _ = world.imports.len();
    let _ = world.exports.len();
}

/// The names of a core module's imports are distinct, each of them with the module that it is from,
/// and so are the names of its exports.
pub fn names_in_a_module_are_distinct(ty: &ModuleType)
    ensures { HasDistinctNames (module_entry (core_module_of ty.now)) }
{
    let _ = ty.imports.len();
    let _ = ty.exports.len();
}

/// The names of a defined type's cases, fields or flags are distinct.
pub fn names_in_a_defined_type_are_distinct(ty: &DefinedType)
    ensures { HasDistinctNames (defined_entry (defined_content ty.now)) }
{
    match ty {
        DefinedType::Variant(variant) => {
            let _ = variant.cases.len();
        }
        DefinedType::Record(record) => {
            let _ = record.fields.len();
        }
        DefinedType::Flags(flags) => {
            let _ = flags.0.len();
        }
        DefinedType::Enum(cases) => {
            let _ = cases.0.len();
        }
        _ => {}
    }
}

/// In the entry of each id of a type that stands in a collection, names are distinct.
pub fn names_at_ids_are_distinct(types: &Types, ty: Type)
    requires { AllStand types.now (type_keys ty) }
    ensures { Each (HasDistinctNamesAt types.now) (type_keys ty) }
{
    match ty {
        Type::Func(id) => names_at_a_function_are_distinct(types, id),
        Type::Interface(id) => names_at_an_interface_are_distinct(types, id),
        Type::World(id) => names_at_a_world_are_distinct(types, id),
        Type::Module(id) => names_at_a_module_are_distinct(types, id),
        Type::Value(value) => names_at_a_value_are_distinct(types, value),
        Type::Resource(_) => {}
    }
}

fn names_at_a_value_are_distinct(types: &Types, value: ValueType)
    requires { AllStand types.now (value_keys value) }
    ensures { Each (HasDistinctNamesAt types.now) (value_keys value) }
{
    match value {
        ValueType::Defined(id) => names_at_a_defined_type_are_distinct(types, id),
        ValueType::Borrow(_) => {}
        ValueType::Own(_) => {}
        ValueType::Primitive(_) => {}
    }
}

fn names_at_a_function_are_distinct(types: &Types, id: FuncTypeId)
    requires { Stands types.now (func_key id) }
    ensures { HasDistinctNamesAt types.now (func_key id) }
{
    names_in_a_function_are_distinct(&types[id]);
}

fn names_at_an_interface_are_distinct(types: &Types, id: InterfaceId)
    requires { Stands types.now (interface_key id) }
    ensures { HasDistinctNamesAt types.now (interface_key id) }
{
    names_in_an_interface_are_distinct(&types[id]);
}

fn names_at_a_world_are_distinct(types: &Types, id: WorldId)
    requires { Stands types.now (world_key id) }
    ensures { HasDistinctNamesAt types.now (world_key id) }
{
    names_in_a_world_are_distinct(&types[id]);
}

fn names_at_a_module_are_distinct(types: &Types, id: ModuleTypeId)
    requires { Stands types.now (module_key id) }
    ensures { HasDistinctNamesAt types.now (module_key id) }
{
    names_in_a_module_are_distinct(&types[id]);
}

fn names_at_a_defined_type_are_distinct(types: &Types, id: DefinedTypeId)
    requires { Stands types.now (defined_key id) }
    ensures { HasDistinctNamesAt types.now (defined_key id) }
{
    names_in_a_defined_type_are_distinct(&types[id]);
}
