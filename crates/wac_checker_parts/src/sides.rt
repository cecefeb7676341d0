//! The two collections of a comparison.

ghost use Rattle.std.specs.Prelude.{◌≡◌, not};
ghost use Rattle.wac_component.specs.Key.{Stands, defined_key, func_key, interface_key, world_key, module_key};
ghost use Rattle.wac_checker_parts.specs.Pairs.{flag_of, id_in, left_of, right_of};

use std::alloc::Global;
use wac_component::{DefinedTypeId, FuncTypeId, InterfaceId, ModuleTypeId, Types, WorldId};

/// The collection of the left entries, and that of the right ones: two of different numbers, or one;
/// and where memory for a comparison comes from.
#[derive(Clone, Copy)]
pub struct Sides<'a> {
    /// The collection of the left entries.
    pub left: &'a Types,
    /// That of the right ones.
    pub right: &'a Types,
    /// Whether the left one is that of the right item that was asked about, as below an import.
    pub swapped: bool,
    /// Where memory comes from.
    pub alloc: Global,
    ghost one: { left.now.number ≡ right.now.number → left.now ≡ right.now },
}

impl<'a> Sides<'a> {
    /// The same, the other way round.
    pub(crate) fn turned(&self) -> Sides<'a>
        ensures left { result.left.now ≡ self.now.right.now }
        ensures right { result.right.now ≡ self.now.left.now }
        ensures swapped { result.swapped ≡ not self.now.swapped }
    {
        Sides {
            left: self.right,
            right: self.left,
            swapped: !self.swapped,
            alloc: self.alloc,
        }
    }

    /// As they stand for a pair that is swapped or isn't, told from those of one that isn't.
    pub fn of(&self, swapped: bool) -> Sides<'a>
        ensures left { result.left.now ≡ left_of self.now.left.now self.now.right.now swapped }
        ensures right { result.right.now ≡ right_of self.now.left.now self.now.right.now swapped }
        ensures swapped { result.swapped ≡ flag_of swapped self.now.swapped }
    {
        if swapped { self.turned() } else { *self }
    }
}

/// The id of the defined type at an index.
pub fn defined_at(types: &Types, index: usize) -> DefinedTypeId
    requires { Stands types.now (defined_key (id_in types.now index)) }
    ensures { result ≡ id_in types.now index }
{
    types.defined_type_at(index).unwrap()
}

/// The id of the function type at an index.
pub fn func_at(types: &Types, index: usize) -> FuncTypeId
    requires { Stands types.now (func_key (id_in types.now index)) }
    ensures { result ≡ id_in types.now index }
{
    types.func_type_at(index).unwrap()
}

/// The id of the interface at an index.
pub fn interface_at(types: &Types, index: usize) -> InterfaceId
    requires { Stands types.now (interface_key (id_in types.now index)) }
    ensures { result ≡ id_in types.now index }
{
    types.interface_at(index).unwrap()
}

/// The id of the world at an index.
pub fn world_at(types: &Types, index: usize) -> WorldId
    requires { Stands types.now (world_key (id_in types.now index)) }
    ensures { result ≡ id_in types.now index }
{
    types.world_at(index).unwrap()
}

/// The id of the core module type at an index.
pub fn module_at(types: &Types, index: usize) -> ModuleTypeId
    requires { Stands types.now (module_key (id_in types.now index)) }
    ensures { result ≡ id_in types.now index }
{
    types.module_type_at(index).unwrap()
}
