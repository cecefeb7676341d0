//! Collections of types.

ghost use Rattle.std.specs.Prelude.{◌≡◌, ◌<◌, ◌≤◌, ◌++◌, ◌↔◌, [], ◌∷◌, length, map, slice_get, All, IsTrue, OnOk, OnErr, IfOk};
ghost use Rattle.std.specs.Slice.Iter.{iter_rest};

use super::defined::DefinedType;
use super::functions::FuncType;
use super::ids::{DefinedTypeId, FuncTypeId, InterfaceId, ModuleTypeId, ResourceId, WorldId};
use super::interfaces::Interface;
use super::items::{Type, ValueType};
use super::resources::Resource;
use super::worlds::World;
use std::alloc::{AllocError, Global};
use std::marker::Model;
use std::slice;
use wac_core::{ModuleType, has_valid_limits};

mod index;
mod module_error;
mod naming;
mod places;
mod replace;
mod search;
mod standing;
mod taken_out;

pub use module_error::ModuleError;
pub use naming::{EntryId, id_at, items_ids, put_ids};
pub use replace::ReplaceError;
pub use taken_out::{contents_ids, lead_to, put_back, take_out};

/// A collection of types.
///
/// Each id in an entry leads to an entry of the collection, no walk along ids leads back to its
/// start, and each table or memory of a core module starts within its maximum.
#[derive(Debug)]
pub struct Types {
    number: u64,
    defined: Vec<DefinedType>,
    resources: Vec<Resource>,
    funcs: Vec<FuncType>,
    interfaces: Vec<Interface>,
    worlds: Vec<World>,
    modules: Vec<ModuleType>,
}

// By hand, as of each large type that hides its fields: a function that drops one calls this, while
// what is derived is proved field by field wherever one is dropped.
impl Drop for Types {
    fn drop(self) {
        let Types {
            number: _,
            defined: _,
            resources: _,
            funcs: _,
            interfaces: _,
            worlds: _,
            modules: _,
        } = self;
    }
}

impl Model for Types {
    ghost use Rattle.wac_component.specs.Collection.{Collection};

    ghost Value = { Collection };

    ghost use Rattle.wac_component.specs.View.{collection_of, IsKept};

    ghost view = { collection_of };

    ghost invariant = { IsKept };
}

impl Types {
    ghost use Rattle.wac_model.specs.CoreTree.{is_valid_module};
    ghost use Rattle.wac_core.specs.Content.{module_content, core_module_of};
    ghost use Rattle.wac_component.specs.Content.{defined_content, resource_content, func_content, interface_content, world_content};
    ghost use Rattle.wac_component.specs.Key.{Stands, AllStand, value_keys, type_keys, defined_key, resource_key, func_key, interface_key, world_key, module_key, defined_keys, resource_keys, func_keys, interface_keys, world_keys};
    ghost use Rattle.wac_component.specs.Sound.{IsSound};
    ghost use Rattle.wac_component.specs.Height.{keys_height};
    ghost use Rattle.wac_component.specs.Tree.{value_tree, content_tree, root_name, content_name, func_tree, func_content_tree, module_tree, item_tree, externs, interface_externs, world_externs, IsResolved, IsRoot};
    ghost use Rattle.wac_component.specs.Aliases.{IsMeantBy, IsSourceOf};
    ghost use Rattle.wac_component.specs.Growth.{Extends};
    ghost use Rattle.wac_component.specs.Adding.{AnswersAddModule};
    ghost use Rattle.wac_component.specs.declared.items.ValueType.TheVariants.{Defined};

    /// An empty collection of this number.
    pub fn new(alloc: Global, number: u64) -> Types
        ensures { result ≡ record { number = number; defined = []; resources = []; funcs = []; interfaces = []; worlds = []; modules = [] } }
    {
        Types {
            number,
            defined: Vec::new(alloc),
            resources: Vec::new(alloc),
            funcs: Vec::new(alloc),
            interfaces: Vec::new(alloc),
            worlds: Vec::new(alloc),
            modules: Vec::new(alloc),
        }
    }

    /// The number of the collection, which its ids carry.
    pub fn number(&self) -> u64
        ensures { result ≡ self.now.number }
    {
        self.number
    }

    /// The defined types in order.
    pub fn defined_types(&self) -> slice::Iter<'_, DefinedType>
        ensures { map defined_content (iter_rest result) ≡ self.now.defined }
    {
        self.defined.iter()
    }

    /// The resources in order.
    pub fn resources(&self) -> slice::Iter<'_, Resource>
        ensures { map resource_content (iter_rest result) ≡ self.now.resources }
    {
        self.resources.iter()
    }

    /// The function types in order.
    pub fn func_types(&self) -> slice::Iter<'_, FuncType>
        ensures { map func_content (iter_rest result) ≡ self.now.funcs }
    {
        self.funcs.iter()
    }

    /// The interfaces in order.
    pub fn interfaces(&self) -> slice::Iter<'_, Interface>
        ensures { map interface_content (iter_rest result) ≡ self.now.interfaces }
    {
        self.interfaces.iter()
    }

    /// The worlds in order.
    pub fn worlds(&self) -> slice::Iter<'_, World>
        ensures { map world_content (iter_rest result) ≡ self.now.worlds }
    {
        self.worlds.iter()
    }

    /// The core module types in order, whose externs are valid.
    pub fn modules(&self) -> slice::Iter<'_, ModuleType>
        ensures entries { map core_module_of (iter_rest result) ≡ self.now.modules }
        ensures valid { All (λ m. IsTrue (is_valid_module (module_content m))) (iter_rest result) }
    {
        self.modules.iter()
    }

    /// Puts a defined type last; where an allocation fails the collection is unchanged.
    pub fn add_defined_type(&mut self, ty: DefinedType) -> Result<DefinedTypeId, AllocError>
        requires { AllStand self.old (defined_keys (defined_content ty)) }
        ensures added { OnOk result (self.new ≡ record self.old { defined = self.old.defined ++ defined_content ty ∷ [] }) }
        ensures id { IfOk result (λ id. id ≡ record { number = self.old.number; index = length self.old.defined }) }
        ensures stands { IfOk result (λ id. Stands self.new (defined_key id)) }
        ensures tree { IfOk result (λ id. value_tree self.new (Defined id) ≡ content_tree (value_tree self.old) (defined_content ty)) }
        ensures grows { Extends self.old self.new }
        ensures err { OnErr result (self.new ≡ self.old) }
    {
        let index = self.defined.len();
        self.defined.push(ty)?;
        Ok(DefinedTypeId::at(self.number, index))
    }

    /// Puts a resource last; where an allocation fails the collection is unchanged.
    pub fn add_resource(&mut self, resource: Resource) -> Result<ResourceId, AllocError>
        requires { AllStand self.old (resource_keys (resource_content resource)) }
        ensures added { OnOk result (self.new ≡ record self.old { resources = self.old.resources ++ resource_content resource ∷ [] }) }
        ensures id { IfOk result (λ id. id ≡ record { number = self.old.number; index = length self.old.resources }) }
        ensures stands { IfOk result (λ id. Stands self.new (resource_key id)) }
        ensures name { IfOk result (λ id. root_name self.new id ≡ content_name (root_name self.old) (resource_content resource)) }
        ensures grows { Extends self.old self.new }
        ensures err { OnErr result (self.new ≡ self.old) }
    {
        let index = self.resources.len();
        self.resources.push(resource)?;
        Ok(ResourceId::at(self.number, index))
    }

    /// Puts a function type last; where an allocation fails the collection is unchanged.
    pub fn add_func_type(&mut self, func: FuncType) -> Result<FuncTypeId, AllocError>
        requires { AllStand self.old (func_keys (func_content func)) }
        ensures added { OnOk result (self.new ≡ record self.old { funcs = self.old.funcs ++ func_content func ∷ [] }) }
        ensures id { IfOk result (λ id. id ≡ record { number = self.old.number; index = length self.old.funcs }) }
        ensures stands { IfOk result (λ id. Stands self.new (func_key id)) }
        ensures tree { IfOk result (λ id. func_tree self.new id ≡ func_content_tree self.old (func_content func)) }
        ensures grows { Extends self.old self.new }
        ensures err { OnErr result (self.new ≡ self.old) }
    {
        let index = self.funcs.len();
        self.funcs.push(func)?;
        Ok(FuncTypeId::at(self.number, index))
    }

    /// Puts an interface last; where an allocation fails the collection is unchanged.
    pub fn add_interface(&mut self, interface: Interface) -> Result<InterfaceId, AllocError>
        requires { AllStand self.old (interface_keys (interface_content interface)) }
        ensures added { OnOk result (self.new ≡ record self.old { interfaces = self.old.interfaces ++ interface_content interface ∷ [] }) }
        ensures id { IfOk result (λ id. id ≡ record { number = self.old.number; index = length self.old.interfaces }) }
        ensures stands { IfOk result (λ id. Stands self.new (interface_key id)) }
        ensures tree { IfOk result (λ id. externs self.new (interface_key id) ≡ interface_externs (item_tree self.old) (interface_content interface)) }
        ensures grows { Extends self.old self.new }
        ensures err { OnErr result (self.new ≡ self.old) }
    {
        let index = self.interfaces.len();
        self.interfaces.push(interface)?;
        Ok(InterfaceId::at(self.number, index))
    }

    /// Puts a world last; where an allocation fails the collection is unchanged.
    pub fn add_world(&mut self, world: World) -> Result<WorldId, AllocError>
        requires { AllStand self.old (world_keys (world_content world)) }
        ensures added { OnOk result (self.new ≡ record self.old { worlds = self.old.worlds ++ world_content world ∷ [] }) }
        ensures id { IfOk result (λ id. id ≡ record { number = self.old.number; index = length self.old.worlds }) }
        ensures stands { IfOk result (λ id. Stands self.new (world_key id)) }
        ensures tree { IfOk result (λ id. externs self.new (world_key id) ≡ world_externs (item_tree self.old) (world_content world)) }
        ensures grows { Extends self.old self.new }
        ensures err { OnErr result (self.new ≡ self.old) }
    {
        let index = self.worlds.len();
        self.worlds.push(world)?;
        Ok(WorldId::at(self.number, index))
    }

    /// Puts a core module type last. `Limits` exactly where a table or a memory in it starts above
    /// its maximum. Refused, also where an allocation fails, the collection is unchanged.
    pub fn add_module_type(&mut self, ty: ModuleType) -> Result<ModuleTypeId, ModuleError>
        ensures added { OnOk result (self.new ≡ record self.old { modules = self.old.modules ++ core_module_of ty ∷ [] }) }
        ensures answer { AnswersAddModule result (IsTrue (is_valid_module (module_content ty))) }
        ensures id { IfOk result (λ id. id ≡ record { number = self.old.number; index = length self.old.modules }) }
        ensures stands { IfOk result (λ id. Stands self.new (module_key id)) }
        ensures tree { IfOk result (λ id. (module_tree self.new id).content ≡ module_content ty) }
        ensures grows { Extends self.old self.new }
        ensures err { OnErr result (self.new ≡ self.old) }
    {
        if !has_valid_limits(&ty) {
            return Err(ModuleError::Limits);
        }
        let index = self.modules.len();
        let Ok(()) = self.modules.push(ty) else {
            return Err(ModuleError::Memory);
        };
        Ok(ModuleTypeId::at(self.number, index))
    }

    /// Whether the ids of a type stand in the collection; a primitive type has none.
    pub fn contains(&self, ty: Type) -> bool
        ensures { IsTrue result ↔ AllStand self.now (type_keys ty) }
    {
        match ty {
            Type::Resource(id) => self.contains_resource(id),
            Type::Func(id) => id.number() == self.number && id.index() < self.funcs.len(),
            Type::Value(ty) => self.contains_value(ty),
            Type::Interface(id) => {
                id.number() == self.number && id.index() < self.interfaces.len()
            }
            Type::World(id) => id.number() == self.number && id.index() < self.worlds.len(),
            Type::Module(id) => id.number() == self.number && id.index() < self.modules.len(),
        }
    }

    fn contains_value(&self, ty: ValueType) -> bool
        ensures { IsTrue result ↔ AllStand self.now (value_keys ty) }
    {
        match ty {
            ValueType::Primitive(_) => true,
            ValueType::Borrow(id) | ValueType::Own(id) => self.contains_resource(id),
            ValueType::Defined(id) => id.number() == self.number && id.index() < self.defined.len(),
        }
    }

    fn contains_resource(&self, id: ResourceId) -> bool
        ensures { IsTrue result ↔ Stands self.now (resource_key id) }
    {
        id.number() == self.number && id.index() < self.resources.len()
    }

    /// The value type with aliases peeled: itself where it is no alias.
    pub fn resolve_value_type(&self, ty: ValueType) -> ValueType
        requires { AllStand self.now (value_keys ty) }
        ensures tree { value_tree self.now result ≡ value_tree self.now ty }
        ensures standing { AllStand self.now (value_keys result) }
        ensures lower { keys_height self.now (value_keys result) ≤ keys_height self.now (value_keys ty) }
        ensures resolved { IsResolved self.now result }
        ensures reached { IsMeantBy self.now ty result }
    {
        let mut at = ty;
        loop {
            let ValueType::Defined(id) = at else {
                return at;
            };
            let DefinedType::Alias(of) = &self[id] else {
                return at;
            };
            at = *of;
        }
    }

    /// The resource at the root of a chain of aliases: itself where it is no alias.
    pub fn resolve_resource(&self, id: ResourceId) -> ResourceId
        requires { Stands self.now (resource_key id) }
        ensures name { root_name self.now result ≡ root_name self.now id }
        ensures standing { Stands self.now (resource_key result) }
        ensures root { IsRoot self.now result }
        ensures reached { IsSourceOf self.now id result }
    {
        let mut at = id;
        while let Some(alias) = self[at].alias {
            at = alias.source;
        }
        at
    }

    /// What is known of every collection; this does nothing.
    pub fn sound(&self)
        ensures { IsSound self.now }
    {
        let _ = &self.number;
    }

    fn defined_entry(&self, id: DefinedTypeId) -> &DefinedType
        requires { Stands self.now (defined_key id) }
        ensures entry { slice_get self.now.defined id.index ≡ Some (defined_content result.now) }
        ensures sound { IsSound self.now }
    {
        &self.defined[id.index()]
    }

    fn resource_entry(&self, id: ResourceId) -> &Resource
        requires { Stands self.now (resource_key id) }
        ensures entry { slice_get self.now.resources id.index ≡ Some (resource_content result.now) }
        ensures sound { IsSound self.now }
    {
        &self.resources[id.index()]
    }

    fn func_entry(&self, id: FuncTypeId) -> &FuncType
        requires { Stands self.now (func_key id) }
        ensures entry { slice_get self.now.funcs id.index ≡ Some (func_content result.now) }
        ensures sound { IsSound self.now }
    {
        &self.funcs[id.index()]
    }

    fn interface_entry(&self, id: InterfaceId) -> &Interface
        requires { Stands self.now (interface_key id) }
        ensures entry { slice_get self.now.interfaces id.index ≡ Some (interface_content result.now) }
        ensures sound { IsSound self.now }
    {
        &self.interfaces[id.index()]
    }

    fn world_entry(&self, id: WorldId) -> &World
        requires { Stands self.now (world_key id) }
        ensures entry { slice_get self.now.worlds id.index ≡ Some (world_content result.now) }
        ensures sound { IsSound self.now }
    {
        &self.worlds[id.index()]
    }

    fn module_entry(&self, id: ModuleTypeId) -> &ModuleType
        requires { Stands self.now (module_key id) }
        ensures entry { slice_get self.now.modules id.index ≡ Some (core_module_of result.now) }
        ensures valid { IsTrue (is_valid_module (module_content result.now)) }
    {
        &self.modules[id.index()]
    }
}
