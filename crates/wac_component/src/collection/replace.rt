//! Replacing entries, where that closes no cycle. Who replaces an entry empties each checker's
//! cache that holds an item which leads to it.

ghost use Rattle.std.specs.Prelude.{◌≡◌, ◌↔◌, slice_set, IsTrue, OnOk, OnErr, IfOk};
ghost use Rattle.wac_model.specs.CoreTree.{is_valid_module};
ghost use Rattle.wac_core.specs.Content.{module_content, core_module_of};
ghost use Rattle.wac_component.specs.Content.{defined_content, resource_content, func_content, interface_content, world_content};
ghost use Rattle.wac_component.specs.Key.{Stands, AllStand, defined_key, resource_key, func_key, interface_key, world_key, module_key, defined_keys, resource_keys, func_keys, interface_keys, world_keys};
ghost use Rattle.wac_component.specs.Tree.{value_tree, content_tree, root_name, content_name, func_tree, func_content_tree, module_tree, item_tree, externs, interface_externs, world_externs};
ghost use Rattle.wac_component.specs.Replacing.{NamesReach, Replaces, AnswersReplace, AnswersReplaceModule};
ghost use Rattle.wac_component.specs.declared.items.ValueType.TheVariants.{Defined};

use super::Types;
use super::naming::{EntryId, named_ids};
use crate::parts::NONE;
use crate::{
    DefinedType, DefinedTypeId, FuncType, FuncTypeId, Interface, InterfaceId, ModuleTypeId,
    Resource, ResourceId, World, WorldId,
};
use std::alloc::AllocError;
use wac_core::{ModuleType, has_valid_limits};

/// Why an entry was not replaced. The content is handed back.
#[derive(Debug, Drop)]
pub enum ReplaceError<T> {
    /// The content leads back to the entry.
    Cycle(T),
    /// An allocation failed while a cycle was looked for.
    Memory(T),
    /// A table or a memory in it starts above its maximum.
    Limits(T),
}

impl Types {
    /// Puts a defined type in the place of another. `Cycle` exactly where an id in it leads back to
    /// that entry. What is refused is handed back, and the collection is unchanged.
    pub fn replace_defined_type(
        &mut self,
        id: DefinedTypeId,
        ty: DefinedType,
    ) -> Result<(), ReplaceError<DefinedType>>
        requires id { Stands self.old (defined_key id) }
        requires named { AllStand self.old (defined_keys (defined_content ty)) }
        ensures replaced { OnOk result (self.new ≡ record self.old { defined = slice_set self.old.defined id.index (defined_content ty) }) }
        ensures answer { AnswersReplace result ty (NamesReach self.old (defined_keys (defined_content ty)) (defined_key id)) }
        ensures tree { OnOk result (value_tree self.new (Defined id) ≡ content_tree (value_tree self.old) (defined_content ty)) }
        ensures keeps { OnOk result (Replaces self.old self.new (defined_key id)) }
        ensures err { OnErr result (self.new ≡ self.old) }
    {
        match self.defined_leads_to(&ty, id) {
            Ok(false) => {
                self.defined[id.index()] = ty;
                Ok(())
            }
            Ok(true) => Err(ReplaceError::Cycle(ty)),
            Err(_) => Err(ReplaceError::Memory(ty)),
        }
    }

    /// Puts a resource in the place of another. `Cycle` exactly where an id in it leads back to
    /// that entry. What is refused is handed back, and the collection is unchanged.
    pub fn replace_resource(
        &mut self,
        id: ResourceId,
        resource: Resource,
    ) -> Result<(), ReplaceError<Resource>>
        requires id { Stands self.old (resource_key id) }
        requires named { AllStand self.old (resource_keys (resource_content resource)) }
        ensures replaced { OnOk result (self.new ≡ record self.old { resources = slice_set self.old.resources id.index (resource_content resource) }) }
        ensures answer { AnswersReplace result resource (NamesReach self.old (resource_keys (resource_content resource)) (resource_key id)) }
        ensures name { OnOk result (root_name self.new id ≡ content_name (root_name self.old) (resource_content resource)) }
        ensures keeps { OnOk result (Replaces self.old self.new (resource_key id)) }
        ensures err { OnErr result (self.new ≡ self.old) }
    {
        match self.resource_leads_to(&resource, id) {
            Ok(false) => {
                self.resources[id.index()] = resource;
                Ok(())
            }
            Ok(true) => Err(ReplaceError::Cycle(resource)),
            Err(_) => Err(ReplaceError::Memory(resource)),
        }
    }

    /// Puts a function type in the place of another. `Cycle` exactly where an id in it leads back
    /// to that entry. What is refused is handed back, and the collection is unchanged.
    pub fn replace_func_type(
        &mut self,
        id: FuncTypeId,
        func: FuncType,
    ) -> Result<(), ReplaceError<FuncType>>
        requires id { Stands self.old (func_key id) }
        requires named { AllStand self.old (func_keys (func_content func)) }
        ensures replaced { OnOk result (self.new ≡ record self.old { funcs = slice_set self.old.funcs id.index (func_content func) }) }
        ensures answer { AnswersReplace result func (NamesReach self.old (func_keys (func_content func)) (func_key id)) }
        ensures tree { OnOk result (func_tree self.new id ≡ func_content_tree self.old (func_content func)) }
        ensures keeps { OnOk result (Replaces self.old self.new (func_key id)) }
        ensures err { OnErr result (self.new ≡ self.old) }
    {
        match self.func_leads_to(&func, id) {
            Ok(false) => {
                self.funcs[id.index()] = func;
                Ok(())
            }
            Ok(true) => Err(ReplaceError::Cycle(func)),
            Err(_) => Err(ReplaceError::Memory(func)),
        }
    }

    /// Puts an interface in the place of another. `Cycle` exactly where an id in it leads back to
    /// that entry. What is refused is handed back, and the collection is unchanged.
    pub fn replace_interface(
        &mut self,
        id: InterfaceId,
        interface: Interface,
    ) -> Result<(), ReplaceError<Interface>>
        requires id { Stands self.old (interface_key id) }
        requires named { AllStand self.old (interface_keys (interface_content interface)) }
        ensures replaced { OnOk result (self.new ≡ record self.old { interfaces = slice_set self.old.interfaces id.index (interface_content interface) }) }
        ensures answer { AnswersReplace result interface (NamesReach self.old (interface_keys (interface_content interface)) (interface_key id)) }
        ensures tree { OnOk result (externs self.new (interface_key id) ≡ interface_externs (item_tree self.old) (interface_content interface)) }
        ensures keeps { OnOk result (Replaces self.old self.new (interface_key id)) }
        ensures err { OnErr result (self.new ≡ self.old) }
    {
        match self.interface_leads_to(&interface, id) {
            Ok(false) => {
                self.interfaces[id.index()] = interface;
                Ok(())
            }
            Ok(true) => Err(ReplaceError::Cycle(interface)),
            Err(_) => Err(ReplaceError::Memory(interface)),
        }
    }

    /// Puts a world in the place of another. `Cycle` exactly where an id in it leads back to that
    /// entry. What is refused is handed back, and the collection is unchanged.
    pub fn replace_world(&mut self, id: WorldId, world: World) -> Result<(), ReplaceError<World>>
        requires id { Stands self.old (world_key id) }
        requires named { AllStand self.old (world_keys (world_content world)) }
        ensures replaced { OnOk result (self.new ≡ record self.old { worlds = slice_set self.old.worlds id.index (world_content world) }) }
        ensures answer { AnswersReplace result world (NamesReach self.old (world_keys (world_content world)) (world_key id)) }
        ensures tree { OnOk result (externs self.new (world_key id) ≡ world_externs (item_tree self.old) (world_content world)) }
        ensures keeps { OnOk result (Replaces self.old self.new (world_key id)) }
        ensures err { OnErr result (self.new ≡ self.old) }
    {
        match self.world_leads_to(&world, id) {
            Ok(false) => {
                self.worlds[id.index()] = world;
                Ok(())
            }
            Ok(true) => Err(ReplaceError::Cycle(world)),
            Err(_) => Err(ReplaceError::Memory(world)),
        }
    }

    /// Puts a core module type in the place of another. `Limits` exactly where a table or a memory
    /// in it starts above its maximum; the content is then handed back, and the collection is
    /// unchanged. This takes no memory: a core module names no ids.
    pub fn replace_module_type(
        &mut self,
        id: ModuleTypeId,
        ty: ModuleType,
    ) -> Result<(), ReplaceError<ModuleType>>
        requires { Stands self.old (module_key id) }
        ensures replaced { OnOk result (self.new ≡ record self.old { modules = slice_set self.old.modules id.index (core_module_of ty) }) }
        ensures answer { AnswersReplaceModule result ty (IsTrue (is_valid_module (module_content ty))) }
        ensures tree { OnOk result ((module_tree self.new id).content ≡ module_content ty) }
        ensures keeps { OnOk result (Replaces self.old self.new (module_key id)) }
        ensures err { OnErr result (self.new ≡ self.old) }
    {
        if !has_valid_limits(&ty) {
            return Err(ReplaceError::Limits(ty));
        }
        self.modules[id.index()] = ty;
        Ok(())
    }

    // Whether an id in a defined type leads to the entry.
    fn defined_leads_to(&self, ty: &DefinedType, id: DefinedTypeId) -> Result<bool, AllocError>
        requires { AllStand self.now (defined_keys (defined_content ty.now)) }
        ensures { IfOk result (λ leads. IsTrue leads ↔ NamesReach self.now (defined_keys (defined_content ty.now)) (defined_key id)) }
    {
        let ids = named_ids(*self.defined.allocator(), &(ty.parts(), NONE, NONE))?;
        self.names_lead_to(&ids, EntryId::Defined(id))
    }

    // Whether an id in a resource leads to the entry.
    fn resource_leads_to(&self, resource: &Resource, id: ResourceId) -> Result<bool, AllocError>
        requires { AllStand self.now (resource_keys (resource_content resource.now)) }
        ensures { IfOk result (λ leads. IsTrue leads ↔ NamesReach self.now (resource_keys (resource_content resource.now)) (resource_key id)) }
    {
        let ids = named_ids(*self.defined.allocator(), &(resource.parts(), NONE, NONE))?;
        self.names_lead_to(&ids, EntryId::Resource(id))
    }

    // Whether an id in a function type leads to the entry.
    fn func_leads_to(&self, func: &FuncType, id: FuncTypeId) -> Result<bool, AllocError>
        requires { AllStand self.now (func_keys (func_content func.now)) }
        ensures { IfOk result (λ leads. IsTrue leads ↔ NamesReach self.now (func_keys (func_content func.now)) (func_key id)) }
    {
        let ids = named_ids(*self.defined.allocator(), &func.parts())?;
        self.names_lead_to(&ids, EntryId::Func(id))
    }

    // Whether an id in an interface leads to the entry.
    fn interface_leads_to(&self, interface: &Interface, id: InterfaceId) -> Result<bool, AllocError>
        requires { AllStand self.now (interface_keys (interface_content interface.now)) }
        ensures { IfOk result (λ leads. IsTrue leads ↔ NamesReach self.now (interface_keys (interface_content interface.now)) (interface_key id)) }
    {
        let ids = named_ids(*self.defined.allocator(), &interface.parts())?;
        self.names_lead_to(&ids, EntryId::Interface(id))
    }

    // Whether an id in a world leads to the entry.
    fn world_leads_to(&self, world: &World, id: WorldId) -> Result<bool, AllocError>
        requires { AllStand self.now (world_keys (world_content world.now)) }
        ensures { IfOk result (λ leads. IsTrue leads ↔ NamesReach self.now (world_keys (world_content world.now)) (world_key id)) }
    {
        let ids = named_ids(*self.defined.allocator(), &world.parts())?;
        self.names_lead_to(&ids, EntryId::World(id))
    }
}
