//! What stands for the entries of other collections.

ghost use Rattle.std.specs.Prelude.{◌≡◌, ◌≤◌, None, OnOk, is_some};
ghost use Rattle.std.specs.Option.{option_map};
ghost use Rattle.indexmap.specs.IndexMap.{spare};
ghost use Rattle.wac_component.specs.Key.{Key, defined_key, resource_key, func_key, interface_key, world_key, module_key};
ghost use Rattle.wac_aggregator_memo.specs.Memo.{AddsPair, memo_of};
ghost use Rattle.wac_component.specs.Naming.{key_of};

use indexmap::IndexMap;
use std::alloc::{AllocError, Global};
use wac_component::{
    DefinedTypeId, EntryId, FuncTypeId, InterfaceId, ModuleTypeId, ResourceId, WorldId,
};

/// Entries of other collections, each with the entry of its sort that
/// stands for it in one collection.
#[derive(Debug)]
pub struct Memo {
    defined: IndexMap<DefinedTypeId, DefinedTypeId>,
    resources: IndexMap<ResourceId, ResourceId>,
    funcs: IndexMap<FuncTypeId, FuncTypeId>,
    interfaces: IndexMap<InterfaceId, InterfaceId>,
    worlds: IndexMap<WorldId, WorldId>,
    modules: IndexMap<ModuleTypeId, ModuleTypeId>,
}

// By hand, as of `Types`.
impl Drop for Memo {
    fn drop(self) {
        let Memo {
            defined: _,
            resources: _,
            funcs: _,
            interfaces: _,
            worlds: _,
            modules: _,
        } = self;
    }
}

impl Memo {
    /// Nothing stands for any entry.
    pub fn new(alloc: Global) -> Memo
        ensures { (k : Key) → memo_of result k ≡ None }
    {
        Memo {
            defined: IndexMap::new(alloc),
            resources: IndexMap::new(alloc),
            funcs: IndexMap::new(alloc),
            interfaces: IndexMap::new(alloc),
            worlds: IndexMap::new(alloc),
            modules: IndexMap::new(alloc),
        }
    }

    /// Makes room for so many interfaces and function types more.
    pub fn reserve(&mut self, additional: usize) -> Result<(), AllocError>
        ensures pairs { memo_of self.new ≡ memo_of self.old }
        ensures room { OnOk result ((additional ≤ spare self.new.interfaces) × (additional ≤ spare self.new.funcs)) }
    {
        self.interfaces.reserve(additional)?;
        self.funcs.reserve(additional)
    }

    /// The allocator.
    pub fn alloc(&self) -> Global {
        *self.defined.allocator()
    }

    /// Whether something stands for an entry.
    pub fn has(&self, id: &EntryId) -> bool
        ensures { result ≡ is_some (memo_of self.now (key_of id.now)) }
    {
        match *id {
            EntryId::Defined(id) => self.defined(id).is_some(),
            EntryId::Resource(id) => self.resource(id).is_some(),
            EntryId::Func(id) => self.func(id).is_some(),
            EntryId::Interface(id) => self.interface(id).is_some(),
            EntryId::World(id) => self.world(id).is_some(),
            EntryId::Module(id) => self.module(id).is_some(),
        }
    }

    /// What stands for a defined type, if anything does.
    pub fn defined(&self, id: DefinedTypeId) -> Option<DefinedTypeId>
        ensures { option_map defined_key result ≡ memo_of self.now (defined_key id) }
    {
        self.defined.get(&id).copied()
    }

    /// Notes what stands for a defined type.
    pub fn put_defined(&mut self, id: DefinedTypeId, own: DefinedTypeId) -> Result<(), AllocError>
        ensures { memo_of self.old (defined_key id) ≡ None → OnOk result (AddsPair (memo_of self.old) (memo_of self.new) (defined_key id) (defined_key own)) }
    {
        self.defined.insert(id, own)?;
        Ok(())
    }

    /// What stands for a resource, if anything does.
    pub fn resource(&self, id: ResourceId) -> Option<ResourceId>
        ensures { option_map resource_key result ≡ memo_of self.now (resource_key id) }
    {
        self.resources.get(&id).copied()
    }

    /// Notes what stands for a resource.
    pub fn put_resource(&mut self, id: ResourceId, own: ResourceId) -> Result<(), AllocError>
        ensures { memo_of self.old (resource_key id) ≡ None → OnOk result (AddsPair (memo_of self.old) (memo_of self.new) (resource_key id) (resource_key own)) }
    {
        self.resources.insert(id, own)?;
        Ok(())
    }

    /// What stands for a function type, if anything does.
    pub fn func(&self, id: FuncTypeId) -> Option<FuncTypeId>
        ensures { option_map func_key result ≡ memo_of self.now (func_key id) }
    {
        self.funcs.get(&id).copied()
    }

    /// Notes what stands for a function type.
    pub fn put_func(&mut self, id: FuncTypeId, own: FuncTypeId) -> Result<(), AllocError>
        ensures { memo_of self.old (func_key id) ≡ None → OnOk result (AddsPair (memo_of self.old) (memo_of self.new) (func_key id) (func_key own)) }
    {
        self.funcs.insert(id, own)?;
        Ok(())
    }

    /// What stands for an interface, if anything does.
    pub fn interface(&self, id: InterfaceId) -> Option<InterfaceId>
        ensures { option_map interface_key result ≡ memo_of self.now (interface_key id) }
    {
        self.interfaces.get(&id).copied()
    }

    /// Notes what stands for an interface.
    pub fn put_interface(&mut self, id: InterfaceId, own: InterfaceId) -> Result<(), AllocError>
        ensures { memo_of self.old (interface_key id) ≡ None → OnOk result (AddsPair (memo_of self.old) (memo_of self.new) (interface_key id) (interface_key own)) }
    {
        self.interfaces.insert(id, own)?;
        Ok(())
    }

    /// What stands for a world, if anything does.
    pub fn world(&self, id: WorldId) -> Option<WorldId>
        ensures { option_map world_key result ≡ memo_of self.now (world_key id) }
    {
        self.worlds.get(&id).copied()
    }

    /// Notes what stands for a world.
    pub fn put_world(&mut self, id: WorldId, own: WorldId) -> Result<(), AllocError>
        ensures { memo_of self.old (world_key id) ≡ None → OnOk result (AddsPair (memo_of self.old) (memo_of self.new) (world_key id) (world_key own)) }
    {
        self.worlds.insert(id, own)?;
        Ok(())
    }

    /// What stands for a core module type, if anything does.
    pub fn module(&self, id: ModuleTypeId) -> Option<ModuleTypeId>
        ensures { option_map module_key result ≡ memo_of self.now (module_key id) }
    {
        self.modules.get(&id).copied()
    }

    /// Notes what stands for a core module type.
    pub fn put_module(&mut self, id: ModuleTypeId, own: ModuleTypeId) -> Result<(), AllocError>
        ensures { memo_of self.old (module_key id) ≡ None → OnOk result (AddsPair (memo_of self.old) (memo_of self.new) (module_key id) (module_key own)) }
    {
        self.modules.insert(id, own)?;
        Ok(())
    }
}
