//! Callers of `add_*` and `replace_*`: a function, an interface, a world and a core module are made
//! and added, and then replaced.

ghost use Rattle.std.specs.Prelude.{◌≡◌, [], ◌∷◌, ◌<◌, false, IfErr, IfOk, OnErr, OnOk, Some};
ghost use Rattle.wac_types.specs.Content.{func_content, interface_content, named, world_content};
ghost use Rattle.wac_types.specs.Growth.{Extends};
ghost use Rattle.wac_types.specs.ItemTree.{named as item_named, no_items};
ghost use Rattle.wac_types.specs.Key.{AllStand, Stands, func_key, interface_key, module_key, value_keys, world_key};
ghost use Rattle.wac_types.specs.Replacing.{Replaces};
ghost use Rattle.wac_types.specs.Tree.{externs, func_tree, item_tree, value_tree};
ghost use Rattle.wac_types.specs.declared.ItemKind.TheVariants.{Func, Instance};

use indexmap::IndexMap;
use std::alloc::{AllocError, Global};
use wac_types::{
    CoreExtern, FuncType, FuncTypeId, Interface, InterfaceId, ItemKind, ModuleError, ModuleType,
    ModuleTypeId, ReplaceError, Types, ValueType, World, WorldId,
};

/// Why an entry wasn't replaced. The collection is then what it was.
#[derive(Debug, Drop)]
pub enum EditError {
    /// The new content leads back to the entry.
    Cycle,
    /// A memory starts above its maximum.
    Limits,
    /// An allocation failed.
    Memory,
}

impl From<AllocError> for EditError {
    fn from(_error: AllocError) -> EditError {
        EditError::Memory
    }
}

impl<T: Drop> From<ReplaceError<T>> for EditError {
    fn from(error: ReplaceError<T>) -> EditError {
        match error {
            ReplaceError::Cycle(_) => EditError::Cycle,
            ReplaceError::Limits(_) => EditError::Limits,
            ReplaceError::Memory(_) => EditError::Memory,
        }
    }
}

// ---- a function

// The type of a function that gives a value.
fn getter(alloc: Global, gives: ValueType) -> FuncType
    ensures { func_content result ≡ record { params = []; «result» = Some gives; is_async = false } }
{
    let mut getter = FuncType::new(alloc);
    getter.result = Some(gives);
    getter
}

/// Adds the type of a function that gives a value.
pub fn add_getter(
    alloc: Global,
    types: &mut Types,
    gives: ValueType,
) -> Result<FuncTypeId, AllocError>
    requires { AllStand types.old (value_keys gives) }
    ensures tree { IfOk result (λ f. func_tree types.new f ≡ record { params = []; «result» = Some (value_tree types.old gives); is_async = false }) }
    ensures stands { IfOk result (λ f. Stands types.new (func_key f)) }
    ensures grows { Extends types.old types.new }
{
    types.add_func_type(getter(alloc, gives))
}

/// Lets a function give another value.
pub fn change_getter(
    alloc: Global,
    types: &mut Types,
    id: FuncTypeId,
    gives: ValueType,
) -> Result<(), EditError>
    requires id { Stands types.old (func_key id) }
    requires gives { AllStand types.old (value_keys gives) }
    ensures tree { OnOk result (func_tree types.new id ≡ record { params = []; «result» = Some (value_tree types.old gives); is_async = false }) }
    ensures replaces { OnOk result (Replaces types.old types.new (func_key id)) }
    ensures err { OnErr result (types.new ≡ types.old) }
{
    types.replace_func_type(id, getter(alloc, gives))?;
    Ok(())
}

// ---- an interface and a world

// One item under a name.
fn one_item(
    alloc: Global,
    name: &str,
    item: ItemKind,
) -> Result<IndexMap<String, ItemKind>, AllocError>
    ensures { IfOk result (λ items. named (λ k. k) items.entries ≡ (name.now, item) ∷ []) }
{
    let mut items = IndexMap::new(alloc);
    items.insert(String::from_str(alloc, name)?, item)?;
    Ok(items)
}

// An interface that exports a function.
fn service(alloc: Global, name: &str, func: FuncTypeId) -> Result<Interface, AllocError>
    ensures { IfOk result (λ i. interface_content i ≡ record { id = None; uses = []; exports = (name.now, Func func) ∷ [] }) }
{
    let mut service = Interface::new(alloc);
    service.exports = one_item(alloc, name, ItemKind::Func(func))?;
    Ok(service)
}

/// Adds an interface that exports a function.
pub fn add_service(
    alloc: Global,
    types: &mut Types,
    name: &str,
    func: FuncTypeId,
) -> Result<InterfaceId, AllocError>
    requires { Stands types.old (func_key func) }
    ensures tree { IfOk result (λ i. externs types.new (interface_key i) ≡ record { imports = no_items; exports = item_named name.now (item_tree types.old (Func func)) no_items }) }
    ensures stands { IfOk result (λ i. Stands types.new (interface_key i)) }
    ensures grows { Extends types.old types.new }
{
    let service = service(alloc, name, func)?;
    types.add_interface(service)
}

/// Lets an interface export a function, and nothing else.
pub fn change_service(
    alloc: Global,
    types: &mut Types,
    id: InterfaceId,
    name: &str,
    func: FuncTypeId,
) -> Result<(), EditError>
    requires id { Stands types.old (interface_key id) }
    requires func { Stands types.old (func_key func) }
    ensures tree { OnOk result (externs types.new (interface_key id) ≡ record { imports = no_items; exports = item_named name.now (item_tree types.old (Func func)) no_items }) }
    ensures replaces { OnOk result (Replaces types.old types.new (interface_key id)) }
    ensures err { OnErr result (types.new ≡ types.old) }
{
    let service = service(alloc, name, func)?;
    types.replace_interface(id, service)?;
    Ok(())
}

// A world that imports an instance.
fn client(alloc: Global, name: &str, service: InterfaceId) -> Result<World, AllocError>
    ensures { IfOk result (λ w. world_content w ≡ record { id = None; uses = []; imports = (name.now, Instance service) ∷ []; exports = [] }) }
{
    let mut client = World::new(alloc);
    client.imports = one_item(alloc, name, ItemKind::Instance(service))?;
    Ok(client)
}

/// Adds a world that imports an instance.
pub fn add_client(
    alloc: Global,
    types: &mut Types,
    name: &str,
    service: InterfaceId,
) -> Result<WorldId, AllocError>
    requires { Stands types.old (interface_key service) }
    ensures tree { IfOk result (λ w. externs types.new (world_key w) ≡ record { imports = item_named name.now (item_tree types.old (Instance service)) no_items; exports = no_items }) }
    ensures stands { IfOk result (λ w. Stands types.new (world_key w)) }
    ensures grows { Extends types.old types.new }
{
    let client = client(alloc, name, service)?;
    types.add_world(client)
}

/// Lets a world import an instance, and nothing else.
pub fn change_client(
    alloc: Global,
    types: &mut Types,
    id: WorldId,
    name: &str,
    service: InterfaceId,
) -> Result<(), EditError>
    requires id { Stands types.old (world_key id) }
    requires service { Stands types.old (interface_key service) }
    ensures tree { OnOk result (externs types.new (world_key id) ≡ record { imports = item_named name.now (item_tree types.old (Instance service)) no_items; exports = no_items }) }
    ensures replaces { OnOk result (Replaces types.old types.new (world_key id)) }
    ensures err { OnErr result (types.new ≡ types.old) }
{
    let client = client(alloc, name, service)?;
    types.replace_world(id, client)?;
    Ok(())
}

// ---- a core module

// A core module that exports a memory of this many pages.
fn memory(alloc: Global, name: &str, initial: u64, maximum: u64) -> Result<ModuleType, AllocError> {
    let memory = CoreExtern::Memory {
        memory64: false,
        shared: false,
        initial,
        maximum: Some(maximum),
        page_size_log2: None,
    };
    let mut module = ModuleType::new(alloc);
    module
        .exports
        .insert(String::from_str(alloc, name)?, memory)?;
    Ok(module)
}

/// Adds a core module that exports a memory.
pub fn add_memory(
    alloc: Global,
    types: &mut Types,
    name: &str,
    initial: u64,
    maximum: u64,
) -> Result<ModuleTypeId, ModuleError>
    ensures stands { IfOk result (λ m. Stands types.new (module_key m)) }
    ensures grows { Extends types.old types.new }
{
    let Ok(module) = memory(alloc, name, initial, maximum) else {
        return Err(ModuleError::Memory);
    };
    types.add_module_type(module)
}

/// Lets a core module export a memory, and nothing else.
pub fn change_memory(
    alloc: Global,
    types: &mut Types,
    id: ModuleTypeId,
    name: &str,
    initial: u64,
    maximum: u64,
) -> Result<(), EditError>
    requires { Stands types.old (module_key id) }
    ensures replaces { OnOk result (Replaces types.old types.new (module_key id)) }
    ensures err { OnErr result (types.new ≡ types.old) }
{
    let module = memory(alloc, name, initial, maximum)?;
    types.replace_module_type(id, module)?;
    Ok(())
}
