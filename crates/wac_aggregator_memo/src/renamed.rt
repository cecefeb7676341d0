//! Contents with the ids of what stands for what they name. An id for which nothing stands stays.

ghost use Rattle.std.specs.Prelude.{◌≡◌, map, IfOk};
ghost use Rattle.std.specs.Option.{option_map};
ghost use Rattle.wac_component.specs.Content.{named, alias_content, defined_content, resource_content, func_content, use_content, interface_content, world_content};
ghost use Rattle.wac_component.specs.Key.{defined_key, resource_key, func_key, interface_key, world_key, module_key};
ghost use Rattle.wac_aggregator_memo.specs.Memo.{memo_of};
ghost use Rattle.wac_aggregator_memo.specs.Renamed.{renamed_id, renamed_value, renamed_type, renamed_item, renamed_use, renamed_alias, renamed_defined, renamed_resource, renamed_func, renamed_interface, renamed_world, with_values};

use super::memo::Memo;
use indexmap::IndexMap;
use std::alloc::AllocError;
use wac_component::{
    DefinedType, DefinedTypeId, FuncType, FuncTypeId, Interface, InterfaceId, ItemKind,
    ModuleTypeId, Resource, ResourceAlias, ResourceId, Type, UsedType, ValueType, World, WorldId,
};

impl Memo {
    /// The id of what stands for a defined type; the same id where nothing does.
    pub fn defined_or_same(&self, id: DefinedTypeId) -> DefinedTypeId
        ensures { result ≡ renamed_id (memo_of self.now) (defined_key id) }
    {
        self.defined(id).unwrap_or(id)
    }

    /// The same of a resource.
    pub fn resource_or_same(&self, id: ResourceId) -> ResourceId
        ensures { result ≡ renamed_id (memo_of self.now) (resource_key id) }
    {
        self.resource(id).unwrap_or(id)
    }

    /// The same of a function type.
    pub fn func_or_same(&self, id: FuncTypeId) -> FuncTypeId
        ensures { result ≡ renamed_id (memo_of self.now) (func_key id) }
    {
        self.func(id).unwrap_or(id)
    }

    /// The same of an interface.
    pub fn interface_or_same(&self, id: InterfaceId) -> InterfaceId
        ensures { result ≡ renamed_id (memo_of self.now) (interface_key id) }
    {
        self.interface(id).unwrap_or(id)
    }

    /// The same of a world.
    pub fn world_or_same(&self, id: WorldId) -> WorldId
        ensures { result ≡ renamed_id (memo_of self.now) (world_key id) }
    {
        self.world(id).unwrap_or(id)
    }

    /// The same of a core module type.
    pub fn module_or_same(&self, id: ModuleTypeId) -> ModuleTypeId
        ensures { result ≡ renamed_id (memo_of self.now) (module_key id) }
    {
        self.module(id).unwrap_or(id)
    }

    /// A value type, renamed.
    pub fn renamed_value(&self, ty: ValueType) -> ValueType
        ensures { result ≡ renamed_value (memo_of self.now) ty }
    {
        match ty {
            ValueType::Primitive(ty) => ValueType::Primitive(ty),
            ValueType::Borrow(id) => ValueType::Borrow(self.resource_or_same(id)),
            ValueType::Own(id) => ValueType::Own(self.resource_or_same(id)),
            ValueType::Defined(id) => ValueType::Defined(self.defined_or_same(id)),
        }
    }

    /// A value type, if there is one.
    pub fn renamed_optional(&self, ty: Option<ValueType>) -> Option<ValueType>
        ensures { result ≡ option_map (renamed_value (memo_of self.now)) ty }
    {
        match ty {
            Some(ty) => Some(self.renamed_value(ty)),
            None => None,
        }
    }

    /// A type, renamed.
    pub fn renamed_type(&self, ty: Type) -> Type
        ensures { result ≡ renamed_type (memo_of self.now) ty }
    {
        match ty {
            Type::Resource(id) => Type::Resource(self.resource_or_same(id)),
            Type::Func(id) => Type::Func(self.func_or_same(id)),
            Type::Value(ty) => Type::Value(self.renamed_value(ty)),
            Type::Interface(id) => Type::Interface(self.interface_or_same(id)),
            Type::World(id) => Type::World(self.world_or_same(id)),
            Type::Module(id) => Type::Module(self.module_or_same(id)),
        }
    }

    /// An item, renamed.
    pub fn renamed_item(&self, kind: ItemKind) -> ItemKind
        ensures { result ≡ renamed_item (memo_of self.now) kind }
    {
        match kind {
            ItemKind::Type(ty) => ItemKind::Type(self.renamed_type(ty)),
            ItemKind::Func(id) => ItemKind::Func(self.func_or_same(id)),
            ItemKind::Instance(id) => ItemKind::Instance(self.interface_or_same(id)),
            ItemKind::Component(id) => ItemKind::Component(self.world_or_same(id)),
            ItemKind::Module(id) => ItemKind::Module(self.module_or_same(id)),
            ItemKind::Value(ty) => ItemKind::Value(self.renamed_value(ty)),
        }
    }

    // Value types of a list.
    fn rename_values(&self, types: &mut Vec<ValueType>)
        ensures { types.new.items ≡ map (renamed_value (memo_of self.now)) types.old.items }
    {
        for i in 0..types.len() {
            types[i] = self.renamed_value(types[i]);
        }
    }

    // Value types under names.
    fn rename_fields(&self, fields: &mut IndexMap<String, ValueType>)
        ensures { fields.new.entries ≡ with_values (renamed_value (memo_of self.now)) fields.old.entries }
    {
        fields.retain(|_, ty| {
            *ty = self.renamed_value(*ty);
            true
        });
    }

    // Cases of a variant.
    fn rename_cases(&self, cases: &mut IndexMap<String, Option<ValueType>>)
        ensures { cases.new.entries ≡ with_values (λ t. option_map (renamed_value (memo_of self.now)) t) cases.old.entries }
    {
        cases.retain(|_, ty| {
            *ty = self.renamed_optional(*ty);
            true
        });
    }

    // Items under names, in place.
    fn rename_items(&self, items: &mut IndexMap<String, ItemKind>)
        ensures { named (λ k. k) items.new.entries ≡ with_values (renamed_item (memo_of self.now)) (named (λ k. k) items.old.entries) }
    {
        items.retain(|_, kind| {
            *kind = self.renamed_item(*kind);
            true
        });
    }

    // What is used, in place.
    fn rename_uses(&self, uses: &mut IndexMap<String, UsedType>)
        ensures { named use_content uses.new.entries ≡ with_values (renamed_use (memo_of self.now)) (named use_content uses.old.entries) }
    {
        uses.retain(|_, used| {
            used.interface = self.interface_or_same(used.interface);
            true
        });
    }

    // What a defined type says, in place.
    fn rename_defined(&self, ty: &mut DefinedType)
        ensures { defined_content ty.new ≡ renamed_defined (memo_of self.now) (defined_content ty.old) }
    {
        match ty {
            DefinedType::Tuple(items) => self.rename_values(items),
            DefinedType::List(item) => *item = self.renamed_value(*item),
            DefinedType::Map(key, value) => {
                *key = self.renamed_value(*key);
                *value = self.renamed_value(*value);
            }
            DefinedType::FixedSizeList(item, _) => *item = self.renamed_value(*item),
            DefinedType::Option(item) => *item = self.renamed_value(*item),
            DefinedType::Alias(of) => *of = self.renamed_value(*of),
            DefinedType::Result { ok, err } => {
                *ok = self.renamed_optional(*ok);
                *err = self.renamed_optional(*err);
            }
            DefinedType::Variant(variant) => self.rename_cases(&mut variant.cases),
            DefinedType::Record(record) => self.rename_fields(&mut record.fields),
            DefinedType::Flags(_) | DefinedType::Enum(_) => {}
            DefinedType::Stream(payload) => *payload = self.renamed_optional(*payload),
            DefinedType::Future(payload) => *payload = self.renamed_optional(*payload),
        }
    }

    /// A defined type, renamed.
    pub fn renamed_defined(&self, ty: &DefinedType) -> Result<DefinedType, AllocError>
        ensures { IfOk result (λ r. defined_content r ≡ renamed_defined (memo_of self.now) (defined_content ty.now)) }
    {
        let mut renamed = ty.clone()?;
        self.rename_defined(&mut renamed);
        Ok(renamed)
    }

    /// A resource, renamed.
    pub fn renamed_resource(&self, resource: &Resource) -> Result<Resource, AllocError>
        ensures { IfOk result (λ r. resource_content r ≡ renamed_resource (memo_of self.now) (resource_content resource.now)) }
    {
        Ok(Resource {
            name: resource.name.clone()?,
            alias: self.renamed_alias(resource.alias),
        })
    }

    // What a resource is another name of.
    fn renamed_alias(&self, alias: Option<ResourceAlias>) -> Option<ResourceAlias>
        ensures { option_map alias_content result ≡ option_map (renamed_alias (memo_of self.now)) (option_map alias_content alias) }
    {
        match alias {
            Some(alias) => Some(ResourceAlias {
                owner: self.renamed_owner(alias.owner),
                source: self.resource_or_same(alias.source),
            }),
            None => None,
        }
    }

    fn renamed_owner(&self, owner: Option<InterfaceId>) -> Option<InterfaceId>
        ensures { result ≡ option_map (λ o. renamed_id (memo_of self.now) (interface_key o)) owner }
    {
        match owner {
            Some(owner) => Some(self.interface_or_same(owner)),
            None => None,
        }
    }

    // Value types under names, renamed. Where there are none, nothing is cloned.
    fn renamed_fields(
        &self,
        fields: &IndexMap<String, ValueType>,
    ) -> Result<IndexMap<String, ValueType>, AllocError>
        ensures { IfOk result (λ r. named (λ t. t) r.entries ≡ with_values (renamed_value (memo_of self.now)) (named (λ t. t) fields.now.entries)) }
    {
        if fields.is_empty() {
            return Ok(IndexMap::new(self.alloc()));
        }
        let mut renamed = fields.clone()?;
        self.rename_fields(&mut renamed);
        Ok(renamed)
    }

    /// Items under names, renamed. Where there are none, nothing is cloned.
    pub fn renamed_items(
        &self,
        items: &IndexMap<String, ItemKind>,
    ) -> Result<IndexMap<String, ItemKind>, AllocError>
        ensures { IfOk result (λ r. named (λ k. k) r.entries ≡ with_values (renamed_item (memo_of self.now)) (named (λ k. k) items.now.entries)) }
    {
        if items.is_empty() {
            return Ok(IndexMap::new(self.alloc()));
        }
        let mut renamed = items.clone()?;
        self.rename_items(&mut renamed);
        Ok(renamed)
    }

    /// What is used, renamed. Where nothing is, nothing is cloned.
    pub fn renamed_uses(
        &self,
        uses: &IndexMap<String, UsedType>,
    ) -> Result<IndexMap<String, UsedType>, AllocError>
        ensures { IfOk result (λ r. named use_content r.entries ≡ with_values (renamed_use (memo_of self.now)) (named use_content uses.now.entries)) }
    {
        if uses.is_empty() {
            return Ok(IndexMap::new(self.alloc()));
        }
        let mut renamed = uses.clone()?;
        self.rename_uses(&mut renamed);
        Ok(renamed)
    }

    /// A function type, renamed.
    pub fn renamed_func(&self, func: &FuncType) -> Result<FuncType, AllocError>
        ensures { IfOk result (λ r. func_content r ≡ renamed_func (memo_of self.now) (func_content func.now)) }
    {
        Ok(FuncType {
            params: self.renamed_fields(&func.params)?,
            result: self.renamed_optional(func.result),
            is_async: func.is_async,
        })
    }

    /// An interface, renamed.
    pub fn renamed_interface(&self, interface: &Interface) -> Result<Interface, AllocError>
        ensures { IfOk result (λ r. interface_content r ≡ renamed_interface (memo_of self.now) (interface_content interface.now)) }
    {
        Ok(Interface {
            id: interface.id.clone()?,
            uses: self.renamed_uses(&interface.uses)?,
            exports: self.renamed_items(&interface.exports)?,
        })
    }

    /// A world, renamed.
    pub fn renamed_world(&self, world: &World) -> Result<World, AllocError>
        ensures { IfOk result (λ r. world_content r ≡ renamed_world (memo_of self.now) (world_content world.now)) }
    {
        Ok(World {
            id: world.id.clone()?,
            uses: self.renamed_uses(&world.uses)?,
            imports: self.renamed_items(&world.imports)?,
            exports: self.renamed_items(&world.exports)?,
        })
    }
}
