//! What entries are made of, with copies of what they name in its place.

use indexmap::IndexMap;
use std::alloc::{AllocError, Global};
use wac_component::{
    DefinedType, FuncType, Interface, InterfaceId, ItemKind, Record, Resource, ResourceAlias,
    ResourceId, Type, UsedType, ValueType, Variant, World,
};

/// The copies of entries of another collection.
pub(crate) struct EntryCopies {
    all: IndexMap<Type, Type>,
}

impl Drop for EntryCopies {
    fn drop(self) {
        let EntryCopies { all: _ } = self;
    }
}

impl EntryCopies {
    /// None yet.
    pub(crate) fn new(alloc: Global) -> EntryCopies {
        EntryCopies {
            all: IndexMap::new(alloc),
        }
    }

    /// Notes the copy of an entry. A primitive type has none.
    pub(crate) fn note(&mut self, entry: Type, copy: Type) -> Result<(), AllocError> {
        if let Type::Value(ValueType::Primitive(_)) = entry {
            return Ok(());
        }
        self.all.insert(entry, copy)?;
        Ok(())
    }

    // The copy of an entry; itself, if it has none.
    fn copy_of(&self, entry: Type) -> Type {
        match self.all.get(&entry) {
            Some(copy) => *copy,
            None => entry,
        }
    }

    fn resource(&self, id: ResourceId) -> ResourceId {
        match self.copy_of(Type::Resource(id)) {
            Type::Resource(copy) => copy,
            _ => id,
        }
    }

    fn interface(&self, id: InterfaceId) -> InterfaceId {
        match self.copy_of(Type::Interface(id)) {
            Type::Interface(copy) => copy,
            _ => id,
        }
    }

    fn value(&self, ty: &ValueType) -> ValueType {
        match ty {
            ValueType::Own(id) => ValueType::Own(self.resource(*id)),
            ValueType::Borrow(id) => ValueType::Borrow(self.resource(*id)),
            ValueType::Defined(_) => match self.copy_of(Type::Value(*ty)) {
                Type::Value(copy) => copy,
                _ => *ty,
            },
            ValueType::Primitive(_) => *ty,
        }
    }

    fn optional(&self, ty: &Option<ValueType>) -> Option<ValueType> {
        match ty {
            Some(ty) => Some(self.value(ty)),
            None => None,
        }
    }

    fn item(&self, item: &ItemKind) -> ItemKind {
        match item {
            ItemKind::Type(Type::Value(ty)) => ItemKind::Type(Type::Value(self.value(ty))),
            ItemKind::Type(ty) => ItemKind::Type(self.copy_of(*ty)),
            ItemKind::Instance(id) => ItemKind::Instance(self.interface(*id)),
            ItemKind::Value(ty) => ItemKind::Value(self.value(ty)),
            ItemKind::Func(id) => match self.copy_of(Type::Func(*id)) {
                Type::Func(copy) => ItemKind::Func(copy),
                _ => *item,
            },
            ItemKind::Component(id) => match self.copy_of(Type::World(*id)) {
                Type::World(copy) => ItemKind::Component(copy),
                _ => *item,
            },
            ItemKind::Module(_) => *item,
        }
    }

    fn turn_items(&self, items: &mut IndexMap<String, ItemKind>) {
        for item in items.values_mut() {
            *item = self.item(item);
        }
    }

    fn turn_uses(&self, uses: &mut IndexMap<String, UsedType>) {
        for used in uses.values_mut() {
            used.interface = self.interface(used.interface);
        }
    }

    /// A definition, with copies in the place of what it names.
    pub(crate) fn defined(&self, ty: &DefinedType) -> Result<DefinedType, AllocError> {
        match ty {
            DefinedType::Tuple(items) => self.tuple(items),
            DefinedType::List(of) => Ok(DefinedType::List(self.value(of))),
            DefinedType::FixedSizeList(of, size) => {
                Ok(DefinedType::FixedSizeList(self.value(of), *size))
            }
            DefinedType::Map(key, of) => Ok(DefinedType::Map(self.value(key), self.value(of))),
            DefinedType::Option(of) => Ok(DefinedType::Option(self.value(of))),
            DefinedType::Result { ok, err } => Ok(DefinedType::Result {
                ok: self.optional(ok),
                err: self.optional(err),
            }),
            DefinedType::Variant(of) => self.variant(of),
            DefinedType::Record(of) => self.record(of),
            DefinedType::Flags(_) | DefinedType::Enum(_) => ty.clone(),
            DefinedType::Alias(of) => Ok(DefinedType::Alias(self.value(of))),
            DefinedType::Stream(of) => Ok(DefinedType::Stream(self.optional(of))),
            DefinedType::Future(of) => Ok(DefinedType::Future(self.optional(of))),
        }
    }

    fn tuple(&self, items: &Vec<ValueType>) -> Result<DefinedType, AllocError> {
        let mut copy = items.clone()?;
        for ty in &mut copy {
            *ty = self.value(ty);
        }
        Ok(DefinedType::Tuple(copy))
    }

    fn variant(&self, of: &Variant) -> Result<DefinedType, AllocError> {
        let mut copy = of.clone()?;
        for ty in copy.cases.values_mut() {
            *ty = self.optional(ty);
        }
        Ok(DefinedType::Variant(copy))
    }

    fn record(&self, of: &Record) -> Result<DefinedType, AllocError> {
        let mut copy = of.clone()?;
        for ty in copy.fields.values_mut() {
            *ty = self.value(ty);
        }
        Ok(DefinedType::Record(copy))
    }

    /// A resource, with copies in the place of what it names.
    pub(crate) fn resource_of(&self, of: &Resource) -> Result<Resource, AllocError> {
        let mut copy = of.clone()?;
        if let Some(alias) = &mut copy.alias {
            self.turn_alias(alias);
        }
        Ok(copy)
    }

    fn turn_alias(&self, alias: &mut ResourceAlias) {
        alias.source = self.resource(alias.source);
        if let Some(owner) = &mut alias.owner {
            *owner = self.interface(*owner);
        }
    }

    /// A function type, with copies in the place of what it names.
    pub(crate) fn func(&self, of: &FuncType) -> Result<FuncType, AllocError> {
        let mut copy = of.clone()?;
        for ty in copy.params.values_mut() {
            *ty = self.value(ty);
        }
        copy.result = self.optional(&copy.result);
        Ok(copy)
    }

    /// An interface, with copies in the place of what it names.
    pub(crate) fn interface_of(&self, of: &Interface) -> Result<Interface, AllocError> {
        let mut copy = of.clone()?;
        self.turn_uses(&mut copy.uses);
        self.turn_items(&mut copy.exports);
        Ok(copy)
    }

    /// A world, with copies in the place of what it names.
    pub(crate) fn world_of(&self, of: &World) -> Result<World, AllocError> {
        let mut copy = of.clone()?;
        self.turn_uses(&mut copy.uses);
        self.turn_items(&mut copy.imports);
        self.turn_items(&mut copy.exports);
        Ok(copy)
    }
}
