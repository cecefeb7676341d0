//! The entries that an entry names.

use indexmap::IndexMap;
use std::alloc::{AllocError, Global};
use wac_component::{
    DefinedType, FuncType, Interface, ItemKind, Resource, ResourceAlias, Type, Types, UsedType,
    ValueType, World,
};

/// Entries that another names. Primitive types are none.
pub(crate) struct EntryMembers {
    pub(crate) all: Vec<Type>,
}

impl Drop for EntryMembers {
    fn drop(self) {
        let EntryMembers { all: _ } = self;
    }
}

impl EntryMembers {
    /// Those that an entry names.
    pub(crate) fn of(
        alloc: Global,
        types: &Types,
        entry: &Type,
    ) -> Result<EntryMembers, AllocError> {
        let mut members = EntryMembers {
            all: Vec::new(alloc),
        };
        members.add_content(types, entry)?;
        Ok(members)
    }

    fn add(&mut self, entry: Type) -> Result<(), AllocError> {
        add_entry(&mut self.all, entry)
    }

    fn add_content(&mut self, types: &Types, entry: &Type) -> Result<(), AllocError> {
        if !types.contains(*entry) {
            return Ok(());
        }
        match entry {
            Type::Value(ValueType::Defined(id)) => self.add_defined(&types[*id]),
            Type::Value(ty) => self.add_value(ty),
            Type::Resource(id) => self.add_resource(&types[*id]),
            Type::Func(id) => self.add_func(&types[*id]),
            Type::Interface(id) => self.add_interface(&types[*id]),
            Type::World(id) => self.add_world(&types[*id]),
            // the reader makes no core modules
            Type::Module(_) => Ok(()),
        }
    }

    fn add_defined(&mut self, ty: &DefinedType) -> Result<(), AllocError> {
        match ty {
            DefinedType::Tuple(items) => self.add_values(items),
            DefinedType::List(of)
            | DefinedType::FixedSizeList(of, _)
            | DefinedType::Option(of)
            | DefinedType::Alias(of) => self.add_value(of),
            DefinedType::Map(key, value) => {
                self.add_value(key)?;
                self.add_value(value)
            }
            DefinedType::Result { ok, err } => {
                self.add_optional(ok)?;
                self.add_optional(err)
            }
            DefinedType::Variant(of) => self.add_cases(&of.cases),
            DefinedType::Record(of) => self.add_fields(&of.fields),
            DefinedType::Stream(of) | DefinedType::Future(of) => self.add_optional(of),
            DefinedType::Flags(_) | DefinedType::Enum(_) => Ok(()),
        }
    }

    fn add_resource(&mut self, resource: &Resource) -> Result<(), AllocError> {
        match &resource.alias {
            Some(alias) => self.add_alias(alias),
            None => Ok(()),
        }
    }

    fn add_alias(&mut self, alias: &ResourceAlias) -> Result<(), AllocError> {
        self.add(Type::Resource(alias.source))?;
        match alias.owner {
            Some(owner) => self.add(Type::Interface(owner)),
            None => Ok(()),
        }
    }

    fn add_func(&mut self, func: &FuncType) -> Result<(), AllocError> {
        self.add_fields(&func.params)?;
        self.add_optional(&func.result)
    }

    fn add_interface(&mut self, of: &Interface) -> Result<(), AllocError> {
        self.add_uses(&of.uses)?;
        self.add_items(&of.exports)
    }

    fn add_world(&mut self, of: &World) -> Result<(), AllocError> {
        self.add_uses(&of.uses)?;
        self.add_items(&of.imports)?;
        self.add_items(&of.exports)
    }

    fn add_value(&mut self, ty: &ValueType) -> Result<(), AllocError> {
        match ty {
            ValueType::Own(id) | ValueType::Borrow(id) => self.add(Type::Resource(*id)),
            ValueType::Primitive(_) | ValueType::Defined(_) => self.add(Type::Value(*ty)),
        }
    }

    fn add_optional(&mut self, ty: &Option<ValueType>) -> Result<(), AllocError> {
        match ty {
            Some(ty) => self.add_value(ty),
            None => Ok(()),
        }
    }

    fn add_values(&mut self, values: &[ValueType]) -> Result<(), AllocError> {
        for ty in values {
            self.add_value(ty)?;
        }
        Ok(())
    }

    fn add_fields(&mut self, fields: &IndexMap<String, ValueType>) -> Result<(), AllocError> {
        for ty in fields.values() {
            self.add_value(ty)?;
        }
        Ok(())
    }

    fn add_cases(&mut self, cases: &IndexMap<String, Option<ValueType>>) -> Result<(), AllocError> {
        for ty in cases.values() {
            self.add_optional(ty)?;
        }
        Ok(())
    }

    fn add_uses(&mut self, uses: &IndexMap<String, UsedType>) -> Result<(), AllocError> {
        for used in uses.values() {
            self.add(Type::Interface(used.interface))?;
        }
        Ok(())
    }

    fn add_items(&mut self, items: &IndexMap<String, ItemKind>) -> Result<(), AllocError> {
        for item in items.values() {
            self.add_item(item)?;
        }
        Ok(())
    }

    fn add_item(&mut self, item: &ItemKind) -> Result<(), AllocError> {
        match item {
            ItemKind::Type(Type::Value(ty)) | ItemKind::Value(ty) => self.add_value(ty),
            ItemKind::Type(ty) => self.add(*ty),
            ItemKind::Func(id) => self.add(Type::Func(*id)),
            ItemKind::Instance(id) => self.add(Type::Interface(*id)),
            ItemKind::Component(id) => self.add(Type::World(*id)),
            ItemKind::Module(id) => self.add(Type::Module(*id)),
        }
    }
}

/// Puts an entry last. A primitive type is none.
pub(crate) fn add_entry(entries: &mut Vec<Type>, entry: Type) -> Result<(), AllocError> {
    if let Type::Value(ValueType::Primitive(_)) = entry {
        return Ok(());
    }
    entries.push(entry)?;
    Ok(())
}
