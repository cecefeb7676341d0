//! The new names that an `include` gives.

use super::adding::{add_func, add_resource};
use super::builder::Builder;
use indexmap::IndexMap;
use std::alloc::{AllocError, Global};
use wac_component::{
    DefinedType, DefinedTypeId, FuncType, FuncTypeId, ItemKind, Record, Resource, ResourceAlias,
    ResourceId, Type, ValueType, Variant,
};
use wac_wit_elaboration::{ImportSort, MadeWorld, Meaning};
use wac_wit_names::{Fault, joined};
use wac_wit_syntax::IncludeItem;

/// The new names that an `include` gives, and what stands in the place of the entries that they
/// change: a resource has its name in its entry.
pub(crate) struct Renaming {
    alloc: Global,
    names: IndexMap<String, String>,
    resources: IndexMap<ResourceId, ResourceId>,
    defined: IndexMap<DefinedTypeId, ValueType>,
    funcs: IndexMap<FuncTypeId, FuncTypeId>,
}

impl Drop for Renaming {
    fn drop(self) {
        let Renaming {
            alloc: _,
            names: _,
            resources: _,
            defined: _,
            funcs: _,
        } = self;
    }
}

impl Renaming {
    /// The new names that stand in an `include`: of two for one name the first.
    pub(crate) fn new(alloc: Global, item: &IncludeItem) -> Result<Renaming, AllocError> {
        let mut names = IndexMap::new(alloc);
        for rename in &item.renames {
            if let Some(alias) = &rename.alias
                && names.get(rename.name.name.as_str()).is_none()
            {
                names.insert(rename.name.name.clone()?, alias.name.clone()?)?;
            }
        }
        Ok(Renaming {
            alloc,
            names,
            resources: IndexMap::new(alloc),
            defined: IndexMap::new(alloc),
            funcs: IndexMap::new(alloc),
        })
    }

    /// The name that an import or export gets. A function of a resource has the resource's name in
    /// its own.
    pub(crate) fn name(&self, name: &str, sort: &ImportSort) -> Result<String, AllocError> {
        if !matches!(sort, ImportSort::Method) {
            return String::from_str(self.alloc, self.plain(name));
        }
        let Some((kind, of)) = name.split_once(']') else {
            return String::from_str(self.alloc, name);
        };
        match of.split_once('.') {
            Some((resource, function)) => {
                let named = joined(self.alloc, kind, "]", self.plain(resource))?;
                joined(self.alloc, &named, ".", function)
            }
            None => joined(self.alloc, kind, "]", self.plain(of)),
        }
    }

    // The new name of a name, or that name.
    fn plain<'n>(&'n self, name: &'n str) -> &'n str {
        match self.names.get(name) {
            Some(other) => other.as_str(),
            None => name,
        }
    }

    /// What a type stands for.
    pub(crate) fn meaning(&self, meaning: &Meaning) -> Meaning {
        match meaning {
            Meaning::Resource(id) => Meaning::Resource(self.resource(*id)),
            Meaning::Value(ty) => Meaning::Value(self.value(ty)),
        }
    }

    fn resource(&self, id: ResourceId) -> ResourceId {
        match self.resources.get(&id) {
            Some(other) => *other,
            None => id,
        }
    }

    fn alias(&self, alias: &Option<ResourceAlias>) -> Option<ResourceAlias> {
        match alias {
            Some(it) => Some(ResourceAlias {
                owner: it.owner,
                source: self.resource(it.source),
            }),
            None => None,
        }
    }

    fn value(&self, ty: &ValueType) -> ValueType {
        match ty {
            ValueType::Own(id) => ValueType::Own(self.resource(*id)),
            ValueType::Borrow(id) => ValueType::Borrow(self.resource(*id)),
            ValueType::Defined(id) => match self.defined.get(id) {
                Some(other) => *other,
                None => *ty,
            },
            ValueType::Primitive(_) => *ty,
        }
    }

    fn optional(&self, ty: &Option<ValueType>) -> Option<ValueType> {
        match ty {
            Some(ty) => Some(self.value(ty)),
            None => None,
        }
    }

    fn fields(
        &self,
        fields: &IndexMap<String, ValueType>,
    ) -> Result<IndexMap<String, ValueType>, AllocError> {
        let mut all = IndexMap::new(self.alloc);
        for (name, ty) in fields {
            all.insert(name.clone()?, self.value(ty))?;
        }
        Ok(all)
    }

    fn cases(&self, variant: &Variant) -> Result<Variant, AllocError> {
        let mut cases = IndexMap::new(self.alloc);
        for (name, ty) in &variant.cases {
            cases.insert(name.clone()?, self.optional(ty))?;
        }
        Ok(Variant { cases })
    }

    fn items(&self, items: &[ValueType]) -> Result<Vec<ValueType>, AllocError> {
        let mut all = Vec::new(self.alloc);
        for ty in items {
            all.push(self.value(ty))?;
        }
        Ok(all)
    }

    // The content of an entry with what stands in the place of its members.
    fn content(&self, ty: &DefinedType) -> Result<DefinedType, AllocError> {
        Ok(match ty {
            DefinedType::Tuple(items) => DefinedType::Tuple(self.items(items)?),
            DefinedType::List(of) => DefinedType::List(self.value(of)),
            DefinedType::FixedSizeList(of, size) => {
                DefinedType::FixedSizeList(self.value(of), *size)
            }
            DefinedType::Map(key, of) => DefinedType::Map(self.value(key), self.value(of)),
            DefinedType::Option(of) => DefinedType::Option(self.value(of)),
            DefinedType::Result { ok, err } => DefinedType::Result {
                ok: self.optional(ok),
                err: self.optional(err),
            },
            DefinedType::Variant(of) => DefinedType::Variant(self.cases(of)?),
            DefinedType::Record(of) => DefinedType::Record(Record {
                fields: self.fields(&of.fields)?,
            }),
            DefinedType::Alias(of) => DefinedType::Alias(self.value(of)),
            DefinedType::Stream(of) => DefinedType::Stream(self.optional(of)),
            DefinedType::Future(of) => DefinedType::Future(self.optional(of)),
            other => other.clone()?,
        })
    }

    // Whether any entry changes.
    fn changes_entries(&self) -> bool {
        !self.resources.is_empty()
    }
}

impl Builder<'_> {
    /// Makes the types of an included world that its new names change.
    pub(crate) fn rename_types(
        &mut self,
        renaming: &mut Renaming,
        world: &MadeWorld,
    ) -> Result<(), Fault> {
        for (name, named) in &world.names.types {
            if let Meaning::Resource(id) = named.meaning {
                self.rename_resource(renaming, name, id)?;
            }
        }
        for id in &world.defined {
            let ty = self.renamed_defined(renaming, *id)?;
            self.push_defined(&ty)?;
            if renaming.changes_entries() {
                renaming.defined.insert(*id, ty)?;
            }
        }
        Ok(())
    }

    // Keeps the entries for a world that includes this one.
    fn push_defined(&mut self, ty: &ValueType) -> Result<(), Fault> {
        if let ValueType::Defined(id) = ty {
            self.defined.push(*id)?;
        }
        Ok(())
    }

    // Makes a resource that has a new name, or is an alias of one that has.
    fn rename_resource(
        &mut self,
        renaming: &mut Renaming,
        name: &str,
        id: ResourceId,
    ) -> Result<(), Fault> {
        if !self.types.contains(Type::Resource(id)) {
            return Err(Fault::Missing);
        }
        let alias = self.types[id].alias;
        let new_name = renaming.name(name, &ImportSort::Type)?;
        let new_alias = renaming.alias(&alias);
        if new_name.as_str() == name && is_same_source(&alias, &new_alias) {
            return Ok(());
        }
        let resource = Resource {
            name: new_name,
            alias: new_alias,
        };
        let new = add_resource(self.types, resource)?;
        renaming.resources.insert(id, new)?;
        Ok(())
    }

    // The entry of a defined type with what stands in the place of its members.
    fn renamed_defined(
        &mut self,
        renaming: &Renaming,
        id: DefinedTypeId,
    ) -> Result<ValueType, Fault> {
        if !renaming.changes_entries() {
            return Ok(ValueType::Defined(id));
        }
        if !self.types.contains(Type::Value(ValueType::Defined(id))) {
            return Err(Fault::Missing);
        }
        let content = renaming.content(&self.types[id])?;
        let id = super::adding::add_defined(self.types, content)?;
        Ok(ValueType::Defined(id))
    }

    /// The entry of a function with what stands in the place of its types.
    pub(crate) fn renamed_func(
        &mut self,
        renaming: &mut Renaming,
        id: FuncTypeId,
    ) -> Result<FuncTypeId, Fault> {
        if !renaming.changes_entries() {
            return Ok(id);
        }
        if let Some(known) = renaming.funcs.get(&id) {
            return Ok(*known);
        }
        if !self.types.contains(Type::Func(id)) {
            return Err(Fault::Missing);
        }
        let of = &self.types[id];
        let func = FuncType {
            params: renaming.fields(&of.params)?,
            result: renaming.optional(&of.result),
            is_async: of.is_async,
        };
        let new = add_func(self.types, func)?;
        renaming.funcs.insert(id, new)?;
        Ok(new)
    }
}

// Whether two aliases lead to one resource, if there are two.
fn is_same_source(old: &Option<ResourceAlias>, new: &Option<ResourceAlias>) -> bool {
    match (old, new) {
        (Some(old), Some(new)) => old.source == new.source,
        _ => true,
    }
}
