//! Types of other interfaces.

use super::adding::add_resource;
use super::builder::Builder;
use std::alloc::AllocError;
use wac_component::{InterfaceId, Resource, ResourceAlias, ResourceId, Type};
use wac_wit_elaboration::{MadeInterface, Meaning, NamedType, TypeNames};
use wac_wit_names::{Fault, Nearest, Reason};
use wac_wit_syntax::{Ident, Rename, UseItem};

impl<'b> Builder<'b> {
    /// Takes in the types that are used.
    fn add_use(&mut self, item: &UseItem) -> Result<(), Fault> {
        if !self.is_there(&item.gates) {
            return self.hide_used(item);
        }
        match self.used_interface(item) {
            Ok((node, from)) => self.add_all_used(node, from, item),
            Err(fault) => {
                self.break_used(item)?;
                Err(fault)
            }
        }
    }

    /// Takes in the types that are used, or notes why they are refused.
    pub(crate) fn add_noted_use(&mut self, item: &UseItem) -> Result<(), Fault> {
        let done = self.add_use(item);
        self.refusals.go_on(done)?;
        Ok(())
    }

    // Notes names that are there with a feature alone that is off.
    fn hide_used(&mut self, item: &UseItem) -> Result<(), Fault> {
        for rename in &item.names {
            self.names.hidden.insert(local_name(rename).name.clone()?)?;
        }
        Ok(())
    }

    // Notes names that are refused.
    fn break_used(&mut self, item: &UseItem) -> Result<(), Fault> {
        for rename in &item.names {
            self.note_broken(local_name(rename))?;
        }
        Ok(())
    }

    // The interface whose types are used.
    fn used_interface(&self, item: &UseItem) -> Result<(usize, &'b MadeInterface), Fault> {
        let node = self
            .site
            .catalog
            .find_interface(self.site.scope, &item.path)?;
        match self.site.known.interface(node.index) {
            Some(from) => Ok((node.index, from)),
            // it was refused
            None => Err(Fault::Known),
        }
    }

    // Takes in types of an interface.
    fn add_all_used(
        &mut self,
        node: usize,
        from: &MadeInterface,
        item: &UseItem,
    ) -> Result<(), Fault> {
        if !item.names.is_empty() {
            self.needs.push(node)?;
        }
        for rename in &item.names {
            let done = self.add_used(node, from, rename);
            if !self.refusals.go_on(done)? {
                self.note_broken(local_name(rename))?;
            }
        }
        Ok(())
    }

    // Takes in one type of an interface.
    fn add_used(
        &mut self,
        node: usize,
        from: &MadeInterface,
        rename: &Rename,
    ) -> Result<(), Fault> {
        let name = local_name(rename);
        self.take_name(&name.name, name.span)?;
        let Some(named) = from.names.types.get(rename.name.name.as_str()) else {
            return Err(self.refuse_used(node, from, &rename.name));
        };
        let owner = Some(owner_of(named, from));
        let other = self.another_name(&name.name, named, &owner, Some(node))?;
        self.put_type(&name.name, other)
    }

    // Refuses a name that isn't a type of an interface.
    fn refuse_used(&self, node: usize, from: &MadeInterface, name: &Ident) -> Fault {
        if from.names.broken.contains(name.name.as_str()) {
            return Fault::Known;
        }
        match self.site.catalog.node(node) {
            Ok(of) => {
                let message = self.used_message(&of.id, &from.names, &name.name);
                let is_hidden = from.names.hidden.contains(name.name.as_str());
                Fault::at(self.site.node.file, name.span, message).because(used_reason(is_hidden))
            }
            Err(fault) => fault,
        }
    }

    fn used_message(&self, id: &str, names: &TypeNames, name: &str) -> Result<String, AllocError> {
        if names.hidden.contains(name) {
            return format!(in self.alloc;
                "`{name}` of the interface `{id}` is there with a feature alone that is off"
            );
        }
        let mut message = format!(in self.alloc; "the interface `{id}` has no type `{name}`")?;
        let mut nearest = Nearest::to(self.alloc, name);
        for other in names.types.keys() {
            nearest.offer(other)?;
        }
        nearest.push_hint(&mut message)?;
        Ok(message)
    }

    /// Another name of a type: a resource that is an alias, or the same value type. It comes from
    /// where that comes from.
    pub(crate) fn another_name(
        &mut self,
        name: &str,
        of: &NamedType,
        owner: &Option<InterfaceId>,
        from: Option<usize>,
    ) -> Result<NamedType, Fault> {
        let meaning = match &of.meaning {
            Meaning::Resource(id) => Meaning::Resource(self.alias_of(name, id, owner)?),
            Meaning::Value(ty) => Meaning::Value(*ty),
        };
        Ok(NamedType {
            meaning,
            owner: *owner,
            root: of.root.clone()?,
            from,
        })
    }

    fn alias_of(
        &mut self,
        name: &str,
        id: &ResourceId,
        owner: &Option<InterfaceId>,
    ) -> Result<ResourceId, Fault> {
        if !self.types.contains(Type::Resource(*id)) {
            return Err(Fault::Missing);
        }
        let alias = Some(ResourceAlias {
            owner: *owner,
            source: self.types.resolve_resource(*id),
        });
        let name = String::from_str(self.alloc, name)?;
        add_resource(self.types, Resource { name, alias })
    }
}

// Why a name isn't a type of an interface.
fn used_reason(is_hidden: bool) -> Reason {
    if is_hidden {
        return Reason::HiddenUsed;
    }
    Reason::UnknownUsed
}

// The interface that defines a type of another.
fn owner_of(named: &NamedType, from: &MadeInterface) -> InterfaceId {
    match &named.owner {
        Some(owner) => *owner,
        None => from.id,
    }
}

// The name that a used type gets.
fn local_name(rename: &Rename) -> &Ident {
    match &rename.alias {
        Some(alias) => alias,
        None => &rename.name,
    }
}
