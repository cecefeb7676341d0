//! Writes interfaces and worlds, and what a package begins with.

use super::methods::Methods;
use super::printer::{Printer, TypeScope};
use indexmap::IndexMap;
use std::alloc::AllocError;
use std::mem;
use wac_component::{Interface, InterfaceId, ItemKind, Type, UsedType, ValueType, World, WorldId};
use wac_wit_entries::{interface, world};

impl<'t> Printer<'t> {
    /// Begins a package.
    pub fn open_package(
        &mut self,
        name: &'t str,
        version: Option<&'t str>,
        is_nested: bool,
    ) -> Result<(), AllocError> {
        self.home = (name, version);
        self.put("package ")?;
        match name.split_once(':') {
            Some((namespace, name)) => {
                self.put_name(namespace)?;
                self.put(":")?;
                self.put_name(name)?;
            }
            None => self.put_name(name)?,
        }
        if let Some(version) = version {
            write!(self.text, "@{version}")?;
        }
        if is_nested {
            self.open()
        } else {
            self.put(";\n")
        }
    }

    /// Writes an interface under its name.
    pub fn put_interface(&mut self, name: &str, id: InterfaceId) -> Result<(), AllocError> {
        self.begin()?;
        self.put("interface ")?;
        self.put_name(name)?;
        self.put_members(id)
    }

    // Writes what an interface uses and exports, in braces.
    fn put_members(&mut self, id: InterfaceId) -> Result<(), AllocError> {
        let Some(of) = interface(self.types, id) else {
            return self.put(" {}\n");
        };
        let outer = mem::replace(&mut self.scope, TypeScope::new(self.alloc));
        let written = self.put_exports(of);
        self.scope = outer;
        written
    }

    fn put_exports(&mut self, of: &Interface) -> Result<(), AllocError> {
        self.open()?;
        self.put_types(&of.exports, &of.uses)?;
        for (name, item) in &of.exports {
            if let ItemKind::Func(func) = item
                && !name.starts_with('[')
            {
                self.begin()?;
                self.put_func(name, *func)?;
            }
        }
        self.close()
    }

    /// Writes the types among items: those that are used, and then the others.
    pub fn put_types(
        &mut self,
        items: &IndexMap<String, ItemKind>,
        uses: &IndexMap<String, UsedType>,
    ) -> Result<(), AllocError> {
        let mut open: Option<InterfaceId> = None;
        for (name, item) in items {
            if let (ItemKind::Type(ty), Some(used)) = (item, uses.get(name.as_str())) {
                self.put_used(&mut open, name, used)?;
                self.note(name, ty)?;
            }
        }
        if open.is_some() {
            self.put("};\n")?;
        }
        let methods = Methods::among(self.alloc, items)?;
        for (name, item) in items {
            if let ItemKind::Type(ty) = item
                && uses.get(name.as_str()).is_none()
            {
                self.put_definition(name, ty, &methods)?;
            }
        }
        Ok(())
    }

    // Writes a used type, behind those of the same interface that came right before it.
    fn put_used(
        &mut self,
        open: &mut Option<InterfaceId>,
        name: &str,
        used: &UsedType,
    ) -> Result<(), AllocError> {
        if *open == Some(used.interface) {
            self.put(", ")?;
        } else {
            if open.is_some() {
                self.put("};\n")?;
            }
            self.begin()?;
            self.put("use ")?;
            let from = self.interface_name(used.interface)?;
            self.put_path(&from)?;
            self.put(".{")?;
            *open = Some(used.interface);
        }
        match &used.name {
            Some(root) => {
                self.put_name(root)?;
                self.put(" as ")?;
                self.put_name(name)
            }
            None => self.put_name(name),
        }
    }

    // Notes the name of a type.
    fn note(&mut self, name: &str, ty: &Type) -> Result<(), AllocError> {
        match ty {
            Type::Resource(id) => self.note_resource(name, *id),
            Type::Value(ValueType::Defined(id)) => self.note_type(name, *id),
            _ => Ok(()),
        }
    }

    /// Writes a world under its name.
    pub fn put_world(&mut self, name: &str, id: WorldId) -> Result<(), AllocError> {
        self.begin()?;
        self.put("world ")?;
        self.put_name(name)?;
        self.scope = TypeScope::new(self.alloc);
        self.open()?;
        if let Some(of) = world(self.types, id) {
            self.put_externs(of)?;
        }
        self.close()
    }

    fn put_externs(&mut self, of: &World) -> Result<(), AllocError> {
        self.put_types(&of.imports, &of.uses)?;
        for (name, item) in &of.imports {
            self.put_extern("import ", name, item)?;
        }
        for (name, item) in &of.exports {
            self.put_extern("export ", name, item)?;
        }
        Ok(())
    }

    /// Writes an import or an export; a type has its definition elsewhere.
    pub fn put_extern(
        &mut self,
        word: &str,
        name: &str,
        item: &ItemKind,
    ) -> Result<(), AllocError> {
        match item {
            ItemKind::Func(_) if name.starts_with('[') => Ok(()),
            ItemKind::Func(id) => {
                self.begin()?;
                self.put(word)?;
                self.put_func(name, *id)
            }
            ItemKind::Instance(id) => {
                self.begin()?;
                self.put(word)?;
                self.put_instance(name, *id)
            }
            _ => Ok(()),
        }
    }

    fn put_instance(&mut self, name: &str, id: InterfaceId) -> Result<(), AllocError> {
        let known = self.interface_name(id)?;
        if known.as_str() == name {
            self.put_path(name)?;
            return self.put(";\n");
        }
        self.put_name(name)?;
        self.put(": interface")?;
        self.put_members(id)
    }
}
