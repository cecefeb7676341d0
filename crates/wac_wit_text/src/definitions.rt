//! Writes types with names, and functions.

use super::methods::{Method, Methods};
use super::printer::{DEPTH, Printer};
use indexmap::{IndexMap, IndexSet};
use std::alloc::AllocError;
use wac_component::{
    DefinedType, DefinedTypeId, FuncType, FuncTypeId, ResourceId, Type, ValueType,
};
use wac_wit_entries::{defined_type, func_type, root_of};

impl Printer<'_> {
    /// Writes the definition of a type. The functions of a resource are among these.
    pub(crate) fn put_definition(
        &mut self,
        name: &str,
        ty: &Type,
        methods: &Methods<'_>,
    ) -> Result<(), AllocError> {
        match ty {
            Type::Resource(id) => self.put_resource_definition(name, *id, methods),
            Type::Value(ValueType::Defined(id)) => self.put_defined(name, *id),
            Type::Value(of) => self.put_alias(name, *of),
            Type::Func(_) | Type::Interface(_) | Type::World(_) | Type::Module(_) => Ok(()),
        }
    }

    // Writes another name of a primitive type or of a handle. A resource's name alone would be
    // another name of the resource.
    fn put_alias(&mut self, name: &str, ty: ValueType) -> Result<(), AllocError> {
        self.begin()?;
        self.put("type ")?;
        self.put_name(name)?;
        self.put(" = ")?;
        match ty {
            ValueType::Own(id) => {
                self.put("own<")?;
                self.put_resource(id)?;
                self.put(">")?;
            }
            ty => self.put_type(ty, DEPTH)?,
        }
        self.put(";\n")
    }

    // Writes the definition of a type that may have a name already.
    fn put_defined(&mut self, name: &str, id: DefinedTypeId) -> Result<(), AllocError> {
        if self.scope.types.get(&id).is_some() {
            return self.put_alias(name, ValueType::Defined(id));
        }
        match defined_type(self.types, id) {
            Some(DefinedType::Record(of)) => self.put_record(name, &of.fields)?,
            Some(DefinedType::Variant(of)) => self.put_variant(name, &of.cases)?,
            Some(DefinedType::Flags(of)) => self.put_names("flags ", name, &of.0)?,
            Some(DefinedType::Enum(of)) => self.put_names("enum ", name, &of.0)?,
            _ => {
                self.begin()?;
                self.put("type ")?;
                self.put_name(name)?;
                self.put(" = ")?;
                self.put_content(id, DEPTH)?;
                self.put(";\n")?;
            }
        }
        self.note_type(name, id)
    }

    /// Notes the name of a type, if that is its first.
    pub(crate) fn note_type(&mut self, name: &str, id: DefinedTypeId) -> Result<(), AllocError> {
        if self.scope.types.get(&id).is_none() {
            let name = String::from_str(self.alloc, name)?;
            self.scope.types.insert(id, name)?;
        }
        Ok(())
    }

    /// Notes the name of a resource, if that is its first.
    pub(crate) fn note_resource(&mut self, name: &str, id: ResourceId) -> Result<(), AllocError> {
        if self.scope.resources.get(&id).is_none() {
            let name = String::from_str(self.alloc, name)?;
            self.scope.resources.insert(id, name)?;
        }
        Ok(())
    }

    // Begins what stands in braces under a name.
    fn open_named(&mut self, word: &str, name: &str) -> Result<(), AllocError> {
        self.begin()?;
        self.put(word)?;
        self.put_name(name)?;
        self.open()
    }

    fn put_record(
        &mut self,
        name: &str,
        fields: &IndexMap<String, ValueType>,
    ) -> Result<(), AllocError> {
        self.open_named("record ", name)?;
        for (field, ty) in fields {
            self.begin()?;
            self.put_name(field)?;
            self.put(": ")?;
            self.put_type(*ty, DEPTH)?;
            self.put(",\n")?;
        }
        self.close()
    }

    fn put_variant(
        &mut self,
        name: &str,
        cases: &IndexMap<String, Option<ValueType>>,
    ) -> Result<(), AllocError> {
        self.open_named("variant ", name)?;
        for (case, ty) in cases {
            self.begin()?;
            self.put_name(case)?;
            if let Some(ty) = ty {
                self.put("(")?;
                self.put_type(*ty, DEPTH)?;
                self.put(")")?;
            }
            self.put(",\n")?;
        }
        self.close()
    }

    fn put_names(
        &mut self,
        word: &str,
        name: &str,
        names: &IndexSet<String>,
    ) -> Result<(), AllocError> {
        self.open_named(word, name)?;
        for of in names {
            self.begin()?;
            self.put_name(of)?;
            self.put(",\n")?;
        }
        self.close()
    }

    // Writes a resource with its functions, or another name of a resource that has a name here.
    fn put_resource_definition(
        &mut self,
        name: &str,
        id: ResourceId,
        methods: &Methods<'_>,
    ) -> Result<(), AllocError> {
        let source = root_of(self.types, id);
        if source != id && self.scope.resources.get(&source).is_some() {
            self.put_other_name(name, source)?;
            return self.note_resource(name, id);
        }
        self.note_resource(name, id)?;
        if let Some(places) = methods.of(name) {
            return self.put_methods(name, id, methods, places);
        }
        self.begin()?;
        self.put("resource ")?;
        self.put_name(name)?;
        self.put(";\n")
    }

    // Writes another name of a resource that has a name here.
    fn put_other_name(&mut self, name: &str, source: ResourceId) -> Result<(), AllocError> {
        self.begin()?;
        self.put("type ")?;
        self.put_name(name)?;
        self.put(" = ")?;
        self.put_resource(source)?;
        self.put(";\n")
    }

    // Writes a resource with its functions.
    fn put_methods(
        &mut self,
        name: &str,
        id: ResourceId,
        methods: &Methods<'_>,
        places: &[usize],
    ) -> Result<(), AllocError> {
        self.open_named("resource ", name)?;
        for place in places {
            if let Some(method) = methods.at(*place) {
                self.put_method(id, &method)?;
            }
        }
        self.close()
    }

    // Writes a function of a resource.
    fn put_method(&mut self, id: ResourceId, method: &Method<'_>) -> Result<(), AllocError> {
        let Some(of) = func_type(self.types, method.func) else {
            return Ok(());
        };
        self.begin()?;
        match method.kind {
            "constructor" => self.put_constructor(id, of),
            "static" => {
                self.put_name(method.name)?;
                self.put(": static ")?;
                self.put_signature(of, 0)
            }
            _ => {
                self.put_name(method.name)?;
                self.put(": ")?;
                self.put_signature(of, 1)
            }
        }
    }

    fn put_constructor(&mut self, id: ResourceId, of: &FuncType) -> Result<(), AllocError> {
        self.put("constructor")?;
        self.put_params(of, 0)?;
        if of.result == Some(ValueType::Own(id)) {
            return self.put(";\n");
        }
        self.put_returned(of)
    }

    /// Writes a function under its name.
    pub(crate) fn put_func(&mut self, name: &str, id: FuncTypeId) -> Result<(), AllocError> {
        self.put_name(name)?;
        self.put(": ")?;
        match func_type(self.types, id) {
            Some(of) => self.put_signature(of, 0),
            None => self.put(";\n"),
        }
    }

    // Writes a function type, without its first parameters, and ends the line.
    fn put_signature(&mut self, of: &FuncType, without: usize) -> Result<(), AllocError> {
        self.put(if of.is_async { "async func" } else { "func" })?;
        self.put_params(of, without)?;
        self.put_returned(of)
    }

    fn put_params(&mut self, of: &FuncType, without: usize) -> Result<(), AllocError> {
        let mut is_first = true;
        self.put("(")?;
        for (name, ty) in of.params.iter().skip(without) {
            if !is_first {
                self.put(", ")?;
            }
            self.put_name(name)?;
            self.put(": ")?;
            self.put_type(*ty, DEPTH)?;
            is_first = false;
        }
        self.put(")")
    }

    // Writes the result of a function, and ends the line.
    fn put_returned(&mut self, of: &FuncType) -> Result<(), AllocError> {
        if let Some(ty) = of.result {
            self.put(" -> ")?;
            self.put_type(ty, DEPTH)?;
        }
        self.put(";\n")
    }
}
