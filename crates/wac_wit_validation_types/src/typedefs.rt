//! Types with names.

ghost use Rattle.std.specs.Prelude.{◌≡◌, List, map, is_some, IsTrue, Some, string_bytes};
ghost use Rattle.std.specs.Option.{option_map};
ghost use Rattle.wac_component.specs.Content.{defined_content, names, types_of, case_types, named};
ghost use Rattle.wac_component.specs.Tree.{value_tree, content_tree, root_name};
ghost use Rattle.wac_wit_validation_types.specs.Denoted.{AreCasesOf, AreFieldsOf, IsDefined, IsValue, Setting, field_names, renamed_by, resource_type, value_type};
ghost use Rattle.wac_wit_validation_types.specs.Functions.{IsReturned};
ghost use Rattle.wac_wit_validation_types.specs.Reading.{IsTypeDefined, IsTypeNamed, Renames, StandForTypes, type_meaning};
ghost use Rattle.wac_wit_syntax.specs.declared.tree.Rename.{Rename as RenameOf};
ghost use Rattle.wac_wit_scopes.specs.WitSources.{ident_text};
ghost use Rattle.wac_wit_syntax.specs.declared.tree.TypeDef.TheVariants as def;
ghost use Rattle.wac_wit_syntax.specs.declared.tree.TypeItem.{TypeItem};

use super::names::NamedTypes;
use indexmap::IndexSet;
use indexmap::map::Slice;
use wac_component::{DefinedType, ResourceId, Type, Types, ValueType};
use wac_wit_syntax::{Case, Field, Ident, TypeDef, TypeExpr, TypeItem};

impl<'n> NamedTypes<'n> {
    /// Whether a type is the one that is defined.
    pub(crate) fn is_defined(&self, item: &TypeItem, of: &Type) -> bool
        ensures { IsTrue result → (s : Setting) → Renames self.now s.renames → StandForTypes self.now s → IsTypeDefined s item.now self.now.types.now of.now }
    {
        match &item.def {
            TypeDef::Alias(ty) => self.is_alias(ty, of),
            TypeDef::Resource(_) => self.is_resource(&item.name, of),
            _ => self.is_compound(item, of),
        }
    }

    // Whether a type is another name of what is written.
    fn is_alias(&self, ty: &TypeExpr, of: &Type) -> bool
        ensures { IsTrue result → (s : Setting) → StandForTypes self.now s → (t : TypeItem) → t.def ≡ def.Alias ty.now → IsTypeDefined s t self.now.types.now of.now }
    {
        match ty {
            TypeExpr::Name(name) => self.is_another_name(name, of),
            _ => match of {
                Type::Value(of) => self.is_value_or_alias(ty, of),
                _ => false,
            },
        }
    }

    // Whether a type is the one that a name stands for.
    fn is_another_name(&self, name: &Ident, of: &Type) -> bool
        ensures { IsTrue result → (s : Setting) → StandForTypes self.now s → IsTypeNamed s (ident_text name.now) self.now.types.now of.now }
    {
        match self.named(name) {
            Some(ty) => is_same_type(self.types, ty, of),
            None => false,
        }
    }

    // Whether a value type is the one that is written, or an alias of it.
    fn is_value_or_alias(&self, ty: &TypeExpr, of: &ValueType) -> bool
        ensures { IsTrue result → (s : Setting) → StandForTypes self.now s → IsValue s ty.now (value_tree self.now.types.now of.now) }
    {
        match self.defined(of) {
            Some(DefinedType::Alias(of)) => self.is_value(ty, of),
            _ => self.is_value(ty, of),
        }
    }

    // Whether a type is a resource that is no alias, and has what this name becomes.
    fn is_resource(&self, name: &Ident, of: &Type) -> bool
        ensures { IsTrue result → (rss : List (List RenameOf)) → Renames self.now rss → type_meaning self.now.types.now of.now ≡ Some (resource_type (renamed_by rss (ident_text name.now))) }
    {
        match of {
            Type::Resource(id) => match self.new_name(name) {
                Some(name) => self.is_own_resource(name, id),
                None => false,
            },
            _ => false,
        }
    }

    /// Whether a resource is no alias, and has this name.
    pub fn is_own_resource(&self, name: &Ident, id: &ResourceId) -> bool
        ensures { IsTrue result → root_name self.now.types.now id.now ≡ ident_text name.now }
    {
        if !self.types.contains(Type::Resource(*id)) {
            return false;
        }
        let resource = &self.types[*id];
        resource.alias.is_none() && is_spelled(name, &resource.name)
    }

    // Whether a type is a defined type that says what is defined.
    fn is_compound(&self, item: &TypeItem, of: &Type) -> bool
        ensures { IsTrue result → (s : Setting) → StandForTypes self.now s → IsTypeDefined s item.now self.now.types.now of.now }
    {
        let Type::Value(of) = of else {
            return false;
        };
        match self.defined(of) {
            Some(of) => self.is_content(item, of),
            None => false,
        }
    }

    fn is_content(&self, item: &TypeItem, of: &DefinedType) -> bool
        ensures { IsTrue result → (s : Setting) → StandForTypes self.now s → IsDefined s item.now (value_type (content_tree (value_tree self.now.types.now) (defined_content of.now))) }
    {
        match (&item.def, of) {
            (TypeDef::Record(fields), DefinedType::Record(of)) => {
                self.are_fields(fields, of.fields.as_slice())
            }
            (TypeDef::Variant(cases), DefinedType::Variant(of)) => {
                self.are_cases(cases, of.cases.as_slice())
            }
            (TypeDef::Flags(names), DefinedType::Flags(of)) => are_names(names, &of.0),
            (TypeDef::Enum(names), DefinedType::Enum(of)) => are_names(names, &of.0),
            _ => false,
        }
    }

    /// Whether fields or parameters have the names and the types that are written.
    pub(crate) fn are_fields(&self, fields: &[Field], of: Slice<String, ValueType>) -> bool
        ensures names { IsTrue result → names of.entry ≡ field_names fields.now }
        ensures types { IsTrue result → (s : Setting) → StandForTypes self.now s → AreFieldsOf s fields.now (map (value_tree self.now.types.now) (types_of of.entry)) }
    {
        if fields.len() != of.len() {
            return false;
        }
        for (index, field) in fields.iter().enumerate() {
            let Some((name, ty)) = of.get_index(index) else {
                return false;
            };
            if !self.is_field(field, name, ty) {
                return false;
            }
        }
        true
    }

    fn is_field(&self, field: &Field, name: &String, ty: &ValueType) -> bool
        ensures name { IsTrue result → string_bytes name.now ≡ ident_text field.now.name }
        ensures ty { IsTrue result → (s : Setting) → StandForTypes self.now s → IsValue s field.now.ty (value_tree self.now.types.now ty.now) }
    {
        is_spelled(&field.name, name) && self.is_value(&field.ty, ty)
    }

    // Whether cases have the names and the types that are written.
    fn are_cases(&self, cases: &[Case], of: Slice<String, Option<ValueType>>) -> bool
        ensures { IsTrue result → (s : Setting) → StandForTypes self.now s → AreCasesOf s cases.now (named is_some of.entry) (map (value_tree self.now.types.now) (case_types of.entry)) }
    {
        if cases.len() != of.len() {
            return false;
        }
        for (index, case) in cases.iter().enumerate() {
            let Some((name, ty)) = of.get_index(index) else {
                return false;
            };
            if !self.is_case(case, name, ty) {
                return false;
            }
        }
        true
    }

    fn is_case(&self, case: &Case, name: &String, ty: &Option<ValueType>) -> bool
        ensures name { IsTrue result → string_bytes name.now ≡ ident_text case.now.name }
        ensures ty { IsTrue result → (s : Setting) → StandForTypes self.now s → IsReturned s case.now.ty (option_map (value_tree self.now.types.now) ty.now) }
    {
        is_spelled(&case.name, name) && self.is_value_if_any(&case.ty, ty)
    }

    /// Whether there is the value type that is written, or none where none is.
    pub(crate) fn is_value_if_any(&self, ty: &Option<TypeExpr>, of: &Option<ValueType>) -> bool
        ensures { IsTrue result → (s : Setting) → StandForTypes self.now s → IsReturned s ty.now (option_map (value_tree self.now.types.now) of.now) }
    {
        match (ty, of) {
            (Some(ty), Some(of)) => self.is_value(ty, of),
            (None, None) => true,
            _ => false,
        }
    }
}

// Whether names are those that are written.
fn are_names(names: &[Ident], of: &IndexSet<String>) -> bool
    ensures { IsTrue result → map ident_text names.now ≡ map string_bytes of.now.keys }
{
    if names.len() != of.len() {
        return false;
    }
    for (index, name) in names.iter().enumerate() {
        let Some(other) = of.get_index(index) else {
            return false;
        };
        if !is_spelled(name, other) {
            return false;
        }
    }
    true
}

/// Whether a text is a name.
pub(crate) fn is_spelled(name: &Ident, text: &String) -> bool
    ensures { IsTrue result → string_bytes text.now ≡ ident_text name.now }
{
    *text == name.name
}

/// Whether two types are one.
pub fn is_same_type(types: &Types, left: &Type, right: &Type) -> bool
    ensures { IsTrue result → type_meaning types.now left.now ≡ type_meaning types.now right.now }
{
    match (left, right) {
        (Type::Value(left), Type::Value(right)) => left == right,
        (Type::Resource(left), Type::Resource(right)) => is_same_resource(types, left, right),
        _ => false,
    }
}

// Whether two resources are one, with aliases peeled.
fn is_same_resource(types: &Types, left: &ResourceId, right: &ResourceId) -> bool
    ensures { IsTrue result → root_name types.now left.now ≡ root_name types.now right.now }
{
    types.contains(Type::Resource(*left))
        && types.contains(Type::Resource(*right))
        && types.resolve_resource(*left) == types.resolve_resource(*right)
}
