//! What names stand for.

ghost use Rattle.std.specs.Prelude.{◌≡◌, List, IfSome, IsSome, IsTrue, Some, slice_get};
ghost use Rattle.wac_component.specs.declared.items.ItemKind.TheVariants.{«Type» as OfType};
ghost use Rattle.wac_wit_validation_types.specs.Exports.{named_items};
ghost use Rattle.wac_component.specs.Collection.{Collection};
ghost use Rattle.wac_component.specs.Content.{defined_content};
ghost use Rattle.wac_component.specs.Tree.{content_tree, root_name, value_tree};
ghost use Rattle.wac_wit_validation_types.specs.Denoted.{NamesType, Setting, resource_type, value_type};
ghost use Rattle.wac_wit_validation_types.specs.Reading.{IsTypeNamed, Renames, StandForTypes, name_by, type_meaning, imported_name};
ghost use Rattle.wac_wit_syntax.specs.declared.tree.Rename.{Rename as RenameOf};
ghost use Rattle.wac_wit_scopes.specs.WitSources.{ident_text, given_name};
ghost use Rattle.wac_wit_syntax.specs.declared.tree.TypeDef.TheVariants.{Resource};

use super::new_names::NewNames;
use indexmap::IndexMap;
use wac_component::{DefinedType, ItemKind, ResourceId, Type, Types, ValueType};
use wac_wit_syntax::{Ident, Rename};

/// What names stand for: the types among exports or imports, of which the first so many are
/// looked at.
#[derive(Clone, Copy)]
pub struct NamedTypes<'n> {
    /// The types of the collection.
    pub types: &'n Types,
    /// The exports, or the imports.
    pub items: &'n IndexMap<String, ItemKind>,
    /// How many of them are looked at.
    pub limit: usize,
    /// What the names become of what is defined there, if they become others.
    pub new_names: Option<&'n NewNames<'n>>,
}

impl<'n> NamedTypes<'n> {
    /// The type that stands under a name, and its place.
    pub(crate) fn type_at(&self, name: &Ident) -> Option<(usize, &'n Type)>
        ensures at { IfSome result (λ p. slice_get (named_items self.now) p.0 ≡ Some (ident_text name.now, OfType p.1.now)) }
        ensures meant { IfSome result (λ p. (c : Collection) → IsSome (type_meaning c p.1.now)) }
    {
        let (index, _, item) = self.items.get_full(name.name.as_str())?;
        let ItemKind::Type(ty) = item else {
            return None;
        };
        if has_meaning(ty) {
            Some((index, ty))
        } else {
            None
        }
    }

    /// The type of a name.
    pub(crate) fn named(&self, name: &Ident) -> Option<&'n Type>
        ensures { IfSome result (λ t. (s : Setting) → StandForTypes self.now s → IsTypeNamed s (ident_text name.now) self.now.types.now t.now) }
    {
        let (index, ty) = self.type_at(name)?;
        if index >= self.limit {
            return None;
        }
        Some(ty)
    }

    /// The value type of a name.
    pub(crate) fn named_value(&self, name: &Ident) -> Option<&'n ValueType>
        ensures { IfSome result (λ v. (s : Setting) → StandForTypes self.now s → NamesType s (ident_text name.now) (value_type (value_tree self.now.types.now v.now))) }
    {
        match self.named(name)? {
            Type::Value(ty) => Some(ty),
            _ => None,
        }
    }

    /// The resource of a name.
    pub(crate) fn named_resource(&self, name: &Ident) -> Option<&'n ResourceId>
        ensures { IfSome result (λ r. (s : Setting) → StandForTypes self.now s → NamesType s (ident_text name.now) (resource_type (root_name self.now.types.now r.now))) }
    {
        match self.named(name)? {
            Type::Resource(id) => Some(id),
            _ => None,
        }
    }

    /// The name that the name of what is defined becomes.
    pub fn new_name<'m>(&self, name: &'m Ident) -> Option<&'m Ident>
    where
        'n: 'm,
        ensures { IfSome result (λ i. name_by self.now.new_names (ident_text name.now) ≡ Some (ident_text i.now)) }
    {
        named_by(self.new_names, name)
    }

    /// The name under which a type, or a function of a resource, is imported. That of a function
    /// has the resource's new name in it already.
    pub fn imported_name<'m>(&self, name: &'m str, item: &ItemKind) -> Option<&'m str>
    where
        'n: 'm,
        ensures { IfSome result (λ n. (rss : List (List RenameOf)) → Renames self.now rss → imported_name rss name.now item.now ≡ n.now) }
    {
        let ItemKind::Type(_) = item else {
            return Some(name);
        };
        match self.new_names {
            Some(names) => Some(names.get(name)?.name.as_str()),
            None => Some(name),
        }
    }

    /// Those before an index.
    pub(crate) fn up_to(&self, limit: usize) -> NamedTypes<'n>
        ensures { result ≡ record self.now { limit = limit } }
    {
        NamedTypes {
            types: self.types,
            items: self.items,
            limit,
            new_names: self.new_names,
        }
    }

    /// What a defined type says.
    pub(crate) fn defined(&self, ty: &ValueType) -> Option<&'n DefinedType>
        ensures { IfSome result (λ of. value_tree self.now.types.now ty.now ≡ content_tree (value_tree self.now.types.now) (defined_content of.now)) }
    {
        let ValueType::Defined(id) = ty else {
            return None;
        };
        if !self.types.contains(Type::Value(ValueType::Defined(*id))) {
            return None;
        }
        Some(&self.types[*id])
    }
}

/// What a name becomes, or that name where none becomes another.
pub fn named_by<'m>(new_names: Option<&'m NewNames<'m>>, name: &'m Ident) -> Option<&'m Ident>
    ensures { IfSome result (λ i. name_by new_names.entry (ident_text name.now) ≡ Some (ident_text i.now)) }
{
    match new_names {
        Some(names) => names.get(&name.name),
        None => Some(name),
    }
}

/// Whether a name of WIT can stand for a type.
pub fn has_meaning(ty: &Type) -> bool
    ensures { IsTrue result → (c : Collection) → IsSome (type_meaning c ty.now) }
{
    matches!(ty, Type::Value(_) | Type::Resource(_))
}

/// The name that a used type gets.
pub fn local_name(rename: &Rename) -> &Ident
    ensures { ident_text result.now ≡ given_name rename.now.name rename.now.alias }
{
    match &rename.alias {
        Some(alias) => alias,
        None => &rename.name,
    }
}
