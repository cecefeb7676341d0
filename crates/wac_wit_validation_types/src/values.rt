//! Types where they are used.

ghost use Rattle.std.specs.Prelude.{map, IsTrue};
ghost use Rattle.std.specs.Option.{option_map};
ghost use Rattle.wac_component.specs.Content.{defined_content};
ghost use Rattle.wac_component.specs.Tree.{value_tree, content_tree};
ghost use Rattle.wac_wit_validation_types.specs.Denoted.{AreValuesOf, IsOptional, IsValue, Setting};
ghost use Rattle.wac_wit_validation_types.specs.Reading.{StandForTypes};
ghost use Rattle.wac_wit_syntax.specs.declared.tree.TypeExpr.TheVariants.{Name, Own, Borrow};

use super::names::NamedTypes;
use wac_component::{DefinedType, ValueType};
use wac_wit_syntax::{Ident, TypeExpr};

impl<'n> NamedTypes<'n> {
    /// Whether a value type is the one that is written.
    #[cycle(written)]
    pub(crate) fn is_value(&self, ty: &TypeExpr, of: &ValueType) -> bool
        ensures { IsTrue result → (s : Setting) → StandForTypes self.now s → IsValue s ty.now (value_tree self.now.types.now of.now) }
    {
        match ty {
            TypeExpr::Primitive(primitive, _) => *of == ValueType::Primitive(*primitive),
            TypeExpr::Name(name) => self.is_name(name, of),
            TypeExpr::Own(name) => self.is_own(name, of),
            TypeExpr::Borrow(name) => self.is_borrow(name, of),
            _ => match self.defined(of) {
                Some(of) => self.is_composed(ty, of),
                None => false,
            },
        }
    }

    // Whether a defined type says what is written.
    #[cycle(written)]
    fn is_composed(&self, ty: &TypeExpr, of: &DefinedType) -> bool
        ensures { IsTrue result → (s : Setting) → StandForTypes self.now s → IsValue s ty.now (content_tree (value_tree self.now.types.now) (defined_content of.now)) }
    {
        match (ty, of) {
            (TypeExpr::List(ty), DefinedType::List(of)) => self.is_value(ty, of),
            (TypeExpr::Option(ty), DefinedType::Option(of)) => self.is_value(ty, of),
            (TypeExpr::FixedList(ty, length, _), DefinedType::FixedSizeList(of, size)) => {
                *length == *size && self.is_value(ty, of)
            }
            (TypeExpr::Result(ok, err), DefinedType::Result { ok: x, err: y }) => {
                self.is_optional(ok, x) && self.is_optional(err, y)
            }
            (TypeExpr::Tuple(types, _), DefinedType::Tuple(of)) => self.are_values(types, of),
            (TypeExpr::Map(key, ty, _), DefinedType::Map(k, of)) => {
                self.is_value(key, k) && self.is_value(ty, of)
            }
            (TypeExpr::Future(ty), DefinedType::Future(of)) => self.is_optional(ty, of),
            (TypeExpr::Stream(ty), DefinedType::Stream(of)) => self.is_optional(ty, of),
            _ => false,
        }
    }

    #[cycle(written)]
    fn is_optional(&self, ty: &Option<Box<TypeExpr>>, of: &Option<ValueType>) -> bool
        ensures { IsTrue result → (s : Setting) → StandForTypes self.now s → IsOptional s ty.now (option_map (value_tree self.now.types.now) of.now) }
    {
        match (ty, of) {
            (Some(ty), Some(of)) => self.is_value(ty, of),
            (None, None) => true,
            _ => false,
        }
    }

    #[cycle(written)]
    fn are_values(&self, types: &[TypeExpr], of: &[ValueType]) -> bool
        ensures { IsTrue result → (s : Setting) → StandForTypes self.now s → AreValuesOf s types.now (map (value_tree self.now.types.now) of.now) }
    {
        if types.len() != of.len() {
            return false;
        }
        for (index, ty) in types.iter().enumerate() {
            let Some(of) = of.get(index) else {
                return false;
            };
            if !self.is_value(ty, of) {
                return false;
            }
        }
        true
    }

    // Whether a value type is that of a name; a resource's is an owned handle.
    fn is_name(&self, name: &Ident, of: &ValueType) -> bool
        ensures { IsTrue result → (s : Setting) → StandForTypes self.now s → IsValue s (Name name.now) (value_tree self.now.types.now of.now) }
    {
        match self.named_value(name) {
            Some(ty) => of == ty,
            None => self.is_own(name, of),
        }
    }

    fn is_own(&self, name: &Ident, of: &ValueType) -> bool
        ensures named { IsTrue result → (s : Setting) → StandForTypes self.now s → IsValue s (Name name.now) (value_tree self.now.types.now of.now) }
        ensures owned { IsTrue result → (s : Setting) → StandForTypes self.now s → IsValue s (Own name.now) (value_tree self.now.types.now of.now) }
    {
        match (self.named_resource(name), of) {
            (Some(id), ValueType::Own(of)) => of == id,
            _ => false,
        }
    }

    fn is_borrow(&self, name: &Ident, of: &ValueType) -> bool
        ensures { IsTrue result → (s : Setting) → StandForTypes self.now s → IsValue s (Borrow name.now) (value_tree self.now.types.now of.now) }
    {
        match (self.named_resource(name), of) {
            (Some(id), ValueType::Borrow(of)) => of == id,
            _ => false,
        }
    }
}
