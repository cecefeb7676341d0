//! Types where they are used.

use super::builder::Builder;
use super::shapes::TypeShape;
use wac_component::{ResourceId, Type, ValueType};
use wac_model::PrimitiveType;
use wac_wit_elaboration::Meaning;
use wac_wit_names::{Fault, Reason};
use wac_wit_syntax::{Ident, Span, TypeExpr};

impl Builder<'_> {
    /// The value type that is written. Where it is refused, that is noted, and it is none.
    pub(crate) fn noted_value(&mut self, ty: &TypeExpr) -> Result<Option<ValueType>, Fault> {
        match self.value_of(ty) {
            Ok(ty) => Ok(Some(ty)),
            Err(fault) => {
                self.refusals.note(fault)?;
                Ok(None)
            }
        }
    }

    /// The value type that is written.
    #[cycle(written)]
    pub(crate) fn value_of(&mut self, ty: &TypeExpr) -> Result<ValueType, Fault> {
        match ty {
            TypeExpr::Primitive(of, _) => Ok(ValueType::Primitive(*of)),
            TypeExpr::Name(name) => self.named_value(name),
            TypeExpr::Own(name) => Ok(ValueType::Own(self.named_resource(name)?)),
            TypeExpr::Borrow(name) => Ok(ValueType::Borrow(self.named_resource(name)?)),
            TypeExpr::List(of) => {
                let of = self.value_of(of)?;
                self.shaped(TypeShape::List(of))
            }
            TypeExpr::Option(of) => {
                let of = self.value_of(of)?;
                self.shaped(TypeShape::Option(of))
            }
            TypeExpr::FixedList(of, length, span) => {
                self.check_length(*length, *span)?;
                let of = self.value_of(of)?;
                self.shaped(TypeShape::FixedList(of, *length))
            }
            TypeExpr::Result(ok, err) => {
                let ok = self.optional_value(ok)?;
                let err = self.optional_value(err)?;
                self.shaped(TypeShape::Result(ok, err))
            }
            TypeExpr::Tuple(items, _) => {
                let mut values = Vec::new(self.alloc);
                for item in items {
                    values.push(self.value_of(item)?)?;
                }
                self.shaped(TypeShape::Tuple(values))
            }
            TypeExpr::Map(key, of, _) => {
                let key = self.value_of(key)?;
                let of = self.value_of(of)?;
                self.shaped(TypeShape::Map(key, of))
            }
            TypeExpr::Future(of) => {
                let of = self.optional_value(of)?;
                self.future(of)
            }
            TypeExpr::Stream(of) => {
                let of = self.optional_value(of)?;
                self.stream(of)
            }
        }
    }

    #[cycle(written)]
    fn optional_value(&mut self, ty: &Option<Box<TypeExpr>>) -> Result<Option<ValueType>, Fault> {
        match ty {
            Some(ty) => Ok(Some(self.value_of(ty)?)),
            None => Ok(None),
        }
    }

    fn check_length(&self, length: u32, span: Span) -> Result<(), Fault> {
        if length == 0 {
            return Err(
                self.refuse(span, "a list of a fixed length has at least one element")
                    .because(Reason::ZeroLength),
            );
        }
        Ok(())
    }

    fn future(&mut self, of: Option<ValueType>) -> Result<ValueType, Fault> {
        if let Some(ty) = &of {
            self.check_sent(ty)?;
        }
        self.shaped(TypeShape::Future(of))
    }

    fn stream(&mut self, of: Option<ValueType>) -> Result<ValueType, Fault> {
        if let Some(ty) = &of {
            self.check_sent(ty)?;
            self.check_streamed(ty)?;
        }
        self.shaped(TypeShape::Stream(of))
    }

    // Refuses what streams and futures can't have.
    fn check_sent(&self, ty: &ValueType) -> Result<(), Fault> {
        if !self.types.contains(Type::Value(*ty)) {
            return Err(Fault::Missing);
        }
        if ty.contains_borrow(self.types) {
            return Err(
                self.refuse(
                    self.item_span,
                    "a stream or a future stands here that has borrowed handles",
                )
                .because(Reason::BorrowSent),
            );
        }
        Ok(())
    }

    // Refuses a stream of characters, which has no encoding.
    fn check_streamed(&self, ty: &ValueType) -> Result<(), Fault> {
        if !self.types.contains(Type::Value(*ty)) {
            return Err(Fault::Missing);
        }
        if self.types.resolve_value_type(*ty) == ValueType::Primitive(PrimitiveType::Char) {
            return Err(
                self.refuse(
                    self.item_span,
                    "`stream<char>` stands here, which isn't one",
                )
                .because(Reason::CharStream),
            );
        }
        Ok(())
    }

    // The value type of a name; a resource's is an owned handle.
    fn named_value(&self, name: &Ident) -> Result<ValueType, Fault> {
        Ok(match self.named(name)?.meaning {
            Meaning::Value(ty) => ty,
            Meaning::Resource(id) => ValueType::Own(id),
        })
    }

    // The resource of a name.
    fn named_resource(&self, name: &Ident) -> Result<ResourceId, Fault> {
        match self.named(name)?.meaning {
            Meaning::Resource(id) => Ok(id),
            Meaning::Value(_) => {
                Err(
                    self.refuse_name(name.span, "`", &name.name, "` is no resource")
                        .because(Reason::NotResource),
                )
            }
        }
    }
}
