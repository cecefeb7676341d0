//! Value types, types and items, as words name them.

use std::alloc::AllocError;
use wac_component::{ItemKind, Type, ValueType};

/// Puts the word that names a value type last, as `u8`, `own:r0` or `d0`.
pub fn push_value(text: &mut String, value: ValueType) -> Result<(), AllocError> {
    match value {
        ValueType::Primitive(primitive) => text.push_str(primitive.desc()),
        ValueType::Own(id) => write!(text, "own:r{id}"),
        ValueType::Borrow(id) => write!(text, "borrow:r{id}"),
        ValueType::Defined(id) => write!(text, "d{id}"),
    }
}

/// Puts the word that names a type last, as `fn0` or `u8`.
pub fn push_type(text: &mut String, ty: Type) -> Result<(), AllocError> {
    match ty {
        Type::Resource(id) => write!(text, "r{id}"),
        Type::Func(id) => write!(text, "fn{id}"),
        Type::Interface(id) => write!(text, "i{id}"),
        Type::World(id) => write!(text, "w{id}"),
        Type::Module(id) => write!(text, "m{id}"),
        Type::Value(value) => push_value(text, value),
    }
}

/// Puts the word that names an item last, as `T:r0`, `F:fn0`, `I:i0`, `C:w0`, `M:m0` or `V:u8`.
pub fn push_item(text: &mut String, item: ItemKind) -> Result<(), AllocError> {
    match item {
        ItemKind::Type(ty) => {
            text.push_str("T:")?;
            push_type(text, ty)
        }
        ItemKind::Func(id) => write!(text, "F:fn{id}"),
        ItemKind::Instance(id) => write!(text, "I:i{id}"),
        ItemKind::Component(id) => write!(text, "C:w{id}"),
        ItemKind::Module(id) => write!(text, "M:m{id}"),
        ItemKind::Value(value) => {
            text.push_str("V:")?;
            push_value(text, value)
        }
    }
}
