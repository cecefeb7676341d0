//! Primitive value types.

/// A primitive value type of the Component Model (explainer, "Type Definitions", `primvaltype`).
#[derive(Clone, Copy, PartialEq, Eq, Hash, Debug)]
pub enum PrimitiveType {
    /// An 8-bit unsigned integer.
    U8,
    /// An 8-bit signed integer.
    S8,
    /// A 16-bit unsigned integer.
    U16,
    /// A 16-bit signed integer.
    S16,
    /// A 32-bit unsigned integer.
    U32,
    /// A 32-bit signed integer.
    S32,
    /// A 64-bit unsigned integer.
    U64,
    /// A 64-bit signed integer.
    S64,
    /// A 32-bit floating point number.
    F32,
    /// A 64-bit floating point number.
    F64,
    /// A Unicode scalar value.
    Char,
    /// A Boolean value.
    Bool,
    /// A text of Unicode scalar values.
    String,
    /// An error context.
    ErrorContext,
}

impl PrimitiveType {
    ghost use Rattle.std.specs.Prelude.{◌≡◌};
    ghost use Rattle.wac_model.specs.Desc.{primitive_desc};

    /// The name of the type in WIT.
    pub fn desc(&self) -> &'static str
        ensures { result.now ≡ primitive_desc self.now }
    {
        match self {
            PrimitiveType::U8 => "u8",
            PrimitiveType::S8 => "s8",
            PrimitiveType::U16 => "u16",
            PrimitiveType::S16 => "s16",
            PrimitiveType::U32 => "u32",
            PrimitiveType::S32 => "s32",
            PrimitiveType::U64 => "u64",
            PrimitiveType::S64 => "s64",
            PrimitiveType::F32 => "f32",
            PrimitiveType::F64 => "f64",
            PrimitiveType::Char => "char",
            PrimitiveType::Bool => "bool",
            PrimitiveType::String => "string",
            PrimitiveType::ErrorContext => "error-context",
        }
    }
}
