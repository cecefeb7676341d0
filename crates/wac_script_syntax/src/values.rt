//! Value types, types and items, as words name them.

use super::entries::{EntryName, Sort, entry_of};
use super::error::{ScriptError, unexpected};
use super::numbers::index_after;
use wac_model::PrimitiveType;

/// A value type. Entries are named by their index in the list of their sort.
#[derive(Clone, Copy)]
pub enum Value {
    /// A primitive value type, as `u8`.
    Primitive(PrimitiveType),
    /// An owned handle of a resource, as `own:r0`.
    Own(usize),
    /// A borrowed handle of a resource, as `borrow:r0`.
    Borrow(usize),
    /// A defined type, as `d0`.
    Defined(usize),
}

/// A type.
#[derive(Clone, Copy)]
pub enum TypeWord {
    /// An entry, as `fn0`, `r0` or `d0`.
    Entry(EntryName),
    /// A value type that is no entry.
    Value(Value),
}

/// What an import or an export is.
#[derive(Clone, Copy)]
pub enum Item {
    /// A type, as `T:r0`.
    Type(TypeWord),
    /// A function, as `F:fn0`.
    Func(usize),
    /// An instance of an interface, as `I:i0`.
    Instance(usize),
    /// A component of a world, as `C:w0`.
    Component(usize),
    /// A core module, as `M:m0`.
    Module(usize),
    /// A value, as `V:u8`.
    Value(Value),
}

// The primitive types.
static PRIMITIVES: [PrimitiveType; 14] = [
    PrimitiveType::U8,
    PrimitiveType::S8,
    PrimitiveType::U16,
    PrimitiveType::S16,
    PrimitiveType::U32,
    PrimitiveType::S32,
    PrimitiveType::U64,
    PrimitiveType::S64,
    PrimitiveType::F32,
    PrimitiveType::F64,
    PrimitiveType::Char,
    PrimitiveType::Bool,
    PrimitiveType::String,
    PrimitiveType::ErrorContext,
];

fn primitives() -> &'static [PrimitiveType] {
    &PRIMITIVES
}

// The primitive type of this name.
fn primitive_of(word: &str) -> Option<PrimitiveType> {
    for primitive in primitives() {
        if primitive.desc() == word {
            return Some(*primitive);
        }
    }
    None
}

// The value type that a word names.
fn value_of(word: &str) -> Option<Value> {
    if let Some(index) = index_after("d", word) {
        return Some(Value::Defined(index));
    }
    if let Some(index) = index_after("own:r", word) {
        return Some(Value::Own(index));
    }
    if let Some(index) = index_after("borrow:r", word) {
        return Some(Value::Borrow(index));
    }
    Some(Value::Primitive(primitive_of(word)?))
}

// The type that a word names.
fn type_of(word: &str) -> Option<TypeWord> {
    if let Some(entry) = entry_of(word) {
        return Some(TypeWord::Entry(entry));
    }
    Some(TypeWord::Value(value_of(word)?))
}

// The item that a word names.
fn item_of(word: &str) -> Option<Item> {
    let (sort, rest) = word.split_once(':')?;
    match sort {
        "T" => Some(Item::Type(type_of(rest)?)),
        "F" => Some(Item::Func(index_after("fn", rest)?)),
        "I" => Some(Item::Instance(index_after("i", rest)?)),
        "C" => Some(Item::Component(index_after("w", rest)?)),
        "M" => Some(Item::Module(index_after("m", rest)?)),
        "V" => Some(Item::Value(value_of(rest)?)),
        _ => None,
    }
}

/// Reads a value type.
pub fn read_value(word: &str) -> Result<Value, ScriptError<'_>> {
    value_of(word).ok_or(unexpected("a value type", word))
}

/// Reads a value type, or none from `-`.
pub fn read_optional_value(word: &str) -> Result<Option<Value>, ScriptError<'_>> {
    if word == "-" {
        return Ok(None);
    }
    Ok(Some(read_value(word)?))
}

/// Reads a type.
pub fn read_type(word: &str) -> Result<TypeWord, ScriptError<'_>> {
    type_of(word).ok_or(unexpected("a type", word))
}

/// Reads a value type or a resource.
pub fn read_resolvable(word: &str) -> Result<TypeWord, ScriptError<'_>> {
    if let Some(index) = index_after("r", word) {
        let sort = Sort::Resource;
        return Ok(TypeWord::Entry(EntryName { sort, index }));
    }
    match value_of(word) {
        Some(value) => Ok(TypeWord::Value(value)),
        None => Err(unexpected("a value type or a resource", word)),
    }
}

/// Reads an item.
pub fn read_item(word: &str) -> Result<Item, ScriptError<'_>> {
    item_of(word).ok_or(unexpected("an item", word))
}

/// Reads the name of an entry.
pub fn read_entry(word: &str) -> Result<EntryName, ScriptError<'_>> {
    entry_of(word).ok_or(unexpected("an entry", word))
}
