//! Defined value types.

use super::items::ValueType;
use indexmap::{IndexMap, IndexSet};
use std::alloc::AllocError;

/// A defined value type (Component Model explainer, `defvaltype`), or another name of a value type.
#[derive(Drop, Debug)]
pub enum DefinedType {
    /// A tuple of these items.
    Tuple(Vec<ValueType>),
    /// A list of this element.
    List(ValueType),
    /// A list of this element, of this length.
    FixedSizeList(ValueType, u32),
    /// A map from this key to this value; any value type may stand as the key.
    Map(ValueType, ValueType),
    /// An option.
    Option(ValueType),
    /// A result.
    Result {
        /// The type of the `ok` part, if it has one.
        ok: Option<ValueType>,
        /// The type of the `err` part, if it has one.
        err: Option<ValueType>,
    },
    /// A variant.
    Variant(Variant),
    /// A record.
    Record(Record),
    /// Flags.
    Flags(Flags),
    /// An enum.
    Enum(Enum),
    /// Another name of this value type.
    Alias(ValueType),
    /// A stream, with the type of its payload if it has one.
    Stream(Option<ValueType>),
    /// A future, with the type of its payload if it has one.
    Future(Option<ValueType>),
}

impl Clone for DefinedType {
    ghost use Rattle.std.specs.Prelude.{◌≡◌};
    ghost use Rattle.wac_component.specs.Content.{defined_content};

    ghost is_clone = { λ d e. defined_content e ≡ defined_content d };

    fn clone(&self) -> Result<DefinedType, AllocError> {
        Ok(match self {
            DefinedType::Tuple(items) => DefinedType::Tuple(items.clone()?),
            DefinedType::List(item) => DefinedType::List(*item),
            DefinedType::FixedSizeList(item, size) => DefinedType::FixedSizeList(*item, *size),
            DefinedType::Map(key, value) => DefinedType::Map(*key, *value),
            DefinedType::Option(item) => DefinedType::Option(*item),
            DefinedType::Result { ok, err } => DefinedType::Result { ok: *ok, err: *err },
            DefinedType::Variant(variant) => DefinedType::Variant(variant.clone()?),
            DefinedType::Record(record) => DefinedType::Record(record.clone()?),
            DefinedType::Flags(flags) => DefinedType::Flags(flags.clone()?),
            DefinedType::Enum(cases) => DefinedType::Enum(cases.clone()?),
            DefinedType::Alias(of) => DefinedType::Alias(*of),
            DefinedType::Stream(payload) => DefinedType::Stream(*payload),
            DefinedType::Future(payload) => DefinedType::Future(*payload),
        })
    }
}

/// A variant: its cases in order, each with its type if it has one.
#[derive(Drop, Debug)]
pub struct Variant {
    /// The cases.
    pub cases: IndexMap<String, Option<ValueType>>,
}

impl Clone for Variant {
    ghost use Rattle.std.specs.Prelude.{◌≡◌};
    ghost use Rattle.wac_component.specs.Content.{cases_of};

    ghost is_clone = { λ v w. cases_of w ≡ cases_of v };

    fn clone(&self) -> Result<Variant, AllocError> {
        let cases = self.cases.clone()?;
        Ok(Variant { cases })
    }
}

/// A record: its fields in order.
#[derive(Drop, Debug)]
pub struct Record {
    /// The fields.
    pub fields: IndexMap<String, ValueType>,
}

impl Clone for Record {
    ghost use Rattle.std.specs.Prelude.{◌≡◌};
    ghost use Rattle.wac_component.specs.Content.{fields_of};

    ghost is_clone = { λ r s. fields_of s ≡ fields_of r };

    fn clone(&self) -> Result<Record, AllocError> {
        let fields = self.fields.clone()?;
        Ok(Record { fields })
    }
}

/// Flags, by their names in order.
#[derive(Drop, Debug)]
pub struct Flags(pub IndexSet<String>);

impl Clone for Flags {
    ghost use Rattle.std.specs.Prelude.{◌≡◌};
    ghost use Rattle.wac_component.specs.Content.{flag_names};

    ghost is_clone = { λ f g. flag_names g ≡ flag_names f };

    fn clone(&self) -> Result<Flags, AllocError> {
        let names = self.0.clone()?;
        Ok(Flags(names))
    }
}

/// An enum, by the names of its cases in order.
#[derive(Drop, Debug)]
pub struct Enum(pub IndexSet<String>);

impl Clone for Enum {
    ghost use Rattle.std.specs.Prelude.{◌≡◌};
    ghost use Rattle.wac_component.specs.Content.{case_names};

    ghost is_clone = { λ e f. case_names f ≡ case_names e };

    fn clone(&self) -> Result<Enum, AllocError> {
        let cases = self.0.clone()?;
        Ok(Enum(cases))
    }
}
