//! Types and functions by what they are. One that stands twice in an interface is one entry.

use indexmap::IndexMap;
use std::alloc::{AllocError, Global};
use wac_component::{DefinedType, FuncType, FuncTypeId, ValueType};

/// A type that has no name.
#[derive(PartialEq, Eq, Hash)]
pub(crate) enum TypeShape {
    List(ValueType),
    FixedList(ValueType, u32),
    Map(ValueType, ValueType),
    Option(ValueType),
    Result(Option<ValueType>, Option<ValueType>),
    Tuple(Vec<ValueType>),
    Future(Option<ValueType>),
    Stream(Option<ValueType>),
}

impl Drop for TypeShape {
    fn drop(self) {
        match self {
            TypeShape::List(_) => {}
            TypeShape::FixedList(_, _) => {}
            TypeShape::Map(_, _) => {}
            TypeShape::Option(_) => {}
            TypeShape::Result(_, _) => {}
            TypeShape::Tuple(_) => {}
            TypeShape::Future(_) => {}
            TypeShape::Stream(_) => {}
        }
    }
}

impl TypeShape {
    /// The type's entry.
    pub(crate) fn content(&self) -> Result<DefinedType, AllocError> {
        Ok(match self {
            TypeShape::List(of) => DefinedType::List(*of),
            TypeShape::FixedList(of, length) => DefinedType::FixedSizeList(*of, *length),
            TypeShape::Map(key, value) => DefinedType::Map(*key, *value),
            TypeShape::Option(of) => DefinedType::Option(*of),
            TypeShape::Result(ok, err) => DefinedType::Result { ok: *ok, err: *err },
            TypeShape::Tuple(items) => DefinedType::Tuple(items.clone()?),
            TypeShape::Future(of) => DefinedType::Future(*of),
            TypeShape::Stream(of) => DefinedType::Stream(*of),
        })
    }
}

/// A function: the names and the types of its parameters, and the type of its result.
#[derive(PartialEq, Eq, Hash)]
pub(crate) struct FuncShape {
    pub(crate) names: Vec<String>,
    pub(crate) params: Vec<ValueType>,
    pub(crate) returns: Option<ValueType>,
    pub(crate) is_async: bool,
}

impl Drop for FuncShape {
    fn drop(self) {
        let FuncShape {
            names: _,
            params: _,
            returns: _,
            is_async: _,
        } = self;
    }
}

impl FuncShape {
    /// The function's entry.
    pub(crate) fn content(&self, alloc: Global) -> Result<FuncType, AllocError> {
        let mut params = IndexMap::new(alloc);
        for (name, ty) in self.names.iter().zip(&self.params) {
            params.insert(name.clone()?, *ty)?;
        }
        Ok(FuncType {
            params,
            result: self.returns,
            is_async: self.is_async,
        })
    }
}

/// The entries of types and functions, by what these are.
pub(crate) struct Shapes {
    pub(crate) types: IndexMap<TypeShape, ValueType>,
    pub(crate) funcs: IndexMap<FuncShape, FuncTypeId>,
}

impl Drop for Shapes {
    fn drop(self) {
        let Shapes { types: _, funcs: _ } = self;
    }
}

impl Shapes {
    /// None yet.
    pub(crate) fn new(alloc: Global) -> Shapes {
        Shapes {
            types: IndexMap::new(alloc),
            funcs: IndexMap::new(alloc),
        }
    }
}
