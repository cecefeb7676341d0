//! Function types.

use super::items::ValueType;
use indexmap::IndexMap;
use std::alloc::{AllocError, Global};
use std::fmt;

/// The kind of a function in an interface.
#[derive(Clone, Copy, PartialEq, Eq, Debug)]
pub enum FuncKind {
    /// A function of no resource.
    Free,
    /// A method of a resource.
    Method,
    /// A static method of a resource.
    Static,
    /// A constructor of a resource.
    Constructor,
}

impl fmt::Display for FuncKind {
    ghost use Rattle.std.specs.Prelude.{Some};
    ghost use Rattle.wac_component.specs.Texts.{func_kind_text};

    ghost output = { λ kind. Some (func_kind_text kind) };

    fn fmt<W: fmt::Write>(&self, f: &mut fmt::Formatter<W>) -> fmt::Result {
        f.write_str(match self {
            FuncKind::Free => "function",
            FuncKind::Method => "method",
            FuncKind::Static => "static method",
            FuncKind::Constructor => "constructor",
        })
    }
}

/// A function type (Component Model explainer, `functype`).
#[derive(Drop, Debug)]
pub struct FuncType {
    /// The parameters in order.
    pub params: IndexMap<String, ValueType>,
    /// The result, if there is one.
    pub result: Option<ValueType>,
    /// Whether the function is async.
    pub is_async: bool,
}

impl FuncType {
    ghost use Rattle.std.specs.Prelude.{◌≡◌, [], None, false};
    ghost use Rattle.wac_component.specs.Content.{func_content};

    /// The type of a function that takes no parameters, has no result and isn't async.
    pub fn new(alloc: Global) -> FuncType
        ensures { func_content result ≡ record { params = []; «result» = None; is_async = false } }
    {
        FuncType {
            params: IndexMap::new(alloc),
            result: None,
            is_async: false,
        }
    }
}

impl Clone for FuncType {
    ghost use Rattle.std.specs.Prelude.{◌≡◌};
    ghost use Rattle.wac_component.specs.Content.{func_content};

    ghost is_clone = { λ f g. func_content g ≡ func_content f };

    fn clone(&self) -> Result<FuncType, AllocError> {
        Ok(FuncType {
            params: self.params.clone()?,
            result: self.result,
            is_async: self.is_async,
        })
    }
}
