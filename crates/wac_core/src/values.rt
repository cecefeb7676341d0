//! Value types and function types of core WebAssembly, and their texts.

ghost use Rattle.std.specs.Prelude.{◌≡◌, Some, map};
ghost use Rattle.std.specs.Fmt.{WritesOnOk};
ghost use Rattle.wac_core.specs.Content.{heap_tree, ref_tree, core_type_tree, core_func_content};
ghost use Rattle.wac_core.specs.Texts.{nullable_text, heap_text, ref_text, core_type_text, core_types_text, core_func_text};

use std::alloc::{AllocError, Global};
use std::fmt;

/// A heap type.
#[derive(Clone, Copy, PartialEq, Eq, Hash, Debug)]
pub enum HeapType {
    /// The type of this index.
    Concrete(u32),
    /// Any function.
    Func,
    /// Any external value.
    Extern,
    /// Any internal value.
    Any,
    /// No internal value.
    None,
    /// No external value.
    NoExtern,
    /// No function.
    NoFunc,
    /// Any value that can be compared.
    Eq,
    /// Any struct.
    Struct,
    /// Any array.
    Array,
    /// An unboxed integer of 31 bits.
    I31,
    /// Any exception.
    Exn,
    /// No exception.
    NoExn,
    /// Any continuation.
    Cont,
    /// No continuation.
    NoCont,
}

/// A reference type.
#[derive(Clone, Copy, PartialEq, Eq, Hash, Debug)]
pub struct CoreRefType {
    /// Whether the reference may be null.
    pub nullable: bool,
    /// What it refers to.
    pub heap_type: HeapType,
}

/// A value type of core WebAssembly.
#[derive(Clone, Copy, PartialEq, Eq, Hash, Debug)]
pub enum CoreType {
    /// A 32-bit integer.
    I32,
    /// A 64-bit integer.
    I64,
    /// A 32-bit floating point number.
    F32,
    /// A 64-bit floating point number.
    F64,
    /// A vector of 128 bits.
    V128,
    /// A reference.
    Ref(CoreRefType),
}

/// A function type of core WebAssembly.
#[derive(PartialEq, Eq, Hash, Debug, Drop)]
pub struct CoreFuncType {
    /// The types of the parameters.
    pub params: Vec<CoreType>,
    /// The types of the results.
    pub results: Vec<CoreType>,
}

impl CoreFuncType {
    ghost use Rattle.std.specs.Prelude.{[]};

    /// A function type without parameters and results.
    pub fn new(alloc: Global) -> Self
        ensures params { result.params.items ≡ [] }
        ensures results { result.results.items ≡ [] }
    {
        CoreFuncType {
            params: Vec::new(alloc),
            results: Vec::new(alloc),
        }
    }
}

impl Clone for CoreFuncType {
    ghost is_clone = { λ f g. core_func_content g ≡ core_func_content f };

    fn clone(&self) -> Result<CoreFuncType, AllocError> {
        Ok(CoreFuncType {
            params: self.params.clone()?,
            results: self.results.clone()?,
        })
    }
}

impl fmt::Display for CoreRefType {
    ghost output = { λ t. Some (ref_text (ref_tree t)) };

    fn fmt<W: fmt::Write>(&self, f: &mut fmt::Formatter<W>) -> fmt::Result {
        if self.nullable {
            write_nullable(f, self.heap_type)
        } else {
            write_not_null(f, self.heap_type)
        }
    }
}

fn write_nullable<W: fmt::Write>(f: &mut fmt::Formatter<W>, heap_type: HeapType) -> fmt::Result
    ensures { WritesOnOk W.write_str_gives f.old result (nullable_text (heap_tree heap_type)) f.new }
{
    let name = match heap_type {
        HeapType::Concrete(index) => return write!(f, "(ref null {index})"),
        HeapType::Func => "funcref",
        HeapType::Extern => "externref",
        HeapType::Any => "anyref",
        HeapType::None => "nullref",
        HeapType::NoExtern => "nullexternref",
        HeapType::NoFunc => "nullfuncref",
        HeapType::Eq => "eqref",
        HeapType::Struct => "structref",
        HeapType::Array => "arrayref",
        HeapType::I31 => "i31ref",
        HeapType::Exn => "exnref",
        HeapType::NoExn => "nullexnref",
        HeapType::Cont => "contref",
        HeapType::NoCont => "nullcontref",
    };
    f.write_str(name)
}

fn write_not_null<W: fmt::Write>(f: &mut fmt::Formatter<W>, heap_type: HeapType) -> fmt::Result
    ensures { WritesOnOk W.write_str_gives f.old result (heap_text (heap_tree heap_type)) f.new }
{
    let word = match heap_type {
        HeapType::Concrete(index) => return write!(f, "(ref {index})"),
        HeapType::Func => "func",
        HeapType::Extern => "extern",
        HeapType::Any => "any",
        HeapType::None => "none",
        HeapType::NoExtern => "noextern",
        HeapType::NoFunc => "nofunc",
        HeapType::Eq => "eq",
        HeapType::Struct => "struct",
        HeapType::Array => "array",
        HeapType::I31 => "i31",
        HeapType::Exn => "exn",
        HeapType::NoExn => "noexn",
        HeapType::Cont => "cont",
        HeapType::NoCont => "nocont",
    };
    write!(f, "(ref {word})")
}

impl fmt::Display for CoreType {
    ghost output = { λ t. Some (core_type_text (core_type_tree t)) };

    fn fmt<W: fmt::Write>(&self, f: &mut fmt::Formatter<W>) -> fmt::Result {
        match self {
            CoreType::I32 => write!(f, "i32"),
            CoreType::I64 => write!(f, "i64"),
            CoreType::F32 => write!(f, "f32"),
            CoreType::F64 => write!(f, "f64"),
            CoreType::V128 => write!(f, "v128"),
            CoreType::Ref(of) => write!(f, "{of}"),
        }
    }
}

// Writes the types with commas between them.
fn write_types<W: fmt::Write>(f: &mut fmt::Formatter<W>, types: &[CoreType]) -> fmt::Result
    ensures { WritesOnOk W.write_str_gives f.old result (core_types_text (map core_type_tree types.now)) f.new }
{
    match types {
        [] => Ok(()),
        [only] => write!(f, "{only}"),
        [first, rest @ ..] => {
            write!(f, "{first}, ")?;
            write_types(f, rest)
        }
    }
}

impl fmt::Display for CoreFuncType {
    ghost output = { λ t. Some (core_func_text (core_func_content t).0 (core_func_content t).1) };

    fn fmt<W: fmt::Write>(&self, f: &mut fmt::Formatter<W>) -> fmt::Result {
        write!(f, "[")?;
        write_types(f, &self.params)?;
        write!(f, "] -> [")?;
        write_types(f, &self.results)?;
        write!(f, "]")
    }
}
