//! The types of core modules (WebAssembly core specification, "Types").
#![tactic(auto)]

pub mod externs;
pub mod modules;
mod valid;
pub mod values;

pub use externs::CoreExtern;
pub use modules::ModuleType;
pub use valid::has_valid_limits;
pub use values::{CoreFuncType, CoreRefType, CoreType, HeapType};
