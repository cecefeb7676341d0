//! The types of core modules.

ghost use Rattle.std.specs.Prelude.{◌≡◌, []};
ghost use Rattle.wac_core.specs.Content.{module_content};

use super::externs::CoreExtern;
use indexmap::IndexMap;
use std::alloc::{AllocError, Global};

/// The type of a core module (WebAssembly core specification, "Modules").
#[derive(Debug, Drop)]
pub struct ModuleType {
    /// The imports in order, each by the name of a module and its name there.
    pub imports: IndexMap<(String, String), CoreExtern>,
    /// The exports in order.
    pub exports: IndexMap<String, CoreExtern>,
}

impl ModuleType {
    /// A module that imports and exports nothing.
    pub fn new(alloc: Global) -> ModuleType
        ensures { module_content result ≡ record { imports = []; exports = [] } }
    {
        ModuleType {
            imports: IndexMap::new(alloc),
            exports: IndexMap::new(alloc),
        }
    }
}

impl Clone for ModuleType {
    ghost is_clone = { λ m n. module_content n ≡ module_content m };

    fn clone(&self) -> Result<ModuleType, AllocError> {
        Ok(ModuleType {
            imports: self.imports.clone()?,
            exports: self.exports.clone()?,
        })
    }
}
