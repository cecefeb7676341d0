//! Whether tables and memories start within their maximum.

ghost use Rattle.std.specs.Prelude.{◌≡◌};
ghost use Rattle.std.specs.List.{list_all};
ghost use Rattle.std.specs.Map.{values_of};
ghost use Rattle.wac_model.specs.CoreTree.{is_valid_extern, is_valid_module};
ghost use Rattle.wac_core.specs.Content.{core_tree, module_content};

use super::externs::CoreExtern;
use super::modules::ModuleType;
use indexmap::IndexMap;
use std::hash::Hash;

// Whether a core extern is valid: a table or a memory has no maximum, or starts within it.
fn is_valid(of: &CoreExtern) -> bool
    ensures { result ≡ is_valid_extern (core_tree of.now) }
{
    match of {
        CoreExtern::Table {
            initial,
            maximum: Some(maximum),
            ..
        }
        | CoreExtern::Memory {
            initial,
            maximum: Some(maximum),
            ..
        } => *initial <= *maximum,
        _ => true,
    }
}

fn are_valid<K: Eq + Hash + Drop>(externs: &IndexMap<K, CoreExtern>) -> bool
    ensures { result ≡ list_all (λ of. is_valid_extern (core_tree of)) (values_of externs.now.entries) }
{
    externs.values().all(|of| is_valid(of))
}

/// Whether each import and each export of a core module is valid: a table or a memory has no
/// maximum, or starts within it (WebAssembly core specification, "Validation", limits).
pub fn has_valid_limits(ty: &ModuleType) -> bool
    ensures { result ≡ is_valid_module (module_content ty.now) }
{
    are_valid(&ty.imports) && are_valid(&ty.exports)
}
