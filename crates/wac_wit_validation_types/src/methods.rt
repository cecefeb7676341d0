//! Functions of resources.

ghost use Rattle.std.specs.Prelude.{◌≡◌, ◌++◌, IfOk, IsTrue, codes, string_bytes};
ghost use Rattle.wac_component.specs.Tree.{root_name};
ghost use Rattle.wac_wit_validation_types.specs.Exports.{Gives, HasFuncItem, HasRootName, IsFuncBehind, IsFuncItem, MarksExports, named_items};
ghost use Rattle.wac_wit_validation_types.specs.Denoted.{Setting};
ghost use Rattle.wac_wit_validation_types.specs.Functions.{IsMethodOf, method_name};
ghost use Rattle.wac_wit_scopes.specs.WitSources.{ident_text};

use super::names::NamedTypes;
use super::progress::ExportMarks;
use super::texts::behind;
use std::alloc::{AllocError, Global};
use wac_component::{ItemKind, ResourceId};
use wac_wit_syntax::{Ident, Method, MethodKind};

/// Whether the next function is the one that is written of a resource.
pub fn is_next_method(
    names: &NamedTypes<'_>,
    progress: &mut ExportMarks,
    resource: &Ident,
    id: &ResourceId,
    method: &Method,
) -> bool
    ensures marks { let n = ident_text resource.now in IsTrue result → HasRootName names.now id.now n → (s : Setting) → Gives s n method.now → MarksExports s names.now progress.old progress.new }
    ensures covers { IsTrue result → HasFuncItem (named_items names.now) (method_name method.now.kind (ident_text resource.now) (ident_text method.now.name)) }
{
    let index = progress.next_method;
    progress.next_method = index.saturating_add(1);
    progress.mark(index);
    let Some((name, item)) = names.items.get_index(index) else {
        return false;
    };
    is_method_name(name, &resource.name, method) && is_method_item(names, index, item, id, method)
}

// Whether an item is the function that is written of a resource, by the names before it.
fn is_method_item(
    names: &NamedTypes<'_>,
    index: usize,
    item: &ItemKind,
    id: &ResourceId,
    method: &Method,
) -> bool
    ensures func { IsTrue result → IsFuncItem names.now.types.now item.now (λ f. Unit {0}) }
    ensures behind { IsTrue result → (s : Setting) → IsFuncBehind s names.now index item.now (IsMethodOf s method.now (root_name names.now.types.now id.now)) }
{
    match item {
        ItemKind::Func(func) => names.up_to(index).is_method(method, id, func),
        _ => false,
    }
}

// Whether a name is that of a function of a resource.
fn is_method_name(name: &str, resource: &str, method: &Method) -> bool
    ensures { IsTrue result → name.now ≡ method_name method.now.kind resource.now (ident_text method.now.name) }
{
    match method.kind {
        MethodKind::Constructor => is_constructor_name(name, resource),
        MethodKind::Method => is_name_behind("[method]", name, resource, &method.name.name),
        MethodKind::Static => is_name_behind("[static]", name, resource, &method.name.name),
    }
}

fn is_constructor_name(name: &str, resource: &str) -> bool
    ensures { IsTrue result → name.now ≡ codes "[constructor]" ++ resource.now }
{
    match behind("[constructor]", name) {
        Some(rest) => rest == resource,
        None => false,
    }
}

// Whether a text is a word, and the names of a resource and of a function with a dot between.
fn is_name_behind(word: &str, text: &str, resource: &str, name: &str) -> bool
    ensures { IsTrue result → text.now ≡ word.now ++ resource.now ++ codes "." ++ name.now }
{
    let Some(text) = behind(word, text) else {
        return false;
    };
    let Some(text) = behind(resource, text) else {
        return false;
    };
    match behind(".", text) {
        Some(rest) => rest == name,
        None => false,
    }
}

/// The name of a function of a resource, as `[method]r.f`.
pub fn method_text(alloc: Global, resource: &str, method: &Method) -> Result<String, AllocError>
    ensures { IfOk result (λ text. string_bytes text ≡ method_name method.now.kind resource.now (ident_text method.now.name)) }
{
    match method.kind {
        MethodKind::Constructor => text_behind(alloc, "[constructor]", resource),
        MethodKind::Method => named_text(alloc, "[method]", resource, &method.name.name),
        MethodKind::Static => named_text(alloc, "[static]", resource, &method.name.name),
    }
}

fn text_behind(alloc: Global, word: &str, name: &str) -> Result<String, AllocError>
    ensures { IfOk result (λ text. string_bytes text ≡ word.now ++ name.now) }
{
    let mut text = String::from_str(alloc, word)?;
    text.push_str(name)?;
    Ok(text)
}

// A word, and the names of a resource and of a function with a dot between.
fn named_text(alloc: Global, word: &str, resource: &str, name: &str) -> Result<String, AllocError>
    ensures { IfOk result (λ text. string_bytes text ≡ word.now ++ resource.now ++ codes "." ++ name.now) }
{
    let mut text = text_behind(alloc, word, resource)?;
    text.push_str(".")?;
    text.push_str(name)?;
    Ok(text)
}
