//! Types and functions that are exported, and types that are used.

ghost use Rattle.std.specs.Prelude.{[], Contains, IfSome, IsTrue, Some};
ghost use Rattle.wac_wit_syntax.specs.declared.tree.Rename.{Rename as Renamed};
ghost use Rattle.wac_wit_validation_types.specs.Exports.{Brings, BringsAll, HasItem, HasTypeItem, IsFuncBehind, MarksBrought, MarksDefined, MarksExports, named_items};
ghost use Rattle.wac_wit_validation_types.specs.Denoted.{Setting};
ghost use Rattle.wac_wit_validation_types.specs.Functions.{IsFuncOf};
ghost use Rattle.wac_wit_scopes.specs.WitSources.{IsEnabled, given_name, ident_text};

use super::names::{NamedTypes, local_name};
use super::progress::ExportMarks;
use super::typedefs::{is_same_type, is_spelled};
use wac_component::{ItemKind, Type};
use wac_wit_syntax::{FuncItem, Rename, TypeItem};

/// The type that is defined, if it is as it is written.
pub fn is_typedef<'n>(
    names: &NamedTypes<'n>,
    progress: &mut ExportMarks,
    item: &TypeItem,
) -> Option<&'n Type>
    ensures marks { IfSome result (λ of. (s : Setting) → MarksDefined s names.now item.now progress.old progress.new) }
    ensures named { IfSome result (λ of. HasTypeItem (named_items names.now) (ident_text item.now.name)) }
{
    let (index, of) = names.type_at(&item.name)?;
    progress.mark(index);
    if !names.up_to(index).is_defined(item, of) {
        return None;
    }
    Some(of)
}

/// Whether the next function is the one that is written.
pub fn is_next_func(names: &NamedTypes<'_>, progress: &mut ExportMarks, item: &FuncItem) -> bool
    ensures marks { IsTrue result → (s : Setting) → Contains s.funcs item.now → IsEnabled s.sources item.now.gates → MarksExports s names.now progress.old progress.new }
    ensures covers { IsTrue result → HasItem (named_items names.now) (ident_text item.now.name) }
{
    let index = progress.next_func;
    progress.next_func = index.saturating_add(1);
    progress.mark(index);
    let Some((name, of)) = names.items.get_index(index) else {
        return false;
    };
    is_spelled(&item.name, name) && is_func_item(names, index, of, item)
}

// Whether an item is the function that is written, by the names before it.
fn is_func_item(names: &NamedTypes<'_>, index: usize, of: &ItemKind, item: &FuncItem) -> bool
    ensures { IsTrue result → (s : Setting) → IsFuncBehind s names.now index of.now (IsFuncOf s item.now.signature [] (λ r. r)) }
{
    match of {
        ItemKind::Func(id) => names.up_to(index).is_func(&item.signature, id),
        _ => false,
    }
}

/// Whether types are those that are used.
pub fn are_used(
    names: &NamedTypes<'_>,
    progress: &mut ExportMarks,
    from: &NamedTypes<'_>,
    renames: &[Rename],
) -> bool
    ensures marks { IsTrue result → MarksBrought names.now from.now (λ s f. BringsAll s f renames.now) progress.old progress.new }
    ensures covers { IsTrue result → (r : Renamed) → Contains renames.now r → HasTypeItem (named_items names.now) (given_name r.name r.alias) }
{
    for rename in renames {
        if !is_used(names, progress, from, rename) {
            return false;
        }
    }
    true
}

// Whether a type is the one that is used.
fn is_used(
    names: &NamedTypes<'_>,
    progress: &mut ExportMarks,
    from: &NamedTypes<'_>,
    rename: &Rename,
) -> bool
    ensures marks { IsTrue result → MarksBrought names.now from.now (λ s f. Brings s f rename.now) progress.old progress.new }
    ensures covers { IsTrue result → HasTypeItem (named_items names.now) (given_name rename.now.name rename.now.alias) }
{
    let Some((index, of)) = names.type_at(local_name(rename)) else {
        return false;
    };
    progress.mark(index);
    match from.named(&rename.name) {
        Some(used) => is_same_type(names.types, used, of),
        None => false,
    }
}
