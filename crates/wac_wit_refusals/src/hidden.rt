//! Types that are there in interfaces that features hide.

ghost use Rattle.std.specs.Prelude.{◌≡◌, Contains, IsTrue};
ghost use Rattle.wac_wit_refusals.specs.Attributes.{HasTypeOfHidden, HasTypeThere, IsTypeOfHidden, IsTypeThere};
ghost use Rattle.wac_wit_refusals_sites.specs.Judging.{Judges};
ghost use Rattle.wac_wit_scopes.specs.WitSources.{WitSources};
ghost use Rattle.wac_wit_syntax.specs.declared.tree.Rename.{Rename as RenameOf};

use wac_wit_refusals_sites::{Judge, is_at};
use wac_wit_syntax::{InterfaceItem, Rename, Span, TopItem};

/// Whether the type at this place doesn't need the feature that its interface needs.
pub(crate) fn is_type_of_hidden(judge: &Judge<'_>, file: usize, span: Span) -> bool
    ensures { IsTrue result → (of : WitSources) → Judges of judge.now → IsTypeOfHidden of file span }
{
    for scope in &judge.scopes {
        if scope.file == file && has_type_of_hidden(judge, scope.items, span) {
            return true;
        }
    }
    false
}

fn has_type_of_hidden(judge: &Judge<'_>, items: &[TopItem], span: Span) -> bool
    ensures { IsTrue result → (of : WitSources) → Judges of judge.now → HasTypeOfHidden of items.now span }
{
    for item in items {
        if let TopItem::Interface(decl) = item {
            if !judge.is_there(&decl.gates) && has_type_there(judge, &decl.items, span) {
                return true;
            }
        }
    }
    false
}

fn has_type_there(judge: &Judge<'_>, items: &[InterfaceItem], span: Span) -> bool
    ensures { IsTrue result → (of : WitSources) → Judges of judge.now → HasTypeThere of items.now span }
{
    for item in items {
        if is_type_there(judge, item, span) {
            return true;
        }
    }
    false
}

fn is_type_there(judge: &Judge<'_>, item: &InterfaceItem, span: Span) -> bool
    ensures { IsTrue result → (of : WitSources) → Judges of judge.now → IsTypeThere of item.now span }
{
    match item {
        InterfaceItem::Use(it) => judge.is_there(&it.gates) && is_name_at(&it.names, span),
        InterfaceItem::Type(it) => judge.is_there(&it.gates) && is_at(it.name.span, span),
        InterfaceItem::Func(_) => false,
    }
}

// Whether one of the names stands at a place.
fn is_name_at(names: &[Rename], span: Span) -> bool
    ensures { IsTrue result → (r : RenameOf) × Contains names.now r × (r.name.span ≡ span) }
{
    for rename in names {
        if is_at(rename.name.span, span) {
            return true;
        }
    }
    false
}
