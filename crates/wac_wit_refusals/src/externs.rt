//! Imports and exports that aren't supported.

ghost use Rattle.std.specs.Prelude.{Contains, IfSome, IsTrue, List};
ghost use Rattle.wac_wit_refusals.specs.Externs.{IsRenamed, IsRenamedBy, IsRenamedIn, IsRenamedInterface};
ghost use Rattle.wac_wit_refusals_sites.specs.Judging.{Judges};
ghost use Rattle.wac_wit_refusals_sites.specs.Sites.{HasExternIn};
ghost use Rattle.wac_wit_scopes.specs.WitSources.{WitSources};
ghost use Rattle.wac_wit_syntax.specs.declared.tree.WorldItem.{WorldItem as ItemOfWorld};

use wac_wit_refusals_sites::{Judge, is_at};
use wac_wit_syntax::{Extern, ExternItem, Span, TopItem, WorldItem};

/// Whether an interface whose path stands at this place is imported or exported under a name of
/// its own.
pub(crate) fn is_renamed_interface(judge: &Judge<'_>, file: usize, span: Span) -> bool
    ensures { IsTrue result → (of : WitSources) → Judges of judge.now → IsRenamedInterface of file span }
{
    for scope in &judge.scopes {
        if scope.file == file && is_renamed_in(judge, scope.items, span) {
            return true;
        }
    }
    false
}

fn is_renamed_in(judge: &Judge<'_>, items: &[TopItem], span: Span) -> bool
    ensures { IsTrue result → (of : WitSources) → Judges of judge.now → IsRenamedIn of items.now span }
{
    for item in items {
        if let TopItem::World(decl) = item {
            if judge.is_there(&decl.gates) && is_renamed_by(judge, &decl.items, span) {
                return true;
            }
        }
    }
    false
}

fn is_renamed_by(judge: &Judge<'_>, items: &[WorldItem], span: Span) -> bool
    ensures { IsTrue result → (of : WitSources) → Judges of judge.now → IsRenamedBy of items.now span }
{
    for item in items {
        if let Some(of) = extern_of(item) {
            if is_renamed(judge, of, span) {
                return true;
            }
        }
    }
    false
}

fn is_renamed(judge: &Judge<'_>, item: &ExternItem, span: Span) -> bool
    ensures { IsTrue result → (of : WitSources) → Judges of judge.now → IsRenamed of item.now span }
{
    match &item.what {
        Extern::Named(_, path) => judge.is_there(&item.gates) && is_at(path.span, span),
        _ => false,
    }
}

// The import or the export that an item of a world is.
fn extern_of(item: &WorldItem) -> Option<&ExternItem>
    ensures { IfSome result (λ x. (is : List ItemOfWorld) → Contains is item.now → HasExternIn is x.now) }
{
    match item {
        WorldItem::Import(it) => Some(it),
        WorldItem::Export(it) => Some(it),
        _ => None,
    }
}
