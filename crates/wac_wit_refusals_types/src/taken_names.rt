//! Names that may stand once.

ghost use Rattle.std.specs.Prelude.{◌≡◌, IfOk, IfSome, IsTrue, OnOk};
ghost use Rattle.wac_wit_refusals_sites.specs.Judging.{Judges, body_syntax};
ghost use Rattle.wac_wit_refusals_sites.specs.Sites.{BodySyntax, interface_items, world_items};
ghost use Rattle.wac_wit_refusals_sites.specs.TypeLists.{AreTypesOf, AreUseItemsOf};
ghost use Rattle.wac_wit_refusals_types.specs.NamesTwice.{HasPlainName, TakesBareName, TakesCaseName, TakesExportName, TakesFieldName, TakesMemberName, TakesName};
ghost use Rattle.wac_wit_refusals_types.specs.TypeSteps.{AddsItemNames, AreTaken, AreTwice, IsTakenAgain, IsUsedThere, StandsTwice};
ghost use Rattle.wac_wit_scopes.specs.WitSources.{IsEnabled, WitSources};

use std::alloc::{AllocError, Global};
use wac_wit_refusals_sites::{
    Body, Judge, PlacedType, PlacedUse, is_at, local_name, types_of, uses_of,
};
use wac_wit_syntax::{
    Case, Extern, ExternItem, Field, Ident, InterfaceItem, Rename, Signature, Span, TypeDef,
    WorldItem,
};

/// A name that may stand once.
#[derive(Clone, Copy)]
pub struct TakenName<'t> {
    /// The index of the item that gives it.
    pub item: usize,
    /// Its index there.
    pub part: usize,
    /// The name.
    pub name: &'t Ident,
}

impl<'t> TakenName<'t> {
    // The only name that an item gives.
    fn of_item(item: usize, name: &'t Ident) -> TakenName<'t>
        ensures item { result.item ≡ item }
        ensures part { result.part ≡ 0 }
        ensures name { result.name.now ≡ name.now }
    {
        TakenName {
            item,
            part: 0,
            name,
        }
    }
}

/// Whether a name that stands at a place stands elsewhere too.
pub(crate) fn stands_twice(names: &[TakenName<'_>], span: Span) -> bool
    ensures { IsTrue result → StandsTwice names.now span }
{
    for taken in names {
        if is_at(taken.name.span, span) && is_taken_again(names, taken) {
            return true;
        }
    }
    false
}

fn is_taken_again(names: &[TakenName<'_>], taken: &TakenName<'_>) -> bool
    ensures { IsTrue result → IsTakenAgain names.now taken.now }
{
    for other in names {
        if are_twice(taken, other) {
            return true;
        }
    }
    false
}

fn are_twice(taken: &TakenName<'_>, other: &TakenName<'_>) -> bool
    ensures { IsTrue result → AreTwice taken.now other.now }
{
    is_apart(taken.item, taken.part, other.item, other.part)
        && taken.name.name.eq_ignore_ascii_case(&other.name.name)
}

/// Whether two places differ, given by the indices of items and indices in these.
pub(crate) fn is_apart(item: usize, part: usize, other_item: usize, other_part: usize) -> bool
    ensures { IsTrue result → item ≡ other_item → part ≡ other_part → ⊥ }
{
    item != other_item || part != other_part
}

/// The names of types and of functions of an interface, or of types and of imports of a world.
pub fn item_names<'j>(judge: &Judge<'j>, body: &Body<'j>) -> Result<Vec<TakenName<'j>>, AllocError>
    ensures { IfOk result (λ ns. (of : WitSources) → Judges of judge.now → AreTaken (TakesName of (body_syntax body.now)) ns.items) }
{
    let mut names = Vec::new(judge.alloc);
    push_type_names(judge, &mut names, &types_of(judge.alloc, body)?)?;
    push_uses_names(judge, &mut names, &uses_of(judge.alloc, body)?)?;
    match body {
        Body::Interface(items) => push_func_names(judge, &mut names, items)?,
        Body::World(items) => push_import_names(judge, &mut names, items)?,
    }
    Ok(names)
}

fn push_type_names<'j>(
    judge: &Judge<'j>,
    names: &mut Vec<TakenName<'j>>,
    types: &[PlacedType<'j>],
) -> Result<(), AllocError>
    ensures { OnOk result ((of : WitSources) (b : BodySyntax) → Judges of judge.now → AreTypesOf b types.now → AddsItemNames of b names.old.items names.new.items) }
{
    for placed in types {
        if judge.is_there(&placed.ty.gates) {
            names.push(TakenName::of_item(placed.item, &placed.ty.name))?;
        }
    }
    Ok(())
}

fn push_uses_names<'j>(
    judge: &Judge<'j>,
    names: &mut Vec<TakenName<'j>>,
    uses: &[PlacedUse<'j>],
) -> Result<(), AllocError>
    ensures { OnOk result ((of : WitSources) (b : BodySyntax) → Judges of judge.now → AreUseItemsOf b uses.now → AddsItemNames of b names.old.items names.new.items) }
{
    for placed in uses {
        if judge.is_there(&placed.used.gates) {
            push_used_names(names, placed.item, &placed.used.names)?;
        }
    }
    Ok(())
}

fn push_func_names<'j>(
    judge: &Judge<'j>,
    names: &mut Vec<TakenName<'j>>,
    items: &'j [InterfaceItem],
) -> Result<(), AllocError>
    ensures { OnOk result ((of : WitSources) → Judges of judge.now → AddsItemNames of (interface_items items.now) names.old.items names.new.items) }
{
    for (index, item) in items.iter().enumerate() {
        if let InterfaceItem::Func(it) = item
            && judge.is_there(&it.gates)
        {
            names.push(TakenName::of_item(index, &it.name))?;
        }
    }
    Ok(())
}

fn push_import_names<'j>(
    judge: &Judge<'j>,
    names: &mut Vec<TakenName<'j>>,
    items: &'j [WorldItem],
) -> Result<(), AllocError>
    ensures { OnOk result ((of : WitSources) → Judges of judge.now → AddsItemNames of (world_items items.now) names.old.items names.new.items) }
{
    for (index, item) in items.iter().enumerate() {
        if let WorldItem::Import(it) = item
            && let Some(name) = plain_name(judge, it)
        {
            names.push(TakenName::of_item(index, name))?;
        }
    }
    Ok(())
}

/// The names of exports of a world.
pub fn export_names<'j>(
    judge: &Judge<'j>,
    body: &Body<'j>,
) -> Result<Vec<TakenName<'j>>, AllocError>
    ensures { IfOk result (λ ns. (of : WitSources) → Judges of judge.now → AreTaken (TakesExportName of (body_syntax body.now)) ns.items) }
{
    match body {
        Body::Interface(_) => Ok(Vec::new(judge.alloc)),
        Body::World(items) => world_export_names(judge, items),
    }
}

fn world_export_names<'j>(
    judge: &Judge<'j>,
    items: &'j [WorldItem],
) -> Result<Vec<TakenName<'j>>, AllocError>
    ensures { IfOk result (λ ns. (of : WitSources) → Judges of judge.now → AreTaken (TakesExportName of (world_items items.now)) ns.items) }
{
    let mut names = Vec::new(judge.alloc);
    for (index, item) in items.iter().enumerate() {
        if let WorldItem::Export(it) = item
            && let Some(name) = plain_name(judge, it)
        {
            names.push(TakenName::of_item(index, name))?;
        }
    }
    Ok(names)
}

// The name of its own that an import or an export has, if it is there.
fn plain_name<'x>(judge: &Judge<'_>, item: &'x ExternItem) -> Option<&'x Ident>
    ensures there { IfSome result (λ n. (of : WitSources) → Judges of judge.now → IsEnabled of item.now.gates) }
    ensures has { IfSome result (λ n. HasPlainName item.now.what n.now) }
{
    if !judge.is_there(&item.gates) {
        return None;
    }
    plain_name_of(&item.what)
}

fn plain_name_of(what: &Extern) -> Option<&Ident>
    ensures { IfSome result (λ n. HasPlainName what.now n.now) }
{
    match what {
        Extern::Func(name, _) => Some(name),
        Extern::Inline(name, _) => Some(name),
        _ => None,
    }
}

fn push_used_names<'t>(
    names: &mut Vec<TakenName<'t>>,
    item: usize,
    used: &'t [Rename],
) -> Result<(), AllocError>
    ensures { OnOk result ((of : WitSources) (b : BodySyntax) → IsUsedThere of b item used.now → AddsItemNames of b names.old.items names.new.items) }
{
    for (part, rename) in used.iter().enumerate() {
        names.push(TakenName {
            item,
            part,
            name: local_name(rename),
        })?;
    }
    Ok(())
}

/// The names of fields, of cases, of flags, or in an enum.
pub(crate) fn member_names<'t>(
    alloc: Global,
    def: &'t TypeDef,
) -> Result<Vec<TakenName<'t>>, AllocError>
    ensures { IfOk result (λ ns. AreTaken (TakesMemberName def.now) ns.items) }
{
    match def {
        TypeDef::Record(fields) => names_of_fields(alloc, fields),
        TypeDef::Variant(cases) => names_of_cases(alloc, cases),
        TypeDef::Flags(names) => names_in(alloc, names),
        TypeDef::Enum(names) => names_in(alloc, names),
        _ => Ok(Vec::new(alloc)),
    }
}

/// The names of parameters.
pub(crate) fn param_names<'t>(
    alloc: Global,
    signature: &'t Signature,
) -> Result<Vec<TakenName<'t>>, AllocError>
    ensures { IfOk result (λ ns. AreTaken (TakesFieldName signature.now.params.items) ns.items) }
{
    names_of_fields(alloc, &signature.params)
}

fn names_of_fields<'t>(alloc: Global, fields: &'t [Field]) -> Result<Vec<TakenName<'t>>, AllocError>
    ensures { IfOk result (λ ns. AreTaken (TakesFieldName fields.now) ns.items) }
{
    let mut names = Vec::new(alloc);
    for (index, field) in fields.iter().enumerate() {
        names.push(TakenName::of_item(index, &field.name))?;
    }
    Ok(names)
}

fn names_of_cases<'t>(alloc: Global, cases: &'t [Case]) -> Result<Vec<TakenName<'t>>, AllocError>
    ensures { IfOk result (λ ns. AreTaken (TakesCaseName cases.now) ns.items) }
{
    let mut names = Vec::new(alloc);
    for (index, case) in cases.iter().enumerate() {
        names.push(TakenName::of_item(index, &case.name))?;
    }
    Ok(names)
}

fn names_in<'t>(alloc: Global, idents: &'t [Ident]) -> Result<Vec<TakenName<'t>>, AllocError>
    ensures { IfOk result (λ ns. AreTaken (TakesBareName idents.now) ns.items) }
{
    let mut names = Vec::new(alloc);
    for (index, name) in idents.iter().enumerate() {
        names.push(TakenName::of_item(index, name))?;
    }
    Ok(names)
}
