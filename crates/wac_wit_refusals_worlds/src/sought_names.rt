//! Names that a world lacks, with all that it includes.

ghost use Rattle.std.specs.Prelude.{◌≡◌, ◌↔◌, All, IfOk, IsTrue, OnOk, false};
ghost use Rattle.wac_wit_refusals_sites.specs.Judging.{Judges};
ghost use Rattle.wac_wit_refusals_worlds.specs.IncludeSteps.{AllIncludesLack, HasNoNewName, IncludeLacksSought, IsLacking, ItemLacksSought, LacksWith, NewNameLacks, RenamedLack};
ghost use Rattle.wac_wit_refusals_worlds.specs.Includes.{GivesPlainName, IsNamedExtern, IsWorldItemEnabled, LacksPlainName};
ghost use Rattle.wac_wit_scopes.specs.WitSources.{WitSources, ident_text};

use super::worlds::{MAX_WORLDS, PlacedWorld, world_led_to};
use std::alloc::AllocError;
use wac_wit_refusals_sites::{Judge, gives, local_name, takes};
use wac_wit_syntax::{Extern, Ident, IncludeItem, Rename, WorldItem};

/// A name that is looked for in a world.
#[derive(Clone, Copy)]
pub(crate) struct SoughtName<'j> {
    pub(crate) world: PlacedWorld<'j>,
    pub(crate) name: &'j Ident,
}

/// Whether a world has no import and no export of a name of its own, with all that it includes.
pub(crate) fn lacks_name<'j>(
    judge: &Judge<'j>,
    sought: &SoughtName<'j>,
    left: &mut usize,
) -> Result<bool, AllocError>
    ensures { IfOk result (λ is. IsTrue is → (of : WitSources) → Judges of judge.now → IsLacking of sought.now) }
{
    let mut all = Vec::new(judge.alloc);
    all.push(*sought)?;
    for _ in 0..MAX_WORLDS {
        let Some(next) = all.pop() else {
            return Ok(true);
        };
        if !takes(left, next.world.items.len()) {
            return Ok(false);
        }
        if !lacks_plain_name(judge, next.world.items, next.name) {
            return Ok(false);
        }
        if !seek_included(judge, &mut all, &next)? {
            return Ok(false);
        }
    }
    Ok(false)
}

// Puts last what is to be looked for in the worlds that a world includes.
fn seek_included<'j>(
    judge: &Judge<'j>,
    all: &mut Vec<SoughtName<'j>>,
    from: &SoughtName<'j>,
) -> Result<bool, AllocError>
    ensures { IfOk result (λ is. IsTrue is → (of : WitSources) → Judges of judge.now → LacksWith of all.old.items all.new.items (AllIncludesLack of from.now)) }
{
    for item in from.world.items {
        if !seek_by_item(judge, all, from, item)? {
            return Ok(false);
        }
    }
    Ok(true)
}

fn seek_by_item<'j>(
    judge: &Judge<'j>,
    all: &mut Vec<SoughtName<'j>>,
    from: &SoughtName<'j>,
    item: &'j WorldItem,
) -> Result<bool, AllocError>
    ensures { IfOk result (λ is. IsTrue is → (of : WitSources) → Judges of judge.now → LacksWith of all.old.items all.new.items (ItemLacksSought of from.now item.now)) }
{
    match item {
        WorldItem::Include(it) if judge.is_there(&it.gates) => {
            seek_by_include(judge, all, from, it)
        }
        _ => Ok(true),
    }
}

fn seek_by_include<'j>(
    judge: &Judge<'j>,
    all: &mut Vec<SoughtName<'j>>,
    from: &SoughtName<'j>,
    item: &'j IncludeItem,
) -> Result<bool, AllocError>
    ensures { IfOk result (λ is. IsTrue is → (of : WitSources) → Judges of judge.now → LacksWith of all.old.items all.new.items (IncludeLacksSought of from.now item.now)) }
{
    match world_led_to(judge, &from.world.scope, &item.path)? {
        Some(world) => {
            push_renamed(all, &world, &item.renames, from.name)?;
            Ok(true)
        }
        None => Ok(false),
    }
}

// Whether no item of a world gives a name of its own.
fn lacks_plain_name(judge: &Judge<'_>, items: &[WorldItem], name: &Ident) -> bool
    ensures { IsTrue result → (of : WitSources) → Judges of judge.now → LacksPlainName of items.now (ident_text name.now) }
{
    for item in items {
        if gives_plain_name(item, name) && is_world_item_there(judge, item) {
            return false;
        }
    }
    true
}

fn is_world_item_there(judge: &Judge<'_>, item: &WorldItem) -> bool
    ensures { (of : WitSources) → Judges of judge.now → IsTrue result ↔ IsWorldItemEnabled of item.now }
{
    match item {
        WorldItem::Use(it) => judge.is_there(&it.gates),
        WorldItem::Type(it) => judge.is_there(&it.gates),
        WorldItem::Include(it) => judge.is_there(&it.gates),
        WorldItem::Import(it) => judge.is_there(&it.gates),
        WorldItem::Export(it) => judge.is_there(&it.gates),
    }
}

// Puts last what becomes a name by new names, or stays that, to be looked for in a world.
fn push_renamed<'j>(
    all: &mut Vec<SoughtName<'j>>,
    world: &PlacedWorld<'j>,
    renames: &'j [Rename],
    name: &'j Ident,
) -> Result<(), AllocError>
    ensures { OnOk result ((of : WitSources) → LacksWith of all.old.items all.new.items (RenamedLack of world.now renames.now (ident_text name.now))) }
{
    push_new_names(all, world, renames, name)?;
    if !is_renamed(renames, name) {
        all.push(SoughtName {
            world: *world,
            name,
        })?;
    }
    Ok(())
}

fn push_new_names<'j>(
    all: &mut Vec<SoughtName<'j>>,
    world: &PlacedWorld<'j>,
    renames: &'j [Rename],
    name: &Ident,
) -> Result<(), AllocError>
    ensures { OnOk result ((of : WitSources) → LacksWith of all.old.items all.new.items (All (NewNameLacks of world.now (ident_text name.now)) renames.now)) }
{
    for rename in renames {
        if local_name(rename).name == name.name {
            all.push(SoughtName {
                world: *world,
                name: &rename.name,
            })?;
        }
    }
    Ok(())
}

// Whether a name becomes another.
fn is_renamed(renames: &[Rename], name: &Ident) -> bool
    ensures kept { result ≡ false → HasNoNewName renames.now name.now }
    ensures renamed { IsTrue result → HasNoNewName renames.now name.now → ⊥ }
{
    for rename in renames {
        if rename.name.name == name.name {
            return true;
        }
    }
    false
}

fn gives_plain_name(item: &WorldItem, name: &Ident) -> bool
    ensures { IsTrue result ↔ GivesPlainName item.now (ident_text name.now) }
{
    match item {
        WorldItem::Use(it) => gives(it, name),
        WorldItem::Type(it) => it.name.name == name.name,
        WorldItem::Include(_) => false,
        WorldItem::Import(it) => has_plain_name(&it.what, name),
        WorldItem::Export(it) => has_plain_name(&it.what, name),
    }
}

fn has_plain_name(what: &Extern, name: &Ident) -> bool
    ensures { IsTrue result ↔ IsNamedExtern what.now (ident_text name.now) }
{
    match what {
        Extern::Path(_) => false,
        Extern::Func(of, _) => of.name == name.name,
        Extern::Inline(of, _) => of.name == name.name,
        Extern::Named(of, _) => of.name == name.name,
    }
}
