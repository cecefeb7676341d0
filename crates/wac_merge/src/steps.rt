//! The bound of two items, made from that of each two entries below them, without the machine's
//! stack.

ghost use Rattle.std.specs.Prelude.{◌≡◌, ◌≤◌, ◌+◌, ◌*◌, ◌++◌, ◌∷◌, [], IfOk, IfErr, IfSome};
ghost use Rattle.wac_component.specs.Collection.{Collection};
ghost use Rattle.wac_component.specs.Growth.{Extends};
ghost use Rattle.wac_component.specs.Key.{Stands, AllStand, item_keys, interface_key, world_key};
ghost use Rattle.wac_component.specs.Sound.{IsSound, entry_count};
ghost use Rattle.wac_component.specs.Tree.{item_tree};
ghost use Rattle.wac_merge.specs.Bounded.{KeepsFitting};
ghost use Rattle.wac_merge.specs.Built.{Builds};
ghost use Rattle.wac_merge.specs.Items.{extern_keys, extern_list};
ghost use Rattle.wac_merge.specs.Memo.{IsTrueMemo, Grows, made_of, first_key, second_key};
ghost use Rattle.wac_merge.specs.Runs.{Runs, StepsStand, IsUnderWay};
ghost use Rattle.wac_merge.specs.Told.{of_two, IsBoundIn, IsToldIn, LacksOnly, LacksStand, GoesOn};

use crate::composites::bound_entries;
use crate::entries::{exports_of, joined_side, met_side};
use crate::items::{bound_items, bound_with};
use crate::memo::{Asked, Bound, BoundMemo, BoundPair, Untold};
use crate::names::extern_named;
use indexmap::IndexMap;
use std::alloc::{AllocError, Global};
use wac_component::{InterfaceId, ItemKind, Types, WorldId};

/// Two entries whose bound is to be made, and how many of the first one's names are known to have
/// one: of those that are met, and of those that are joined.
#[derive(Clone, Copy)]
pub(crate) struct BoundStep {
    asked: Asked,
    met: usize,
    joined: usize,
}

impl BoundStep {
    // Nothing is known yet.
    fn of(asked: Asked) -> BoundStep
        ensures { result.asked ≡ asked }
    {
        BoundStep {
            asked,
            met: 0,
            joined: 0,
        }
    }
}

/// The bound of two items, if they have one. An entry is made once all is known that it needs; what
/// it lacks is made first, step by step, as far down as the types nest.
pub(crate) fn bound_of(
    alloc: Global,
    types: &mut Types,
    bound: Bound,
    a: ItemKind,
    b: ItemKind,
) -> Result<Option<ItemKind>, AllocError>
    requires left { AllStand types.old (item_keys a) }
    requires right { AllStand types.old (item_keys b) }
    ensures bound { IfOk result (IsBoundIn bound types.old types.new a b) }
    ensures kept { IfOk result (KeepsFitting (item_tree types.old a) (item_tree types.old b) (of_two bound a b) (of_two bound b a)) }
    ensures standing { IfOk result (λ m. IfSome m (λ k. AllStand types.new (item_keys k))) }
    ensures builds { Builds types.old types.new a b result }
    ensures grows { Extends types.old types.new }
    ensures bounded { entry_count types.new ≤ entry_count types.old + 2 * entry_count types.old * entry_count types.old }
{
    let mut memo = BoundMemo::new(alloc);
    let mut steps = Vec::new(alloc);
    take_steps(types, &mut memo, &mut steps, bound, a, b)
}

// Takes steps until the bound of the items is told. Each turn notes an answer or adds a step: memory
// ends long before the turns do.
fn take_steps(
    types: &mut Types,
    memo: &mut BoundMemo,
    steps: &mut Vec<BoundStep>,
    bound: Bound,
    a: ItemKind,
    b: ItemKind,
) -> Result<Option<ItemKind>, AllocError>
    requires left { AllStand types.old (item_keys a) }
    requires right { AllStand types.old (item_keys b) }
    requires memo { IsTrueMemo types.old memo.old }
    requires new { made_of memo.old ≡ [] }
    requires no_steps { steps.old.items ≡ [] }
    ensures bound { IfOk result (IsBoundIn bound types.old types.new a b) }
    ensures kept { IfOk result (KeepsFitting (item_tree types.old a) (item_tree types.old b) (of_two bound a b) (of_two bound b a)) }
    ensures standing { IfOk result (λ m. IfSome m (λ k. AllStand types.new (item_keys k))) }
    ensures builds { Builds types.old types.new a b result }
    ensures grows { Extends types.old types.new }
    ensures bounded { entry_count types.new ≤ entry_count types.old + 2 * entry_count types.old * entry_count types.old }
{
    types.sound();
    for _turn in 0..u64::MAX {
        if let Some(told) = turn(types, memo, steps, bound, &a, &b)? {
            return Ok(told);
        }
    }
    Err(AllocError)
}

/// The meet of two items, if they have one, while more and more is known of what was built from a
/// collection on. Turns are taken as for a bound.
pub(crate) fn tell(
    types: &mut Types,
    memo: &mut BoundMemo,
    steps: &mut Vec<BoundStep>,
    a: ItemKind,
    b: ItemKind,
) -> Result<Option<ItemKind>, AllocError>
    requires way { (c : Collection) × IsSound c × AllStand c (item_keys a ++ item_keys b) × IsUnderWay c types.old memo.old }
    requires no_steps { steps.old.items ≡ [] }
    ensures told { IfOk result (IsToldIn Bound.Meet types.new memo.new a b) }
    ensures way { (c : Collection) → IsSound c → AllStand c (item_keys a ++ item_keys b) → IsUnderWay c types.old memo.old → IsUnderWay c types.new memo.new }
    ensures grows { Extends types.old types.new }
{
    for _turn in 0..u64::MAX {
        if let Some(told) = turn(types, memo, steps, Bound::Meet, &a, &b)? {
            return Ok(told);
        }
    }
    Err(AllocError)
}

// Takes the last step, or asks for the bound of the items where there is none.
fn turn(
    types: &mut Types,
    memo: &mut BoundMemo,
    steps: &mut Vec<BoundStep>,
    bound: Bound,
    a: &ItemKind,
    b: &ItemKind,
) -> Result<Option<Option<ItemKind>>, AllocError>
    requires left { AllStand types.old (item_keys a.now) }
    requires right { AllStand types.old (item_keys b.now) }
    requires memo { IsTrueMemo types.old memo.old }
    requires steps { StepsStand types.old steps.old.items }
    ensures goes_on { GoesOn (item_keys a.now ++ item_keys b.now) types.old memo.old steps.old.items types.new memo.new steps.new.items }
    ensures told { IfOk result (λ r. IfSome r (IsToldIn bound types.new memo.new a.now b.now)) }
    ensures extends { Extends types.old types.new }
{
    match steps.pop() {
        Some(step) => {
            take(types, memo, steps, step)?;
            Ok(None)
        }
        None => ask(types, memo, steps, bound, a, b),
    }
}

// Asks for the bound of the items, and puts what that lacks as the first step.
fn ask(
    types: &Types,
    memo: &mut BoundMemo,
    steps: &mut Vec<BoundStep>,
    bound: Bound,
    a: &ItemKind,
    b: &ItemKind,
) -> Result<Option<Option<ItemKind>>, AllocError>
    requires left { AllStand types.now (item_keys a.now) }
    requires right { AllStand types.now (item_keys b.now) }
    requires memo { IsTrueMemo types.now memo.old }
    ensures goes_on { GoesOn (item_keys a.now ++ item_keys b.now) types.now memo.old steps.old.items types.now memo.new steps.new.items }
    ensures told { IfOk result (λ r. IfSome r (IsToldIn bound types.now memo.new a.now b.now)) }
{
    match bound_items(types, memo, bound, *a, *b) {
        Ok(found) => Ok(Some(found)),
        Err(untold) => {
            push_lacking(steps, &untold)?;
            Ok(None)
        }
    }
}

// Takes a step, or puts it back, with what it lacks behind it.
fn take(
    types: &mut Types,
    memo: &mut BoundMemo,
    steps: &mut Vec<BoundStep>,
    step: BoundStep,
) -> Result<(), AllocError>
    requires entries { AllStand types.old (first_key step.asked.pair ∷ second_key step.asked.pair ∷ []) }
    requires memo { IsTrueMemo types.old memo.old }
    ensures goes_on { GoesOn (first_key step.asked.pair ∷ second_key step.asked.pair ∷ []) types.old memo.old steps.old.items types.new memo.new steps.new.items }
    ensures extends { Extends types.old types.new }
{
    let mut step = step;
    match take_step(types, memo, &mut step) {
        Ok(()) => Ok(()),
        Err(untold) => {
            push_step(steps, &step)?;
            push_lacking(steps, &untold)
        }
    }
}

// Puts a step last.
fn push_step(steps: &mut Vec<BoundStep>, step: &BoundStep) -> Result<(), AllocError>
    ensures { (c : Collection) → AllStand c (first_key step.now.asked.pair ∷ second_key step.now.asked.pair ∷ []) → StepsStand c steps.old.items → StepsStand c steps.new.items }
{
    let Asked { bound, pair } = step.asked;
    let asked = Asked { bound, pair };
    let (met, joined) = (step.met, step.joined);
    match steps.push(BoundStep { asked, met, joined }) {
        Ok(()) => Ok(()),
        Err(_) => Err(AllocError),
    }
}

// Puts what is lacking last.
fn push_lacking(steps: &mut Vec<BoundStep>, untold: &Untold) -> Result<(), AllocError>
    ensures { (c : Collection) → LacksStand c untold.now → StepsStand c steps.old.items → StepsStand c steps.new.items }
{
    match untold {
        Untold::Memory => Err(AllocError),
        Untold::Lacks(asked) => push_step(steps, &BoundStep::of(*asked)),
    }
}

// Makes the bound of a step's entries, once all is known that it needs.
fn take_step(types: &mut Types, memo: &mut BoundMemo, step: &mut BoundStep) -> Result<(), Untold>
    requires entries { AllStand types.old (first_key step.old.asked.pair ∷ second_key step.old.asked.pair ∷ []) }
    requires memo { IsTrueMemo types.old memo.old }
    ensures grows { Grows types.old memo.old types.new memo.new }
    ensures built { Runs (first_key step.old.asked.pair ∷ second_key step.old.asked.pair ∷ []) types.old (made_of memo.old) types.new (made_of memo.new) }
    ensures lacks { IfErr result (LacksOnly types.old (first_key step.old.asked.pair ∷ second_key step.old.asked.pair ∷ [])) }
    ensures asked { step.new.asked ≡ step.old.asked }
{
    types.sound();
    match seek(types, memo, step) {
        Ok(()) => bound_entries(types, memo, step.asked),
        Err(untold) => Err(untold),
    }
}

// Looks for what the bound of a step's entries lacks, from where it was found the last time on.
fn seek(types: &Types, memo: &mut BoundMemo, step: &mut BoundStep) -> Result<(), Untold>
    requires sound { IsSound types.now }
    requires entries { AllStand types.now (first_key step.old.asked.pair ∷ second_key step.old.asked.pair ∷ []) }
    requires memo { IsTrueMemo types.now memo.old }
    ensures memo { IsTrueMemo types.now memo.new }
    ensures made { made_of memo.new ≡ made_of memo.old }
    ensures lacks { IfErr result (LacksOnly types.now (first_key step.old.asked.pair ∷ second_key step.old.asked.pair ∷ [])) }
    ensures asked { step.new.asked ≡ step.old.asked }
{
    let Asked { bound, pair } = step.asked;
    match &pair {
        BoundPair::Interfaces(x, y) => seek_exports(types, memo, bound, *x, *y, &mut step.met),
        BoundPair::Worlds(x, y) => seek_sides(types, memo, bound, *x, *y, step),
        BoundPair::Modules(_, _) => Ok(()),
    }
}

// The same of what two interfaces export.
fn seek_exports(
    types: &Types,
    memo: &mut BoundMemo,
    bound: Bound,
    x: InterfaceId,
    y: InterfaceId,
    known: &mut usize,
) -> Result<(), Untold>
    requires sound { IsSound types.now }
    requires left { Stands types.now (interface_key x) }
    requires right { Stands types.now (interface_key y) }
    requires memo { IsTrueMemo types.now memo.old }
    ensures memo { IsTrueMemo types.now memo.new }
    ensures made { made_of memo.new ≡ made_of memo.old }
    ensures lacks { IfErr result (LacksOnly types.now (interface_key x ∷ interface_key y ∷ [])) }
{
    let (first, second) = (exports_of(types, x), exports_of(types, y));
    match seek_in(types, memo, bound, first, second, known) {
        Ok(_) => Ok(()),
        Err(untold) => Err(untold),
    }
}

// The same of what two worlds import and export, first of what is met: where that clashes, the
// worlds have no bound.
fn seek_sides(
    types: &Types,
    memo: &mut BoundMemo,
    bound: Bound,
    x: WorldId,
    y: WorldId,
    step: &mut BoundStep,
) -> Result<(), Untold>
    requires sound { IsSound types.now }
    requires left { Stands types.now (world_key x) }
    requires right { Stands types.now (world_key y) }
    requires memo { IsTrueMemo types.now memo.old }
    ensures memo { IsTrueMemo types.now memo.new }
    ensures made { made_of memo.new ≡ made_of memo.old }
    ensures lacks { IfErr result (LacksOnly types.now (world_key x ∷ world_key y ∷ [])) }
    ensures asked { step.new.asked ≡ step.old.asked }
{
    let (first, second) = (met_side(types, bound, x), met_side(types, bound, y));
    match seek_in(types, memo, Bound::Meet, first, second, &mut step.met) {
        Ok(true) => {}
        Ok(false) => return Ok(()),
        Err(untold) => return Err(untold),
    }
    let (first, second) = (joined_side(types, bound, x), joined_side(types, bound, y));
    match seek_in(types, memo, Bound::Join, first, second, &mut step.joined) {
        Ok(_) => Ok(()),
        Err(untold) => Err(untold),
    }
}

// Looks for it under the names of the first side, and says whether none of them is without a meet
// that needs one.
fn seek_in(
    types: &Types,
    memo: &mut BoundMemo,
    bound: Bound,
    first: &IndexMap<String, ItemKind>,
    second: &IndexMap<String, ItemKind>,
    known: &mut usize,
) -> Result<bool, Untold>
    requires left { AllStand types.now (extern_keys (extern_list first.now)) }
    requires right { AllStand types.now (extern_keys (extern_list second.now)) }
    requires memo { IsTrueMemo types.now memo.old }
    ensures memo { IsTrueMemo types.now memo.new }
    ensures made { made_of memo.new ≡ made_of memo.old }
    ensures lacks { IfErr result (LacksOnly types.now (extern_keys (extern_list first.now) ++ extern_keys (extern_list second.now))) }
{
    for at in *known..first.len() {
        match seek_at(types, memo, bound, first, second, at) {
            Ok(is_bound) if is_bound || bound == Bound::Join => *known = at.saturating_add(1),
            told => return told,
        }
    }
    Ok(true)
}

// Whether what the first side has at an index has a bound with what the second has under its name.
fn seek_at(
    types: &Types,
    memo: &mut BoundMemo,
    bound: Bound,
    first: &IndexMap<String, ItemKind>,
    second: &IndexMap<String, ItemKind>,
    at: usize,
) -> Result<bool, Untold>
    requires left { AllStand types.now (extern_keys (extern_list first.now)) }
    requires right { AllStand types.now (extern_keys (extern_list second.now)) }
    requires memo { IsTrueMemo types.now memo.old }
    ensures memo { IsTrueMemo types.now memo.new }
    ensures made { made_of memo.new ≡ made_of memo.old }
    ensures lacks { IfErr result (LacksOnly types.now (extern_keys (extern_list first.now) ++ extern_keys (extern_list second.now))) }
{
    let Some((name, a)) = first.get_index(at) else {
        return Ok(true);
    };
    match bound_with(types, memo, bound, *a, extern_named(second, name)) {
        Ok(found) => Ok(found.is_some()),
        Err(untold) => Err(untold),
    }
}
