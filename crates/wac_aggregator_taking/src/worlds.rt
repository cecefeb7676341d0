//! Worlds: taken in once what they use and export was.

ghost use Rattle.std.specs.Prelude.{◌≡◌, [], ◌∷◌, None, OnOk, MatchResult};
ghost use Rattle.wac_component.specs.Key.{Stands, world_key};
ghost use Rattle.wac_aggregator_memo.specs.Memo.{memo_of};
ghost use Rattle.wac_aggregator_taking.specs.Members.{AnswersMembers};
ghost use Rattle.wac_aggregator_taking.specs.Refused.{MayRefuse};
ghost use Rattle.wac_aggregator_taking.specs.Steps.{IsReachedFrom, AreNext, AreContentsNoted};
ghost use Rattle.wac_aggregator_taking.specs.Takes.{TakesBelow, MayTake, Takes};

use super::entering::put_world;
use super::interfaces::{has_contents, used_at};
use super::near::nth_extern;
use super::ready::take_ready;
use super::state::Merging;
use super::steps::{TakeStep, push_before, push_item, push_step};
use wac_aggregator_errors::AggregateError;
use wac_component::{Types, World, WorldId};

// Takes in what a world uses at an index, and goes on to the next; then to its exports.
pub(crate) fn take_world_uses(
    state: &mut Merging,
    types: &Types,
    steps: &mut Vec<TakeStep>,
    id: WorldId,
    next: usize,
) -> Result<(), AggregateError>
    requires source { Stands types.now (world_key id) }
    requires state { MayTake types.now state.old }
    ensures taken { MatchResult result (λ u. TakesBelow [] types.now state.old state.new (world_key id)) (MayRefuse types.now state.old (world_key id ∷ [])) }
    ensures members { AnswersMembers result types.now state.old state.new (IsReachedFrom types.now (world_key id)) }
    ensures steps { OnOk result (AreNext types.now state.new (world_key id) None steps.old.items steps.new.items) }
{
    if state.taken.world(id).is_some() {
        return Ok(());
    }
    types.sound();
    let world = &types[id];
    if next < world.uses.len() {
        let used = used_at(types, &world.uses, next)?;
        let again = TakeStep::WorldUses(id, next.saturating_add(1));
        push_before(steps, again, TakeStep::Uses(used, 0))?;
        return Ok(());
    }
    push_step(steps, TakeStep::WorldExports(id, 0))?;
    Ok(())
}

// Takes in what a world exports at an index, and goes on to the next; then the world.
pub(crate) fn take_world_exports(
    state: &mut Merging,
    types: &Types,
    steps: &mut Vec<TakeStep>,
    id: WorldId,
    next: usize,
) -> Result<(), AggregateError>
    requires source { Stands types.now (world_key id) }
    requires state { MayTake types.now state.old }
    ensures taken { MatchResult result (λ u. TakesBelow [] types.now state.old state.new (world_key id)) (MayRefuse types.now state.old (world_key id ∷ [])) }
    ensures members { AnswersMembers result types.now state.old state.new (IsReachedFrom types.now (world_key id)) }
    ensures steps { OnOk result (AreNext types.now state.new (world_key id) None steps.old.items steps.new.items) }
{
    if state.taken.world(id).is_some() {
        return Ok(());
    }
    types.sound();
    let world = &types[id];
    let at = take_ready(state, types, &world.exports, next)?;
    if at < world.exports.len() {
        push_step(steps, TakeStep::WorldExports(id, at.saturating_add(1)))?;
        push_item(steps, &nth_extern(&world.exports, at), &None)?;
        return Ok(());
    }
    if !has_contents(&state.taken, types, &world.uses, &world.exports, next) {
        push_step(steps, TakeStep::WorldUses(id, 0))?;
        return Ok(());
    }
    make_world(state, types, id)
}

// Takes in a world, once all that it uses and exports was.
fn make_world(state: &mut Merging, types: &Types, id: WorldId) -> Result<(), AggregateError>
    requires source { Stands types.now (world_key id) }
    requires state { MayTake types.now state.old }
    requires new { memo_of state.old.taken (world_key id) ≡ None }
    requires has { AreContentsNoted types.now (memo_of state.old.taken) (world_key id) }
    ensures { MatchResult result (λ u. TakesBelow [] types.now state.old state.new (world_key id)) (MayRefuse types.now state.old (world_key id ∷ [])) }
{
    types.sound();
    let World {
        id: _,
        uses,
        imports: _,
        exports,
    } = state.taken.renamed_world(&types[id])?;
    match put_world(state, types, id, uses, exports) {
        Ok(_) => Ok(()),
        Err(refusal) => Err(refusal),
    }
}
