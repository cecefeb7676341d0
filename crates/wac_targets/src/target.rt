//! The validation of a component against a target world.

ghost use Rattle.std.specs.Prelude.{◌≡◌, ◌∷◌, [], Ok, IfOk, IfErr, OnOk};
ghost use Rattle.std.specs.List.{All};
ghost use Rattle.wac_component.specs.Implicit.{used_interfaces, HasIdentifier, IsUntold};
ghost use Rattle.wac_component.specs.Key.{Stands, AllStand, world_key, world_keys};
ghost use Rattle.wac_component.specs.Content.{world_content};
ghost use Rattle.wac_component.specs.declared.implicit.TargetError.TheVariants.{Memory};
ghost use Rattle.wac_checker.specs.Cache.{IsSoundCache};
ghost use Rattle.wac_checker.specs.Checker.{direction, depth, remembered};
ghost use Rattle.wac_names.specs.Pairs.{HasDistinctTexts};
ghost use Rattle.wac_targets.specs.Noting.{AreNoted, note_of};
ghost use Rattle.wac_targets.specs.Wanted.{all_imports};
ghost use Rattle.wac_component.specs.declared.worlds.ExternKind.TheVariants.{Import, Export};
ghost use Rattle.wac_mismatch.specs.declared.check.SubtypeCheck.TheVariants.{Covariant};
ghost use Rattle.wac_targets.specs.Report.{IsAnswer, AreMeantAsTheyStand, world_content_of};

use crate::checks::check_all;
use crate::given::Given;
use crate::report::{TargetValidationReport, TargetValidationResult};
use indexmap::IndexMap;
use std::alloc::Global;
use std::collections::HashSet;
use wac_checker::SubtypeChecker;
use wac_component::{ExternKind, TargetError, Types, World, WorldId};

/// Whether a component, given by its world, fits a target world: it imports no more
/// than that has, exports what that does, and each of these fits. `Err` in the answer
/// is the report of what doesn't.
///
/// A name is looked for by its track. What the target world says of a name is meant as an item of
/// the type that it says there. `NoIdentifier` comes exactly where an interface that the target
/// world uses has no identifier, and `Memory` is a failed allocation.
pub fn validate_target(
    alloc: Global,
    types: &Types,
    wit_world_id: WorldId,
    component_world_id: WorldId,
) -> Result<TargetValidationResult, TargetError>
    requires target { Stands types.now (world_key wit_world_id) }
    requires component { Stands types.now (world_key component_world_id) }
    ensures answer { IfOk result (IsAnswer types.now (world_content_of types.now wit_world_id) (world_content_of types.now component_world_id)) }
    ensures itself { wit_world_id ≡ component_world_id → AreMeantAsTheyStand (world_content_of types.now wit_world_id) → IfOk result (λ a. a ≡ Ok tt) }
    ensures identified { OnOk result (All (HasIdentifier types.now) (used_interfaces types.now (world_content_of types.now wit_world_id))) }
    ensures err { IfErr result (IsUntold types.now (used_interfaces types.now (world_content_of types.now wit_world_id))) }
{
    let target = &types[wit_world_id];
    let component = &types[component_world_id];
    let mut report = TargetValidationReport::new(alloc);
    let mut cache = HashSet::new(alloc);
    let mut checker = SubtypeChecker::new(&mut cache);
    check_imports(&mut report, &mut checker, alloc, types, target, component)?;
    check_exports(&mut report, &mut checker, alloc, types, target, component)?;
    Ok(report.into())
}

// Checks what the component imports against what the target world does.
fn check_imports(
    report: &mut TargetValidationReport,
    checker: &mut SubtypeChecker,
    alloc: Global,
    types: &Types,
    target: &World,
    component: &World,
) -> Result<(), TargetError>
    requires target { AllStand types.now (world_keys (world_content target.now)) }
    requires component { AllStand types.now (world_keys (world_content component.now)) }
    requires depth { depth checker.old ≡ 0 }
    requires direction { direction checker.old ≡ Covariant }
    requires remembered { IsSoundCache (types.now ∷ types.now ∷ []) (remembered checker.old) }
    ensures direction { OnOk result (direction checker.new ≡ Covariant) }
    ensures remembered { IsSoundCache (types.now ∷ types.now ∷ []) (remembered checker.new) }
    ensures noted { OnOk result (AreNoted types.now Import (all_imports types.now (world_content target.now)) (world_content component.now).imports (note_of report.old) (note_of report.new)) }
    ensures distinct { OnOk result (HasDistinctTexts (world_content target.now).imports) }
    ensures identified { OnOk result (All (HasIdentifier types.now) (used_interfaces types.now (world_content target.now))) }
    ensures err { IfErr result (IsUntold types.now (used_interfaces types.now (world_content target.now))) }
{
    let implicit = target.implicit_imported_interfaces(alloc, types)?;
    let mut given = Given::new(implicit, &target.imports);
    checker.invert();
    check_all(
        ExternKind::Import,
        report,
        checker,
        alloc,
        types,
        &mut given,
        &component.imports,
    )?;
    checker.revert();
    Ok(())
}

// Checks what the component exports against what the target world does.
fn check_exports(
    report: &mut TargetValidationReport,
    checker: &mut SubtypeChecker,
    alloc: Global,
    types: &Types,
    target: &World,
    component: &World,
) -> Result<(), TargetError>
    requires target { AllStand types.now (world_keys (world_content target.now)) }
    requires component { AllStand types.now (world_keys (world_content component.now)) }
    requires direction { direction checker.old ≡ Covariant }
    requires remembered { IsSoundCache (types.now ∷ types.now ∷ []) (remembered checker.old) }
    ensures noted { OnOk result (AreNoted types.now Export (world_content component.now).exports (world_content target.now).exports (note_of report.old) (note_of report.new)) }
    ensures err { IfErr result (λ e. e ≡ Memory) }
{
    let mut given = Given::new(IndexMap::new(alloc), &component.exports);
    check_all(
        ExternKind::Export,
        report,
        checker,
        alloc,
        types,
        &mut given,
        &target.exports,
    )
}
