//! A caller of `validate_target`.

ghost use Rattle.std.specs.Prelude.{◌↔◌, IfOk, IsTrue};
ghost use Rattle.wac_types.specs.Key.{Stands, world_key};
ghost use Rattle.wac_types.specs.Report.{IsClean, IsReport, world_content_of};
ghost use Rattle.wac_types.specs.declared.TargetValidationReport.{TargetValidationReport};

use std::alloc::Global;
use wac_types::{TargetError, Types, WorldId, validate_target};

/// Whether a host that offers a world can run a component: exactly where its report is clean, of
/// imports that the host lacks, of exports that the component lacks, and of what doesn't fit.
pub fn can_run(
    alloc: Global,
    types: &Types,
    host: WorldId,
    component: WorldId,
) -> Result<bool, TargetError>
    requires host { Stands types.now (world_key host) }
    requires component { Stands types.now (world_key component) }
    ensures { IfOk result (λ yes. (r : TargetValidationReport) × IsReport types.now (world_content_of types.now host) (world_content_of types.now component) r × (IsTrue yes ↔ IsClean r)) }
{
    match validate_target(alloc, types, host, component) {
        Ok(Ok(())) => Ok(true),
        Ok(Err(_)) => Ok(false),
        Err(error) => Err(error),
    }
}
