//! Whether an error lists what is refused as it should.

ghost use Rattle.std.specs.Prelude.{◌<◌, All, IsTrue, length};
ghost use Rattle.std.specs.List.{AllAdjacentBelow};
ghost use Rattle.wac_wit.specs.Refusals.{AreRefusalsOf, IsNoLater, TellsRefusals};
ghost use Rattle.wac_wit_names.specs.declared.error.WitRefusal.{WitRefusal as RefusalOf};
ghost use Rattle.wac_wit_names.specs.declared.features.Features.{Features as FeaturesOf};
ghost use Rattle.wac_wit_refusals.specs.Reasons.{AreRefusedFor};

use wac_wit_names::{MAX_REFUSALS, SourceFile, WitError, WitRefusal};

/// The error of files, or `Missing` where its refusals aren't as [`WitError`] says, which no files
/// are known to lead to.
pub(crate) fn told(files: &[SourceFile], error: WitError) -> WitError
    ensures told { TellsRefusals files.now result }
    ensures refused { (features : FeaturesOf) → AreRefusedFor files.now features error → AreRefusedFor files.now features result }
{
    let WitError::Refused(refusals) = error else {
        return error;
    };
    if are_refusals_of(files, &refusals) {
        WitError::Refused(refusals)
    } else {
        WitError::Missing
    }
}

fn are_refusals_of(files: &[SourceFile], refusals: &[WitRefusal]) -> bool
    ensures { IsTrue result → AreRefusalsOf files.now refusals.now }
{
    let count = refusals.len();
    0 < count
        && count <= MAX_REFUSALS
        && are_within(files.len(), refusals)
        && are_in_order(refusals)
}

// Whether all are of files, of which there are so many.
fn are_within(count: usize, refusals: &[WitRefusal]) -> bool
    ensures { IsTrue result → All (λ (r : RefusalOf). r.file < count) refusals.now }
{
    refusals.iter().all(|it| it.file < count)
}

fn are_in_order(refusals: &[WitRefusal]) -> bool
    ensures { IsTrue result → AllAdjacentBelow IsNoLater refusals.now (length refusals.now) }
{
    for index in 1..refusals.len() {
        if !is_no_later(&refusals[index - 1], &refusals[index]) {
            return false;
        }
    }
    true
}

fn is_no_later(one: &WitRefusal, other: &WitRefusal) -> bool
    ensures { IsTrue result → IsNoLater one.now other.now }
{
    if one.file == other.file {
        return one.refusal.span.start <= other.refusal.span.start;
    }
    one.file < other.file
}
