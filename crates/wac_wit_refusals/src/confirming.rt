//! Which refusals keep their reasons.

ghost use Rattle.std.specs.Prelude.{◌≡◌, IfOk, IfSome, IsTrue, Some};
ghost use Rattle.wac_wit_names.specs.declared.reason.Reason.{Reason as Reasons};
ghost use Rattle.wac_wit_refusals.specs.Judged.{AreJudged, IsReasonOf};
ghost use Rattle.wac_wit_refusals.specs.Kept.{AreKeptRefusals, TellsStill};
ghost use Rattle.wac_wit_refusals.specs.Reasons.{AreRefusedFor, IsWrong};
ghost use Rattle.wac_wit_refusals.specs.Trees.{wit_sources};
ghost use Rattle.wac_wit_refusals_sites.specs.Judging.{Judges};
ghost use Rattle.wac_wit_scopes.specs.Parsed.{AreParsed};
ghost use Rattle.wac_wit_scopes.specs.WitSources.{WitSources};

use super::packages::{is_another_package, is_nameless, is_package_twice, is_upper_case};
use super::reasons::holds;
use std::alloc::{AllocError, Global};
use wac_wit_names::{Reason, WitError, WitRefusal};
use wac_wit_refusals_sites::Judge;
use wac_wit_scopes::SourceTrees;
use wac_wit_syntax::Span;

/// The error of files that are refused for what they say: each refusal keeps its reason where that
/// holds of the files. All else of it stays, unless an allocation fails.
pub fn confirmed(alloc: Global, sources: &SourceTrees<'_>, error: WitError) -> WitError
    ensures holds { AreParsed sources.now.files.now sources.now.documents.now → AreRefusedFor sources.now.files.now sources.now.features result }
    ensures tells { TellsStill error result }
{
    let WitError::Refused(refusals) = error else {
        return error;
    };
    match judged(alloc, sources, refusals) {
        Ok(refusals) => WitError::Refused(refusals),
        Err(_) => WitError::Memory,
    }
}

// Refusals with the reasons that hold.
fn judged(
    alloc: Global,
    sources: &SourceTrees<'_>,
    refusals: Vec<WitRefusal>,
) -> Result<Vec<WitRefusal>, AllocError>
    ensures holds { IfOk result (λ rs. AreJudged (wit_sources sources.now) rs.items) }
    ensures keeps { IfOk result (λ rs. AreKeptRefusals refusals.items rs.items) }
{
    let judge = Judge::new(alloc, sources)?;
    judged_by(alloc, sources, &judge, refusals)
}

fn judged_by(
    alloc: Global,
    sources: &SourceTrees<'_>,
    judge: &Option<Judge<'_>>,
    refusals: Vec<WitRefusal>,
) -> Result<Vec<WitRefusal>, AllocError>
    ensures holds { IfOk result (λ rs. (of : WitSources) → of ≡ wit_sources sources.now → IfSome judge.now (Judges of) → AreJudged of rs.items) }
    ensures keeps { IfOk result (λ rs. AreKeptRefusals refusals.items rs.items) }
{
    let mut kept = Vec::new(alloc);
    for refused in refusals {
        let reason = reason_of(sources, judge, &refused)?;
        let mut refused = refused;
        refused.reason = reason;
        kept.push(refused)?;
    }
    Ok(kept)
}

// The reason of a refusal, if it holds.
fn reason_of(
    sources: &SourceTrees<'_>,
    judge: &Option<Judge<'_>>,
    refused: &WitRefusal,
) -> Result<Option<Reason>, AllocError>
    ensures holds { IfOk result (λ o. (of : WitSources) → of ≡ wit_sources sources.now → IfSome judge.now (Judges of) → IsReasonOf of refused.now o) }
    ensures keeps { IfOk result (λ o. (x : Reasons) → o ≡ Some x → refused.now.reason ≡ Some x) }
{
    let Some(reason) = refused.reason else {
        return Ok(None);
    };
    let (file, span) = (refused.file, refused.refusal.span);
    if is_of_packages(sources, file, span, reason) || is_judged(judge, file, span, reason)? {
        return Ok(Some(reason));
    }
    Ok(None)
}

// Whether a reason holds that the names of packages tell.
fn is_of_packages(sources: &SourceTrees<'_>, file: usize, span: Span, reason: Reason) -> bool
    ensures { IsTrue result → IsWrong (wit_sources sources.now) file span reason }
{
    match reason {
        Reason::AnotherPackage => is_another_package(sources, file, span),
        Reason::UpperCase => is_upper_case(sources, file, span),
        Reason::PackageTwice => is_package_twice(sources, file, span),
        Reason::Nameless => is_nameless(sources, file, span),
        _ => false,
    }
}

// Whether a reason holds, where the packages of files are clear.
fn is_judged(
    judge: &Option<Judge<'_>>,
    file: usize,
    span: Span,
    reason: Reason,
) -> Result<bool, AllocError>
    ensures { IfOk result (λ is. IsTrue is → (of : WitSources) → IfSome judge.now (Judges of) → IsWrong of file span reason) }
{
    match judge {
        Some(judge) => holds(judge, file, span, reason),
        None => Ok(false),
    }
}
