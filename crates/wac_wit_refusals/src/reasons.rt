//! Whether a reason holds of what stands at a place.

ghost use Rattle.std.specs.Prelude.{IfOk, IsTrue};
ghost use Rattle.wac_wit_refusals.specs.Reasons.{IsWrong};
ghost use Rattle.wac_wit_refusals_sites.specs.Judging.{Judges};
ghost use Rattle.wac_wit_scopes.specs.WitSources.{WitSources};

use super::externs::is_renamed_interface;
use super::given_twice::{is_member_twice, is_taken_by_package, is_use_twice};
use super::hidden::is_type_of_hidden;
use super::leading::{is_foreign_world, is_hidden_member, is_not_interface, is_not_world};
use super::members::{is_own_package, is_unknown_member, is_unknown_package};
use super::since::{is_unversioned, is_younger};
use super::used::{is_hidden_used, is_unknown_used};
use std::alloc::AllocError;
use wac_wit_names::Reason;
use wac_wit_refusals_sites::Judge;
use wac_wit_refusals_types::{
    is_borrow_returned, is_borrow_sent, is_char_stream, is_empty, is_hidden_type, is_many_flags,
    is_name_twice, is_named_as_resource, is_not_constructed, is_not_resource, is_type_cycle,
    is_unknown_type, is_zero_length,
};
use wac_wit_refusals_worlds::{
    is_coming_twice, is_cycle, is_needed_twice, is_said_twice, is_unknown_rename,
};
use wac_wit_syntax::Span;

/// Whether a reason holds of what stands at a place of a file.
pub(crate) fn holds(
    judge: &Judge<'_>,
    file: usize,
    span: Span,
    reason: Reason,
) -> Result<bool, AllocError>
    ensures { IfOk result (λ is. IsTrue is → (of : WitSources) → Judges of judge.now → IsWrong of file span reason) }
{
    if is_of_members(judge, file, span, reason) {
        return Ok(true);
    }
    if is_of_paths(judge, file, span, reason)? {
        return Ok(true);
    }
    if is_of_uses(judge, file, span, reason)? {
        return Ok(true);
    }
    if is_of_types(judge, file, span, reason)? {
        return Ok(true);
    }
    if is_of_names(judge, file, span, reason)? {
        return Ok(true);
    }
    is_of_includes(judge, file, span, reason)
}

// Names that are given twice, and attributes.
fn is_of_members(judge: &Judge<'_>, file: usize, span: Span, reason: Reason) -> bool
    ensures { IsTrue result → (of : WitSources) → Judges of judge.now → IsWrong of file span reason }
{
    match reason {
        Reason::UseTwice => is_use_twice(judge, file, span),
        Reason::TakenByPackage => is_taken_by_package(judge, file, span),
        Reason::MemberTwice => is_member_twice(judge, file, span),
        Reason::Unversioned => is_unversioned(judge, file, span),
        Reason::Younger => is_younger(judge, file, span),
        Reason::TypeOfHidden => is_type_of_hidden(judge, file, span),
        Reason::RenamedInterface => is_renamed_interface(judge, file, span),
        _ => false,
    }
}

// Paths that don't lead to what they ask for.
fn is_of_paths(
    judge: &Judge<'_>,
    file: usize,
    span: Span,
    reason: Reason,
) -> Result<bool, AllocError>
    ensures { IfOk result (λ is. IsTrue is → (of : WitSources) → Judges of judge.now → IsWrong of file span reason) }
{
    match reason {
        Reason::UnknownPackage => is_unknown_package(judge, file, span),
        Reason::OwnPackage => is_own_package(judge, file, span),
        Reason::UnknownMember => is_unknown_member(judge, file, span),
        Reason::NotInterface => is_not_interface(judge, file, span),
        Reason::NotWorld => is_not_world(judge, file, span),
        Reason::HiddenMember => is_hidden_member(judge, file, span),
        Reason::ForeignWorld => is_foreign_world(judge, file, span),
        _ => Ok(false),
    }
}

// What is used, imported or exported.
fn is_of_uses(
    judge: &Judge<'_>,
    file: usize,
    span: Span,
    reason: Reason,
) -> Result<bool, AllocError>
    ensures { IfOk result (λ is. IsTrue is → (of : WitSources) → Judges of judge.now → IsWrong of file span reason) }
{
    match reason {
        Reason::UnknownUsed => is_unknown_used(judge, file, span),
        Reason::HiddenUsed => is_hidden_used(judge, file, span),
        Reason::Cycle => is_cycle(judge, file, span),
        Reason::SaidTwice => is_said_twice(judge, file, span),
        Reason::NeededTwice => is_needed_twice(judge, file, span),
        _ => Ok(false),
    }
}

// What comes in with included worlds.
fn is_of_includes(
    judge: &Judge<'_>,
    file: usize,
    span: Span,
    reason: Reason,
) -> Result<bool, AllocError>
    ensures { IfOk result (λ is. IsTrue is → (of : WitSources) → Judges of judge.now → IsWrong of file span reason) }
{
    match reason {
        Reason::UnknownRename => is_unknown_rename(judge, file, span),
        Reason::IncludedTwice => is_coming_twice(judge, file, span, false),
        Reason::NameTwice => is_coming_twice(judge, file, span, true),
        _ => Ok(false),
    }
}

// What types are.
fn is_of_types(
    judge: &Judge<'_>,
    file: usize,
    span: Span,
    reason: Reason,
) -> Result<bool, AllocError>
    ensures { IfOk result (λ is. IsTrue is → (of : WitSources) → Judges of judge.now → IsWrong of file span reason) }
{
    match reason {
        Reason::ManyFlags => is_many_flags(judge, file, span),
        Reason::Empty => is_empty(judge, file, span),
        Reason::ZeroLength => is_zero_length(judge, file, span),
        Reason::NamedAsResource => is_named_as_resource(judge, file, span),
        Reason::TypeCycle => is_type_cycle(judge, file, span),
        Reason::NotConstructed => is_not_constructed(judge, file, span),
        Reason::BorrowReturned => is_borrow_returned(judge, file, span),
        Reason::BorrowSent => is_borrow_sent(judge, file, span),
        Reason::CharStream => is_char_stream(judge, file, span),
        _ => Ok(false),
    }
}

// Names in interfaces and worlds.
fn is_of_names(
    judge: &Judge<'_>,
    file: usize,
    span: Span,
    reason: Reason,
) -> Result<bool, AllocError>
    ensures { IfOk result (λ is. IsTrue is → (of : WitSources) → Judges of judge.now → IsWrong of file span reason) }
{
    match reason {
        Reason::UnknownType => is_unknown_type(judge, file, span),
        Reason::HiddenType => is_hidden_type(judge, file, span),
        Reason::NotResource => is_not_resource(judge, file, span),
        Reason::NameTwice => is_name_twice(judge, file, span),
        _ => Ok(false),
    }
}
