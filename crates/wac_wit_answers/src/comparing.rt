//! Whether a package serves whoever was built against an older one.

ghost use Rattle.std.specs.Prelude.{◌↔◌, All, IfOk, IsTrue};
ghost use Rattle.wac_wit_answers.specs.Compat.{IsCompatAnswer};
ghost use Rattle.wac_wit_changes.specs.Comparing.{KeepsPromise};

use super::answer::{Answer, json_text};
use super::compat_json::reports_json;
use super::compat_text::reports_text;
use super::failure::Failure;
use super::input::{Input, Texts, not_read};
use super::options::{Form, Options};
use std::alloc::Global;
use wac_wit::SourceFile;
use wac_wit_changes::{ComparedTexts, PackageReport, TextsError, compare_texts};

/// Says of each interface and each world of the old packages whether the new ones serve whoever was
/// built against it. The answer is a yes where nothing breaks that the versions promise.
pub fn compat(
    alloc: Global,
    old: Texts,
    new: Texts,
    options: &Options<'_>,
) -> Result<Answer, Failure>
    ensures { IfOk result (IsCompatAnswer old.files.items new.files.items options.now.features) }
{
    match compare_texts(alloc, &old.files, &new.files, options.features) {
        Ok(compared) => answer_of(alloc, old, new, compared, options.form),
        Err(error) => Err(not_compared(alloc, &error, &old.files, &new.files)),
    }
}

// Why files aren't compared.
fn not_compared(
    alloc: Global,
    error: &TextsError,
    old: &[SourceFile],
    new: &[SourceFile],
) -> Failure {
    match error {
        TextsError::Old(error) => not_read(alloc, error, old),
        TextsError::New(error) => not_read(alloc, error, new),
        TextsError::Entry(error) => Failure::from(*error),
    }
}

// What is answered about texts that were compared.
fn answer_of(
    alloc: Global,
    old: Texts,
    new: Texts,
    compared: ComparedTexts,
    form: Form,
) -> Result<Answer, Failure>
    ensures { IfOk result (λ a. IsTrue a.is_yes ↔ All KeepsPromise compared.reports.items) }
{
    let is_yes = are_kept(&compared.reports);
    let text = compared_text(alloc, old, new, compared, form)?;
    Ok(Answer { is_yes, text })
}

/// Whether all packages keep what the versions promise.
pub(crate) fn are_kept(reports: &[PackageReport]) -> bool
    ensures { IsTrue result ↔ All KeepsPromise reports.now }
{
    reports.iter().all(|it| it.is_kept())
}

// What is printed.
fn compared_text(
    alloc: Global,
    old: Texts,
    new: Texts,
    compared: ComparedTexts,
    form: Form,
) -> Result<String, Failure> {
    let ComparedTexts {
        types: _,
        old: before,
        new: after,
        reports,
    } = compared;
    let old = Input::new(alloc, old, before)?;
    let new = Input::new(alloc, new, after)?;
    printed(alloc, &old, &new, &reports, form)
}

fn printed(
    alloc: Global,
    old: &Input,
    new: &Input,
    reports: &[PackageReport],
    form: Form,
) -> Result<String, Failure> {
    Ok(match form {
        Form::Json => json_text(alloc, &reports_json(alloc, old, new, reports)?)?,
        _ => reports_text(alloc, old, new, reports)?,
    })
}
