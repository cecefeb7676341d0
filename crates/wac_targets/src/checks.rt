//! The checks of what one side wants, name by name.

ghost use Rattle.std.specs.Prelude.{◌≡◌, ◌∷◌, [], Some, string_bytes, IfOk, IfErr, OnOk};
ghost use Rattle.wac_checker.specs.Cache.{IsSoundCache};
ghost use Rattle.wac_checker.specs.Checker.{direction, depth, remembered};
ghost use Rattle.wac_component.specs.Content.{named};
ghost use Rattle.wac_component.specs.Key.{AllStand, item_keys, named_keys};
ghost use Rattle.wac_component.specs.declared.implicit.TargetError.TheVariants.{Memory};
ghost use Rattle.wac_component.specs.declared.items.ItemKind.{ItemKind};
ghost use Rattle.wac_component.specs.declared.worlds.ExternKind.TheVariants.{Import, Export};
ghost use Rattle.wac_model.specs.Text.{Text};
ghost use Rattle.wac_names.specs.Pairs.{IsFound};
ghost use Rattle.wac_targets.specs.Given.{items_in, IsGivenLawful};
ghost use Rattle.wac_targets.specs.Noting.{AreNoted, NotesAt, IsVerdict, Changes, note_of, with_lack, with_mismatch};
ghost use Rattle.wac_targets.specs.Report.{extern_check};
ghost use Rattle.wac_targets.specs.Wanted.{NamedItems, left_item, right_item};

use crate::given::Given;
use crate::maps::named_at;
use crate::report::TargetValidationReport;
use indexmap::IndexMap;
use std::alloc::Global;
use wac_checker::SubtypeChecker;
use wac_component::{ExternKind, ItemKind, TargetError, Types};
use wac_mismatch::SubtypeError;

/// What comes of an item that is wanted under a name.
#[derive(Drop)]
pub(crate) enum Verdict {
    /// Nothing is found for it.
    Lacking,
    /// What is found fits.
    Fitting,
    /// What is found doesn't fit.
    Failing(SubtypeError),
}

// Checks all that is wanted, and notes it.
pub(crate) fn check_all(
    kind: ExternKind,
    report: &mut TargetValidationReport,
    checker: &mut SubtypeChecker,
    alloc: Global,
    types: &Types,
    given: &mut Given<'_>,
    wanted: &IndexMap<String, ItemKind>,
) -> Result<(), TargetError>
    requires given { IsGivenLawful given.old }
    requires standing { AllStand types.now (named_keys item_keys (items_in given.old)) }
    requires wanted { AllStand types.now (named_keys item_keys (named (λ k. k) wanted.now.entries)) }
    requires direction { direction checker.old ≡ extern_check kind }
    requires remembered { IsSoundCache (types.now ∷ types.now ∷ []) (remembered checker.old) }
    ensures direction { direction checker.new ≡ direction checker.old }
    ensures depth { depth checker.new ≡ depth checker.old }
    ensures remembered { IsSoundCache (types.now ∷ types.now ∷ []) (remembered checker.new) }
    ensures noted { OnOk result (AreNoted types.now kind (items_in given.old) (named (λ k. k) wanted.now.entries) (note_of report.old) (note_of report.new)) }
    ensures err { IfErr result (λ e. e ≡ Memory) }
{
    for i in 0..wanted.len() {
        let (name, item) = named_at(wanted, i);
        check_one(kind, report, checker, alloc, types, given, name, item)?;
    }
    Ok(())
}

// Checks what is wanted under a name, and notes it.
fn check_one(
    kind: ExternKind,
    report: &mut TargetValidationReport,
    checker: &mut SubtypeChecker,
    alloc: Global,
    types: &Types,
    given: &mut Given<'_>,
    name: &str,
    wanted: &ItemKind,
) -> Result<(), TargetError>
    requires given { IsGivenLawful given.old }
    requires standing { AllStand types.now (named_keys item_keys (items_in given.old)) }
    requires wanted { AllStand types.now (item_keys wanted.now) }
    requires direction { direction checker.old ≡ extern_check kind }
    requires remembered { IsSoundCache (types.now ∷ types.now ∷ []) (remembered checker.old) }
    ensures direction { direction checker.new ≡ direction checker.old }
    ensures depth { depth checker.new ≡ depth checker.old }
    ensures remembered { IsSoundCache (types.now ∷ types.now ∷ []) (remembered checker.new) }
    ensures lawful { IsGivenLawful given.new }
    ensures same { items_in given.new ≡ items_in given.old }
    ensures noted { OnOk result (NotesAt types.now kind (items_in given.old) name.now wanted.now (note_of report.old) (note_of report.new)) }
    ensures err { IfErr result (λ e. e ≡ Memory) }
{
    match judge(kind, checker, alloc, types, given, name, wanted)? {
        Verdict::Fitting => Ok(()),
        Verdict::Lacking => report.note_lacking(alloc, kind, name, wanted),
        Verdict::Failing(error) => report.note_failing(alloc, kind, name, error),
    }
}

// What comes of one item.
fn judge(
    kind: ExternKind,
    checker: &mut SubtypeChecker,
    alloc: Global,
    types: &Types,
    given: &mut Given<'_>,
    name: &str,
    wanted: &ItemKind,
) -> Result<Verdict, TargetError>
    requires given { IsGivenLawful given.old }
    requires standing { AllStand types.now (named_keys item_keys (items_in given.old)) }
    requires wanted { AllStand types.now (item_keys wanted.now) }
    requires direction { direction checker.old ≡ extern_check kind }
    requires remembered { IsSoundCache (types.now ∷ types.now ∷ []) (remembered checker.old) }
    ensures direction { direction checker.new ≡ direction checker.old }
    ensures depth { depth checker.new ≡ depth checker.old }
    ensures remembered { IsSoundCache (types.now ∷ types.now ∷ []) (remembered checker.new) }
    ensures lawful { IsGivenLawful given.new }
    ensures same { items_in given.new ≡ items_in given.old }
    ensures verdict { IfOk result (IsVerdict types.now kind (items_in given.old) name.now wanted.now) }
    ensures err { IfErr result (λ e. e ≡ Memory) }
{
    // Most names are found as they stand.
    if let Some(found) = given.own(name) {
        return judge_found(kind, checker, alloc, types, found, wanted);
    }
    given.index(alloc)?;
    let Some(found) = given.get(name)? else {
        return Ok(Verdict::Lacking);
    };
    judge_found(kind, checker, alloc, types, found, wanted)
}

// What comes of an item for which one is found.
fn judge_found(
    kind: ExternKind,
    checker: &mut SubtypeChecker,
    alloc: Global,
    types: &Types,
    found: &ItemKind,
    wanted: &ItemKind,
) -> Result<Verdict, TargetError>
    requires found { AllStand types.now (item_keys found.now) }
    requires wanted { AllStand types.now (item_keys wanted.now) }
    requires direction { direction checker.old ≡ extern_check kind }
    requires remembered { IsSoundCache (types.now ∷ types.now ∷ []) (remembered checker.old) }
    ensures direction { direction checker.new ≡ direction checker.old }
    ensures depth { depth checker.new ≡ depth checker.old }
    ensures remembered { IsSoundCache (types.now ∷ types.now ∷ []) (remembered checker.new) }
    ensures verdict { (items : NamedItems) (name : Text) → IsFound items name (Some found.now) → IfOk result (IsVerdict types.now kind items name wanted.now) }
    ensures err { IfErr result (λ e. e ≡ Memory) }
{
    let left = left_item(kind, found);
    let right = right_item(kind, wanted);
    match checker.is_subtype(alloc, left, types, right, types) {
        Ok(()) => Ok(Verdict::Fitting),
        Err(SubtypeError::Memory) => Err(TargetError::Memory),
        Err(error) => Ok(Verdict::Failing(error)),
    }
}

// What is found, as what the target world says of an import is meant.
fn left_item(kind: ExternKind, found: &ItemKind) -> ItemKind
    ensures { result ≡ left_item kind found.now }
{
    match kind {
        ExternKind::Import => found.promote(),
        ExternKind::Export => *found,
    }
}

// What is wanted, as what the target world says of an export is meant.
fn right_item(kind: ExternKind, wanted: &ItemKind) -> ItemKind
    ensures { result ≡ right_item kind wanted.now }
{
    match kind {
        ExternKind::Import => *wanted,
        ExternKind::Export => wanted.promote(),
    }
}

impl TargetValidationReport {
    // Notes that nothing is found for an item.
    fn note_lacking(
        &mut self,
        alloc: Global,
        kind: ExternKind,
        name: &str,
        wanted: &ItemKind,
    ) -> Result<(), TargetError>
        ensures noted { OnOk result (Changes (with_lack kind wanted.now) name.now (note_of self.old) (note_of self.new)) }
        ensures err { IfErr result (λ e. e ≡ Memory) }
    {
        let name = String::from_str(alloc, name)?;
        match kind {
            ExternKind::Import => self.note_not_in_target(name),
            ExternKind::Export => self.note_missing(name, wanted),
        }
    }

    fn note_not_in_target(&mut self, name: String) -> Result<(), TargetError>
        ensures noted { (wanted : ItemKind) → OnOk result (Changes (with_lack Import wanted) (string_bytes name) (note_of self.old) (note_of self.new)) }
        ensures err { IfErr result (λ e. e ≡ Memory) }
    {
        if let Err(_) = self.imports_not_in_target.insert(name) {
            return Err(TargetError::Memory);
        }
        Ok(())
    }

    fn note_missing(&mut self, name: String, wanted: &ItemKind) -> Result<(), TargetError>
        ensures noted { OnOk result (Changes (with_lack Export wanted.now) (string_bytes name) (note_of self.old) (note_of self.new)) }
        ensures err { IfErr result (λ e. e ≡ Memory) }
    {
        if let Err(_) = self.missing_exports.insert(name, *wanted) {
            return Err(TargetError::Memory);
        }
        Ok(())
    }

    // Notes that what is found doesn't fit.
    fn note_failing(
        &mut self,
        alloc: Global,
        kind: ExternKind,
        name: &str,
        error: SubtypeError,
    ) -> Result<(), TargetError>
        ensures noted { OnOk result (Changes (with_mismatch kind error) name.now (note_of self.old) (note_of self.new)) }
        ensures err { IfErr result (λ e. e ≡ Memory) }
    {
        let name = String::from_str(alloc, name)?;
        if let Err(_) = self.mismatched_types.insert(name, (kind, error)) {
            return Err(TargetError::Memory);
        }
        Ok(())
    }
}
