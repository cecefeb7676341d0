//! The report of what a component misses a target world by.

ghost use Rattle.std.specs.Prelude.{◌≡◌};
ghost use Rattle.std.specs.Cmp.Lexicographic.{slice_cmp};
ghost use Rattle.std.specs.Iterator.{item_count, YieldsFirstBy};
ghost use Rattle.std.specs.List.Sorted.{IsStrictlySortedBy};
ghost use Rattle.std.specs.Map.{keys_of};
ghost use Rattle.std.specs.Ordering.{nat_cmp};
ghost use Rattle.wac_targets.specs.Parts.{not_in_target, missing, mismatched, names_left, exports_left, types_left};

use std::alloc::Global;
use std::collections::{BTreeMap, BTreeSet, btree_map, btree_set};
use std::error;
use wac_component::{ExternKind, ItemKind};
use wac_mismatch::SubtypeError;

/// The answer of `validate_target`: a component that fits has nothing to report.
pub type TargetValidationResult = Result<(), TargetValidationReport>;

/// What a component imports that a target world doesn't have, what it lacks of the world's exports,
/// and what of both it has otherwise than the world asks.
#[derive(Debug)]
pub struct TargetValidationReport {
    pub(crate) imports_not_in_target: BTreeSet<String>,
    pub(crate) missing_exports: BTreeMap<String, ItemKind>,
    pub(crate) mismatched_types: BTreeMap<String, (ExternKind, SubtypeError)>,
}

// By hand, as of `Types`.
impl Drop for TargetValidationReport {
    fn drop(self) {
        let TargetValidationReport {
            imports_not_in_target: _,
            missing_exports: _,
            mismatched_types: _,
        } = self;
    }
}

impl TargetValidationReport {
    ghost use Rattle.wac_targets.specs.Report.{IsClean};

    /// A report of nothing.
    pub fn new(alloc: Global) -> TargetValidationReport
        ensures { IsClean result }
    {
        TargetValidationReport {
            imports_not_in_target: BTreeSet::new(alloc),
            missing_exports: BTreeMap::new(alloc),
            mismatched_types: BTreeMap::new(alloc),
        }
    }

    /// The imports of the component that the target world doesn't have, in byte order.
    pub fn imports_not_in_target(&self) -> ImportsNotInTarget<'_>
        ensures names { names_left result ≡ not_in_target self.now }
        ensures order { IsStrictlySortedBy (slice_cmp nat_cmp) (not_in_target self.now) }
    {
        ImportsNotInTarget {
            names: self.imports_not_in_target.iter(),
        }
    }

    /// The exports that the target world asks for and the component doesn't have, each with the
    /// item that is asked for, in byte order of the names.
    pub fn missing_exports(&self) -> MissingExports<'_>
        ensures exports { exports_left result ≡ missing self.now }
        ensures order { IsStrictlySortedBy (slice_cmp nat_cmp) (keys_of (missing self.now)) }
    {
        MissingExports {
            exports: self.missing_exports.iter(),
        }
    }

    /// What both have under a name and doesn't fit, each with its kind and where it
    /// doesn't, in byte order of the names.
    pub fn mismatched_types(&self) -> MismatchedTypes<'_>
        ensures types { types_left result ≡ mismatched self.now }
        ensures order { IsStrictlySortedBy (slice_cmp nat_cmp) (keys_of (mismatched self.now)) }
    {
        MismatchedTypes {
            types: self.mismatched_types.iter(),
        }
    }
}

impl error::Error for TargetValidationReport {}

impl From<TargetValidationReport> for TargetValidationResult {
    ghost use Rattle.wac_targets.specs.Report.{AnswersFor};

    ghost from_gives = { λ report result. AnswersFor report result };

    fn from(report: TargetValidationReport) -> TargetValidationResult {
        if report.imports_not_in_target.is_empty()
            && report.missing_exports.is_empty()
            && report.mismatched_types.is_empty()
        {
            return Ok(());
        }
        Err(report)
    }
}

/// The imports of a component that a target world doesn't have, in byte order.
#[derive(Drop)]
pub struct ImportsNotInTarget<'a> {
    names: btree_set::Iter<'a, String>,
}

impl<'a> Iterator for ImportsNotInTarget<'a> {
    type Item = &'a str;

    ghost next_gives = { YieldsFirstBy (λ s. s.now) names_left };

    ghost remaining = { item_count names_left };

    fn next(&mut self) -> Option<&'a str> {
        let name = self.names.next()?;
        Some(name.as_str())
    }
}

/// The exports that a component lacks, each with what is asked for, in byte order of the names.
#[derive(Drop)]
pub struct MissingExports<'a> {
    exports: btree_map::Iter<'a, String, ItemKind>,
}

impl<'a> Iterator for MissingExports<'a> {
    type Item = (&'a str, &'a ItemKind);

    ghost next_gives = { YieldsFirstBy (λ p. (p.0.now, p.1.now)) exports_left };

    ghost remaining = { item_count exports_left };

    fn next(&mut self) -> Option<(&'a str, &'a ItemKind)> {
        let (name, kind) = self.exports.next()?;
        Some((name.as_str(), kind))
    }
}

/// What doesn't fit, each with its kind and where it doesn't, in byte order of the names.
#[derive(Drop)]
pub struct MismatchedTypes<'a> {
    types: btree_map::Iter<'a, String, (ExternKind, SubtypeError)>,
}

impl<'a> Iterator for MismatchedTypes<'a> {
    type Item = (&'a str, &'a ExternKind, &'a SubtypeError);

    ghost next_gives = { YieldsFirstBy (λ p. (p.0.now, (p.1.now, p.2.now))) types_left };

    ghost remaining = { item_count types_left };

    fn next(&mut self) -> Option<(&'a str, &'a ExternKind, &'a SubtypeError)> {
        let (name, (kind, error)) = self.types.next()?;
        Some((name.as_str(), kind, error))
    }
}
