//! What `compat` prints as JSON.

use super::answer::text_or_null;
use super::comparing::are_kept;
use super::input::Input;
use super::pointing::{PackageSides, Pointer};
use serde_json::{Value, json};
use std::alloc::{AllocError, Global};
use wac_wit_changes::{ComparedItem, PackageReport, Promise};
use wac_wit_entries::version_of;

/// What was found of all packages.
pub(crate) fn reports_json(
    alloc: Global,
    old: &Input,
    new: &Input,
    reports: &[PackageReport],
) -> Result<Value, AllocError> {
    let pointer = Pointer::new(alloc, old, new, PackageSides::Versions);
    let mut packages = Vec::new(alloc);
    for report in reports {
        packages.push(package_json(alloc, &pointer, report)?)?;
    }
    let is_yes = are_kept(reports);
    json!(in alloc; {"compatible": is_yes, "packages": packages})
}

fn package_json(
    alloc: Global,
    pointer: &Pointer<'_>,
    report: &PackageReport,
) -> Result<Value, AllocError> {
    let mut compared = Vec::new(alloc);
    for it in &report.compared {
        compared.push(compared_json(alloc, pointer, it)?)?;
    }
    let mut added = Vec::new(alloc);
    for it in &report.added {
        let (sort, name) = (it.sort.word(), it.name.as_str());
        added.push(json!(in alloc; {"kind": sort, "name": name})?)?;
    }
    let promise = match report.promise {
        Promise::Same => "nothing breaks",
        Promise::Other => "none",
        Promise::Gone => "gone",
        Promise::Dropped => "dropped",
    };
    json!(in alloc; {
        "name": report.name.as_str(),
        "old_version": (text_or_null(alloc, version_of(&report.old_version))?),
        "new_version": (text_or_null(alloc, version_of(&report.new_version))?),
        "promise": promise,
        "compared": compared,
        "new": added
    })
}

fn compared_json(
    alloc: Global,
    pointer: &Pointer<'_>,
    compared: &ComparedItem,
) -> Result<Value, AllocError> {
    let mut problems = Vec::new(alloc);
    for problem in &compared.problems {
        problems.push(pointer.json(problem)?)?;
    }
    let mut added = Vec::new(alloc);
    for it in &compared.added {
        added.push(Value::try_from_str(alloc, it)?)?;
    }
    let serves = compared.problems.is_empty();
    json!(in alloc; {
        "kind": (compared.sort.word()),
        "name": compared.name.as_str(),
        "serves": serves,
        "problems": problems,
        "new": added
    })
}
