//! What `compat` prints for people.

use super::input::Input;
use super::pointing::{PackageSides, Pointer};
use std::alloc::{AllocError, Global};
use wac_wit_changes::{ComparedItem, PackageReport, Promise};
use wac_wit_entries::version_of;

/// What was found of all packages.
pub(crate) fn reports_text(
    alloc: Global,
    old: &Input,
    new: &Input,
    reports: &[PackageReport],
) -> Result<String, AllocError> {
    let mut out = String::new(alloc);
    let mut pointer = Pointer::new(alloc, old, new, PackageSides::Versions);
    for report in reports {
        push_package(alloc, &mut out, &mut pointer, report)?;
    }
    push_sum(&mut out, reports)?;
    Ok(out)
}

fn push_package(
    alloc: Global,
    out: &mut String,
    pointer: &mut Pointer<'_>,
    report: &PackageReport,
) -> Result<(), AllocError> {
    push_title(alloc, out, report)?;
    let severity = match report.promise {
        Promise::Same => "error",
        _ => "remark",
    };
    for compared in &report.compared {
        push_compared(out, pointer, severity, report, compared)?;
    }
    for added in &report.added {
        let (sort, package, name) = (added.sort.word(), &report.name, &added.name);
        writeln!(out, "{sort} {package}/{name} is new")?;
    }
    Ok(())
}

// Says which versions are compared, and what they promise.
fn push_title(alloc: Global, out: &mut String, report: &PackageReport) -> Result<(), AllocError> {
    let name = report.name.as_str();
    let old = version_text(alloc, version_of(&report.old_version))?;
    let new = version_text(alloc, version_of(&report.new_version))?;
    match report.promise {
        Promise::Same if old == new => writeln!(out, "package {name}, {old}: nothing may break"),
        Promise::Same => writeln!(
            out,
            "package {name}, {old} to {new}: one track, so nothing may break"
        ),
        Promise::Other => writeln!(
            out,
            "package {name}, {old} to {new}: another track, so anything may break"
        ),
        Promise::Gone => writeln!(out, "error: package {name}, {old}, is gone"),
        Promise::Dropped => writeln!(out, "remark: package {name}, {old}, is used no more"),
    }
}

fn version_text(alloc: Global, version: Option<&str>) -> Result<String, AllocError> {
    String::from_str(alloc, version.unwrap_or("no version"))
}

fn push_compared(
    out: &mut String,
    pointer: &mut Pointer<'_>,
    severity: &str,
    report: &PackageReport,
    compared: &ComparedItem,
) -> Result<(), AllocError> {
    let verdict = if compared.problems.is_empty() {
        "serves"
    } else {
        "breaks"
    };
    let (sort, package, name) = (compared.sort.word(), &report.name, &compared.name);
    writeln!(out, "{sort} {package}/{name} {verdict}")?;
    pointer.push_all(out, severity, &compared.problems)?;
    for added in &compared.added {
        writeln!(out, "  new {added}")?;
    }
    Ok(())
}

// Says how many interfaces and worlds serve.
fn push_sum(out: &mut String, reports: &[PackageReport]) -> Result<(), AllocError> {
    let mut count = 0usize;
    let mut broken = 0usize;
    let mut added = 0usize;
    for report in reports {
        count = count.saturating_add(report.compared.len());
        broken = broken.saturating_add(report.broken());
        added = added.saturating_add(report.added.len());
    }
    let serving = count.saturating_sub(broken);
    writeln!(
        out,
        "{count} interfaces and worlds: {serving} serve, {broken} break; {added} new"
    )
}
