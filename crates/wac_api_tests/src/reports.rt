//! A report of nothing.

use std::test::Fail;
use wac_test_tools::shows;
use wac_types::{TargetValidationReport, TargetValidationResult};

#[test]
fn a_report_of_nothing_is_a_yes(rt: HostRuntime) -> Result<(), Fail> {
    let report = TargetValidationReport::new(rt.alloc());
    assert!(&rt; report.imports_not_in_target().next().is_none());
    assert!(&rt; report.missing_exports().next().is_none());
    assert!(&rt; report.mismatched_types().next().is_none());
    assert!(&rt; shows(&report, ""));
    let answer: TargetValidationResult = report.into();
    assert!(&rt; answer.is_ok());
    Ok(())
}
