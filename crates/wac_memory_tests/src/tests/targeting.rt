//! Validating a component against a target world.

use super::cases::{Case, Tried, try_each};
use super::trial::Trial;
use wac_test_tools::{shows, world};
use wac_types::{TargetError, Types, validate_target};

// What is said of the second world of a collection as a component, and the first as its target.
pub(crate) struct Validation {
    // Empty where it fits.
    report: &'static str,
}

impl Validation {
    pub(crate) fn attempt(&self, types: &mut Types, trial: &mut Trial) {
        let (Ok(target), Ok(component)) = (world(types, 0), world(types, 1)) else {
            return trial.demand(false);
        };
        match validate_target(trial.alloc, types, target, component) {
            Ok(Ok(())) => trial.demand(self.report.is_empty()),
            Ok(Err(found)) => trial.demand(shows(&found, self.report)),
            Err(error) => trial.fail(matches!(error, TargetError::Memory)),
        }
    }
}

static CASES: [Case; 4] = [
    Case {
        shown: "less of a lower version is imported",
        lines: &[
            "func sync -",
            "iface - e:f=F:fn0",
            "iface - e:f=F:fn0 e:g=F:fn0",
            "world - m:wasi:http/types@0.2.3=I:i1",
            "world - m:wasi:http/types@0.2.0=I:i0",
        ],
        ways: 1,
        tried: Tried::Validation(Validation { report: "" }),
    },
    Case {
        shown: "more of a higher version is imported",
        lines: &[
            "func sync -",
            "iface - e:f=F:fn0",
            "iface - e:f=F:fn0 e:g=F:fn0",
            "world - m:wasi:http/types@0.2.0=I:i0",
            "world - m:wasi:http/types@0.2.3=I:i1",
        ],
        ways: 1,
        tried: Tried::Validation(Validation {
            report: "Type mismatches between the target world and the component:
  - wasi:http/types@0.2.3: Import (instance has unexpected function export `g`)\n",
        }),
    },
    Case {
        shown: "an import and an export that the other lacks",
        lines: &["func sync -", "world - e:run=F:fn0", "world - m:z=F:fn0"],
        ways: 1,
        tried: Tried::Validation(Validation {
            report: "Imports present in the component but not in the target world:
  - z
Exports required by target world but not present in the component:
  - run: Func(0)\n",
        }),
    },
    Case {
        shown: "a target that imports an interface, since it uses it",
        lines: &[
            "func sync -",
            "iface p:u/u@1.0.0 e:f=F:fn0 e:t=T:u8",
            "iface p:i/i@1.0.0 u:t=i0 e:t=T:u8",
            "world - m:p:i/i@1.0.0=I:i1",
            "world - m:p:u/u@1.0.0=I:i0",
        ],
        ways: 1,
        tried: Tried::Validation(Validation { report: "" }),
    },
];

#[test]
fn a_report_is_the_undisturbed_one_or_none(rt: HostRuntime) {
    try_each(&rt, rt.alloc(), &CASES);
}
