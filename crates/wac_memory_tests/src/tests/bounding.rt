//! Meets and joins: whatever is refused, the entries that stood keep their content.

ghost use Rattle.wac_types.specs.Key.{AllStand, item_keys};

use super::cases::{Case, Tried, try_each};
use super::filling::{UNCHANGED, demand_kept, demand_lines};
use super::trial::{Trial, item};
use std::alloc::{AllocError, Global};
use wac_types::{ItemKind, Types, join, meet};

// Two items of a collection, whose meet is looked for in one way, and their join in another one.
pub(crate) struct Bounding {
    // The lines of the collection.
    lines: &'static [&'static str],
    a: &'static str,
    b: &'static str,
    // Whether they have a meet, and the lines of the entries that are added for it.
    meet: (bool, &'static [&'static str]),
    // Whether they have a join, and the lines of the entries that are added for it.
    join: (bool, &'static [&'static str]),
}

// The meet of two items, or their join.
fn meet_or_join(
    alloc: Global,
    types: &mut Types,
    a: ItemKind,
    b: ItemKind,
    is_meet: bool,
) -> Result<Option<ItemKind>, AllocError>
    requires left { AllStand types.old (item_keys a) }
    requires right { AllStand types.old (item_keys b) }
{
    if is_meet {
        meet(alloc, types, a, b)
    } else {
        join(alloc, types, a, b)
    }
}

impl Bounding {
    pub(crate) fn attempt(&self, types: &mut Types, way: usize, trial: &mut Trial) {
        let (is_there, added) = if way == 0 { self.meet } else { self.join };
        let (Ok(a), Ok(b)) = (item(types, self.a), item(types, self.b)) else {
            return trial.demand(false);
        };
        match meet_or_join(trial.alloc, types, a, b, way == 0) {
            Ok(found) => {
                trial.demand(found.is_some() == is_there);
                demand_lines(types, self.lines, &UNCHANGED, added, trial);
            }
            Err(_) => {
                trial.refuse();
                demand_kept(types, self.lines, trial);
            }
        }
    }
}

const INSTANCES: &[&str] = &["func sync -", "iface - e:f=F:fn0", "iface - e:g=F:fn0"];

const COMPONENTS: &[&str] = &[
    "func sync -",
    "func sync - a=u8",
    "world - m:x=F:fn0",
    "world - m:x=F:fn1",
];

const MODULES: &[&str] = &["module e:m=mem:1:10:0:0:-", "module e:m=mem:4:-:0:0:-"];

const CHAINS: &[&str] = &[
    "func sync -",
    "iface - e:f=F:fn0",
    "iface - e:g=F:fn0",
    "iface - e:a=I:i0 e:b=I:i0",
    "iface - e:a=I:i1 e:b=I:i1",
    "iface - e:a=I:i2 e:b=I:i2",
    "iface - e:a=I:i3 e:b=I:i3",
];

static CASES: [Case; 4] = [
    Case {
        shown: "instances",
        lines: INSTANCES,
        ways: 2,
        tried: Tried::Bounds(Bounding {
            lines: INSTANCES,
            a: "I:i0",
            b: "I:i1",
            meet: (true, &["iface - e:f=F:fn0 e:g=F:fn0"]),
            join: (true, &["iface -"]),
        }),
    },
    Case {
        shown: "components",
        lines: COMPONENTS,
        ways: 2,
        tried: Tried::Bounds(Bounding {
            lines: COMPONENTS,
            a: "C:w0",
            b: "C:w1",
            meet: (true, &["world -"]),
            join: (false, &[]),
        }),
    },
    Case {
        shown: "core modules",
        lines: MODULES,
        ways: 2,
        tried: Tried::Bounds(Bounding {
            lines: MODULES,
            a: "M:m0",
            b: "M:m1",
            meet: (true, &["module e:m=mem:4:10:0:0:-"]),
            join: (true, &["module e:m=mem:1:-:0:0:-"]),
        }),
    },
    Case {
        shown: "chains that share",
        lines: CHAINS,
        ways: 2,
        tried: Tried::Bounds(Bounding {
            lines: CHAINS,
            a: "I:i4",
            b: "I:i5",
            meet: (
                true,
                &[
                    "iface - e:f=F:fn0 e:g=F:fn0",
                    "iface - e:a=I:i6 e:b=I:i6",
                    "iface - e:a=I:i7 e:b=I:i7",
                ],
            ),
            join: (
                true,
                &[
                    "iface -",
                    "iface - e:a=I:i6 e:b=I:i6",
                    "iface - e:a=I:i7 e:b=I:i7",
                ],
            ),
        }),
    },
];

#[test]
fn entries_that_stood_keep_their_content(rt: HostRuntime) {
    try_each(&rt, rt.alloc(), &CASES);
}
