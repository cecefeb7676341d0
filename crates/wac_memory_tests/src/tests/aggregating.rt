//! Merging imports: whatever is refused, the checker's direction and depth are as before, and its
//! cache is true and has nothing of the aggregator.

ghost use Rattle.wac_types.specs.HandedIn.{handed_in};
ghost use Rattle.wac_memory_tests.specs.Calls.{MayBeAggregated};

use super::cases::{Cache, Case, Tried, try_each};
use super::filling::{UNCHANGED, fill};
use super::handing::{Handed, calls_of};
use super::judging::judge;
use super::trial::Trial;
use wac_callers::merging::merge_each;
use wac_types::{Call, SubtypeChecker, Types, aggregate_all};

// What is handed in of two collections, at once in one way and one call after the other in another
// one, and what becomes of it: the names of the imports, or what a refusal says.
pub(crate) struct Merging {
    // The lines of the second collection.
    second: &'static [&'static str],
    handed: &'static [Handed],
    wanted: &'static str,
}

// Hands in all calls at once, or one after the other, and looks at the answer and at the checker.
fn merge(
    calls: &[Call<'_>],
    checker: &mut SubtypeChecker<'_>,
    is_each: bool,
    wanted: &str,
    trial: &mut Trial,
)
    requires { MayBeAggregated 9 (handed_in calls.now) }
{
    let (direction, depth) = (checker.direction(), checker.depth());
    if is_each {
        judge(merge_each(trial.alloc, 9, calls, checker), wanted, trial);
    } else {
        judge(aggregate_all(trial.alloc, 9, calls, checker), wanted, trial);
    }
    trial.demand(checker.direction() == direction && checker.depth() == depth);
}

// Demands that the items in a cache are of these two collections.
fn demand_known(first: &Types, second: &Types, cache: &Cache, trial: &mut Trial) {
    for (a, b) in cache.iter() {
        trial.demand(first.contains_item(*a) || second.contains_item(*a));
        trial.demand(first.contains_item(*b) || second.contains_item(*b));
    }
}

impl Merging {
    // Merges twice with one checker, so that the second answer rests on what the first one left.
    fn merge_twice(
        &self,
        checker: &mut SubtypeChecker<'_>,
        first: &Types,
        second: &Types,
        is_each: bool,
        trial: &mut Trial,
    ) {
        if first.number() != 1 || second.number() != 2 {
            return trial.demand(false);
        }
        match calls_of(trial.alloc, first, second, self.handed) {
            Ok(calls) => {
                merge(&calls, checker, is_each, self.wanted, trial);
                merge(&calls, checker, is_each, self.wanted, trial);
            }
            Err(stop) => trial.fail(stop.is_refusal()),
        }
    }

    fn merge_with(
        &self,
        first: &Types,
        second: &Types,
        cache: &mut Cache,
        is_each: bool,
        trial: &mut Trial,
    ) {
        let mut checker = SubtypeChecker::new(cache);
        self.merge_twice(&mut checker, first, second, is_each, trial);
        demand_known(first, second, cache, trial);
    }

    pub(crate) fn attempt(
        &self,
        types: &mut Types,
        cache: &mut Cache,
        way: usize,
        trial: &mut Trial,
    ) {
        let mut second = Types::new(trial.alloc, 2);
        match fill(trial.alloc, &mut second, self.second, &UNCHANGED) {
            Ok(()) => self.merge_with(types, &second, cache, way == 1, trial),
            Err(error) => trial.fail_line(&error),
        }
    }
}

// Two versions of one interface.
const VERSIONS: &[&str] = &[
    "func sync -",
    "iface a:b/c@0.2.0 e:foo=F:fn0",
    "iface a:b/c@0.2.1 e:foo=F:fn0",
];

// An interface that uses a type of another one, and such interfaces of both collections.
const USER: &[&str] = &[
    "iface dep:pkg/types@0.2.0 e:my-used=T:u8",
    "iface my:pkg/iface@1.0.0 u:my-used=i0",
];

const USERS: &[Handed] = &[
    ("my:pkg/iface@1.0.0", 1, "I:i1"),
    ("my:pkg/iface@1.0.0", 2, "I:i1"),
];

// An interface whose resource has an owner, and one whose resource has none.
const OWNED: &[&str] = &[
    "iface p:k/k@1.0.0 e:t=T:u8",
    "res r",
    "iface p:o/o@1.0.0 u:t=i0 e:r=T:r0 e:t=T:u8",
    "res r r0 i1",
    "iface p:u/u@1.0.0 u:r=i1 e:r=T:r1",
];

const UNOWNED: &[&str] = &[
    "res r",
    "iface p:u/u@1.0.0 e:r=T:r0",
    "func sync - x=own:r0",
    "iface p:k/k@1.0.0 e:f=F:fn0",
];

static CASES: [Case; 6] = [
    Case {
        shown: "two versions of an interface",
        lines: VERSIONS,
        ways: 2,
        tried: Tried::Merging(Merging {
            second: VERSIONS,
            handed: &[
                ("a:b/c@0.2.0", 1, "I:i0"),
                ("a:b/c@0.2.1", 2, "I:i1"),
                ("a:b/c@0.2.0", 1, "I:i0"),
            ],
            wanted: "a:b/c@0.2.1 ",
        }),
    },
    Case {
        shown: "a component's import, and an interface of its name",
        lines: &[
            "func sync -",
            "iface d:p/t@1.0.0 e:f=F:fn0",
            "world - m:x=I:i0",
        ],
        ways: 2,
        tried: Tried::Merging(Merging {
            second: &["func sync -", "iface d:p/t@1.0.0 e:f=F:fn0 e:g=F:fn0"],
            handed: &[("c", 1, "C:w0"), ("d:p/t@1.0.0", 2, "I:i0")],
            wanted: "c d:p/t@1.0.0 ",
        }),
    },
    Case {
        shown: "interfaces that use a type of one track",
        lines: USER,
        ways: 2,
        tried: Tried::Merging(Merging {
            second: &[
                "iface dep:pkg/types@0.2.1 e:my-used=T:u8",
                "iface my:pkg/iface@1.0.0 u:my-used=i0",
            ],
            handed: USERS,
            wanted: "my:pkg/iface@1.0.0 ",
        }),
    },
    Case {
        shown: "interfaces that use a type of two tracks",
        lines: USER,
        ways: 2,
        tried: Tried::Merging(Merging {
            second: &[
                "iface dep:pkg/types@0.3.0 e:my-used=T:u8",
                "iface my:pkg/iface@1.0.0 u:my-used=i0",
            ],
            handed: USERS,
            wanted: "cannot merge used type `my-used` as it is expected to be from interface `dep:pkg/types@0.2.0` but it is from interface `dep:pkg/types@0.3.0`",
        }),
    },
    Case {
        shown: "a resource that has an owner, and one that has none",
        lines: OWNED,
        ways: 2,
        tried: Tried::Merging(Merging {
            second: UNOWNED,
            handed: &[
                ("p:u/u@1.0.0", 1, "I:i2"),
                ("p:u/u@1.0.0", 2, "I:i0"),
                ("p:k/k@1.0.0", 2, "I:i1"),
            ],
            wanted: "p:o/o@1.0.0 p:u/u@1.0.0 p:k/k@1.0.0 ",
        }),
    },
    Case {
        shown: "a resource that has no owner, and one that has one",
        lines: OWNED,
        ways: 2,
        tried: Tried::Merging(Merging {
            second: UNOWNED,
            handed: &[
                ("p:k/k@1.0.0", 2, "I:i1"),
                ("p:u/u@1.0.0", 2, "I:i0"),
                ("p:u/u@1.0.0", 1, "I:i2"),
            ],
            wanted: "p:k/k@1.0.0 p:u/u@1.0.0 p:o/o@1.0.0 ",
        }),
    },
];

#[test]
fn a_checker_is_as_before_where_a_call_is_refused(rt: HostRuntime) {
    try_each(&rt, rt.alloc(), &CASES);
}
