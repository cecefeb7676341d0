//! Comparing: whatever is refused, the checker's direction and depth are as before, its cache is
//! true, and no answer is another than the undisturbed one.

use super::cases::{Cache, Case, Tried, try_each};
use super::judging::judge;
use super::trial::{Trial, item};
use std::collections::HashSet;
use wac_types::{ItemKind, SubtypeChecker, Types};

// Asks whether the first item fits where the second is asked for, and looks at the answer and at the
// checker.
fn ask(
    checker: &mut SubtypeChecker<'_>,
    types: &Types,
    items: &(ItemKind, ItemKind),
    wanted: &str,
    trial: &mut Trial,
) {
    let (a, b) = *items;
    if !types.contains_item(a) || !types.contains_item(b) {
        return trial.demand(false);
    }
    let (direction, depth) = (checker.direction(), checker.depth());
    let answer = checker.is_subtype(trial.alloc, a, types, b, types);
    trial.demand(checker.direction() == direction && checker.depth() == depth);
    judge(answer, wanted, trial);
}

// Demands that an item fits by a new checker with a new cache.
fn demand_fit(types: &Types, items: &(ItemKind, ItemKind), trial: &mut Trial) {
    let mut cache = HashSet::new(trial.alloc);
    let mut checker = SubtypeChecker::new(&mut cache);
    ask(&mut checker, types, items, "fits", trial);
}

// Demands that a cache is true: the one item of each pair fits where the other is asked for.
fn demand_truth(types: &Types, cache: &Cache, trial: &mut Trial) {
    for items in cache.iter() {
        demand_fit(types, items, trial);
    }
}

// Items of a collection, and whether the first fits where the second is asked for: in one way as it
// stands, and in another one with a checker that is turned.
pub(crate) struct Comparison {
    a: &'static str,
    b: &'static str,
    covariant: &'static str,
    contravariant: &'static str,
}

impl Comparison {
    // Asks twice with one checker, so that the second answer rests on what the first one left.
    fn ask_twice(
        &self,
        checker: &mut SubtypeChecker<'_>,
        types: &Types,
        wanted: &str,
        trial: &mut Trial,
    ) {
        let (Ok(a), Ok(b)) = (item(types, self.a), item(types, self.b)) else {
            return trial.demand(false);
        };
        let items = (a, b);
        ask(checker, types, &items, wanted, trial);
        ask(checker, types, &items, wanted, trial);
    }

    pub(crate) fn attempt(
        &self,
        types: &mut Types,
        cache: &mut Cache,
        way: usize,
        trial: &mut Trial,
    ) {
        let wanted = if way == 0 {
            self.covariant
        } else {
            self.contravariant
        };
        let mut checker = SubtypeChecker::new(cache);
        if way == 1 {
            checker.invert();
        }
        self.ask_twice(&mut checker, types, wanted, trial);
        demand_truth(types, cache, trial);
    }
}

static CASES: [Case; 5] = [
    Case {
        shown: "a memory with wider limits",
        lines: &["module e:m=mem:1:-:0:0:-", "module e:m=mem:2:5:0:0:-"],
        ways: 2,
        tried: Tried::Comparison(Comparison {
            a: "M:m0",
            b: "M:m1",
            covariant: "mismatched type for export `m` / mismatched memory limits",
            contravariant: "mismatched type for export `m` / mismatched memory limits",
        }),
    },
    Case {
        shown: "an import that is not given",
        lines: &["func sync -", "world - m:x=F:fn0", "world -"],
        ways: 2,
        tried: Tried::Comparison(Comparison {
            a: "C:w0",
            b: "C:w1",
            covariant: "component is missing expected function import `x`",
            contravariant: "component has unexpected import function `x`",
        }),
    },
    Case {
        shown: "instances of which one lacks an export below others that fit",
        lines: &[
            "func sync -",
            "iface - e:f=F:fn0",
            "iface - e:f=F:fn0",
            "iface - e:f=F:fn0 e:g=F:fn0",
            "iface - e:a=I:i0 e:b=I:i0",
            "iface - e:a=I:i1 e:b=I:i2",
        ],
        ways: 2,
        tried: Tried::Comparison(Comparison {
            a: "I:i3",
            b: "I:i4",
            covariant: "mismatched type for export `b` / instance is missing expected function export `g`",
            contravariant: "mismatched type for export `b` / instance has unexpected function export `g`",
        }),
    },
    // lists in lists, deep enough that the pairs that are named take memory
    Case {
        shown: "lists of other elements",
        lines: &[
            "def list u8",
            "def list s8",
            "def list d0",
            "def list d1",
            "def list d2",
            "def list d3",
            "def list d4",
            "def list d5",
            "def list d6",
            "def list d7",
            "def list d8",
            "def list d9",
        ],
        ways: 2,
        tried: Tried::Comparison(Comparison {
            a: "V:d10",
            b: "V:d11",
            covariant: "mismatched type for list element / mismatched type for list element / mismatched type for list element / mismatched type for list element / mismatched type for list element / mismatched type for list element / expected s8, found u8",
            contravariant: "mismatched type for list element / mismatched type for list element / mismatched type for list element / mismatched type for list element / mismatched type for list element / mismatched type for list element / expected u8, found s8",
        }),
    },
    Case {
        shown: "tuples that share",
        lines: &[
            "def tuple u8 u8",
            "def tuple u8 u8",
            "def tuple d0 d0",
            "def tuple d1 d1",
            "def tuple d2 d2",
            "def tuple d3 d3",
            "def tuple d4 d4",
            "def tuple d5 d5",
            "def tuple d6 d6",
            "def tuple d7 d7",
            "def tuple d8 d8",
            "def tuple d9 d9",
            "def tuple d10 d10",
            "def tuple d11 d11",
            "def tuple d12 d12",
            "def tuple d13 d13",
            "def tuple d14 d14",
            "def tuple d15 d15",
            "def tuple d16 d16",
            "def tuple d17 d17",
            "def tuple d18 d18",
            "def tuple d19 d19",
            "def tuple d20 d20",
            "def tuple d21 d21",
            "def tuple d22 d22",
            "def tuple d23 d23",
            "def tuple d24 d24",
            "def tuple d25 d25",
            "def tuple d26 d26",
            "def tuple d27 d27",
            "def tuple d28 d28",
            "def tuple d29 d29",
            "def tuple d30 d30",
            "def tuple d31 d31",
            "def tuple d32 d32",
            "def tuple d33 d33",
            "def tuple d34 d34",
            "def tuple d35 d35",
            "def tuple d36 d36",
            "def tuple d37 d37",
            "def tuple d38 d38",
            "def tuple d39 d39",
            "def tuple d40 d40",
            "def tuple d41 d41",
            "def tuple d42 d42",
            "def tuple d43 d43",
            "def tuple d44 d44",
            "def tuple d45 d45",
            "def tuple d46 d46",
            "def tuple d47 d47",
            "def tuple d48 d48",
            "def tuple d49 d49",
            "def tuple d50 d50",
            "def tuple d51 d51",
            "def tuple d52 d52",
            "def tuple d53 d53",
            "def tuple d54 d54",
            "def tuple d55 d55",
            "def tuple d56 d56",
            "def tuple d57 d57",
        ],
        ways: 2,
        tried: Tried::Comparison(Comparison {
            a: "V:d58",
            b: "V:d59",
            covariant: "fits",
            contravariant: "fits",
        }),
    },
];

#[test]
fn an_answer_is_the_undisturbed_one_or_none(rt: HostRuntime) {
    try_each(&rt, rt.alloc(), &CASES);
}
