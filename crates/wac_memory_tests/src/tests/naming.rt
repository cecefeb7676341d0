//! Maps of names: a refused insertion leaves the definitions, and the interner gives each text the
//! key that it gave before.

use super::cases::{Case, Tried, try_each};
use super::cloning::clone;
use super::trial::Trial;
use wac_types::{NameError, NameMap, NameMapIntern, Numbers};

type Map = NameMap<usize, u32>;

// Demands that a map has these entries, in this order.
fn demand_entries(map: &Map, wanted: &[(usize, u32)], trial: &mut Trial) {
    let mut at = 0usize;
    for (key, value) in map.raw_iter() {
        trial.demand(wanted.get(at) == Some(&(*key, *value)));
        at = at.saturating_add(1);
    }
    trial.demand(at == wanted.len());
}

// Demands that the interner gives a text the key that it was given.
fn demand_key(cx: &Numbers, name: &str, key: usize, trial: &mut Trial) {
    trial.demand(matches!(cx.lookup(trial.alloc, name), Ok(Some(found)) if found == key));
}

// Demands that a name finds a value.
fn demand_value(map: &Map, cx: &Numbers, name: &str, value: u32, trial: &mut Trial) {
    match map.get(name, cx) {
        Ok(found) => trial.demand(found.copied() == Some(value)),
        Err(_) => trial.refuse(),
    }
}

// Whether a name that isn't there is inserted.
fn insert(map: &mut Map, cx: &mut Numbers, name: &str, value: u32, trial: &mut Trial) -> bool {
    match map.insert(name, cx, false, value) {
        Ok(_key) => true,
        Err(error) => {
            trial.fail(matches!(error, NameError::Memory));
            false
        }
    }
}

// The names that a map is filled with have these keys: the track of the second one has the key 2.
static FILLED: [(usize, u32); 2] = [(0, 0), (1, 2)];

// Demands that the interner gives the texts that it was given their keys.
fn demand_keys(cx: &Numbers, trial: &mut Trial) {
    demand_key(cx, "a", 0, trial);
    demand_key(cx, "a:b/c@1.0.0", 1, trial);
    demand_key(cx, "a:b/c@1", 2, trial);
}

// Inserts a name, and then finds it.
fn insert_new(map: &mut Map, cx: &mut Numbers, name: &str, trial: &mut Trial) {
    let is_inserted = insert(map, cx, name, 5, trial);
    demand_keys(cx, trial);
    if is_inserted {
        demand_entries(map, &[(0, 0), (1, 2), (3, 5)], trial);
        demand_value(map, cx, name, 5, trial);
    } else {
        demand_entries(map, &FILLED, trial);
    }
}

// Inserts a name that is there, which stays as it is.
fn insert_again(map: &mut Map, cx: &mut Numbers, trial: &mut Trial) {
    match &map.insert("a", cx, false, 7) {
        Err(NameError::Twice { name }) => trial.demand(name.as_str() == "a"),
        Err(NameError::Memory) => trial.refuse(),
        Ok(_key) => trial.demand(false),
    }
    demand_entries(map, &FILLED, trial);
    demand_keys(cx, trial);
}

// What is done with a map that was filled.
pub(crate) enum Use {
    // A name that isn't there is inserted.
    Insert(&'static str),
    InsertAgain,
    // The value of a name is found by its track, and the map is cloned.
    Get,
}

impl Use {
    // Fills a new map, which holds nothing, and does this with it. Of the names that it is filled
    // with one is on the track of one that is inserted.
    fn try_with(&self, map: &mut Map, cx: &mut Numbers, trial: &mut Trial) {
        trial.demand(map.raw_get_mut(&0).is_none());
        if !insert(map, cx, "a", 0, trial) || !insert(map, cx, "a:b/c@1.0.0", 2, trial) {
            return;
        }
        match self {
            Use::Insert(name) => insert_new(map, cx, name, trial),
            Use::InsertAgain => insert_again(map, cx, trial),
            Use::Get => {
                demand_value(map, cx, "a:b/c@1.9.0", 2, trial);
                clone(map, trial);
                demand_entries(map, &FILLED, trial);
            }
        }
    }

    pub(crate) fn attempt(&self, trial: &mut Trial) {
        let mut cx = Numbers::new(trial.alloc);
        let mut map: Map = NameMap::new(trial.alloc);
        self.try_with(&mut map, &mut cx, trial);
    }
}

static CASES: [Case; 5] = [
    Case {
        shown: "a name that has no track is inserted",
        lines: &[],
        ways: 1,
        tried: Tried::Names(Use::Insert("b")),
    },
    Case {
        shown: "a name on a track that is known is inserted",
        lines: &[],
        ways: 1,
        tried: Tried::Names(Use::Insert("a:b/c@1.2.0")),
    },
    Case {
        shown: "a name on a new track is inserted",
        lines: &[],
        ways: 1,
        tried: Tried::Names(Use::Insert("a:b/d@0.2.0")),
    },
    Case {
        shown: "a name is inserted again",
        lines: &[],
        ways: 1,
        tried: Tried::Names(Use::InsertAgain),
    },
    Case {
        shown: "a name is found",
        lines: &[],
        ways: 1,
        tried: Tried::Names(Use::Get),
    },
];

#[test]
fn a_map_is_as_before_where_a_call_is_refused(rt: HostRuntime) {
    try_each(&rt, rt.alloc(), &CASES);
}
