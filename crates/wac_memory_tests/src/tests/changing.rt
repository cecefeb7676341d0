//! Adding and replacing an entry: where that is refused, the collection is as it was, and a content
//! that was to replace an entry is handed back.

use super::cases::{Case, Tried, try_each};
use super::entries::ENTRIES;
use super::filling::{Change, demand_lines};
use super::trial::Trial;
use super::without_memory::demand_answers;
use std::fmt::Debug;
use std::slice;
use wac_script_syntax::Sort;
use wac_types::{ModuleError, ReplaceError, Types};

// Where a clone of the second entry of a sort is put.
#[derive(Drop)]
struct Place {
    // The index of the entry that it replaces, unless it is added.
    index: usize,
    is_added: bool,
    // Whether it leads to the entry that it replaces.
    is_cycle: bool,
    // Its number among the lines of the collection.
    line: usize,
}

// A clone of the second entry of a list.
fn copied<T: Clone>(entries: slice::Iter<'_, T>, trial: &mut Trial) -> Option<T> {
    let mut entries = entries;
    let Some(entry) = entries.nth(1) else {
        trial.demand(false);
        return None;
    };
    match entry.clone() {
        Ok(copy) => Some(copy),
        Err(_) => {
            trial.refuse();
            None
        }
    }
}

// Demands that a content that was handed back is like the second entry of a list.
fn demand_back<T: Debug>(back: &T, entries: slice::Iter<'_, T>, trial: &mut Trial) {
    let mut entries = entries;
    match entries.nth(1) {
        Some(entry) => trial.demand_alike(back, entry),
        None => trial.demand(false),
    }
}

// Whether a clone of the second entry of a list replaced one.
fn replaced<T: Debug + Drop>(
    answer: Result<(), ReplaceError<T>>,
    entries: slice::Iter<'_, T>,
    place: &Place,
    trial: &mut Trial,
) -> bool {
    match &answer {
        Ok(()) => trial.demand(!place.is_cycle),
        Err(ReplaceError::Cycle(back)) => {
            trial.demand(place.is_cycle);
            demand_back(back, entries, trial);
        }
        Err(ReplaceError::Memory(back)) => {
            trial.refuse();
            demand_back(back, entries, trial);
        }
        // the content is one that stands
        Err(ReplaceError::Limits(_)) => trial.demand(false),
    }
    answer.is_ok()
}

// Whether an entry was added.
fn added(is_added: bool, trial: &mut Trial) -> bool {
    if !is_added {
        trial.refuse();
    }
    is_added
}

// Lets a content go that can't be put into the collection, as each can.
fn unfit<T: Drop>(_content: T, trial: &mut Trial) -> bool {
    trial.demand(false);
    false
}

// Each of these puts a clone of the second entry of a sort at a place, and says whether it did. A
// content is handed over wherever they end: one of a known type is dropped field by field, which
// takes long to prove.

fn put_defined_type(types: &mut Types, place: &Place, trial: &mut Trial) -> bool {
    let Some(content) = copied(types.defined_types(), trial) else {
        return false;
    };
    match types.defined_type_at(place.index) {
        Some(id) if types.can_add_defined_type(&content) => {
            if place.is_added {
                added(types.add_defined_type(content).is_ok(), trial)
            } else {
                let answer = types.replace_defined_type(id, content);
                replaced(answer, types.defined_types(), place, trial)
            }
        }
        _ => unfit(content, trial),
    }
}

fn put_resource(types: &mut Types, place: &Place, trial: &mut Trial) -> bool {
    let Some(content) = copied(types.resources(), trial) else {
        return false;
    };
    match types.resource_at(place.index) {
        Some(id) if types.can_add_resource(&content) => {
            if place.is_added {
                added(types.add_resource(content).is_ok(), trial)
            } else {
                let answer = types.replace_resource(id, content);
                replaced(answer, types.resources(), place, trial)
            }
        }
        _ => unfit(content, trial),
    }
}

fn put_func_type(types: &mut Types, place: &Place, trial: &mut Trial) -> bool {
    let Some(content) = copied(types.func_types(), trial) else {
        return false;
    };
    match types.func_type_at(place.index) {
        Some(id) if types.can_add_func_type(&content) => {
            if place.is_added {
                added(types.add_func_type(content).is_ok(), trial)
            } else {
                let answer = types.replace_func_type(id, content);
                replaced(answer, types.func_types(), place, trial)
            }
        }
        _ => unfit(content, trial),
    }
}

fn put_interface(types: &mut Types, place: &Place, trial: &mut Trial) -> bool {
    let Some(content) = copied(types.interfaces(), trial) else {
        return false;
    };
    match types.interface_at(place.index) {
        Some(id) if types.can_add_interface(&content) => {
            if place.is_added {
                added(types.add_interface(content).is_ok(), trial)
            } else {
                let answer = types.replace_interface(id, content);
                replaced(answer, types.interfaces(), place, trial)
            }
        }
        _ => unfit(content, trial),
    }
}

fn put_world(types: &mut Types, place: &Place, trial: &mut Trial) -> bool {
    let Some(content) = copied(types.worlds(), trial) else {
        return false;
    };
    match types.world_at(place.index) {
        Some(id) if types.can_add_world(&content) => {
            if place.is_added {
                added(types.add_world(content).is_ok(), trial)
            } else {
                let answer = types.replace_world(id, content);
                replaced(answer, types.worlds(), place, trial)
            }
        }
        _ => unfit(content, trial),
    }
}

fn put_module_type(types: &mut Types, place: &Place, trial: &mut Trial) -> bool {
    let Some(content) = copied(types.modules(), trial) else {
        return false;
    };
    match types.module_type_at(place.index) {
        Some(id) if !place.is_added => {
            let answer = types.replace_module_type(id, content);
            replaced(answer, types.modules(), place, trial)
        }
        Some(_) => {
            let answer = types.add_module_type(content);
            trial.demand(!matches!(answer, Err(ModuleError::Limits)));
            added(answer.is_ok(), trial)
        }
        None => unfit(content, trial),
    }
}

fn put(types: &mut Types, sort: &Sort, place: &Place, trial: &mut Trial) -> bool {
    match sort {
        Sort::DefinedType => put_defined_type(types, place, trial),
        Sort::Resource => put_resource(types, place, trial),
        Sort::Func => put_func_type(types, place, trial),
        Sort::Interface => put_interface(types, place, trial),
        Sort::World => put_world(types, place, trial),
        Sort::Module => put_module_type(types, place, trial),
    }
}

// Puts a clone of the second entry of a sort in the place of the first, which it may lead to, in the
// place of the third, to which nothing leads, or last.
pub(crate) struct Putting {
    sort: Sort,
    second: &'static str,
    // Whether the second leads to the first.
    leads: bool,
    // The number of the first among the lines of the collection.
    line: usize,
}

impl Putting {
    fn place(&self, way: usize) -> Place {
        Place {
            index: if way == 0 { 0 } else { 2 },
            is_added: way == 2,
            is_cycle: way == 0 && self.leads,
            // the thirds come after the firsts and the seconds, of each sort one
            line: match way {
                0 => self.line,
                1 => self.line.saturating_add(12),
                _ => 18,
            },
        }
    }

    pub(crate) fn attempt(&self, types: &mut Types, way: usize, trial: &mut Trial) {
        let place = self.place(way);
        let is_put = put(types, &self.sort, &place, trial);
        demand_answers(types, trial);
        let change = Change::where_made(is_put, place.line, self.second);
        demand_lines(types, &ENTRIES, &change, &[], trial);
    }
}

static CASES: [Case; 6] = [
    Case {
        shown: "a defined type",
        lines: &ENTRIES,
        ways: 3,
        tried: Tried::Putting(Putting {
            sort: Sort::DefinedType,
            second: "def record a=d0",
            leads: true,
            line: 0,
        }),
    },
    Case {
        shown: "a resource",
        lines: &ENTRIES,
        ways: 3,
        tried: Tried::Putting(Putting {
            sort: Sort::Resource,
            second: "res other r0 i0",
            leads: true,
            line: 1,
        }),
    },
    Case {
        shown: "a function",
        lines: &ENTRIES,
        ways: 3,
        tried: Tried::Putting(Putting {
            sort: Sort::Func,
            second: "func async u8 x=d0",
            leads: false,
            line: 2,
        }),
    },
    Case {
        shown: "an interface",
        lines: &ENTRIES,
        ways: 3,
        tried: Tried::Putting(Putting {
            sort: Sort::Interface,
            second: "iface p:i/n u:t=i0=u e:x=I:i0",
            leads: true,
            line: 3,
        }),
    },
    Case {
        shown: "a world",
        lines: &ENTRIES,
        ways: 3,
        tried: Tried::Putting(Putting {
            sort: Sort::World,
            second: "world p:w/n u:t=i0=u m:i=I:i0 e:c=C:w0",
            leads: true,
            line: 4,
        }),
    },
    Case {
        shown: "a core module",
        lines: &ENTRIES,
        ways: 3,
        tried: Tried::Putting(Putting {
            sort: Sort::Module,
            second: "module m:e,t=table:null.3:1:4:1:0 e:x=tag:i32:",
            leads: false,
            line: 5,
        }),
    },
];

#[test]
fn a_refused_entry_leaves_the_collection_and_is_handed_back(rt: HostRuntime) {
    try_each(&rt, rt.alloc(), &CASES);
}
