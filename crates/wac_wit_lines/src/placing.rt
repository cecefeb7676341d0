//! Puts the entries of a collection in an order in which each stands behind those that it names.

use super::members::{EntryMembers, add_entry};
use std::alloc::{AllocError, Global};
use wac_component::{Type, Types, ValueType};

/// How many entries of each sort stand above another.
#[derive(Clone, Copy)]
struct Counts {
    defined_types: usize,
    resources: usize,
    funcs: usize,
    interfaces: usize,
    worlds: usize,
}

// How many entries stand up to one.
fn up_to(index: usize) -> usize {
    index.saturating_add(1)
}

impl Counts {
    fn none() -> Counts {
        Counts {
            defined_types: 0,
            resources: 0,
            funcs: 0,
            interfaces: 0,
            worlds: 0,
        }
    }

    // As many of each sort as stand up to the last of these.
    fn of(members: &EntryMembers) -> Counts {
        let mut counts = Counts::none();
        for member in &members.all {
            counts.add(member);
        }
        counts
    }

    fn add(&mut self, entry: &Type) {
        match entry {
            Type::Value(ValueType::Defined(id)) => {
                self.defined_types = self.defined_types.max(up_to(id.index()))
            }
            Type::Resource(id) => self.resources = self.resources.max(up_to(id.index())),
            Type::Func(id) => self.funcs = self.funcs.max(up_to(id.index())),
            Type::Interface(id) => self.interfaces = self.interfaces.max(up_to(id.index())),
            Type::World(id) => self.worlds = self.worlds.max(up_to(id.index())),
            Type::Value(_) | Type::Module(_) => {}
        }
    }

    fn is_within(&self, other: &Counts) -> bool {
        self.defined_types <= other.defined_types
            && self.resources <= other.resources
            && self.funcs <= other.funcs
            && self.interfaces <= other.interfaces
            && self.worlds <= other.worlds
    }
}

/// What sort of entry comes next.
#[derive(Clone, Copy)]
enum Sort {
    DefinedType,
    Resource,
    Func,
    Interface,
    World,
}

static SORTS: [Sort; 5] = [
    Sort::DefinedType,
    Sort::Resource,
    Sort::Func,
    Sort::Interface,
    Sort::World,
];

// The next entry of a sort, behind those that are placed.
fn next_of(types: &Types, sort: &Sort, placed: &Counts) -> Option<Type> {
    Some(match sort {
        Sort::DefinedType => {
            let id = types.defined_type_at(placed.defined_types)?;
            Type::Value(ValueType::Defined(id))
        }
        Sort::Resource => Type::Resource(types.resource_at(placed.resources)?),
        Sort::Func => Type::Func(types.func_type_at(placed.funcs)?),
        Sort::Interface => Type::Interface(types.interface_at(placed.interfaces)?),
        Sort::World => Type::World(types.world_at(placed.worlds)?),
    })
}

/// All entries, each behind those that it names.
pub(crate) fn placed(alloc: Global, types: &Types) -> Result<Vec<Type>, AllocError> {
    let mut order = Vec::new(alloc);
    let mut counts = Counts::none();
    for _turn in 0..u64::MAX {
        let before = order.len();
        for sort in &SORTS {
            place_sort(alloc, types, sort, &mut counts, &mut order)?;
        }
        if order.len() == before {
            break;
        }
    }
    Ok(order)
}

// Places the entries of one sort, as long as what they name is placed.
fn place_sort(
    alloc: Global,
    types: &Types,
    sort: &Sort,
    counts: &mut Counts,
    order: &mut Vec<Type>,
) -> Result<(), AllocError> {
    for _turn in 0..u64::MAX {
        let Some(entry) = next_of(types, sort, counts) else {
            break;
        };
        if !Counts::of(&EntryMembers::of(alloc, types, &entry)?).is_within(counts) {
            break;
        }
        counts.add(&entry);
        add_entry(order, entry)?;
    }
    Ok(())
}
