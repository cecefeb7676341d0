//! All that a world imports and exports, in the order in which `wit-component` encodes it.

use super::made::{Exported, ImportSort, KnownEntries, What, WorldExterns, WorldImport};
use super::site::Site;
use indexmap::{IndexMap, IndexSet};
use std::alloc::{AllocError, Global};
use wac_wit_names::{Fault, Reason};

/// An interface, and how many of those that it uses were looked at.
#[derive(Clone, Copy)]
struct Step {
    thing: Thing,
    looked_at: usize,
}

// What stands behind those that it uses.
#[derive(Clone, Copy)]
enum Thing {
    /// An interface that is imported.
    Import(usize),
    /// An export, by its index.
    Export(usize),
}

/// What is elaborated so far.
struct Elaboration<'e> {
    known: KnownEntries<'e>,
    /// The exports, in the order in which they are written.
    written: Vec<Exported>,
    /// The exports of interfaces of packages, by these.
    exports_of: IndexMap<usize, usize>,
    imports: Vec<WorldImport>,
    /// The interfaces of packages among the imports.
    imported: IndexSet<usize>,
    /// The interfaces that exports need as imports.
    required: IndexSet<usize>,
    /// The exports that are in order.
    exported: IndexSet<usize>,
    /// Whether nothing of the world was refused.
    is_whole: bool,
}

impl Drop for Elaboration<'_> {
    fn drop(self) {
        let Elaboration {
            known: _,
            written: _,
            exports_of: _,
            imports: _,
            imported: _,
            required: _,
            exported: _,
            is_whole: _,
        } = self;
    }
}

impl Site<'_> {
    /// The imports of a world with all that they and the exports stand on, and its exports.
    ///
    /// The imports stand in the order of their sorts, and in one sort as they are written, but each
    /// behind those that it uses. Of the exports functions come first; an interface comes behind
    /// the exported ones that it uses.
    ///
    /// An export is refused that would need one interface as an import and as an export: with
    /// `Known` where the world isn't whole, since what was refused of it may export that one.
    pub fn elaborated(
        &self,
        imports: Vec<WorldImport>,
        exports: Vec<Exported>,
        is_whole: bool,
    ) -> Result<WorldExterns, Fault> {
        let mut all = Elaboration::of(self.alloc, self.known, exports, is_whole)?;
        self.push_imports(&mut all, sorted(imports)?)?;
        self.order_exports(&mut all)?;
        Ok(all.sides(self.alloc)?)
    }

    fn push_imports(
        &self,
        all: &mut Elaboration<'_>,
        imports: Vec<WorldImport>,
    ) -> Result<(), Fault> {
        for member in imports {
            self.push_behind(all, member)?;
        }
        Ok(())
    }

    // Puts an import last, behind the interfaces that it uses.
    fn push_behind(&self, all: &mut Elaboration<'_>, member: WorldImport) -> Result<(), Fault> {
        match member.sort {
            ImportSort::Interface(node) => return self.import_behind(all, node),
            ImportSort::UsedType(node) => self.import_behind(all, node)?,
            _ => {}
        }
        for node in &member.needs {
            self.import_behind(all, *node)?;
        }
        all.imports.push(member)?;
        Ok(())
    }

    // Imports an interface, behind those that it uses.
    fn import_behind(&self, all: &mut Elaboration<'_>, node: usize) -> Result<(), Fault> {
        let mut steps = Vec::new(self.alloc);
        enter_import(&mut steps, all, node)?;
        for _turn in 0..u64::MAX {
            let Some(step) = steps.pop() else {
                break;
            };
            let Thing::Import(node) = step.thing else {
                continue;
            };
            match all.need_of(&step) {
                Some(below) => {
                    steps.push(step.next())?;
                    enter_import(&mut steps, all, below)?;
                }
                None => all.imports.push(self.interface_member(node)?)?,
            }
        }
        Ok(())
    }

    // Puts exports in order: functions, and then interfaces.
    fn order_exports(&self, all: &mut Elaboration<'_>) -> Result<(), Fault> {
        for (index, it) in all.written.iter().enumerate() {
            if matches!(it.what, What::Func(_)) {
                all.exported.insert(index)?;
            }
        }
        for index in 0..all.written.len() {
            self.export_behind(all, index)?;
        }
        Ok(())
    }

    // Puts an exported interface last, behind the exported ones that it uses; those that it uses
    // and that aren't exported are imported.
    fn export_behind(&self, all: &mut Elaboration<'_>, index: usize) -> Result<(), Fault> {
        let mut steps = Vec::new(self.alloc);
        if !all.exported.contains(&index) {
            let thing = Thing::Export(index);
            steps.push(Step {
                thing,
                looked_at: 0,
            })?;
        }
        for _turn in 0..u64::MAX {
            let Some(step) = steps.pop() else {
                break;
            };
            match all.need_of(&step) {
                Some(below) => {
                    steps.push(step.next())?;
                    if let Some(thing) = all.thing_below(&step, below) {
                        self.check_sides(all, index, &thing)?;
                        steps.push(Step {
                            thing,
                            looked_at: 0,
                        })?;
                    }
                }
                None => self.end_step(all, index, &step)?,
            }
        }
        Ok(())
    }

    // Puts what is behind all that it uses last.
    fn end_step(&self, all: &mut Elaboration<'_>, index: usize, step: &Step) -> Result<(), Fault> {
        match step.thing {
            Thing::Import(node) => {
                all.required.insert(node)?;
                if all.imported.insert(node)? {
                    all.imports.push(self.interface_member(node)?)?;
                }
            }
            Thing::Export(other) => {
                self.check_sides(all, index, &step.thing)?;
                all.exported.insert(other)?;
            }
        }
        Ok(())
    }

    // Refuses an export that would need one interface as an import and as an export.
    fn check_sides(&self, all: &Elaboration<'_>, index: usize, thing: &Thing) -> Result<(), Fault> {
        let Some(node) = all.both_sides(thing) else {
            return Ok(());
        };
        if !all.is_whole {
            // what was refused may export it
            return Err(Fault::Known);
        }
        let Some(of) = all.written.get(index) else {
            return Err(Fault::Missing);
        };
        let message = self.needed_twice(&of.name, &self.catalog.node(node)?.id);
        Err(Fault::at(self.node.file, of.span, message).because(Reason::NeededTwice))
    }

    fn needed_twice(&self, name: &str, other: &str) -> Result<String, AllocError> {
        format!(in self.alloc;
            "`{name}` needs `{other}` as an export and, by what isn't exported, as an import"
        )
    }
}

impl Step {
    // The same step, after one more was looked at.
    fn next(&self) -> Step {
        Step {
            thing: self.thing,
            looked_at: self.looked_at.saturating_add(1),
        }
    }
}

impl<'e> Elaboration<'e> {
    // Nothing yet of these exports.
    fn of(
        alloc: Global,
        known: KnownEntries<'e>,
        written: Vec<Exported>,
        is_whole: bool,
    ) -> Result<Elaboration<'e>, AllocError> {
        let exports_of = exports_of(alloc, &written)?;
        Ok(Elaboration {
            known,
            written,
            exports_of,
            imports: Vec::new(alloc),
            imported: IndexSet::new(alloc),
            required: IndexSet::new(alloc),
            exported: IndexSet::new(alloc),
            is_whole,
        })
    }

    // What came out.
    fn sides(self, alloc: Global) -> Result<WorldExterns, AllocError> {
        let Elaboration {
            known: _,
            written,
            exports_of: _,
            imports,
            imported: _,
            required: _,
            exported,
            is_whole: _,
        } = self;
        let exports = in_order(alloc, written, &exported)?;
        let imports = sorted(imports)?;
        Ok(WorldExterns { imports, exports })
    }

    // The next interface that something uses.
    fn need_of(&self, step: &Step) -> Option<usize> {
        let needs = match step.thing {
            Thing::Import(node) => &self.known.interface(node)?.needs,
            Thing::Export(index) => &self.written.get(index)?.needs,
        };
        needs.get(step.looked_at).copied()
    }

    // As what an interface is used, if it isn't done.
    fn thing_below(&self, step: &Step, node: usize) -> Option<Thing> {
        if matches!(step.thing, Thing::Export(_))
            && let Some(index) = self.exports_of.get(&node)
        {
            if self.exported.contains(index) {
                return None;
            }
            return Some(Thing::Export(*index));
        }
        if self.required.contains(&node) {
            return None;
        }
        Some(Thing::Import(node))
    }

    // The interface that would be imported and exported.
    fn both_sides(&self, thing: &Thing) -> Option<usize> {
        match thing {
            Thing::Import(node) => {
                let other = self.exports_of.get(node)?;
                self.exported.contains(other).then_some(*node)
            }
            Thing::Export(other) => {
                let node = self.node_of(*other)?;
                self.required.contains(&node).then_some(node)
            }
        }
    }

    // The interface of a package that is exported.
    fn node_of(&self, index: usize) -> Option<usize> {
        match self.written.get(index)?.what {
            What::Interface(node) => Some(node),
            _ => None,
        }
    }
}

// Begins with an interface that isn't imported yet.
fn enter_import(
    steps: &mut Vec<Step>,
    all: &mut Elaboration<'_>,
    node: usize,
) -> Result<(), AllocError> {
    if all.imported.insert(node)? {
        let thing = Thing::Import(node);
        steps.push(Step {
            thing,
            looked_at: 0,
        })?;
    }
    Ok(())
}

// The exports of interfaces of packages, by these.
fn exports_of(alloc: Global, exports: &[Exported]) -> Result<IndexMap<usize, usize>, AllocError> {
    let mut known = IndexMap::new(alloc);
    for (index, it) in exports.iter().enumerate() {
        if let What::Interface(node) = it.what {
            known.insert(node, index)?;
        }
    }
    Ok(known)
}

// The exports in this order.
fn in_order(
    alloc: Global,
    exports: Vec<Exported>,
    order: &IndexSet<usize>,
) -> Result<Vec<Exported>, AllocError> {
    let mut places = Vec::new(alloc);
    for (index, it) in exports.into_iter().enumerate() {
        let place = order.get_index_of(&index).unwrap_or(usize::MAX);
        places.push((place, it))?;
    }
    places.sort_by_key(|it| it.0)?;
    let mut sorted = Vec::new(alloc);
    for (_, it) in places {
        sorted.push(it)?;
    }
    Ok(sorted)
}

// The place of a sort among the others.
fn rank_of(sort: &ImportSort) -> usize {
    match sort {
        ImportSort::Interface(_) | ImportSort::Inline => 0,
        ImportSort::UsedType(_) => 1,
        ImportSort::Type => 2,
        ImportSort::Func => 3,
        ImportSort::Method => 4,
    }
}

// Imports in the order of their sorts, and else as they stand.
fn sorted(imports: Vec<WorldImport>) -> Result<Vec<WorldImport>, AllocError> {
    let mut sorted = imports;
    sorted.sort_by_key(|it| rank_of(&it.sort))?;
    Ok(sorted)
}
