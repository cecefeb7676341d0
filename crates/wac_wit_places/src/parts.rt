//! The parts of what a path leads to: fields, cases, flags and parameters.

use super::sides::SourceSide;
use super::sources::FilePlace;
use super::walking::PathNode;
use indexmap::IndexSet;
use std::alloc::{AllocError, Global};
use wac_wit_syntax::{Case, Field, Ident, Span, TypeDef};

// A part, by its name, and where it stands.
#[derive(Clone, Copy)]
struct Part<'d> {
    name: &'d str,
    place: FilePlace,
}

// The parts of what a path leads to, and how many stand before them that aren't written.
struct Parts<'d> {
    hidden: usize,
    all: Vec<Part<'d>>,
}

impl Drop for Parts<'_> {
    fn drop(self) {
        let Parts { hidden: _, all: _ } = self;
    }
}

impl<'d> Parts<'d> {
    fn new(alloc: Global) -> Parts<'d> {
        Parts {
            hidden: 0,
            all: Vec::new(alloc),
        }
    }

    // Puts the parts of a function or a type last.
    fn push_all(&mut self, file: usize, node: PathNode<'d>) -> Result<(), AllocError> {
        match node {
            PathNode::Func(signature, is_method) => {
                self.hidden = if is_method { 1 } else { 0 };
                self.push_fields(file, &signature.params)
            }
            PathNode::Type(item) => self.push_members(file, &item.def),
            PathNode::Items | PathNode::Expr(_) | PathNode::Leaf => Ok(()),
        }
    }

    fn push_members(&mut self, file: usize, def: &'d TypeDef) -> Result<(), AllocError> {
        match def {
            TypeDef::Record(fields) => self.push_fields(file, fields),
            TypeDef::Variant(cases) => self.push_cases(file, cases),
            TypeDef::Flags(names) | TypeDef::Enum(names) => self.push_names(file, names),
            TypeDef::Alias(_) | TypeDef::Resource(_) => Ok(()),
        }
    }

    fn push(&mut self, file: usize, name: &'d str, span: Span) -> Result<(), AllocError> {
        let place = FilePlace { file, span };
        self.all.push(Part { name, place })?;
        Ok(())
    }

    fn push_fields(&mut self, file: usize, fields: &'d [Field]) -> Result<(), AllocError> {
        for field in fields {
            self.push(file, &field.name.name, field.span)?;
        }
        Ok(())
    }

    fn push_cases(&mut self, file: usize, cases: &'d [Case]) -> Result<(), AllocError> {
        for case in cases {
            self.push(file, &case.name.name, case.span)?;
        }
        Ok(())
    }

    fn push_names(&mut self, file: usize, names: &'d [Ident]) -> Result<(), AllocError> {
        for name in names {
            self.push(file, &name.name, name.span)?;
        }
        Ok(())
    }

    // The place of a part, by its name.
    fn place_of(&self, name: &str) -> Option<FilePlace> {
        for part in &self.all {
            if part.name == name {
                return Some(part.place);
            }
        }
        None
    }

    fn names(&self, alloc: Global) -> Result<IndexSet<String>, AllocError> {
        let mut names = IndexSet::new(alloc);
        for part in &self.all {
            names.insert(String::from_str(alloc, part.name)?)?;
        }
        Ok(names)
    }

    // The first part whose name isn't among these.
    fn first_not_in(&self, names: &IndexSet<String>) -> Option<FilePlace> {
        for part in &self.all {
            if !names.contains(part.name) {
                return Some(part.place);
            }
        }
        None
    }
}

// The parts at the end of a path.
fn parts_at<'d>(alloc: Global, side: &SourceSide<'_, 'd>) -> Result<Parts<'d>, AllocError> {
    let mut parts = Parts::new(alloc);
    if let Some(walk) = &side.walk {
        let walk = side.map.peeled(walk);
        parts.push_all(walk.place.file, walk.node)?;
    }
    Ok(parts)
}

// The place of what has the parts.
fn whole(side: &SourceSide<'_, '_>) -> Option<FilePlace> {
    match &side.walk {
        Some(walk) => Some(side.map.peeled(walk).place),
        None => None,
    }
}

/// Where two lists of parts differ in length: the part that one side has and the other one hasn't,
/// and what has the parts on the other side.
pub(crate) fn added(
    alloc: Global,
    expected: &SourceSide<'_, '_>,
    found: &SourceSide<'_, '_>,
) -> Result<(Option<FilePlace>, Option<FilePlace>), AllocError> {
    let all_expected = parts_at(alloc, expected)?;
    let all_found = parts_at(alloc, found)?;
    if all_found.all.len() > all_expected.all.len() {
        let names = all_expected.names(alloc)?;
        let place = all_found.first_not_in(&names).or(whole(found));
        return Ok((whole(expected), place));
    }
    let names = all_found.names(alloc)?;
    let place = all_expected.first_not_in(&names).or(whole(expected));
    Ok((place, whole(found)))
}

/// The place of the part at an index.
pub(crate) fn nth(
    alloc: Global,
    side: &SourceSide<'_, '_>,
    index: usize,
) -> Result<Option<FilePlace>, AllocError> {
    let parts = parts_at(alloc, side)?;
    let index = index.saturating_sub(parts.hidden);
    match parts.all.get(index) {
        Some(part) => Ok(Some(part.place)),
        None => Ok(whole(side)),
    }
}

/// The place of the part of a name.
pub(crate) fn named(
    alloc: Global,
    side: &SourceSide<'_, '_>,
    name: &str,
) -> Result<Option<FilePlace>, AllocError> {
    let parts = parts_at(alloc, side)?;
    Ok(parts.place_of(name).or(whole(side)))
}
