//! The order in which the types of an interface are made.

use super::builder::Builder;
use super::ordering::first_first;
use indexmap::IndexMap;
use std::alloc::{AllocError, Global};
use wac_wit_names::{Fault, Reason, joined};
use wac_wit_syntax::{Case, Field, Span, TypeDef, TypeExpr, TypeItem};

// A type that is named, and where.
#[derive(Clone, Copy)]
struct Need {
    index: usize,
    span: Span,
}

impl Builder<'_> {
    /// The types, each behind those that it names, and of those that may come next the first in the
    /// text. Types that lead to themselves are refused, and aren't among them.
    pub(crate) fn type_order(&mut self, items: &[&TypeItem]) -> Result<Vec<usize>, Fault> {
        let needs = all_needs(self.alloc, items)?;
        let sorted = first_first(self.alloc, &indices_in(self.alloc, &needs)?)?;
        if sorted.len() < items.len() {
            self.note_cycle(items, &needs, &sorted)?;
        }
        Ok(sorted)
    }

    // Refuses the types that aren't in order.
    fn note_cycle(
        &mut self,
        items: &[&TypeItem],
        needs: &[Vec<Need>],
        sorted: &[usize],
    ) -> Result<(), Fault> {
        let is_done = done_of(self.alloc, items.len(), sorted)?;
        for (item, done) in items.iter().zip(&is_done) {
            if !*done {
                self.note_broken(&item.name)?;
            }
        }
        let cycle = cycle_in(self.alloc, needs, &is_done)?;
        let fault = self.refuse_cycle(items, &cycle);
        self.refusals.note(fault)
    }

    // Refuses a cycle where its first type names the next.
    fn refuse_cycle(&self, items: &[&TypeItem], cycle: &[Need]) -> Fault {
        match (cycle.first(), cycle.last()) {
            (Some(first), Some(last)) => {
                let message = cycle_message(self.alloc, items, cycle, last.index);
                Fault::at(self.site.node.file, first.span, message).because(Reason::TypeCycle)
            }
            _ => Fault::Missing,
        }
    }
}

// Which types are in order.
fn done_of(alloc: Global, length: usize, sorted: &[usize]) -> Result<Vec<bool>, AllocError> {
    let mut is_done = vec![in alloc; false; length]?;
    for index in sorted {
        if let Some(done) = is_done.get_mut(*index) {
            *done = true;
        }
    }
    Ok(is_done)
}

// A cycle among the types that aren't done, as the needs that lead along it, from the type on that
// stands first in the text.
fn cycle_in(alloc: Global, needs: &[Vec<Need>], is_done: &[bool]) -> Result<Vec<Need>, AllocError> {
    let start = type_on_cycle(needs, is_done);
    let mut at = start;
    let mut cycle = Vec::new(alloc);
    for _step in 0..needs.len() {
        let Some(need) = step_from(needs, is_done, at) else {
            break;
        };
        cycle.push(need)?;
        at = need.index;
        if at == start {
            break;
        }
    }
    rotated(alloc, &cycle)
}

// A type on a cycle: after as many steps as there are types a walk is on one.
fn type_on_cycle(needs: &[Vec<Need>], is_done: &[bool]) -> usize {
    let mut at = first_open(is_done);
    for _step in 0..needs.len() {
        if let Some(need) = step_from(needs, is_done, at) {
            at = need.index;
        }
    }
    at
}

// The first type that isn't done.
fn first_open(is_done: &[bool]) -> usize {
    for (index, done) in is_done.iter().enumerate() {
        if !*done {
            return index;
        }
    }
    0
}

// What a type that isn't done needs and isn't done either.
fn step_from(needs: &[Vec<Need>], is_done: &[bool], at: usize) -> Option<Need> {
    for need in needs.get(at)? {
        if is_open(is_done, need.index) {
            return Some(*need);
        }
    }
    None
}

fn is_open(is_done: &[bool], index: usize) -> bool {
    match is_done.get(index) {
        Some(done) => !*done,
        None => false,
    }
}

// The same cycle, which ends with the need that leads to its least type.
fn rotated(alloc: Global, cycle: &[Need]) -> Result<Vec<Need>, AllocError> {
    let mut least = 0usize;
    for (at, need) in cycle.iter().enumerate() {
        if let Some(best) = cycle.get(least)
            && need.index < best.index
        {
            least = at;
        }
    }
    let mut whole = Vec::new(alloc);
    for need in cycle.iter().skip(least.saturating_add(1)) {
        whole.push(*need)?;
    }
    for need in cycle.iter().take(least.saturating_add(1)) {
        whole.push(*need)?;
    }
    Ok(whole)
}

// What is said of a cycle that ends with the need that leads to this type.
fn cycle_message(
    alloc: Global,
    items: &[&TypeItem],
    cycle: &[Need],
    last: usize,
) -> Result<String, AllocError> {
    let mut message = joined(
        alloc,
        "the type `",
        name_at(items, last),
        "` leads to itself",
    )?;
    for need in cycle {
        if need.index != last {
            let next = name_at(items, need.index);
            write!(message, ", by way of `{next}`")?;
        }
    }
    Ok(message)
}

// The name of the type at an index, which there is.
fn name_at<'n>(items: &[&'n TypeItem], index: usize) -> &'n str {
    match items.get(index) {
        Some(item) => item.name.name.as_str(),
        None => "",
    }
}

// What each type names of the others.
fn all_needs(alloc: Global, items: &[&TypeItem]) -> Result<Vec<Vec<Need>>, AllocError> {
    needs_among(alloc, &indices_of(alloc, items)?, items)
}

// The index of each type, by its name.
fn indices_of(alloc: Global, items: &[&TypeItem]) -> Result<IndexMap<String, usize>, AllocError> {
    let mut indices = IndexMap::new(alloc);
    for (index, item) in items.iter().enumerate() {
        indices.insert(item.name.name.clone()?, index)?;
    }
    Ok(indices)
}

fn needs_among(
    alloc: Global,
    indices: &IndexMap<String, usize>,
    items: &[&TypeItem],
) -> Result<Vec<Vec<Need>>, AllocError> {
    let mut needs = Vec::new(alloc);
    for item in items {
        needs.push(needs_of(alloc, indices, &item.def)?)?;
    }
    Ok(needs)
}

// The indices alone.
fn indices_in(alloc: Global, needs: &[Vec<Need>]) -> Result<Vec<Vec<usize>>, AllocError> {
    let mut all = Vec::new(alloc);
    for of in needs {
        let mut indices = Vec::new(alloc);
        for need in of {
            indices.push(need.index)?;
        }
        all.push(indices)?;
    }
    Ok(all)
}

// The types that a type names, by their indices.
fn needs_of(
    alloc: Global,
    indices: &IndexMap<String, usize>,
    def: &TypeDef,
) -> Result<Vec<Need>, AllocError> {
    let mut needs = Vec::new(alloc);
    match def {
        TypeDef::Alias(ty) => push_needs(&mut needs, indices, ty)?,
        TypeDef::Record(fields) => push_field_needs(&mut needs, indices, fields)?,
        TypeDef::Variant(cases) => push_case_needs(&mut needs, indices, cases)?,
        TypeDef::Flags(_) | TypeDef::Enum(_) | TypeDef::Resource(_) => {}
    }
    Ok(needs)
}

fn push_field_needs(
    needs: &mut Vec<Need>,
    indices: &IndexMap<String, usize>,
    fields: &[Field],
) -> Result<(), AllocError> {
    for field in fields {
        push_needs(needs, indices, &field.ty)?;
    }
    Ok(())
}

fn push_case_needs(
    needs: &mut Vec<Need>,
    indices: &IndexMap<String, usize>,
    cases: &[Case],
) -> Result<(), AllocError> {
    for case in cases {
        if let Some(ty) = &case.ty {
            push_needs(needs, indices, ty)?;
        }
    }
    Ok(())
}

#[cycle(needed)]
fn push_needs(
    needs: &mut Vec<Need>,
    indices: &IndexMap<String, usize>,
    ty: &TypeExpr,
) -> Result<(), AllocError> {
    match ty {
        TypeExpr::Primitive(_, _) => Ok(()),
        TypeExpr::Name(name) | TypeExpr::Own(name) | TypeExpr::Borrow(name) => {
            if let Some(index) = indices.get(name.name.as_str()) {
                needs.push(Need {
                    index: *index,
                    span: name.span,
                })?;
            }
            Ok(())
        }
        TypeExpr::List(of) | TypeExpr::FixedList(of, _, _) | TypeExpr::Option(of) => {
            push_needs(needs, indices, of)
        }
        TypeExpr::Result(ok, err) => {
            push_optional(needs, indices, ok)?;
            push_optional(needs, indices, err)
        }
        TypeExpr::Tuple(items, _) => {
            for item in items {
                push_needs(needs, indices, item)?;
            }
            Ok(())
        }
        TypeExpr::Map(key, value, _) => {
            push_needs(needs, indices, key)?;
            push_needs(needs, indices, value)
        }
        TypeExpr::Future(of) | TypeExpr::Stream(of) => push_optional(needs, indices, of),
    }
}

#[cycle(needed)]
fn push_optional(
    needs: &mut Vec<Need>,
    indices: &IndexMap<String, usize>,
    ty: &Option<Box<TypeExpr>>,
) -> Result<(), AllocError> {
    match ty {
        Some(ty) => push_needs(needs, indices, ty),
        None => Ok(()),
    }
}
