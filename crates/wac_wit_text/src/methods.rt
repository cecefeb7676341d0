//! The functions of resources, by the names of these.

use indexmap::IndexMap;
use std::alloc::{AllocError, Global};
use wac_component::{FuncTypeId, ItemKind};

/// A function of a resource.
#[derive(Clone, Copy)]
pub(crate) struct Method<'i> {
    /// `method`, `static` or `constructor`.
    pub(crate) kind: &'i str,
    pub(crate) name: &'i str,
    pub(crate) func: FuncTypeId,
}

/// The functions of resources among items. They are looked up once, so that resources take no longer
/// the more functions there are.
pub(crate) struct Methods<'i> {
    items: &'i IndexMap<String, ItemKind>,
    // which of the lists is that of a resource
    by_resource: IndexMap<&'i str, usize>,
    // where the functions of each stand among the items
    lists: Vec<Vec<usize>>,
}

impl Drop for Methods<'_> {
    fn drop(self) {
        let Methods {
            items: _,
            by_resource: _,
            lists: _,
        } = self;
    }
}

impl<'i> Methods<'i> {
    /// Those among items.
    pub(crate) fn among(
        alloc: Global,
        items: &'i IndexMap<String, ItemKind>,
    ) -> Result<Methods<'i>, AllocError> {
        let mut methods = Methods {
            items,
            by_resource: IndexMap::new(alloc),
            lists: Vec::new(alloc),
        };
        for (place, name) in items.keys().enumerate() {
            methods.note(alloc, place, name)?;
        }
        Ok(methods)
    }

    // Notes where an item stands, if it is a function of a resource.
    fn note(&mut self, alloc: Global, place: usize, full: &'i str) -> Result<(), AllocError> {
        let Some((resource, _, _)) = method_of(full) else {
            return Ok(());
        };
        let list = self.list_of(alloc, resource)?;
        if let Some(places) = self.lists.get_mut(list) {
            places.push(place)?;
        }
        Ok(())
    }

    // Which list is that of a resource: a new one, if it has none.
    fn list_of(&mut self, alloc: Global, resource: &'i str) -> Result<usize, AllocError> {
        if let Some(list) = self.by_resource.get(resource) {
            return Ok(*list);
        }
        let list = self.lists.len();
        self.by_resource.insert(resource, list)?;
        self.lists.push(Vec::new(alloc))?;
        Ok(list)
    }

    /// Where those of a resource stand among the items, in their order, if it has some.
    pub(crate) fn of(&self, resource: &str) -> Option<&Vec<usize>> {
        self.lists.get(*self.by_resource.get(resource)?)
    }

    /// The one that stands there.
    pub(crate) fn at(&self, place: usize) -> Option<Method<'i>> {
        let (full, ItemKind::Func(func)) = self.items.get_index(place)? else {
            return None;
        };
        let (_, kind, name) = method_of(full)?;
        Some(Method {
            kind,
            name,
            func: *func,
        })
    }
}

// The resource, the sort and the name of a function of a resource, as of `[method]r.f`.
fn method_of(full: &str) -> Option<(&str, &str, &str)> {
    let (kind, rest) = full.strip_prefix('[')?.split_once(']')?;
    if kind == "constructor" {
        return Some((rest, kind, rest));
    }
    let (resource, name) = rest.split_once('.')?;
    Some((resource, kind, name))
}
