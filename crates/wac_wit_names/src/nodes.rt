//! What each interface and each world needs.

use super::catalog::{Catalog, Decl, Node, Scope};
use super::error::Fault;
use super::ordering::{Order, ordered};
use super::reason::Reason;
use super::refusals::{MAX_REFUSALS, Refusals};
use super::texts::joined;
use std::alloc::{AllocError, Global};
use wac_wit_syntax::{
    Extern, ExternItem, Gates, Ident, IncludeItem, InterfaceItem, Path, UseItem, WorldItem,
};

impl<'a> Catalog<'a> {
    /// The interfaces and the worlds, each behind those that it needs. Cycles are refused.
    pub fn order(&self, refusals: &mut Refusals) -> Result<Vec<usize>, Fault> {
        let mut needs = Vec::new(self.alloc);
        for node in &self.nodes {
            let mut of = Vec::new(self.alloc);
            self.push_needs(&mut of, node, refusals)?;
            needs.push(of)?;
        }
        for _cycle in 0..MAX_REFUSALS {
            match ordered(self.alloc, &needs)? {
                Order::Sorted(sorted) => return Ok(sorted),
                Order::Cycle(cycle) => {
                    refusals.note(self.refuse_cycle(&cycle))?;
                    forget(self.alloc, &mut needs, &cycle);
                }
            }
        }
        Err(Fault::Enough)
    }

    fn refuse_cycle(&self, cycle: &[usize]) -> Fault {
        let Some(first) = cycle.first() else {
            return Fault::Missing;
        };
        match self.node(*first) {
            Ok(of) => {
                Fault::at(of.file, of.name.span, self.cycle_message(of, cycle)).because(
                    Reason::Cycle,
                )
            }
            Err(fault) => fault,
        }
    }

    // What is said of a cycle that begins with an interface or a world.
    fn cycle_message(&self, of: &Node<'a>, cycle: &[usize]) -> Result<String, AllocError> {
        let mut message = joined(self.alloc, "`", &of.name.name, "` uses or includes itself")?;
        for index in cycle.iter().skip(1) {
            if let Some(node) = self.nodes.get(*index) {
                write!(message, ", by way of `{}`", node.id)?;
            }
        }
        Ok(message)
    }

    // Puts what an interface or a world names last.
    fn push_needs(
        &self,
        needs: &mut Vec<usize>,
        node: &Node<'a>,
        refusals: &mut Refusals,
    ) -> Result<(), Fault> {
        let scope = self.scope(node.scope)?;
        match node.decl {
            Decl::Interface(it) if node.is_hidden => self.check_hidden(scope, &it.items, refusals),
            Decl::World(_) if node.is_hidden => Ok(()),
            Decl::Interface(it) => self.push_interface_needs(needs, scope, &it.items, refusals),
            Decl::World(it) => self.push_world_needs(needs, scope, &it.items, refusals),
        }
    }

    // Refuses types that are there in an interface that isn't, as the tools do.
    fn check_hidden(
        &self,
        scope: &Scope<'a>,
        items: &[InterfaceItem],
        refusals: &mut Refusals,
    ) -> Result<(), Fault> {
        for item in items {
            let done = match item {
                InterfaceItem::Type(it) => self.check_hidden_type(scope, &it.gates, &it.name),
                InterfaceItem::Use(it) => self.check_hidden_use(scope, it),
                InterfaceItem::Func(_) => Ok(()),
            };
            refusals.go_on(done)?;
        }
        Ok(())
    }

    fn check_hidden_use(&self, scope: &Scope<'a>, item: &UseItem) -> Result<(), Fault> {
        match item.names.first() {
            Some(first) => self.check_hidden_type(scope, &item.gates, &first.name),
            None => Ok(()),
        }
    }

    fn check_hidden_type(
        &self,
        scope: &Scope<'a>,
        gates: &Gates,
        name: &Ident,
    ) -> Result<(), Fault> {
        if !self.is_there(gates) {
            return Ok(());
        }
        Err(
            self.refuse(
                scope.file,
                name.span,
                "this type is there without the feature of its interface: it needs that attribute too",
            )
            .because(Reason::TypeOfHidden),
        )
    }

    fn push_interface_needs(
        &self,
        needs: &mut Vec<usize>,
        scope: &Scope<'a>,
        items: &[InterfaceItem],
        refusals: &mut Refusals,
    ) -> Result<(), Fault> {
        for item in items {
            if let InterfaceItem::Use(it) = item {
                let done = self.push_need(needs, scope, &it.gates, &it.path);
                refusals.go_on(done)?;
            }
        }
        Ok(())
    }

    fn push_world_needs(
        &self,
        needs: &mut Vec<usize>,
        scope: &Scope<'a>,
        items: &[WorldItem],
        refusals: &mut Refusals,
    ) -> Result<(), Fault> {
        for item in items {
            let done = match item {
                WorldItem::Use(it) => self.push_need(needs, scope, &it.gates, &it.path),
                WorldItem::Include(it) => self.push_world_need(needs, scope, it),
                WorldItem::Import(it) | WorldItem::Export(it) => {
                    self.push_extern_needs(needs, scope, it, refusals)
                }
                WorldItem::Type(_) => Ok(()),
            };
            refusals.go_on(done)?;
        }
        Ok(())
    }

    fn push_extern_needs(
        &self,
        needs: &mut Vec<usize>,
        scope: &Scope<'a>,
        item: &ExternItem,
        refusals: &mut Refusals,
    ) -> Result<(), Fault> {
        match &item.what {
            Extern::Path(path) => self.push_need(needs, scope, &item.gates, path),
            Extern::Inline(_, items) if self.is_there(&item.gates) => {
                self.push_interface_needs(needs, scope, items, refusals)
            }
            _ => Ok(()),
        }
    }

    // Puts the interface that a path leads to last.
    fn push_need(
        &self,
        needs: &mut Vec<usize>,
        scope: &Scope<'a>,
        gates: &Gates,
        path: &Path,
    ) -> Result<(), Fault> {
        if !self.is_there(gates) {
            return self.check_path(scope, path);
        }
        let node = self.find_interface(scope, path)?;
        needs.push(node.index)?;
        Ok(())
    }

    // Puts the world that is included last.
    fn push_world_need(
        &self,
        needs: &mut Vec<usize>,
        scope: &Scope<'a>,
        item: &IncludeItem,
    ) -> Result<(), Fault> {
        if !self.is_there(&item.gates) {
            return self.check_path(scope, &item.path);
        }
        let node = self.find_world(scope, &item.path)?;
        needs.push(node.index)?;
        Ok(())
    }
}

// Lets those of a cycle need nothing, so that the others come in order.
fn forget(alloc: Global, needs: &mut [Vec<usize>], cycle: &[usize]) {
    for node in cycle {
        if let Some(of) = needs.get_mut(*node) {
            *of = Vec::new(alloc);
        }
    }
}
