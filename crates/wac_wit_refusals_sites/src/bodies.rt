//! The interfaces and the worlds of a file.

ghost use Rattle.std.specs.Prelude.{Contains, IfOk, IfSome, List, OnOk};
ghost use Rattle.wac_wit_refusals_sites.specs.Judging.{AddsBodies, AreKnownBodies, HasWorldIn, IfExternIn, Judges, body_syntax};
ghost use Rattle.wac_wit_refusals_sites.specs.Sites.{HasBody, HasExternIn};
ghost use Rattle.wac_wit_scopes.specs.Scopes.{IsKnownScope, scope_syntax};
ghost use Rattle.wac_wit_scopes.specs.WitSources.{WitSources};
ghost use Rattle.wac_wit_syntax.specs.declared.tree.WorldItem.{WorldItem as ItemOfWorld};

use super::judge::Judge;
use std::alloc::AllocError;
use wac_wit_scopes::ScopeItems;
use wac_wit_syntax::{Extern, ExternItem, InterfaceItem, TopItem, WorldDecl, WorldItem};

/// What gives names of types: the items of an interface, or of a world.
#[derive(Clone, Copy)]
pub enum Body<'b> {
    /// Those of an interface.
    Interface(&'b [InterfaceItem]),
    /// Those of a world.
    World(&'b [WorldItem]),
}

impl Body<'_> {
    /// How many items it has.
    pub fn len(&self) -> usize {
        match self {
            Body::Interface(items) => items.len(),
            Body::World(items) => items.len(),
        }
    }
}

/// The items of an interface or of a world, and what that stands in.
#[derive(Clone, Copy)]
pub struct PlacedBody<'b> {
    /// The scope that it stands in.
    pub scope: ScopeItems<'b>,
    /// Its items.
    pub body: Body<'b>,
}

impl<'j> Judge<'j> {
    /// The interfaces and the worlds of a file, and the interfaces that are written in these worlds.
    pub fn bodies_in(&self, file: usize) -> Result<Vec<PlacedBody<'j>>, AllocError>
        ensures { IfOk result (λ ps. (of : WitSources) → Judges of self.now → AreKnownBodies of file ps.items) }
    {
        let mut bodies = Vec::new(self.alloc);
        for scope in &self.scopes {
            if scope.file == file {
                self.push_bodies(&mut bodies, scope)?;
            }
        }
        Ok(bodies)
    }

    fn push_bodies(
        &self,
        bodies: &mut Vec<PlacedBody<'j>>,
        scope: &ScopeItems<'j>,
    ) -> Result<(), AllocError>
        ensures { OnOk result ((of : WitSources) → Judges of self.now → IsKnownScope of scope.now → AddsBodies of scope.now.file bodies.old bodies.new) }
    {
        for item in scope.items {
            self.push_body(bodies, scope, item)?;
        }
        Ok(())
    }

    fn push_body(
        &self,
        bodies: &mut Vec<PlacedBody<'j>>,
        scope: &ScopeItems<'j>,
        item: &'j TopItem,
    ) -> Result<(), AllocError>
        ensures { OnOk result ((of : WitSources) → Judges of self.now → IsKnownScope of scope.now → Contains scope.now.items.now item.now → AddsBodies of scope.now.file bodies.old bodies.new) }
    {
        match item {
            TopItem::Interface(decl) if self.is_there(&decl.gates) => {
                push(bodies, scope, Body::Interface(&decl.items))
            }
            TopItem::World(decl) if self.is_there(&decl.gates) => {
                self.push_world(bodies, scope, decl)
            }
            _ => Ok(()),
        }
    }

    // Puts a world last, and behind it the interfaces that are written in it.
    fn push_world(
        &self,
        bodies: &mut Vec<PlacedBody<'j>>,
        scope: &ScopeItems<'j>,
        decl: &'j WorldDecl,
    ) -> Result<(), AllocError>
        ensures { OnOk result ((of : WitSources) → Judges of self.now → IsKnownScope of scope.now → HasWorldIn of scope.now decl.now → AddsBodies of scope.now.file bodies.old bodies.new) }
    {
        push(bodies, scope, Body::World(&decl.items))?;
        for item in &decl.items {
            if let Some(of) = extern_of(item) {
                self.push_inline(bodies, scope, of)?;
            }
        }
        Ok(())
    }

    // Puts an interface last that is written in an import or an export.
    fn push_inline(
        &self,
        bodies: &mut Vec<PlacedBody<'j>>,
        scope: &ScopeItems<'j>,
        item: &'j ExternItem,
    ) -> Result<(), AllocError>
        ensures { OnOk result ((of : WitSources) → Judges of self.now → IsKnownScope of scope.now → IfExternIn of scope.now item.now (AddsBodies of scope.now.file bodies.old bodies.new)) }
    {
        match &item.what {
            Extern::Inline(_, items) if self.is_there(&item.gates) => {
                push(bodies, scope, Body::Interface(items))
            }
            _ => Ok(()),
        }
    }
}

fn push<'b>(
    bodies: &mut Vec<PlacedBody<'b>>,
    scope: &ScopeItems<'b>,
    body: Body<'b>,
) -> Result<(), AllocError>
    ensures { OnOk result ((of : WitSources) → IsKnownScope of scope.now → HasBody of (scope_syntax scope.now) (body_syntax body.entry) → AddsBodies of scope.now.file bodies.old bodies.new) }
{
    bodies.push(PlacedBody {
        scope: *scope,
        body,
    })?;
    Ok(())
}

/// The import or the export that an item of a world is.
pub(crate) fn extern_of(item: &WorldItem) -> Option<&ExternItem>
    ensures { IfSome result (λ x. (is : List ItemOfWorld) → Contains is item.now → HasExternIn is x.now) }
{
    match item {
        WorldItem::Import(it) => Some(it),
        WorldItem::Export(it) => Some(it),
        _ => None,
    }
}
