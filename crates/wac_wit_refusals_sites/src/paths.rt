//! The paths of a file.

ghost use Rattle.std.specs.Prelude.{Contains, IfOk, IsTrue, List, OnOk};
ghost use Rattle.wac_wit_refusals_sites.specs.Judging.{Judges};
ghost use Rattle.wac_wit_refusals_sites.specs.Leading.{AddsForBody, AddsPaths, AddsPathsOf, AreKnownPaths, ArePathsOf, IsKnownItem, IsPathOf};
ghost use Rattle.wac_wit_refusals_sites.specs.Paths.{HasPathIn, HasPathOf, SeeksMember};
ghost use Rattle.wac_wit_refusals_sites.specs.Sites.{BodySyntax, HasExternIn, interface_items};
ghost use Rattle.wac_wit_scopes.specs.Scopes.{IsKnownScope};
ghost use Rattle.wac_wit_scopes.specs.WitSources.{IsEnabled, WitSources};
ghost use Rattle.wac_wit_syntax.specs.declared.tree.InterfaceItem.{InterfaceItem as InsideOf};
ghost use Rattle.wac_wit_syntax.specs.declared.tree.TopItem.{TopItem as ItemOf};
ghost use Rattle.wac_wit_syntax.specs.declared.tree.TopItem.TheVariants as top;
ghost use Rattle.wac_wit_syntax.specs.declared.tree.WorldDecl.{WorldDecl as WorldOf};

use super::judge::Judge;
use std::alloc::AllocError;
use wac_wit_scopes::ScopeItems;
use wac_wit_syntax::{
    Extern, ExternItem, Gates, InterfaceItem, Path, TopItem, WorldDecl, WorldItem,
};

/// What a path asks for.
#[derive(Clone, Copy)]
pub enum Sought {
    /// Something that gets another name outside of interfaces and worlds.
    OtherName,
    /// That something is there: the path stands in what a feature hides.
    Anything,
    /// An interface.
    Interface,
    /// A world.
    World,
}

/// A path, and what it asks for.
#[derive(Clone, Copy)]
pub struct SoughtPath<'b> {
    /// The path.
    pub path: &'b Path,
    /// What it asks for.
    pub seeks: Sought,
}

/// A path, what it asks for, and where it stands.
#[derive(Clone, Copy)]
pub struct PlacedPath<'b> {
    /// The scope that it stands in.
    pub scope: ScopeItems<'b>,
    /// The path.
    pub path: &'b Path,
    /// What it asks for.
    pub seeks: Sought,
}

impl<'j> Judge<'j> {
    /// The paths of a file, but for those in interfaces and worlds that a feature hides.
    pub fn paths_in(&self, file: usize) -> Result<Vec<PlacedPath<'j>>, AllocError>
        ensures { IfOk result (λ ps. (of : WitSources) → Judges of self.now → AreKnownPaths of file ps.items) }
    {
        let mut paths = Vec::new(self.alloc);
        for scope in &self.scopes {
            self.place_scope(&mut paths, file, scope)?;
        }
        Ok(paths)
    }

    fn place_scope(
        &self,
        paths: &mut Vec<PlacedPath<'j>>,
        file: usize,
        scope: &ScopeItems<'j>,
    ) -> Result<(), AllocError>
        ensures { OnOk result ((of : WitSources) → Judges of self.now → IsKnownScope of scope.now → AddsPaths of file paths.old paths.new) }
    {
        if scope.file == file {
            self.place_items(paths, scope)
        } else {
            Ok(())
        }
    }

    fn place_items(
        &self,
        paths: &mut Vec<PlacedPath<'j>>,
        scope: &ScopeItems<'j>,
    ) -> Result<(), AllocError>
        ensures { OnOk result ((of : WitSources) → Judges of self.now → IsKnownScope of scope.now → AddsPaths of scope.now.file paths.old paths.new) }
    {
        for item in scope.items {
            self.place_item(paths, scope, item)?;
        }
        Ok(())
    }

    fn place_item(
        &self,
        paths: &mut Vec<PlacedPath<'j>>,
        scope: &ScopeItems<'j>,
        item: &'j TopItem,
    ) -> Result<(), AllocError>
        ensures { OnOk result ((of : WitSources) → Judges of self.now → IsKnownItem of scope.now item.now → AddsPaths of scope.now.file paths.old paths.new) }
    {
        let of = self.paths_of(item)?;
        place_all(paths, scope, &of)
    }

    /// The paths of an interface or a world that is there, or of a `use` outside of them.
    pub fn paths_of(&self, item: &'j TopItem) -> Result<Vec<SoughtPath<'j>>, AllocError>
        ensures { IfOk result (λ ps. (of : WitSources) → Judges of self.now → ArePathsOf of item.now ps.items) }
    {
        let mut paths = Vec::new(self.alloc);
        self.push_paths(&mut paths, item)?;
        Ok(paths)
    }

    fn push_paths(
        &self,
        paths: &mut Vec<SoughtPath<'j>>,
        item: &'j TopItem,
    ) -> Result<(), AllocError>
        ensures { OnOk result ((of : WitSources) → Judges of self.now → AddsPathsOf of item.now paths.old paths.new) }
    {
        match item {
            TopItem::Use(used) => push(paths, &used.path, Sought::OtherName),
            TopItem::Interface(decl) if self.is_there(&decl.gates) => {
                self.push_uses(paths, &decl.items)
            }
            TopItem::World(decl) if self.is_there(&decl.gates) => self.push_of_world(paths, decl),
            _ => Ok(()),
        }
    }

    // Puts the paths of an interface last.
    fn push_uses(
        &self,
        paths: &mut Vec<SoughtPath<'j>>,
        items: &'j [InterfaceItem],
    ) -> Result<(), AllocError>
        ensures { OnOk result ((of : WitSources) → Judges of self.now → AddsForBody of (interface_items items.now) paths.old paths.new) }
    {
        for item in items {
            self.push_use(paths, item)?;
        }
        Ok(())
    }

    fn push_use(
        &self,
        paths: &mut Vec<SoughtPath<'j>>,
        item: &'j InterfaceItem,
    ) -> Result<(), AllocError>
        ensures { OnOk result ((of : WitSources) → Judges of self.now → (is : List InsideOf) → Contains is item.now → AddsForBody of (interface_items is) paths.old paths.new) }
    {
        match item {
            InterfaceItem::Use(it) => self.push_path(paths, &it.gates, &it.path, Sought::Interface),
            _ => Ok(()),
        }
    }

    fn push_of_world(
        &self,
        paths: &mut Vec<SoughtPath<'j>>,
        decl: &'j WorldDecl,
    ) -> Result<(), AllocError>
        ensures { OnOk result ((of : WitSources) → Judges of self.now → IsEnabled of decl.now.gates → AddsPathsOf of (top.World decl.now) paths.old paths.new) }
    {
        for item in &decl.items {
            self.push_of_item(paths, item)?;
        }
        Ok(())
    }

    fn push_of_item(
        &self,
        paths: &mut Vec<SoughtPath<'j>>,
        item: &'j WorldItem,
    ) -> Result<(), AllocError>
        ensures { OnOk result ((of : WitSources) → Judges of self.now → (d : WorldOf) → IsEnabled of d.gates → Contains d.items.items item.now → AddsPathsOf of (top.World d) paths.old paths.new) }
    {
        match item {
            WorldItem::Use(it) => self.push_path(paths, &it.gates, &it.path, Sought::Interface),
            WorldItem::Include(it) => self.push_path(paths, &it.gates, &it.path, Sought::World),
            WorldItem::Import(it) | WorldItem::Export(it) => self.push_of_extern(paths, it),
            WorldItem::Type(_) => Ok(()),
        }
    }

    fn push_of_extern(
        &self,
        paths: &mut Vec<SoughtPath<'j>>,
        item: &'j ExternItem,
    ) -> Result<(), AllocError>
        ensures { OnOk result ((of : WitSources) → Judges of self.now → (d : WorldOf) → IsEnabled of d.gates → HasExternIn d.items.items item.now → AddsPathsOf of (top.World d) paths.old paths.new) }
    {
        match &item.what {
            Extern::Path(path) => self.push_path(paths, &item.gates, path, Sought::Interface),
            Extern::Inline(_, items) if self.is_there(&item.gates) => self.push_uses(paths, items),
            _ => Ok(()),
        }
    }

    // Puts the path of an item last, which asks for something if the item is there.
    fn push_path(
        &self,
        paths: &mut Vec<SoughtPath<'j>>,
        gates: &Gates,
        path: &'j Path,
        seeks: Sought,
    ) -> Result<(), AllocError>
        ensures { OnOk result ((of : WitSources) → Judges of self.now → (b : BodySyntax) → HasPathIn b gates.now path.now seeks → AddsForBody of b paths.old paths.new) }
    {
        if self.is_there(gates) {
            push(paths, path, seeks)
        } else {
            push(paths, path, Sought::Anything)
        }
    }
}

fn push<'b>(
    paths: &mut Vec<SoughtPath<'b>>,
    path: &'b Path,
    seeks: Sought,
) -> Result<(), AllocError>
    ensures { OnOk result ((of : WitSources) (t : ItemOf) → HasPathOf of t path.now seeks → AddsPathsOf of t paths.old paths.new) }
{
    paths.push(SoughtPath { path, seeks })?;
    Ok(())
}

// Puts the paths of an item last, with the scope that it stands in.
fn place_all<'b>(
    paths: &mut Vec<PlacedPath<'b>>,
    scope: &ScopeItems<'b>,
    of_item: &[SoughtPath<'b>],
) -> Result<(), AllocError>
    ensures { OnOk result ((of : WitSources) (t : ItemOf) → IsKnownItem of scope.now t → ArePathsOf of t of_item.now → AddsPaths of scope.now.file paths.old paths.new) }
{
    for path in of_item {
        place(paths, scope, path)?;
    }
    Ok(())
}

fn place<'b>(
    paths: &mut Vec<PlacedPath<'b>>,
    scope: &ScopeItems<'b>,
    it: &SoughtPath<'b>,
) -> Result<(), AllocError>
    ensures { OnOk result ((of : WitSources) (t : ItemOf) → IsKnownItem of scope.now t → IsPathOf of t it.now → AddsPaths of scope.now.file paths.old paths.new) }
{
    paths.push(PlacedPath {
        scope: *scope,
        path: it.path,
        seeks: it.seeks,
    })?;
    Ok(())
}

/// Whether an interface or a world is asked for.
pub fn seeks_member(seeks: Sought) -> bool
    ensures { IsTrue result → SeeksMember seeks }
{
    matches!(seeks, Sought::Interface | Sought::World)
}
