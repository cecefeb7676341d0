//! Where names may lead. These are hints: who asks for one looks whether it holds.

ghost use Rattle.std.specs.Prelude.{◌≡◌, ◌++◌, IfOk, OnOk, codes, string_bytes};
ghost use Rattle.wac_wit_scopes.specs.WitSources.{ident_text, interface_identifier, package_id, version_part, version_text};

use indexmap::IndexMap;
use std::alloc::{AllocError, Global};
use wac_wit_scopes::{ScopeItems, used_name};
use wac_wit_syntax::{Gate, Ident, PackageName, TopItem};

/// Where an interface or a world stands.
#[derive(Clone, Copy)]
pub struct MemberPlace {
    /// The index of the scope.
    pub scope: usize,
    /// The index among the items of the scope.
    pub item: usize,
}

/// Where names may lead.
pub(crate) struct Hints {
    alloc: Global,
    // interfaces and worlds, by their identifiers
    members: IndexMap<String, MemberPlace>,
    // the indices of `use` outside of interfaces and worlds, by files and names
    uses: IndexMap<String, usize>,
}

impl Drop for Hints {
    fn drop(self) {
        let Hints {
            alloc: _,
            members: _,
            uses: _,
        } = self;
    }
}

impl Hints {
    /// What stands in scopes.
    pub(crate) fn new(alloc: Global, scopes: &[ScopeItems<'_>]) -> Result<Hints, AllocError> {
        let mut hints = Hints {
            alloc,
            members: IndexMap::new(alloc),
            uses: IndexMap::new(alloc),
        };
        for (index, scope) in scopes.iter().enumerate() {
            hints.add_scope(index, scope)?;
        }
        Ok(hints)
    }

    /// Where an interface or a world of a package may stand.
    pub(crate) fn member(
        &self,
        package: &PackageName,
        name: &Ident,
    ) -> Result<Option<MemberPlace>, AllocError> {
        let id = id_of(self.alloc, package, name)?;
        Ok(self.members.get(id.as_str()).copied())
    }

    /// The index of the `use` outside of interfaces and worlds that may give a name.
    pub(crate) fn top_use(
        &self,
        scope: &ScopeItems<'_>,
        name: &Ident,
    ) -> Result<Option<usize>, AllocError> {
        let key = use_key(self.alloc, scope, name)?;
        Ok(self.uses.get(key.as_str()).copied())
    }

    fn add_scope(&mut self, index: usize, scope: &ScopeItems<'_>) -> Result<(), AllocError> {
        for (item, of) in scope.items.iter().enumerate() {
            let place = MemberPlace { scope: index, item };
            self.add_item(scope, place, of)?;
        }
        Ok(())
    }

    fn add_item(
        &mut self,
        scope: &ScopeItems<'_>,
        place: MemberPlace,
        item: &TopItem,
    ) -> Result<(), AllocError> {
        match item {
            TopItem::Use(used) => self.add_use(scope, used_name(used), place.item),
            TopItem::Interface(decl) => self.add_member(scope, place, &decl.name),
            TopItem::World(decl) => self.add_member(scope, place, &decl.name),
        }
    }

    fn add_use(
        &mut self,
        scope: &ScopeItems<'_>,
        name: &Ident,
        item: usize,
    ) -> Result<(), AllocError> {
        let key = use_key(self.alloc, scope, name)?;
        if self.uses.get(key.as_str()).is_none() {
            self.uses.insert(key, item)?;
        }
        Ok(())
    }

    // A package that is the only one of its name has it without a version too.
    fn add_member(
        &mut self,
        scope: &ScopeItems<'_>,
        place: MemberPlace,
        name: &Ident,
    ) -> Result<(), AllocError> {
        let id = id_of(self.alloc, scope.package, name)?;
        self.put_member(id, place)?;
        if scope.is_alone && scope.package.version.is_some() {
            let id = plain_id(self.alloc, scope.package, name)?;
            self.put_member(id, place)?;
        }
        Ok(())
    }

    // The first of an identifier stays.
    fn put_member(&mut self, id: String, place: MemberPlace) -> Result<(), AllocError> {
        if self.members.get(id.as_str()).is_none() {
            self.members.insert(id, place)?;
        }
        Ok(())
    }
}

/// The identifier of an interface or a world.
pub fn id_of(alloc: Global, package: &PackageName, name: &Ident) -> Result<String, AllocError>
    ensures { IfOk result (λ t. string_bytes t ≡ interface_identifier (package_id «package».now) (ident_text name.now)) }
{
    let mut id = plain_id(alloc, package, name)?;
    push_version(&mut id, &package.version)?;
    Ok(id)
}

fn push_version(id: &mut String, version: &Option<Gate>) -> Result<(), AllocError>
    ensures { OnOk result (string_bytes id.new ≡ string_bytes id.old ++ version_part (version_text version.now)) }
{
    let Some(version) = version else {
        return Ok(());
    };
    id.push_str("@")?;
    id.push_str(&version.text)?;
    Ok(())
}

// The same without the version of the package.
fn plain_id(alloc: Global, package: &PackageName, name: &Ident) -> Result<String, AllocError>
    ensures { IfOk result (λ t. string_bytes t ≡ ident_text «package».now.namespace ++ codes ":" ++ ident_text «package».now.name ++ codes "/" ++ ident_text name.now) }
{
    let mut id = String::from_str(alloc, &package.namespace.name)?;
    id.push_str(":")?;
    id.push_str(&package.name.name)?;
    id.push_str("/")?;
    id.push_str(&name.name)?;
    Ok(id)
}

// A name in the items of a file, or of a package inside it.
fn use_key(alloc: Global, scope: &ScopeItems<'_>, name: &Ident) -> Result<String, AllocError> {
    let id = id_of(alloc, scope.package, name)?;
    format!(in alloc; "{} {id}", scope.file)
}
