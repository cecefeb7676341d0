//! What an entry notes of where its types come from.

ghost use Rattle.std.specs.Prelude.{◌≡◌, ◌≢◌, Contains, IfSome, IsTrue, List, None, Some, slice_get};
ghost use Rattle.wac_model.specs.Text.{Text};
ghost use Rattle.wac_component.specs.Collection.{ResourceContent, UseContent};
ghost use Rattle.wac_component.specs.Content.{interface_content, named, use_content};
ghost use Rattle.wac_component.specs.Id.{Id};
ghost use Rattle.wac_component.specs.declared.items.ItemKind.TheVariants.{«Type» as OfType};
ghost use Rattle.wac_wit_syntax.specs.declared.tree.Ident.{Ident as Identifier};
ghost use Rattle.wac_wit_syntax.specs.declared.tree.Rename.{Rename as Renamed};
ghost use Rattle.wac_wit_syntax.specs.declared.tree.TypeExpr.TheVariants.{Name};
ghost use Rattle.wac_wit_validation_types.specs.Denoted.{renamed_by};
ghost use Rattle.wac_wit_validation_names.specs.Noted.{HasNoOrigin, HasOwner, HasRoot, HasUseRoot, HaveOneOrigin, RenamesAs, TellsFrom, TellsName, TellsTypeAs, noted_uses, origin_at};
ghost use Rattle.wac_wit_validation_types.specs.Origins.{AreOwnersOf, IsOwnerOf, use_at};
ghost use Rattle.wac_wit_scopes.specs.WitSources.{ident_text};

use super::places::FoundInterface;
use indexmap::IndexMap;
use wac_component::{Interface, InterfaceId, ItemKind, ResourceId, Type, Types, UsedType};
use wac_wit_syntax::{Ident, Rename, TypeDef, TypeExpr, TypeItem};
use wac_wit_validation_types::{NewNames, has_meaning, is_same_type, local_name, named_by};

/// What an entry notes of where its types come from.
#[derive(Clone, Copy)]
pub struct NotedUses<'n> {
    /// What is noted of each name.
    pub uses: &'n IndexMap<String, UsedType>,
    /// What the names become of what is defined, if they become others in the entry.
    pub new_names: Option<&'n NewNames<'n>>,
}

impl NotedUses<'_> {
    // The interface from which the type of a name is said to come, by what that becomes.
    fn origin(&self, name: &Ident) -> Option<Option<InterfaceId>>
        ensures { IfSome result (λ o. (rss : List (List Renamed)) → RenamesAs self.now rss → origin_at (noted_uses self.now) (renamed_by rss (ident_text name.now)) ≡ o) }
    {
        let new = named_by(self.new_names, name)?;
        Some(origin_of(self.uses, &new.name))
    }

    // Whether the type of a name is said to come from nowhere.
    fn is_own(&self, name: &Ident) -> bool
        ensures { IsTrue result → HasNoOrigin self.now (ident_text name.now) }
    {
        match self.origin(name) {
            Some(origin) => origin.is_none(),
            None => false,
        }
    }

    // Whether the types of two names are said to come from the same interface, or from nowhere.
    fn has_same_origin(&self, name: &Ident, other: &Ident) -> bool
        ensures { IsTrue result → HaveOneOrigin self.now (ident_text name.now) (ident_text other.now) }
    {
        let Some(origin) = self.origin(name) else {
            return false;
        };
        match self.origin(other) {
            Some(of) => is_same_origin(&origin, &of),
            None => false,
        }
    }
}

/// Whether it is said of types that are used from an interface where they come from.
pub fn tells_names(
    types: &Types,
    noted: &NotedUses<'_>,
    from: &FoundInterface,
    renames: &[Rename],
) -> bool
    ensures { IsTrue result → (r : Renamed) → Contains renames.now r → TellsFrom types.now noted.now from.now r }
{
    if !types.contains(Type::Interface(from.id)) {
        return false;
    }
    let others = &types[from.id].uses;
    for rename in renames {
        if !tells_name(noted, others, &from.id, rename) {
            return false;
        }
    }
    true
}

// Whether a type that is used from an interface is said to come from there, or from where it does
// there.
fn tells_name(
    noted: &NotedUses<'_>,
    others: &IndexMap<String, UsedType>,
    from: &InterfaceId,
    rename: &Rename,
) -> bool
    ensures { IsTrue result → (rss : List (List Renamed)) → RenamesAs noted.now rss → TellsName (noted_uses noted.now) rss (named use_content others.now.entries) from.now rename.now }
{
    let Some(noted) = noted.origin(local_name(rename)) else {
        return false;
    };
    let origin = origin_of(others, &rename.name.name).unwrap_or(*from);
    match noted {
        Some(said) => said == origin,
        None => false,
    }
}

/// Whether a type that is defined is said to come from nowhere, or from where the type does that it
/// is another name of.
pub fn tells_type(noted: &NotedUses<'_>, item: &TypeItem) -> bool
    ensures { IsTrue result → TellsTypeAs noted.now item.now }
{
    match &item.def {
        TypeDef::Alias(ty) => tells_alias(noted, &item.name, ty),
        _ => noted.is_own(&item.name),
    }
}

fn tells_alias(noted: &NotedUses<'_>, name: &Ident, ty: &TypeExpr) -> bool
    ensures another { IsTrue result → (id : Identifier) → ty.now ≡ Name id → HaveOneOrigin noted.now (ident_text name.now) (ident_text id) }
    ensures own { IsTrue result → ((id : Identifier) → ty.now ≢ Name id) → HasNoOrigin noted.now (ident_text name.now) }
{
    match ty {
        TypeExpr::Name(of) => noted.has_same_origin(name, of),
        _ => noted.is_own(name),
    }
}

// The interface from which the type of a name is said to come.
fn origin_of(uses: &IndexMap<String, UsedType>, name: &str) -> Option<InterfaceId>
    ensures { result ≡ origin_at (named use_content uses.now.entries) name.now }
{
    match uses.get(name) {
        Some(used) => Some(used.interface),
        None => None,
    }
}

fn is_same_origin(left: &Option<InterfaceId>, right: &Option<InterfaceId>) -> bool
    ensures { IsTrue result → left.now ≡ right.now }
{
    match (left, right) {
        (Some(left), Some(right)) => left == right,
        (None, None) => true,
        _ => false,
    }
}

/// Whether each type that is said to come from an interface is one that the interface has itself.
pub fn have_roots(
    types: &Types,
    uses: &IndexMap<String, UsedType>,
    items: &IndexMap<String, ItemKind>,
) -> bool
    ensures { IsTrue result → (n : Text) (u : UseContent) → use_at (named use_content uses.now.entries) n ≡ Some u → HasUseRoot types.now (named (λ k. k) items.now.entries) n u }
{
    for place in 0..uses.len() {
        let Some((name, used)) = uses.get_index(place) else {
            return false;
        };
        if !has_root(types, items, name, used) {
            return false;
        }
    }
    true
}

fn has_root(
    types: &Types,
    exports: &IndexMap<String, ItemKind>,
    name: &str,
    used: &UsedType,
) -> bool
    ensures { IsTrue result → HasUseRoot types.now (named (λ k. k) exports.now.entries) name.now (use_content used.now) }
{
    if !types.contains(Type::Interface(used.interface)) {
        return false;
    }
    let from = &types[used.interface];
    match &used.name {
        Some(root) => is_root(types, exports, name, from, root),
        None => is_root(types, exports, name, from, name),
    }
}

// Whether a type is one that an interface has itself, under a name.
fn is_root(
    types: &Types,
    exports: &IndexMap<String, ItemKind>,
    name: &str,
    from: &Interface,
    root: &str,
) -> bool
    ensures { IsTrue result → (id : Id) → slice_get types.now.interfaces id.index ≡ Some (interface_content from.now) → HasRoot types.now (named (λ k. k) exports.now.entries) name.now id root.now }
{
    if origin_of(&from.uses, root).is_some() {
        return false;
    }
    match (type_under(&from.exports, root), type_under(exports, name)) {
        (Some(of), Some(ty)) => has_meaning(ty) && is_same_type(types, of, ty),
        _ => false,
    }
}

// The type that stands under a name.
fn type_under<'e>(exports: &'e IndexMap<String, ItemKind>, name: &str) -> Option<&'e Type>
    ensures { IfSome result (λ t. Contains (named (λ k. k) exports.now.entries) (name.now, OfType t.now)) }
{
    match exports.get(name)? {
        ItemKind::Type(ty) => Some(ty),
        _ => None,
    }
}

/// Whether each resource that is another one's alias has the owner that is said of its name.
pub fn have_owners(
    types: &Types,
    uses: &IndexMap<String, UsedType>,
    items: &IndexMap<String, ItemKind>,
) -> bool
    ensures { IsTrue result → AreOwnersOf types.now (named use_content uses.now.entries) (named (λ k. k) items.now.entries) }
{
    for place in 0..items.len() {
        let Some((name, item)) = items.get_index(place) else {
            return false;
        };
        if !has_owner(types, uses, name, item) {
            return false;
        }
    }
    true
}

fn has_owner(types: &Types, uses: &IndexMap<String, UsedType>, name: &str, item: &ItemKind) -> bool
    ensures { IsTrue result → HasOwner types.now (named use_content uses.now.entries) name.now item.now }
{
    match item {
        ItemKind::Type(ty) => has_type_owner(types, uses, name, ty),
        _ => true,
    }
}

fn has_type_owner(types: &Types, uses: &IndexMap<String, UsedType>, name: &str, ty: &Type) -> bool
    ensures { IsTrue result → HasOwner types.now (named use_content uses.now.entries) name.now (OfType ty.now) }
{
    match ty {
        Type::Resource(id) => is_owner(types, uses, name, id),
        _ => true,
    }
}

fn is_owner(types: &Types, uses: &IndexMap<String, UsedType>, name: &str, id: &ResourceId) -> bool
    ensures { IsTrue result → (r : ResourceContent) → slice_get types.now.resources id.now.index ≡ Some r → IsOwnerOf (named use_content uses.now.entries) name.now r }
{
    if !types.contains(Type::Resource(*id)) {
        return false;
    }
    let origin = origin_of(uses, name);
    match &types[*id].alias {
        Some(alias) => is_same_origin(&alias.owner, &origin),
        None => origin.is_none(),
    }
}
