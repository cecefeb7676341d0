//! What interfaces and worlds have: types, uses of types, and functions.

ghost use Rattle.std.specs.Prelude.{◌≡◌, ◌↔◌, IfOk, IfSome, IsTrue, List, OnOk};
ghost use Rattle.wac_wit_refusals_sites.specs.Judging.{Judges, body_syntax};
ghost use Rattle.wac_wit_refusals_sites.specs.Sites.{BodySyntax, HasExternIn, alias_ident, interface_items, world_items};
ghost use Rattle.wac_wit_refusals_sites.specs.TypeLists.{AddsMethods, AddsSignatures, AreMethodsOf, AreSignaturesOf, AreThere, AreTypesOf, AreUseItemsOf, GivesLocalName, IsPlacedType, IsResourceAt};
ghost use Rattle.wac_wit_refusals_sites.specs.TypeSites.{HasType, IsTypeNamedAt};
ghost use Rattle.wac_wit_scopes.specs.WitSources.{WitSources, ident_text};
ghost use Rattle.wac_wit_syntax.specs.declared.tree.WorldItem.{WorldItem as WorldOf};

use super::bodies::Body;
use super::judge::{Judge, is_at};
use std::alloc::{AllocError, Global};
use wac_wit_syntax::{
    Extern, ExternItem, Ident, InterfaceItem, Method, Rename, Signature, Span, TypeDef, TypeItem,
    UseItem, WorldItem,
};

/// A type, and where it is defined.
#[derive(Clone, Copy)]
pub struct PlacedType<'t> {
    /// The index of the item.
    pub item: usize,
    /// The type.
    pub ty: &'t TypeItem,
}

/// An item that uses types, and where it stands.
#[derive(Clone, Copy)]
pub struct PlacedUse<'t> {
    /// The index of the item.
    pub item: usize,
    /// The item.
    pub used: &'t UseItem,
}

/// A function of a resource.
#[derive(Clone, Copy)]
pub struct PlacedMethod<'t> {
    /// The index of the item that defines the resource.
    pub item: usize,
    /// The index of the function in it.
    pub part: usize,
    /// The resource.
    pub resource: &'t TypeItem,
    /// The function.
    pub method: &'t Method,
}

/// A function with its name.
#[derive(Clone, Copy)]
pub struct NamedSignature<'t> {
    /// The name.
    pub name: &'t Ident,
    /// The parameters and the result.
    pub signature: &'t Signature,
}

/// The types that are defined there, whether features hide them or not.
pub fn types_of<'t>(alloc: Global, body: &Body<'t>) -> Result<Vec<PlacedType<'t>>, AllocError>
    ensures { IfOk result (λ ts. AreTypesOf (body_syntax body.now) ts.items) }
{
    match body {
        Body::Interface(items) => interface_types(alloc, items),
        Body::World(items) => world_types(alloc, items),
    }
}

fn interface_types<'t>(
    alloc: Global,
    items: &'t [InterfaceItem],
) -> Result<Vec<PlacedType<'t>>, AllocError>
    ensures { IfOk result (λ ts. AreTypesOf (interface_items items.now) ts.items) }
{
    let mut types = Vec::new(alloc);
    for (index, item) in items.iter().enumerate() {
        if let InterfaceItem::Type(ty) = item {
            types.push(PlacedType { item: index, ty })?;
        }
    }
    Ok(types)
}

fn world_types<'t>(alloc: Global, items: &'t [WorldItem]) -> Result<Vec<PlacedType<'t>>, AllocError>
    ensures { IfOk result (λ ts. AreTypesOf (world_items items.now) ts.items) }
{
    let mut types = Vec::new(alloc);
    for (index, item) in items.iter().enumerate() {
        if let WorldItem::Type(ty) = item {
            types.push(PlacedType { item: index, ty })?;
        }
    }
    Ok(types)
}

/// What uses types there, whether features hide it or not.
pub fn uses_of<'t>(alloc: Global, body: &Body<'t>) -> Result<Vec<PlacedUse<'t>>, AllocError>
    ensures { IfOk result (λ us. AreUseItemsOf (body_syntax body.now) us.items) }
{
    match body {
        Body::Interface(items) => interface_uses(alloc, items),
        Body::World(items) => world_uses(alloc, items),
    }
}

fn interface_uses<'t>(
    alloc: Global,
    items: &'t [InterfaceItem],
) -> Result<Vec<PlacedUse<'t>>, AllocError>
    ensures { IfOk result (λ us. AreUseItemsOf (interface_items items.now) us.items) }
{
    let mut uses = Vec::new(alloc);
    for (index, item) in items.iter().enumerate() {
        if let InterfaceItem::Use(used) = item {
            uses.push(PlacedUse { item: index, used })?;
        }
    }
    Ok(uses)
}

fn world_uses<'t>(alloc: Global, items: &'t [WorldItem]) -> Result<Vec<PlacedUse<'t>>, AllocError>
    ensures { IfOk result (λ us. AreUseItemsOf (world_items items.now) us.items) }
{
    let mut uses = Vec::new(alloc);
    for (index, item) in items.iter().enumerate() {
        if let WorldItem::Use(used) = item {
            uses.push(PlacedUse { item: index, used })?;
        }
    }
    Ok(uses)
}

impl<'j> Judge<'j> {
    /// The type whose name stands at a place, if it is there.
    pub fn type_at(&self, file: usize, span: Span) -> Result<Option<&'j TypeItem>, AllocError>
        ensures { IfOk result (λ o. IfSome o (λ t. (of : WitSources) → Judges of self.now → IsTypeNamedAt of file span t.now)) }
    {
        for placed in &self.bodies_in(file)? {
            if let Some(ty) = self.type_named_at(&placed.body, span)? {
                return Ok(Some(ty));
            }
        }
        Ok(None)
    }

    fn type_named_at(&self, body: &Body<'j>, span: Span) -> Result<Option<&'j TypeItem>, AllocError>
        ensures has { IfOk result (λ o. IfSome o (λ t. (of : WitSources) → Judges of self.now → HasType of (body_syntax body.now) t.now)) }
        ensures place { IfOk result (λ o. IfSome o (λ t. t.now.name.span ≡ span)) }
    {
        for ty in &self.types_there(body)? {
            if is_at(ty.name.span, span) {
                return Ok(Some(*ty));
            }
        }
        Ok(None)
    }

    /// The types that are defined there, and that no feature hides.
    pub fn types_there(&self, body: &Body<'j>) -> Result<Vec<&'j TypeItem>, AllocError>
        ensures { IfOk result (λ ts. (of : WitSources) → Judges of self.now → AreThere of (body_syntax body.now) ts.items) }
    {
        let mut types = Vec::new(self.alloc);
        for placed in &types_of(self.alloc, body)? {
            if self.is_there(&placed.ty.gates) {
                types.push(placed.ty)?;
            }
        }
        Ok(types)
    }

    /// The functions of resources.
    pub fn methods_of(&self, body: &Body<'j>) -> Result<Vec<PlacedMethod<'j>>, AllocError>
        ensures { IfOk result (λ ms. (of : WitSources) → Judges of self.now → AreMethodsOf of (body_syntax body.now) ms.items) }
    {
        let mut all = Vec::new(self.alloc);
        for placed in &types_of(self.alloc, body)? {
            if self.is_there(&placed.ty.gates) {
                self.push_methods(&mut all, placed)?;
            }
        }
        Ok(all)
    }

    fn push_methods(
        &self,
        all: &mut Vec<PlacedMethod<'j>>,
        placed: &PlacedType<'j>,
    ) -> Result<(), AllocError>
        ensures { OnOk result ((of : WitSources) (b : BodySyntax) → Judges of self.now → IsPlacedType of b placed.now → AddsMethods of b all.old.items all.new.items) }
    {
        match &placed.ty.def {
            TypeDef::Resource(methods) => self.push_methods_in(all, placed, methods),
            _ => Ok(()),
        }
    }

    fn push_methods_in(
        &self,
        all: &mut Vec<PlacedMethod<'j>>,
        placed: &PlacedType<'j>,
        methods: &'j [Method],
    ) -> Result<(), AllocError>
        ensures { OnOk result ((of : WitSources) (b : BodySyntax) → Judges of self.now → IsResourceAt of b placed.now methods.now → AddsMethods of b all.old.items all.new.items) }
    {
        for (part, method) in methods.iter().enumerate() {
            if self.is_there(&method.gates) {
                all.push(PlacedMethod {
                    item: placed.item,
                    part,
                    resource: placed.ty,
                    method,
                })?;
            }
        }
        Ok(())
    }

    /// The functions: those of resources too.
    pub fn signatures_of(&self, body: &Body<'j>) -> Result<Vec<NamedSignature<'j>>, AllocError>
        ensures { IfOk result (λ ss. (of : WitSources) → Judges of self.now → AreSignaturesOf of (body_syntax body.now) ss.items) }
    {
        let mut all = Vec::new(self.alloc);
        self.push_resource_signatures(&mut all, body)?;
        match body {
            Body::Interface(items) => self.push_signatures(&mut all, items)?,
            Body::World(items) => self.push_extern_signatures(&mut all, items)?,
        }
        Ok(all)
    }

    fn push_resource_signatures(
        &self,
        all: &mut Vec<NamedSignature<'j>>,
        body: &Body<'j>,
    ) -> Result<(), AllocError>
        ensures { OnOk result ((of : WitSources) → Judges of self.now → AddsSignatures of (body_syntax body.now) all.old.items all.new.items) }
    {
        for placed in &self.methods_of(body)? {
            all.push(NamedSignature {
                name: &placed.method.name,
                signature: &placed.method.signature,
            })?;
        }
        Ok(())
    }

    fn push_signatures(
        &self,
        all: &mut Vec<NamedSignature<'j>>,
        items: &'j [InterfaceItem],
    ) -> Result<(), AllocError>
        ensures { OnOk result ((of : WitSources) → Judges of self.now → AddsSignatures of (interface_items items.now) all.old.items all.new.items) }
    {
        for item in items {
            if let InterfaceItem::Func(it) = item
                && self.is_there(&it.gates)
            {
                all.push(NamedSignature {
                    name: &it.name,
                    signature: &it.signature,
                })?;
            }
        }
        Ok(())
    }

    fn push_extern_signatures(
        &self,
        all: &mut Vec<NamedSignature<'j>>,
        items: &'j [WorldItem],
    ) -> Result<(), AllocError>
        ensures { OnOk result ((of : WitSources) → Judges of self.now → AddsSignatures of (world_items items.now) all.old.items all.new.items) }
    {
        for item in items {
            match item {
                WorldItem::Import(it) => self.push_extern_signature(all, it)?,
                WorldItem::Export(it) => self.push_extern_signature(all, it)?,
                _ => {}
            }
        }
        Ok(())
    }

    fn push_extern_signature(
        &self,
        all: &mut Vec<NamedSignature<'j>>,
        item: &'j ExternItem,
    ) -> Result<(), AllocError>
        ensures { OnOk result ((of : WitSources) (is : List WorldOf) → Judges of self.now → HasExternIn is item.now → AddsSignatures of (world_items is) all.old.items all.new.items) }
    {
        match &item.what {
            Extern::Func(name, signature) if self.is_there(&item.gates) => {
                all.push(NamedSignature { name, signature })?;
                Ok(())
            }
            _ => Ok(()),
        }
    }
}

/// Whether a `use` gives a name.
pub fn gives(used: &UseItem, name: &Ident) -> bool
    ensures { IsTrue result ↔ GivesLocalName used.now (ident_text name.now) }
{
    for rename in &used.names {
        if local_name(rename).name == name.name {
            return true;
        }
    }
    false
}

/// The name that a used type gets.
pub fn local_name(rename: &Rename) -> &Ident
    ensures { result.now ≡ alias_ident rename.now.name rename.now.alias }
{
    match &rename.alias {
        Some(alias) => alias,
        None => &rename.name,
    }
}
