//! What is known so far of an interface or a world that is being made.

use super::adding::{add_defined, add_func};
use super::shapes::{FuncShape, Shapes, TypeShape};
use indexmap::IndexMap;
use std::alloc::{AllocError, Global};
use wac_component::{DefinedType, DefinedTypeId, FuncTypeId, ItemKind, Types, UsedType, ValueType};
use wac_wit_elaboration::{KnownEntries, NamedType, Site, TypeNames};
use wac_wit_names::{Fault, Nearest, Reason, Refusals, Taken, joined};
use wac_wit_syntax::{Gates, Ident, Span};

/// What is known so far of an interface or a world that is being made.
#[derive(Drop)]
pub(crate) struct Builder<'b> {
    pub(crate) alloc: Global,
    pub(crate) site: Site<'b>,
    pub(crate) types: &'b mut Types,
    pub(crate) refusals: &'b mut Refusals,
    /// Where the item stands that is looked at.
    pub(crate) item_span: Span,
    /// The names of types.
    pub(crate) names: TypeNames,
    pub(crate) taken: Taken,
    pub(crate) uses: IndexMap<String, UsedType>,
    /// The types and the functions, in order.
    pub(crate) items: IndexMap<String, ItemKind>,
    /// The interfaces whose types are used, in order.
    pub(crate) needs: Vec<usize>,
    /// The defined types that were made, in order.
    pub(crate) defined: Vec<DefinedTypeId>,
    /// Whether no import and no export was refused, nor an `include`, nor anything of a world that
    /// is included.
    pub(crate) is_whole: bool,
    /// The place of the last `include` that was refused since it brings a name that is there.
    told_twice: Option<Span>,
    shapes: Shapes,
}

impl<'b> Builder<'b> {
    /// Nothing yet.
    pub(crate) fn new(
        site: Site<'b>,
        types: &'b mut Types,
        refusals: &'b mut Refusals,
    ) -> Builder<'b> {
        let alloc = site.alloc;
        Builder {
            alloc,
            site,
            types,
            refusals,
            item_span: site.node.name.span,
            names: TypeNames::new(alloc),
            taken: Taken::new(alloc),
            uses: IndexMap::new(alloc),
            items: IndexMap::new(alloc),
            needs: Vec::new(alloc),
            defined: Vec::new(alloc),
            is_whole: true,
            told_twice: None,
            shapes: Shapes::new(alloc),
        }
    }

    /// Whether an item is there.
    pub(crate) fn is_there(&self, gates: &Gates) -> bool {
        self.site.catalog.is_there(gates)
    }

    /// Refuses what stands at a place.
    pub(crate) fn refuse(&self, span: Span, message: &str) -> Fault {
        self.site.catalog.refuse(self.site.node.file, span, message)
    }

    /// The same, where the message has a name in it.
    pub(crate) fn refuse_name(&self, span: Span, before: &str, name: &str, behind: &str) -> Fault {
        self.site
            .catalog
            .refuse_name(self.site.node.file, span, before, name, behind)
    }

    /// Goes on behind an import, an export or an `include`, and notes whether it was refused.
    pub(crate) fn go_on(&mut self, done: Result<(), Fault>) -> Result<(), Fault> {
        if !self.refusals.go_on(done)? {
            self.is_whole = false;
        }
        Ok(())
    }

    /// Whether an `include` is told of for the first time: of all names that are there twice by it
    /// the first is told, since its message looks up a place.
    pub(crate) fn is_first_told(&mut self, span: Span) -> bool {
        let is_first = self.told_twice != Some(span);
        self.told_twice = Some(span);
        is_first
    }

    /// Takes a name, which has to be free.
    pub(crate) fn take_name(&mut self, name: &str, span: Span) -> Result<(), Fault> {
        self.taken
            .take(self.site.catalog, self.site.node.file, name, span)
    }

    // Notes where a type comes from, if that is another interface.
    fn note_use(&mut self, name: &str, named: &NamedType) -> Result<(), Fault> {
        let Some(interface) = named.owner else {
            return Ok(());
        };
        let used = UsedType {
            interface,
            name: other_name(&named.root, name)?,
        };
        self.uses.insert(String::from_str(self.alloc, name)?, used)?;
        Ok(())
    }

    /// Puts a type last, under a name that was taken.
    pub(crate) fn put_type(&mut self, name: &str, named: NamedType) -> Result<(), Fault> {
        self.note_use(name, &named)?;
        let item = named.meaning.item();
        self.items
            .insert(String::from_str(self.alloc, name)?, item)?;
        self.names
            .types
            .insert(String::from_str(self.alloc, name)?, named)?;
        Ok(())
    }

    /// Notes that the type of a name is refused, so that what names it isn't refused too.
    pub(crate) fn note_broken(&mut self, name: &Ident) -> Result<(), Fault> {
        self.names.broken.insert(name.name.clone()?)?;
        Ok(())
    }

    /// The type of a name.
    pub(crate) fn named(&self, name: &Ident) -> Result<&NamedType, Fault> {
        match self.names.types.get(name.name.as_str()) {
            Some(named) => Ok(named),
            None => Err(self.refuse_unknown(name)),
        }
    }

    // Refuses the name of a type that isn't there.
    fn refuse_unknown(&self, name: &Ident) -> Fault {
        let text = name.name.as_str();
        if self.names.broken.contains(text) {
            return Fault::Known;
        }
        if self.names.hidden.contains(text) {
            return self
                .refuse_name(
                    self.item_span,
                    "this names `",
                    text,
                    "`, which is there with a feature alone that is off",
                )
                .because(Reason::HiddenType);
        }
        Fault::at(self.site.node.file, name.span, self.nameless(text)).because(Reason::UnknownType)
    }

    // What is said of a type that isn't there.
    fn nameless(&self, name: &str) -> Result<String, AllocError> {
        let mut message = joined(self.alloc, "there is no type `", name, "` here")?;
        self.push_hint(name, &mut message)?;
        Ok(message)
    }

    // Puts the names last that are nearest to one that isn't there.
    fn push_hint(&self, name: &str, message: &mut String) -> Result<(), AllocError> {
        let mut nearest = Nearest::to(self.alloc, name);
        for other in self.names.types.keys() {
            nearest.offer(other)?;
        }
        for other in PRIMITIVES {
            nearest.offer(other)?;
        }
        nearest.push_hint(message)
    }

    /// Adds a defined type.
    pub(crate) fn define(&mut self, ty: DefinedType) -> Result<ValueType, Fault> {
        let id = add_defined(self.types, ty)?;
        self.defined.push(id)?;
        Ok(ValueType::Defined(id))
    }

    /// The entry of a type that has no name.
    pub(crate) fn shaped(&mut self, shape: TypeShape) -> Result<ValueType, Fault> {
        if let Some(known) = self.shapes.types.get(&shape) {
            return Ok(*known);
        }
        let ty = self.define(shape.content()?)?;
        self.shapes.types.insert(shape, ty)?;
        Ok(ty)
    }

    /// The entry of a function.
    pub(crate) fn function(&mut self, shape: FuncShape) -> Result<FuncTypeId, Fault> {
        if let Some(known) = self.shapes.funcs.get(&shape) {
            return Ok(*known);
        }
        let id = add_func(self.types, shape.content(self.alloc)?)?;
        self.shapes.funcs.insert(shape, id)?;
        Ok(id)
    }
}

// The names of types that need no definition, of which one may be misspelt.
static PRIMITIVES: [&str; 14] = [
    "bool",
    "s8",
    "u8",
    "s16",
    "u16",
    "s32",
    "u32",
    "s64",
    "u64",
    "f32",
    "f64",
    "char",
    "string",
    "error-context",
];

// A name, if it isn't this one.
fn other_name(name: &String, this: &str) -> Result<Option<String>, AllocError> {
    if name.as_str() == this {
        return Ok(None);
    }
    Ok(Some(name.clone()?))
}
