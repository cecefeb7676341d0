//! What is still to be put of a text.

ghost use Rattle.std.specs.Prelude.{◌≡◌, [], OnOk};
ghost use Rattle.std.specs.List.{flat_map};
ghost use Rattle.std.specs.Option.{option_to_list};
ghost use Rattle.wac_component.specs.Key.{AllStand, type_keys, value_keys};
ghost use Rattle.wac_item_text.specs.Rest.{AreStanding};

use std::alloc::{AllocError, Global};
use wac_component::{Type, Types, ValueType};

/// A piece of a text.
#[derive(Clone, Copy)]
pub(crate) enum Chunk {
    /// The last of the texts, as it is.
    Text,
    /// The last of the texts, as the word of a name.
    Name,
    /// A number.
    Number(u32),
    /// The last of the types that are pending.
    Type,
}

/// A type whose text is to be put. (The prover asks for a type of this crate around an enum of
/// another one that is pushed.)
#[derive(Clone, Copy)]
pub(crate) struct Pending {
    pub(crate) ty: Type,
}

/// The chunks that are to be put last, of which the last comes next: so what nests takes no stack.
#[derive(Drop)]
pub(crate) struct Rest<'a> {
    pub(crate) chunks: Vec<Chunk>,
    /// A text for each chunk that asks for one.
    pub(crate) texts: Vec<&'a str>,
    /// A type for each chunk that asks for one.
    pub(crate) pending: Vec<Pending>,
}

impl<'a> Rest<'a> {
    pub(crate) fn new(alloc: Global) -> Rest<'a>
        ensures { result.pending.items ≡ [] }
    {
        Rest {
            chunks: Vec::new(alloc),
            texts: Vec::new(alloc),
            pending: Vec::new(alloc),
        }
    }

    /// Lets a text come next.
    pub(crate) fn push_text(&mut self, text: &'a str) -> Result<(), AllocError>
        ensures { self.new.pending ≡ self.old.pending }
    {
        self.texts.push(text)?;
        self.chunks.push(Chunk::Text)?;
        Ok(())
    }

    /// Lets a name come next.
    pub(crate) fn push_name(&mut self, name: &'a str) -> Result<(), AllocError>
        ensures { self.new.pending ≡ self.old.pending }
    {
        self.texts.push(name)?;
        self.chunks.push(Chunk::Name)?;
        Ok(())
    }

    /// Lets a name come next, and then `=`.
    pub(crate) fn push_key(&mut self, name: &'a str) -> Result<(), AllocError>
        ensures { self.new.pending ≡ self.old.pending }
    {
        self.push_text("=")?;
        self.push_name(name)
    }

    /// Lets a number come next.
    pub(crate) fn push_number(&mut self, number: u32) -> Result<(), AllocError>
        ensures { self.new.pending ≡ self.old.pending }
    {
        self.chunks.push(Chunk::Number(number))?;
        Ok(())
    }

    /// Lets the text of a type come next.
    pub(crate) fn push_type(&mut self, types: &Types, ty: Type) -> Result<(), AllocError>
        requires before { AreStanding types.now self.old.pending.items }
        requires ty { AllStand types.now (type_keys ty) }
        ensures { OnOk result (AreStanding types.now self.new.pending.items) }
    {
        self.pending.push(Pending { ty })?;
        self.chunks.push(Chunk::Type)?;
        Ok(())
    }

    /// Lets the text of a value type come next.
    pub(crate) fn push_value(&mut self, types: &Types, ty: ValueType) -> Result<(), AllocError>
        requires before { AreStanding types.now self.old.pending.items }
        requires ty { AllStand types.now (value_keys ty) }
        ensures { OnOk result (AreStanding types.now self.new.pending.items) }
    {
        self.push_type(types, Type::Value(ty))
    }

    /// Lets the text of a value type come next, or `_` where there is none.
    pub(crate) fn push_optional(
        &mut self,
        types: &Types,
        ty: Option<ValueType>,
    ) -> Result<(), AllocError>
        requires before { AreStanding types.now self.old.pending.items }
        requires ty { AllStand types.now (flat_map value_keys (option_to_list ty)) }
        ensures { OnOk result (AreStanding types.now self.new.pending.items) }
    {
        match ty {
            Some(ty) => self.push_value(types, ty),
            None => self.push_text("_"),
        }
    }
}
