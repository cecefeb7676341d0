//! Types with names.

use super::adding::add_resource;
use super::builder::Builder;
use indexmap::{IndexMap, IndexSet};
use wac_component::{DefinedType, Enum, Flags, Record, Resource, ValueType, Variant};
use wac_wit_elaboration::{Meaning, NamedType};
use wac_wit_names::{Fault, Reason, Taken};
use wac_wit_syntax::{Case, Field, Ident, TypeDef, TypeExpr, TypeItem};

// How many flags a value has at most.
const MAX_FLAGS: usize = 32;

impl Builder<'_> {
    /// Takes in types, each behind those that it names. Their names are taken first, in the order
    /// of the text, so that the second of two is refused.
    pub(crate) fn add_typedefs(&mut self, defs: &[&TypeItem]) -> Result<(), Fault> {
        let mut new = Vec::new(self.alloc);
        for def in defs {
            if self.takes_def(def)? {
                new.push(*def)?;
            }
        }
        for index in self.type_order(&new)? {
            if let Some(def) = new.get(index) {
                self.add_or_note(def)?;
            }
        }
        Ok(())
    }

    // Takes the name of a type, and says whether it is there and its name was free.
    fn takes_def(&mut self, def: &TypeItem) -> Result<bool, Fault> {
        if !self.is_there(&def.gates) {
            self.names.hidden.insert(def.name.name.clone()?)?;
            return Ok(false);
        }
        let done = self.take_name(&def.name.name, def.name.span);
        if self.refusals.go_on(done)? {
            return Ok(true);
        }
        self.note_broken(&def.name)?;
        Ok(false)
    }

    // Takes in a type, or notes that it is refused.
    fn add_or_note(&mut self, item: &TypeItem) -> Result<(), Fault> {
        self.item_span = item.name.span;
        let done = self.add_typedef(item);
        if !self.refusals.go_on(done)? {
            self.note_broken(&item.name)?;
        }
        Ok(())
    }

    fn add_typedef(&mut self, item: &TypeItem) -> Result<(), Fault> {
        let name = &item.name;
        match &item.def {
            TypeDef::Alias(ty) => self.add_alias(name, ty),
            TypeDef::Resource(_) => self.add_own_resource(name),
            TypeDef::Record(fields) => {
                let of = self.record_of(name, fields)?;
                self.put_defined(name, DefinedType::Record(of))
            }
            TypeDef::Variant(cases) => {
                let of = self.variant_of(name, cases)?;
                self.put_defined(name, DefinedType::Variant(of))
            }
            TypeDef::Flags(names) => {
                let of = self.flags_of(name, names)?;
                self.put_defined(name, DefinedType::Flags(of))
            }
            TypeDef::Enum(names) => {
                let of = self.distinct(name, names)?;
                self.put_defined(name, DefinedType::Enum(Enum(of)))
            }
        }
    }

    fn put_defined(&mut self, name: &Ident, of: DefinedType) -> Result<(), Fault> {
        let ty = self.define(of)?;
        self.put_own(name, Meaning::Value(ty))
    }

    // Puts a type last that is defined here.
    fn put_own(&mut self, name: &Ident, meaning: Meaning) -> Result<(), Fault> {
        let root = name.name.clone()?;
        self.put_type(
            &name.name,
            NamedType {
                meaning,
                owner: None,
                root,
                from: None,
            },
        )
    }

    fn add_own_resource(&mut self, name: &Ident) -> Result<(), Fault> {
        let resource = Resource {
            name: name.name.clone()?,
            alias: None,
        };
        let id = add_resource(self.types, resource)?;
        self.put_own(name, Meaning::Resource(id))
    }

    // Takes in another name of a type, or a name for one that has none.
    fn add_alias(&mut self, name: &Ident, ty: &TypeExpr) -> Result<(), Fault> {
        if let TypeExpr::Name(of) = ty {
            return self.add_second_name(name, of);
        }
        let meaning = match self.value_of(ty)? {
            ValueType::Primitive(of) => {
                let alias = DefinedType::Alias(ValueType::Primitive(of));
                Meaning::Value(self.define(alias)?)
            }
            of => Meaning::Value(of),
        };
        self.put_own(name, meaning)
    }

    // Takes in another name of a type.
    fn add_second_name(&mut self, name: &Ident, of: &Ident) -> Result<(), Fault> {
        let named = self.copy_of(of)?;
        let owner = named.owner;
        let other = self.another_name(&name.name, &named, &owner, None)?;
        self.put_type(&name.name, other)
    }

    // What is known of a type, apart from the names that may grow.
    fn copy_of(&self, of: &Ident) -> Result<NamedType, Fault> {
        Ok(self.named(of)?.copied()?)
    }

    fn record_of(&mut self, name: &Ident, all: &[Field]) -> Result<Record, Fault> {
        self.refuse_empty(name, all.is_empty(), "a record has at least one field")?;
        let mut seen = Taken::new(self.alloc);
        let mut fields = IndexMap::new(self.alloc);
        for field in all {
            if let Some(ty) = self.member_value(&mut seen, &field.name, &field.ty)? {
                fields.insert(field.name.name.clone()?, ty)?;
            }
        }
        if fields.len() < all.len() {
            return Err(Fault::Known);
        }
        Ok(Record { fields })
    }

    fn variant_of(&mut self, name: &Ident, all: &[Case]) -> Result<Variant, Fault> {
        self.refuse_empty(name, all.is_empty(), "a variant has at least one case")?;
        let mut seen = Taken::new(self.alloc);
        let cases = self.cases_of(&mut seen, all)?;
        if cases.len() < all.len() {
            return Err(Fault::Known);
        }
        Ok(Variant { cases })
    }

    // The cases whose names and types aren't refused.
    fn cases_of(
        &mut self,
        seen: &mut Taken,
        all: &[Case],
    ) -> Result<IndexMap<String, Option<ValueType>>, Fault> {
        let mut cases = IndexMap::new(self.alloc);
        for case in all {
            let ty = self.case_value(seen, case)?;
            if ty.is_some() == case.ty.is_some() {
                cases.insert(case.name.name.clone()?, ty)?;
            }
        }
        Ok(cases)
    }

    fn case_value(&mut self, seen: &mut Taken, case: &Case) -> Result<Option<ValueType>, Fault> {
        match &case.ty {
            Some(ty) => self.member_value(seen, &case.name, ty),
            None => {
                self.take_member(seen, &case.name)?;
                Ok(None)
            }
        }
    }

    /// Takes the name of a field, a case or a parameter, and gives the type, if that isn't refused.
    pub(crate) fn member_value(
        &mut self,
        seen: &mut Taken,
        name: &Ident,
        ty: &TypeExpr,
    ) -> Result<Option<ValueType>, Fault> {
        self.take_member(seen, name)?;
        self.noted_value(ty)
    }

    /// Takes the name of a field, a case or a parameter, or notes that it is taken.
    pub(crate) fn take_member(&mut self, seen: &mut Taken, name: &Ident) -> Result<(), Fault> {
        let done = seen.take(
            self.site.catalog,
            self.site.node.file,
            &name.name,
            name.span,
        );
        self.refusals.go_on(done)?;
        Ok(())
    }

    fn flags_of(&mut self, name: &Ident, names: &[Ident]) -> Result<Flags, Fault> {
        if names.len() > MAX_FLAGS {
            return Err(
                self.refuse(name.span, "these are more than 32 flags")
                    .because(Reason::ManyFlags),
            );
        }
        Ok(Flags(self.distinct(name, names)?))
    }

    // Names of which no two are one.
    fn distinct(&mut self, name: &Ident, names: &[Ident]) -> Result<IndexSet<String>, Fault> {
        self.refuse_empty(
            name,
            names.is_empty(),
            "at least one name stands in the braces",
        )?;
        self.set_of(names)
    }

    fn set_of(&mut self, names: &[Ident]) -> Result<IndexSet<String>, Fault> {
        let mut seen = Taken::new(self.alloc);
        let mut set = IndexSet::new(self.alloc);
        for name in names {
            self.take_member(&mut seen, name)?;
            set.insert(name.name.clone()?)?;
        }
        Ok(set)
    }

    fn refuse_empty(&self, name: &Ident, is_empty: bool, message: &str) -> Result<(), Fault> {
        if is_empty {
            return Err(self.refuse(name.span, message).because(Reason::Empty));
        }
        Ok(())
    }
}
