//! The ids of a collection's entries: the number of the collection, and an
//! index in the list of its sort.

ghost use Rattle.std.specs.Prelude.{◌≡◌, Some};
ghost use Rattle.std.specs.Fmt.{decimal};

use std::fmt;
use std::marker::Model;

/// Identifies a defined value type in a collection.
#[derive(Clone, Copy, PartialEq, Eq, Hash, Debug)]
pub struct DefinedTypeId {
    number: u64,
    index: usize,
}

impl Model for DefinedTypeId {
    ghost use Rattle.wac_component.specs.Id.{Id};

    ghost Value = { Id };

    ghost view = { λ a. record { number = a.number; index = a.index } };

    ghost inverse = { λ p. record { number = p.number; index = p.index } };
}

impl DefinedTypeId {
    pub(crate) fn at(number: u64, index: usize) -> Self
        ensures { result ≡ record { number = number; index = index } }
    {
        DefinedTypeId { number, index }
    }

    /// The number of the collection.
    pub fn number(&self) -> u64
        ensures { result ≡ self.now.number }
    {
        self.number
    }

    /// The index in the collection's list of this sort, from 0.
    pub fn index(&self) -> usize
        ensures { result ≡ self.now.index }
    {
        self.index
    }
}

impl fmt::Display for DefinedTypeId {
    ghost output = { λ p. Some (decimal p.index) };

    fn fmt<W: fmt::Write>(&self, f: &mut fmt::Formatter<W>) -> fmt::Result {
        let DefinedTypeId { index, .. } = self;
        write!(f, "{index}")
    }
}

/// Identifies a resource in a collection.
#[derive(Clone, Copy, PartialEq, Eq, Hash, Debug)]
pub struct ResourceId {
    number: u64,
    index: usize,
}

impl Model for ResourceId {
    ghost use Rattle.wac_component.specs.Id.{Id};

    ghost Value = { Id };

    ghost view = { λ a. record { number = a.number; index = a.index } };

    ghost inverse = { λ p. record { number = p.number; index = p.index } };
}

impl ResourceId {
    pub(crate) fn at(number: u64, index: usize) -> Self
        ensures { result ≡ record { number = number; index = index } }
    {
        ResourceId { number, index }
    }

    /// The number of the collection.
    pub fn number(&self) -> u64
        ensures { result ≡ self.now.number }
    {
        self.number
    }

    /// The index in the collection's list of this sort, from 0.
    pub fn index(&self) -> usize
        ensures { result ≡ self.now.index }
    {
        self.index
    }
}

impl fmt::Display for ResourceId {
    ghost output = { λ p. Some (decimal p.index) };

    fn fmt<W: fmt::Write>(&self, f: &mut fmt::Formatter<W>) -> fmt::Result {
        let ResourceId { index, .. } = self;
        write!(f, "{index}")
    }
}

/// Identifies a function type in a collection.
#[derive(Clone, Copy, PartialEq, Eq, Hash, Debug)]
pub struct FuncTypeId {
    number: u64,
    index: usize,
}

impl Model for FuncTypeId {
    ghost use Rattle.wac_component.specs.Id.{Id};

    ghost Value = { Id };

    ghost view = { λ a. record { number = a.number; index = a.index } };

    ghost inverse = { λ p. record { number = p.number; index = p.index } };
}

impl FuncTypeId {
    pub(crate) fn at(number: u64, index: usize) -> Self
        ensures { result ≡ record { number = number; index = index } }
    {
        FuncTypeId { number, index }
    }

    /// The number of the collection.
    pub fn number(&self) -> u64
        ensures { result ≡ self.now.number }
    {
        self.number
    }

    /// The index in the collection's list of this sort, from 0.
    pub fn index(&self) -> usize
        ensures { result ≡ self.now.index }
    {
        self.index
    }
}

impl fmt::Display for FuncTypeId {
    ghost output = { λ p. Some (decimal p.index) };

    fn fmt<W: fmt::Write>(&self, f: &mut fmt::Formatter<W>) -> fmt::Result {
        let FuncTypeId { index, .. } = self;
        write!(f, "{index}")
    }
}

/// Identifies an interface, which is an instance type of the Component Model, in a collection.
#[derive(Clone, Copy, PartialEq, Eq, Hash, Debug)]
pub struct InterfaceId {
    number: u64,
    index: usize,
}

impl Model for InterfaceId {
    ghost use Rattle.wac_component.specs.Id.{Id};

    ghost Value = { Id };

    ghost view = { λ a. record { number = a.number; index = a.index } };

    ghost inverse = { λ p. record { number = p.number; index = p.index } };
}

impl InterfaceId {
    pub(crate) fn at(number: u64, index: usize) -> Self
        ensures { result ≡ record { number = number; index = index } }
    {
        InterfaceId { number, index }
    }

    /// The number of the collection.
    pub fn number(&self) -> u64
        ensures { result ≡ self.now.number }
    {
        self.number
    }

    /// The index in the collection's list of this sort, from 0.
    pub fn index(&self) -> usize
        ensures { result ≡ self.now.index }
    {
        self.index
    }
}

impl fmt::Display for InterfaceId {
    ghost output = { λ p. Some (decimal p.index) };

    fn fmt<W: fmt::Write>(&self, f: &mut fmt::Formatter<W>) -> fmt::Result {
        let InterfaceId { index, .. } = self;
        write!(f, "{index}")
    }
}

/// Identifies a world, which is a component type of the Component Model, in a collection.
#[derive(Clone, Copy, PartialEq, Eq, Hash, Debug)]
pub struct WorldId {
    number: u64,
    index: usize,
}

impl Model for WorldId {
    ghost use Rattle.wac_component.specs.Id.{Id};

    ghost Value = { Id };

    ghost view = { λ a. record { number = a.number; index = a.index } };

    ghost inverse = { λ p. record { number = p.number; index = p.index } };
}

impl WorldId {
    pub(crate) fn at(number: u64, index: usize) -> Self
        ensures { result ≡ record { number = number; index = index } }
    {
        WorldId { number, index }
    }

    /// The number of the collection.
    pub fn number(&self) -> u64
        ensures { result ≡ self.now.number }
    {
        self.number
    }

    /// The index in the collection's list of this sort, from 0.
    pub fn index(&self) -> usize
        ensures { result ≡ self.now.index }
    {
        self.index
    }
}

impl fmt::Display for WorldId {
    ghost output = { λ p. Some (decimal p.index) };

    fn fmt<W: fmt::Write>(&self, f: &mut fmt::Formatter<W>) -> fmt::Result {
        let WorldId { index, .. } = self;
        write!(f, "{index}")
    }
}

/// Identifies a core module type in a collection.
#[derive(Clone, Copy, PartialEq, Eq, Hash, Debug)]
pub struct ModuleTypeId {
    number: u64,
    index: usize,
}

impl Model for ModuleTypeId {
    ghost use Rattle.wac_component.specs.Id.{Id};

    ghost Value = { Id };

    ghost view = { λ a. record { number = a.number; index = a.index } };

    ghost inverse = { λ p. record { number = p.number; index = p.index } };
}

impl ModuleTypeId {
    pub(crate) fn at(number: u64, index: usize) -> Self
        ensures { result ≡ record { number = number; index = index } }
    {
        ModuleTypeId { number, index }
    }

    /// The number of the collection.
    pub fn number(&self) -> u64
        ensures { result ≡ self.now.number }
    {
        self.number
    }

    /// The index in the collection's list of this sort, from 0.
    pub fn index(&self) -> usize
        ensures { result ≡ self.now.index }
    {
        self.index
    }
}

impl fmt::Display for ModuleTypeId {
    ghost output = { λ p. Some (decimal p.index) };

    fn fmt<W: fmt::Write>(&self, f: &mut fmt::Formatter<W>) -> fmt::Result {
        let ModuleTypeId { index, .. } = self;
        write!(f, "{index}")
    }
}
