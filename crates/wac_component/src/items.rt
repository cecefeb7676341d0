//! Items, and the types that they may have.

use super::ids::{DefinedTypeId, FuncTypeId, InterfaceId, ModuleTypeId, ResourceId, WorldId};
use wac_model::PrimitiveType;

/// The kind of an item that a component imports or exports (Component
/// Model explainer, `externtype`).
#[derive(Clone, Copy, PartialEq, Eq, Hash, Debug)]
pub enum ItemKind {
    /// A type.
    Type(Type),
    /// A function.
    Func(FuncTypeId),
    /// An instance of an interface.
    Instance(InterfaceId),
    /// A component of a world.
    Component(WorldId),
    /// A core module.
    Module(ModuleTypeId),
    /// A value.
    Value(ValueType),
}

/// A type.
#[derive(Clone, Copy, PartialEq, Eq, Hash, Debug)]
pub enum Type {
    /// A resource.
    Resource(ResourceId),
    /// A function type.
    Func(FuncTypeId),
    /// A value type.
    Value(ValueType),
    /// An interface, which is an instance type.
    Interface(InterfaceId),
    /// A world, which is a component type.
    World(WorldId),
    /// A core module type.
    Module(ModuleTypeId),
}

/// A value type (Component Model explainer, `valtype`).
#[derive(Clone, Copy, PartialEq, Eq, Hash, Debug)]
pub enum ValueType {
    /// A primitive type.
    Primitive(PrimitiveType),
    /// A borrowed handle of a resource.
    Borrow(ResourceId),
    /// An owned handle of a resource.
    Own(ResourceId),
    /// A defined type.
    Defined(DefinedTypeId),
}

impl ItemKind {
    ghost use Rattle.std.specs.Prelude.{◌≡◌};
    ghost use Rattle.wac_component.specs.Items.{type_of, promoted};

    /// The type of the item.
    pub fn ty(&self) -> Type
        ensures { result ≡ type_of self.now }
    {
        match self {
            ItemKind::Type(ty) => *ty,
            ItemKind::Func(id) => Type::Func(*id),
            ItemKind::Instance(id) => Type::Interface(*id),
            ItemKind::Component(id) => Type::World(*id),
            ItemKind::Module(id) => Type::Module(*id),
            ItemKind::Value(ty) => Type::Value(*ty),
        }
    }

    /// A function, an instance or a component in the place of its type; all else stays.
    pub fn promote(&self) -> ItemKind
        ensures { result ≡ promoted self.now }
    {
        match self {
            ItemKind::Type(Type::Func(id)) => ItemKind::Func(*id),
            ItemKind::Type(Type::Interface(id)) => ItemKind::Instance(*id),
            ItemKind::Type(Type::World(id)) => ItemKind::Component(*id),
            kind => *kind,
        }
    }
}
