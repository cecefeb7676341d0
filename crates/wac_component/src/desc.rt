//! The texts that describe items and types.

ghost use Rattle.std.specs.Prelude.{◌≡◌};
ghost use Rattle.wac_model.specs.Desc.{value_desc, item_desc};
ghost use Rattle.wac_component.specs.Content.{defined_content};
ghost use Rattle.wac_component.specs.Key.{AllStand, value_keys, defined_keys, type_keys, item_keys};
ghost use Rattle.wac_component.specs.Tree.{value_tree, content_tree, type_tree, item_tree};

use super::collection::Types;
use super::defined::DefinedType;
use super::items::{ItemKind, Type, ValueType};

impl ItemKind {
    /// The text that describes the item.
    pub fn desc(&self, types: &Types) -> &'static str
        requires { AllStand types.now (item_keys self.now) }
        ensures { result.now ≡ item_desc (item_tree types.now self.now) }
    {
        match self {
            ItemKind::Type(ty) => ty.desc(types),
            ItemKind::Func(_) => "function",
            ItemKind::Instance(_) => "instance",
            ItemKind::Component(_) => "component",
            ItemKind::Module(_) => "module",
            ItemKind::Value(_) => "value",
        }
    }
}

impl Type {
    /// The text that describes the type.
    pub fn desc(&self, types: &Types) -> &'static str
        requires { AllStand types.now (type_keys self.now) }
        ensures { result.now ≡ item_desc (type_tree types.now self.now) }
    {
        match self {
            Type::Resource(_) => "resource",
            Type::Func(_) => "function type",
            Type::Value(ty) => ty.desc(types),
            Type::Interface(_) => "interface",
            Type::World(_) => "world",
            Type::Module(_) => "module type",
        }
    }
}

impl ValueType {
    /// The text that describes the value type, with aliases looked through.
    #[cycle(desc)]
    pub fn desc(&self, types: &Types) -> &'static str
        requires { AllStand types.now (value_keys self.now) }
        ensures { result.now ≡ value_desc (value_tree types.now self.now) }
    {
        match self {
            ValueType::Primitive(ty) => ty.desc(),
            ValueType::Borrow(_) => "borrow",
            ValueType::Own(_) => "own",
            ValueType::Defined(id) => types[*id].desc(types),
        }
    }
}

impl DefinedType {
    /// The text that describes the defined type, with aliases looked through.
    #[cycle(desc)]
    pub fn desc(&self, types: &Types) -> &'static str
        requires { AllStand types.now (defined_keys (defined_content self.now)) }
        ensures { result.now ≡ value_desc (content_tree (value_tree types.now) (defined_content self.now)) }
    {
        match self {
            DefinedType::Tuple(_) => "tuple",
            DefinedType::List(_) => "list",
            DefinedType::FixedSizeList(_, _) => "list<,N>",
            DefinedType::Map(_, _) => "map",
            DefinedType::Option(_) => "option",
            DefinedType::Result { .. } => "result",
            DefinedType::Variant(_) => "variant",
            DefinedType::Record(_) => "record",
            DefinedType::Flags(_) => "flags",
            DefinedType::Enum(_) => "enum",
            DefinedType::Alias(ty) => ty.desc(types),
            DefinedType::Stream(_) => "stream",
            DefinedType::Future(_) => "future",
        }
    }
}
