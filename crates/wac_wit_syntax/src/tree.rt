//! The syntax tree of a file.
//!
//! What the functions of this crate hold while they may fail is dropped by hand: each place that
//! drops it calls `drop`, while what is derived is proved field by field at each such place.

ghost use Rattle.std.specs.Prelude.{◌≡◌};

use super::positions::Span;
use wac_model::PrimitiveType;

/// A name, without the `%` that may stand before it.
pub struct Ident {
    /// The name.
    pub name: String,
    /// Where it stands.
    pub span: Span,
}

impl Ident {
    /// The name as what stands in the parentheses of an attribute.
    pub(crate) fn into_gate(self) -> Gate
        ensures { result ≡ record { text = self.name; span = self.span } }
    {
        let Ident { name: text, span } = self;
        Gate { text, span }
    }
}

impl Drop for Ident {
    fn drop(self) {
        let Ident { name: _, span: _ } = self;
    }
}

/// What stands in the parentheses of an attribute.
pub struct Gate {
    /// The version or the feature.
    pub text: String,
    /// Where that stands.
    pub span: Span,
}

impl Drop for Gate {
    fn drop(self) {
        let Gate { text: _, span: _ } = self;
    }
}

/// The documentation and the attributes of an item.
pub struct Gates {
    /// Where the documentation stands.
    pub docs: Option<Span>,
    /// The version of `@since`.
    pub since: Option<Gate>,
    /// The feature of `@unstable`.
    pub unstable: Option<Gate>,
    /// The version of `@deprecated`.
    pub deprecated: Option<Gate>,
}

impl Drop for Gates {
    fn drop(self) {
        let Gates {
            docs: _,
            since: _,
            unstable: _,
            deprecated: _,
        } = self;
    }
}

/// The name of a package, as `wasi:http@0.2.0`.
pub struct PackageName {
    /// What stands before the colon.
    pub namespace: Ident,
    /// What stands after it.
    pub name: Ident,
    /// The version, if there is one.
    pub version: Option<Gate>,
    /// Where all that stands.
    pub span: Span,
}

impl Drop for PackageName {
    fn drop(self) {
        let PackageName {
            namespace: _,
            name: _,
            version: _,
            span: _,
        } = self;
    }
}

/// A path to an interface or a world, as `types` or `wasi:http/types@0.2.0`.
pub struct Path {
    /// The package, if one is named.
    pub package: Option<PackageName>,
    /// The name in the package.
    pub name: Ident,
    /// Where the path stands.
    pub span: Span,
}

impl Drop for Path {
    fn drop(self) {
        let Path {
            package: _,
            name: _,
            span: _,
        } = self;
    }
}

/// What a file holds.
pub struct Document {
    /// The package that the file belongs to, if it says that.
    pub package: Option<PackageName>,
    /// The items in order.
    pub items: Vec<TopItem>,
    /// The packages that are written inside the file.
    pub packages: Vec<NestedPackage>,
}

impl Drop for Document {
    fn drop(self) {
        let Document {
            package: _,
            items: _,
            packages: _,
        } = self;
    }
}

/// An item of a file or of a nested package.
pub enum TopItem {
    /// Another name for an interface or a world, in this file.
    Use(TopUse),
    /// An interface.
    Interface(InterfaceDecl),
    /// A world.
    World(WorldDecl),
}

impl Drop for TopItem {
    fn drop(self) {
        match self {
            TopItem::Use(_) => {}
            TopItem::Interface(_) => {}
            TopItem::World(_) => {}
        }
    }
}

/// `use PATH as NAME;` outside of interfaces and worlds.
pub struct TopUse {
    /// What is used.
    pub path: Path,
    /// The name that it has in the file, where that isn't the last of the path.
    pub alias: Option<Ident>,
}

impl Drop for TopUse {
    fn drop(self) {
        let TopUse { path: _, alias: _ } = self;
    }
}

/// `package NAME { .. }`.
pub struct NestedPackage {
    /// The name.
    pub name: PackageName,
    /// The items in order.
    pub items: Vec<TopItem>,
}

impl Drop for NestedPackage {
    fn drop(self) {
        let NestedPackage { name: _, items: _ } = self;
    }
}

/// `interface NAME { .. }`.
pub struct InterfaceDecl {
    /// The attributes.
    pub gates: Gates,
    /// The name.
    pub name: Ident,
    /// The items in order.
    pub items: Vec<InterfaceItem>,
}

impl Drop for InterfaceDecl {
    fn drop(self) {
        let InterfaceDecl {
            gates: _,
            name: _,
            items: _,
        } = self;
    }
}

/// An item of an interface.
pub enum InterfaceItem {
    /// Types of another interface.
    Use(UseItem),
    /// A type.
    Type(TypeItem),
    /// A function.
    Func(FuncItem),
}

impl Drop for InterfaceItem {
    fn drop(self) {
        match self {
            InterfaceItem::Use(_) => {}
            InterfaceItem::Type(_) => {}
            InterfaceItem::Func(_) => {}
        }
    }
}

/// `use PATH.{NAME as NAME, ..};`.
pub struct UseItem {
    /// The attributes.
    pub gates: Gates,
    /// The interface.
    pub path: Path,
    /// The types.
    pub names: Vec<Rename>,
}

impl Drop for UseItem {
    fn drop(self) {
        let UseItem {
            gates: _,
            path: _,
            names: _,
        } = self;
    }
}

/// A name, and the name that it gets.
pub struct Rename {
    /// The name.
    pub name: Ident,
    /// The name that it gets, if it gets another one.
    pub alias: Option<Ident>,
}

impl Drop for Rename {
    fn drop(self) {
        let Rename { name: _, alias: _ } = self;
    }
}

/// A type with a name.
pub struct TypeItem {
    /// The attributes.
    pub gates: Gates,
    /// The name.
    pub name: Ident,
    /// What it is.
    pub def: TypeDef,
    /// Where it stands, without its attributes.
    pub span: Span,
}

impl Drop for TypeItem {
    fn drop(self) {
        let TypeItem {
            gates: _,
            name: _,
            def: _,
            span: _,
        } = self;
    }
}

/// What a type with a name is.
pub enum TypeDef {
    /// `type NAME = TYPE;`.
    Alias(TypeExpr),
    /// `record NAME { .. }`.
    Record(Vec<Field>),
    /// `variant NAME { .. }`.
    Variant(Vec<Case>),
    /// `flags NAME { .. }`.
    Flags(Vec<Ident>),
    /// `enum NAME { .. }`.
    Enum(Vec<Ident>),
    /// `resource NAME { .. }`.
    Resource(Vec<Method>),
}

impl Drop for TypeDef {
    fn drop(self) {
        match self {
            TypeDef::Alias(_) => {}
            TypeDef::Record(_) => {}
            TypeDef::Variant(_) => {}
            TypeDef::Flags(_) => {}
            TypeDef::Enum(_) => {}
            TypeDef::Resource(_) => {}
        }
    }
}

/// A field of a record or a parameter of a function.
pub struct Field {
    /// The name.
    pub name: Ident,
    /// The type.
    pub ty: TypeExpr,
    /// Where the name and the type stand.
    pub span: Span,
}

impl Drop for Field {
    fn drop(self) {
        let Field {
            name: _,
            ty: _,
            span: _,
        } = self;
    }
}

/// A case of a variant.
pub struct Case {
    /// The name.
    pub name: Ident,
    /// The type, if it has one.
    pub ty: Option<TypeExpr>,
    /// Where the name and the type stand.
    pub span: Span,
}

impl Drop for Case {
    fn drop(self) {
        let Case {
            name: _,
            ty: _,
            span: _,
        } = self;
    }
}

/// What a function of a resource is.
#[derive(Clone, Copy, PartialEq, Eq)]
pub enum MethodKind {
    /// It takes the resource.
    Method,
    /// It doesn't.
    Static,
    /// It makes the resource.
    Constructor,
}

/// A function of a resource.
pub struct Method {
    /// The attributes.
    pub gates: Gates,
    /// What it is.
    pub kind: MethodKind,
    /// The name; of a constructor that word.
    pub name: Ident,
    /// The parameters and the result.
    pub signature: Signature,
    /// Where it stands, without its attributes.
    pub span: Span,
}

impl Drop for Method {
    fn drop(self) {
        let Method {
            gates: _,
            kind: _,
            name: _,
            signature: _,
            span: _,
        } = self;
    }
}

/// A function.
pub struct FuncItem {
    /// The attributes.
    pub gates: Gates,
    /// The name.
    pub name: Ident,
    /// The parameters and the result.
    pub signature: Signature,
    /// Where it stands, without its attributes.
    pub span: Span,
}

impl Drop for FuncItem {
    fn drop(self) {
        let FuncItem {
            gates: _,
            name: _,
            signature: _,
            span: _,
        } = self;
    }
}

/// The parameters and the result of a function.
pub struct Signature {
    /// The parameters in order.
    pub params: Vec<Field>,
    /// The result, if there is one.
    pub returns: Option<TypeExpr>,
    /// Whether the function is async.
    pub is_async: bool,
    /// Where the parameters and the result stand.
    pub span: Span,
}

impl Drop for Signature {
    fn drop(self) {
        let Signature {
            params: _,
            returns: _,
            is_async: _,
            span: _,
        } = self;
    }
}

/// `world NAME { .. }`.
pub struct WorldDecl {
    /// The attributes.
    pub gates: Gates,
    /// The name.
    pub name: Ident,
    /// The items in order.
    pub items: Vec<WorldItem>,
}

impl Drop for WorldDecl {
    fn drop(self) {
        let WorldDecl {
            gates: _,
            name: _,
            items: _,
        } = self;
    }
}

/// An item of a world.
pub enum WorldItem {
    /// Types of an interface.
    Use(UseItem),
    /// A type.
    Type(TypeItem),
    /// All that another world imports and exports.
    Include(IncludeItem),
    /// An import.
    Import(ExternItem),
    /// An export.
    Export(ExternItem),
}

impl Drop for WorldItem {
    fn drop(self) {
        match self {
            WorldItem::Use(_) => {}
            WorldItem::Type(_) => {}
            WorldItem::Include(_) => {}
            WorldItem::Import(_) => {}
            WorldItem::Export(_) => {}
        }
    }
}

/// `include PATH with { NAME as NAME, .. };`.
pub struct IncludeItem {
    /// The attributes.
    pub gates: Gates,
    /// The world.
    pub path: Path,
    /// The names that are changed.
    pub renames: Vec<Rename>,
}

impl Drop for IncludeItem {
    fn drop(self) {
        let IncludeItem {
            gates: _,
            path: _,
            renames: _,
        } = self;
    }
}

/// An import or an export.
pub struct ExternItem {
    /// The attributes.
    pub gates: Gates,
    /// What is imported or exported.
    pub what: Extern,
    /// Where it stands, without its attributes.
    pub span: Span,
}

impl Drop for ExternItem {
    fn drop(self) {
        let ExternItem {
            gates: _,
            what: _,
            span: _,
        } = self;
    }
}

/// What is imported or exported.
pub enum Extern {
    /// An interface, under its identifier.
    Path(Path),
    /// A function, under a name.
    Func(Ident, Signature),
    /// An interface that is written here, under a name.
    Inline(Ident, Vec<InterfaceItem>),
    /// An interface that is written elsewhere, under a name.
    Named(Ident, Path),
}

impl Drop for Extern {
    fn drop(self) {
        match self {
            Extern::Path(_) => {}
            Extern::Func(_, _) => {}
            Extern::Inline(_, _) => {}
            Extern::Named(_, _) => {}
        }
    }
}

/// A type where one is used.
pub enum TypeExpr {
    /// A primitive type, and where it stands.
    Primitive(PrimitiveType, Span),
    /// A type with a name.
    Name(Ident),
    /// `list<T>`.
    List(Box<TypeExpr>),
    /// `list<T, N>`.
    FixedList(Box<TypeExpr>, u32, Span),
    /// `option<T>`.
    Option(Box<TypeExpr>),
    /// `result<T, E>`.
    Result(Option<Box<TypeExpr>>, Option<Box<TypeExpr>>),
    /// `tuple<T, ..>`.
    Tuple(Vec<TypeExpr>, Span),
    /// `map<K, V>`.
    Map(Box<TypeExpr>, Box<TypeExpr>, Span),
    /// `future<T>`.
    Future(Option<Box<TypeExpr>>),
    /// `stream<T>`.
    Stream(Option<Box<TypeExpr>>),
    /// `own<R>`.
    Own(Ident),
    /// `borrow<R>`.
    Borrow(Ident),
}

impl Drop for TypeExpr {
    fn drop(self) {
        match self {
            TypeExpr::Primitive(_, _) => {}
            TypeExpr::Name(_) | TypeExpr::Own(_) | TypeExpr::Borrow(_) => {}
            TypeExpr::List(_) | TypeExpr::FixedList(_, _, _) | TypeExpr::Option(_) => {}
            TypeExpr::Result(_, _) | TypeExpr::Map(_, _, _) => {}
            TypeExpr::Tuple(_, _) => {}
            TypeExpr::Future(_) | TypeExpr::Stream(_) => {}
        }
    }
}
