//! Goes along the path of a check through the syntax, so that each of its steps has a place.

use super::members::{SourceMember, SourceMembers};
use super::sources::{FilePlace, PackageSources, SourceDecl};
use wac_component::{InterfaceId, ItemKind, Types, UsedType, WorldId};
use wac_types::Frame;
use wac_wit_entries::{interface, interface_id, world};
use wac_wit_syntax::{
    Case, Extern, Field, Ident, MethodKind, Signature, Span, TypeDef, TypeExpr, TypeItem,
};

// How many names of one type are followed, of which each leads to another.
const MAX_ALIASES: usize = 1000;

/// What knows where used types come from.
#[derive(Clone, Copy)]
enum Users {
    Interface(InterfaceId),
    World(WorldId),
}

/// What a path leads to.
#[derive(Clone, Copy)]
pub(crate) enum PathNode<'d> {
    /// An interface or a world.
    Items,
    /// A function, and whether its first parameter isn't written.
    Func(&'d Signature, bool),
    /// A type with a name.
    Type(&'d TypeItem),
    /// A type where it is used.
    Expr(&'d TypeExpr),
    /// Something that has no parts in the syntax.
    Leaf,
}

/// A position on a path.
#[derive(Clone, Copy)]
pub struct SourceWalk<'d> {
    pub(crate) node: PathNode<'d>,
    /// Where it stands.
    pub place: FilePlace,
    // The index of the members of what it stands in.
    members: usize,
    users: Users,
}

/// A collection with the files that it was made of.
#[derive(Clone, Copy)]
pub struct Map<'s, 'd> {
    /// The collection.
    pub types: &'s Types,
    /// Where its interfaces and worlds stand.
    pub sources: &'s PackageSources<'d>,
}

impl<'d> SourceWalk<'d> {
    // Something else among the same items.
    fn to(&self, node: PathNode<'d>, span: Span) -> SourceWalk<'d> {
        let file = self.place.file;
        SourceWalk {
            node,
            place: FilePlace { file, span },
            members: self.members,
            users: self.users,
        }
    }

    /// The same position.
    fn stay(&self) -> SourceWalk<'d> {
        self.to(self.node, self.place.span)
    }

    // A place from which no path goes on.
    fn leaf(&self, span: Span) -> SourceWalk<'d> {
        self.to(PathNode::Leaf, span)
    }

    fn parameter(&self, name: &str) -> Option<SourceWalk<'d>> {
        let PathNode::Func(signature, _) = self.node else {
            return None;
        };
        let field = field_named(&signature.params, name)?;
        Some(self.to(PathNode::Expr(&field.ty), field.span))
    }

    fn returned(&self) -> Option<SourceWalk<'d>> {
        let PathNode::Func(signature, _) = self.node else {
            return None;
        };
        let ty = signature.returns.as_ref()?;
        Some(self.to(PathNode::Expr(ty), self.place.span))
    }

    // What a type is another name of, where it is one.
    fn aliased(&self, item: &'d TypeItem) -> Option<SourceWalk<'d>> {
        match &item.def {
            TypeDef::Alias(ty) => Some(self.to(PathNode::Expr(ty), self.place.span)),
            _ => None,
        }
    }
}

impl<'d> Map<'_, 'd> {
    /// The start of a path at an interface that stands under its identifier.
    pub fn at_interface(&self, id: InterfaceId) -> Option<SourceWalk<'d>> {
        let site = self.sources.get(interface_id(self.types, id)?)?;
        let SourceDecl::Interface(_) = site.decl else {
            return None;
        };
        Some(SourceWalk {
            node: PathNode::Items,
            place: site.place(),
            members: site.members,
            users: Users::Interface(id),
        })
    }

    /// The start of a path at a world.
    pub(crate) fn at_world(&self, id: WorldId) -> Option<SourceWalk<'d>> {
        let of = world(self.types, id)?;
        let name = of.id.as_ref()?;
        let site = self.sources.get(name)?;
        let SourceDecl::World(_) = site.decl else {
            return None;
        };
        Some(SourceWalk {
            node: PathNode::Items,
            place: site.place(),
            members: site.members,
            users: Users::World(id),
        })
    }

    /// From a world to what it imports or exports under a name: an interface where it is written, a
    /// function where the world names it, and else the world itself.
    pub fn at_extern(&self, world: WorldId, name: &str, item: &ItemKind) -> Option<SourceWalk<'d>> {
        let Some(walk) = self.at_world(world) else {
            return None;
        };
        if let Some(there) = self.at_instance(item) {
            return Some(there);
        }
        match self.written(&walk, name, item) {
            Some(there) => Some(there),
            None => Some(walk.leaf(walk.place.span)),
        }
    }

    // To an interface that is written in a package, where an item is one.
    fn at_instance(&self, item: &ItemKind) -> Option<SourceWalk<'d>> {
        match item {
            ItemKind::Instance(id) => self.at_interface(*id),
            _ => None,
        }
    }

    /// Where a world stands.
    pub fn world_place(&self, world: WorldId) -> Option<FilePlace> {
        match self.at_world(world) {
            Some(walk) => Some(walk.place),
            None => None,
        }
    }

    /// Where a world names an import or an export, or where the type or the function of a resource
    /// stands; where the world has it by an include or for what it uses alone, the world's place.
    pub fn extern_place(&self, world: WorldId, name: &str) -> Option<FilePlace> {
        let Some(walk) = self.at_world(world) else {
            return None;
        };
        if let Some(span) = self.members(&walk)?.extern_span(name) {
            let file = walk.place.file;
            return Some(FilePlace { file, span });
        }
        match self.member(&walk, name) {
            Some(there) => Some(there.place),
            None => Some(walk.place),
        }
    }

    /// The position at the end of a path.
    pub(crate) fn at_end(&self, walk: &SourceWalk<'d>, frames: &[Frame]) -> SourceWalk<'d> {
        let mut at = SourceWalk {
            node: walk.node,
            place: walk.place,
            members: walk.members,
            users: walk.users,
        };
        for frame in frames {
            at = self.follow(&at, frame);
        }
        at
    }

    // One step further along a path; where the syntax has nothing for it, the place stays.
    fn follow(&self, walk: &SourceWalk<'d>, frame: &Frame) -> SourceWalk<'d> {
        match self.next(walk, frame) {
            Some(next) => next,
            None => walk.leaf(walk.place.span),
        }
    }

    fn next(&self, walk: &SourceWalk<'d>, frame: &Frame) -> Option<SourceWalk<'d>> {
        match frame {
            Frame::Export(name) | Frame::Import(name) => self.member(walk, name),
            Frame::Parameter(name) => walk.parameter(name),
            Frame::FuncResult => walk.returned(),
            Frame::Field(name) => self.field(walk, name),
            Frame::Case(name) => self.case(walk, name),
            frame => self.part(walk, frame),
        }
    }

    // What stands where a position is, by its names.
    fn members(&self, walk: &SourceWalk<'d>) -> Option<&SourceMembers<'d>> {
        self.sources.members(walk.members)
    }

    // From a world to an interface or a function that is written in it.
    fn written(
        &self,
        walk: &SourceWalk<'d>,
        name: &str,
        item: &ItemKind,
    ) -> Option<SourceWalk<'d>> {
        let found = self.members(walk)?.externs.get(name)?;
        match &found.item.what {
            Extern::Func(name, signature) => Some(walk.to(
                PathNode::Func(signature, false),
                name.span,
            )),
            Extern::Inline(name, _) => inline(walk, name, found.members, item),
            Extern::Named(name, _) => Some(walk.leaf(name.span)),
            Extern::Path(_) => None,
        }
    }

    /// To a member of an interface.
    pub(crate) fn member(&self, walk: &SourceWalk<'d>, name: &str) -> Option<SourceWalk<'d>> {
        match self.members(walk)?.names.get(name) {
            Some(SourceMember::Func(it)) => Some(walk.to(
                PathNode::Func(&it.signature, false),
                it.name.span,
            )),
            Some(SourceMember::Method(it)) => {
                let is_method = it.kind == MethodKind::Method;
                Some(walk.to(PathNode::Func(&it.signature, is_method), it.name.span))
            }
            _ => self.type_named(walk, name),
        }
    }

    // To the definition of a type, in the interface that it comes from.
    fn type_named(&self, walk: &SourceWalk<'d>, name: &str) -> Option<SourceWalk<'d>> {
        if let Some(item) = self.members(walk)?.typedef(name) {
            return Some(walk.to(PathNode::Type(item), item.name.span));
        }
        let used = self.used(walk.users, name)?;
        let Some(root) = self.at_interface(used.interface) else {
            return None;
        };
        let name = match &used.name {
            Some(name) => name.as_str(),
            None => name,
        };
        let item = self.members(&root)?.typedef(name)?;
        Some(root.to(PathNode::Type(item), item.name.span))
    }

    // Where an interface or a world has a used type from.
    fn used(&self, users: Users, name: &str) -> Option<&UsedType> {
        match users {
            Users::Interface(id) => interface(self.types, id)?.uses.get(name),
            Users::World(id) => world(self.types, id)?.uses.get(name),
        }
    }

    /// To what a type with a name is, where that is known by other names alone.
    pub(crate) fn peeled(&self, walk: &SourceWalk<'d>) -> SourceWalk<'d> {
        let mut at = walk.stay();
        for _name in 0..MAX_ALIASES {
            match self.named(&at) {
                Some(next) => at = next,
                None => break,
            }
        }
        at
    }

    // To what a name of a type, or a type that is another name, leads.
    fn named(&self, walk: &SourceWalk<'d>) -> Option<SourceWalk<'d>> {
        match walk.node {
            PathNode::Expr(TypeExpr::Name(name)) => self.type_named(walk, &name.name),
            PathNode::Type(item) => walk.aliased(item),
            _ => None,
        }
    }

    fn field(&self, walk: &SourceWalk<'d>, name: &str) -> Option<SourceWalk<'d>> {
        let at = self.peeled(walk);
        let PathNode::Type(item) = at.node else {
            return None;
        };
        let TypeDef::Record(fields) = &item.def else {
            return None;
        };
        let field = field_named(fields, name)?;
        Some(at.to(PathNode::Expr(&field.ty), field.span))
    }

    fn case(&self, walk: &SourceWalk<'d>, name: &str) -> Option<SourceWalk<'d>> {
        let at = self.peeled(walk);
        let PathNode::Type(item) = at.node else {
            return None;
        };
        let TypeDef::Variant(cases) = &item.def else {
            return None;
        };
        let case = case_named(cases, name)?;
        match &case.ty {
            Some(ty) => Some(at.to(PathNode::Expr(ty), case.span)),
            None => Some(at.leaf(case.span)),
        }
    }

    // To a part of a type without name.
    fn part(&self, walk: &SourceWalk<'d>, frame: &Frame) -> Option<SourceWalk<'d>> {
        let at = self.peeled(walk);
        let PathNode::Expr(ty) = at.node else {
            return None;
        };
        let part = part_of(ty, frame)?;
        Some(at.to(PathNode::Expr(part), at.place.span))
    }
}

// To an interface that is written in a world.
fn inline<'d>(
    walk: &SourceWalk<'d>,
    name: &Ident,
    members: usize,
    item: &ItemKind,
) -> Option<SourceWalk<'d>> {
    let ItemKind::Instance(id) = item else {
        return None;
    };
    let file = walk.place.file;
    let span = name.span;
    Some(SourceWalk {
        node: PathNode::Items,
        place: FilePlace { file, span },
        members,
        users: Users::Interface(*id),
    })
}

fn field_named<'d>(fields: &'d [Field], name: &str) -> Option<&'d Field> {
    for field in fields {
        if field.name.name.as_str() == name {
            return Some(field);
        }
    }
    None
}

fn case_named<'d>(cases: &'d [Case], name: &str) -> Option<&'d Case> {
    for case in cases {
        if case.name.name.as_str() == name {
            return Some(case);
        }
    }
    None
}

// The part of a type without name to which a step leads.
fn part_of<'d>(ty: &'d TypeExpr, frame: &Frame) -> Option<&'d TypeExpr> {
    match (ty, frame) {
        (TypeExpr::List(of), Frame::ListElement)
        | (TypeExpr::FixedList(of, _, _), Frame::FixedSizeListElement)
        | (TypeExpr::Option(of), Frame::Option)
        | (TypeExpr::Map(of, _, _), Frame::MapKey)
        | (TypeExpr::Map(_, of, _), Frame::MapValue)
        | (TypeExpr::Future(Some(of)), Frame::FuturePayload)
        | (TypeExpr::Stream(Some(of)), Frame::StreamPayload)
        | (TypeExpr::Result(Some(of), _), Frame::Ok)
        | (TypeExpr::Result(_, Some(of)), Frame::Err) => Some(of),
        (TypeExpr::Tuple(items, _), Frame::Item(index)) => items.get(*index),
        _ => None,
    }
}
