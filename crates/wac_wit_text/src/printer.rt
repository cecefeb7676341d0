//! Writes the entries of a collection as WIT text: the types where they are used.

use indexmap::IndexMap;
use std::alloc::{AllocError, Global};
use wac_component::{
    DefinedType, DefinedTypeId, InterfaceId, ItemKind, ResourceId, Type, Types, ValueType,
};
use wac_item_text::push_item_text;
use wac_wit_entries::{IdentifierParts, defined_type, interface_id, parts_of, resource};
use wac_wit_syntax::{MAX_DEPTH, is_keyword};

/// How deep types nest that are written: deeper than the reader takes them.
pub(crate) const DEPTH: usize = MAX_DEPTH + 2;

/// The names that types have in the interface or the world that is written.
#[derive(Drop)]
pub(crate) struct TypeScope {
    pub(crate) types: IndexMap<DefinedTypeId, String>,
    pub(crate) resources: IndexMap<ResourceId, String>,
}

impl TypeScope {
    /// Without names.
    pub(crate) fn new(alloc: Global) -> TypeScope {
        TypeScope {
            types: IndexMap::new(alloc),
            resources: IndexMap::new(alloc),
        }
    }
}

// What is left to write of a type.
#[derive(Clone, Copy)]
enum Piece {
    // A type, and how deep what is in it is written.
    Type(ValueType, usize),
    // The length of a list, and the bracket behind it.
    Length(u32),
    Comma,
    Close,
}

// What is left to write of a type, the last first.
#[derive(Drop)]
struct Pieces {
    all: Vec<Piece>,
}

impl Pieces {
    fn new(alloc: Global) -> Pieces {
        Pieces {
            all: Vec::new(alloc),
        }
    }

    // What stands behind the opening of a type.
    fn push_shape(&mut self, content: &DefinedType, depth: usize) -> Result<(), AllocError> {
        match content {
            DefinedType::Tuple(items) => self.push_all(items, depth),
            DefinedType::List(of) | DefinedType::Option(of) => self.push_all(&[*of], depth),
            DefinedType::Map(key, of) => self.push_all(&[*key, *of], depth),
            DefinedType::FixedSizeList(of, length) => {
                self.all.push(Piece::Length(*length))?;
                self.push(of, depth)
            }
            DefinedType::Alias(of) => self.push(of, depth),
            DefinedType::Stream(of) | DefinedType::Future(of) => self.push_payload(of, depth),
            DefinedType::Result {
                ok: Some(ok),
                err: Some(err),
            } => self.push_all(&[*ok, *err], depth),
            DefinedType::Result { ok: Some(of), .. } => self.push_all(&[*of], depth),
            DefinedType::Result { err, .. } => self.push_payload(err, depth),
            _ => Ok(()),
        }
    }

    fn push(&mut self, ty: &ValueType, depth: usize) -> Result<(), AllocError> {
        self.all.push(Piece::Type(*ty, depth))?;
        Ok(())
    }

    fn push_payload(&mut self, of: &Option<ValueType>, depth: usize) -> Result<(), AllocError> {
        match of {
            Some(of) => self.push_all(&[*of], depth),
            None => Ok(()),
        }
    }

    // Types with commas between them, and the bracket behind them.
    fn push_all(&mut self, types: &[ValueType], depth: usize) -> Result<(), AllocError> {
        let mut end = Piece::Close;
        for ty in types.iter().rev() {
            self.all.push(end)?;
            self.push(ty, depth)?;
            end = Piece::Comma;
        }
        Ok(())
    }
}

// How a type without name begins.
fn opening_of(content: &DefinedType) -> &'static str {
    match content {
        DefinedType::Tuple(_) => "tuple<",
        DefinedType::List(_) | DefinedType::FixedSizeList(_, _) => "list<",
        DefinedType::Map(_, _) => "map<",
        DefinedType::Option(_) => "option<",
        DefinedType::Result { ok: Some(_), .. } => "result<",
        DefinedType::Result { err: Some(_), .. } => "result<_, ",
        DefinedType::Result { .. } => "result",
        DefinedType::Stream(Some(_)) => "stream<",
        DefinedType::Stream(None) => "stream",
        DefinedType::Future(Some(_)) => "future<",
        DefinedType::Future(None) => "future",
        _ => "",
    }
}

/// WIT text that is being written, of the entries of a collection.
#[derive(Drop)]
pub struct Printer<'t> {
    pub(crate) alloc: Global,
    pub(crate) types: &'t Types,
    /// The text so far.
    pub text: String,
    pub(crate) scope: TypeScope,
    // the names of interfaces, where they aren't their identifiers
    known: IndexMap<InterfaceId, String>,
    /// The package and the version of what is written, which is named in short there.
    pub(crate) home: (&'t str, Option<&'t str>),
    indent: usize,
}

impl<'t> Printer<'t> {
    /// Nothing yet, of a collection.
    pub fn new(alloc: Global, types: &'t Types) -> Printer<'t> {
        Printer {
            alloc,
            types,
            text: String::new(alloc),
            scope: TypeScope::new(alloc),
            known: IndexMap::new(alloc),
            home: ("", None),
            indent: 0,
        }
    }

    /// Names an interface in the place of its identifier.
    pub fn name_interface(&mut self, id: InterfaceId, name: &str) -> Result<(), AllocError> {
        let name = String::from_str(self.alloc, name)?;
        self.known.insert(id, name)?;
        Ok(())
    }

    // The name of an interface of a package; empty, if it has none.
    pub(crate) fn interface_name(&self, id: InterfaceId) -> Result<String, AllocError> {
        match self.known.get(&id) {
            Some(name) => name.clone(),
            None => String::from_str(self.alloc, interface_id(self.types, id).unwrap_or("")),
        }
    }

    /// Begins a line.
    pub fn begin(&mut self) -> Result<(), AllocError> {
        for _level in 0..self.indent {
            self.text.push_str("  ")?;
        }
        Ok(())
    }

    /// Puts a text last.
    pub fn put(&mut self, text: &str) -> Result<(), AllocError> {
        self.text.push_str(text)
    }

    /// Puts a name last, behind `%` where it is a keyword.
    pub(crate) fn put_name(&mut self, name: &str) -> Result<(), AllocError> {
        if is_keyword(name) {
            self.text.push('%')?;
        }
        self.text.push_str(name)
    }

    /// Opens a brace, and ends the line.
    pub fn open(&mut self) -> Result<(), AllocError> {
        self.indent = self.indent.saturating_add(1);
        self.put(" {\n")
    }

    /// Closes a brace on a line of its own.
    pub fn close(&mut self) -> Result<(), AllocError> {
        self.indent = self.indent.saturating_sub(1);
        self.begin()?;
        self.put("}\n")
    }

    /// Puts the path to an interface last.
    pub(crate) fn put_path(&mut self, id: &str) -> Result<(), AllocError> {
        let Some(parts) = parts_of(id) else {
            return self.put_name(id);
        };
        if (parts.package, parts.version) == self.home {
            return self.put_name(parts.name);
        }
        self.put_parts(parts)
    }

    fn put_parts(&mut self, parts: IdentifierParts<'_>) -> Result<(), AllocError> {
        match parts.package.split_once(':') {
            Some((namespace, name)) => {
                self.put_name(namespace)?;
                self.put(":")?;
                self.put_name(name)?;
            }
            None => self.put_name(parts.package)?,
        }
        self.put("/")?;
        self.put_name(parts.name)?;
        match parts.version {
            Some(version) => write!(self.text, "@{version}"),
            None => Ok(()),
        }
    }

    /// Puts a type last, by its name where it has one here. Types that nest deeper than this depth
    /// are left out.
    pub(crate) fn put_type(&mut self, ty: ValueType, depth: usize) -> Result<(), AllocError> {
        let mut left = Pieces::new(self.alloc);
        left.all.push(Piece::Type(ty, depth))?;
        self.put_pieces(&mut left)
    }

    /// Puts what a type consists of last, as a type without name is written.
    pub(crate) fn put_content(
        &mut self,
        id: DefinedTypeId,
        depth: usize,
    ) -> Result<(), AllocError> {
        let mut left = Pieces::new(self.alloc);
        self.put_shape(&mut left, id, depth)?;
        self.put_pieces(&mut left)
    }

    // Puts what is left of a type last.
    fn put_pieces(&mut self, left: &mut Pieces) -> Result<(), AllocError> {
        for _piece in 0..u64::MAX {
            match left.all.pop() {
                Some(piece) => self.put_piece(left, &piece)?,
                None => break,
            }
        }
        Ok(())
    }

    fn put_piece(&mut self, left: &mut Pieces, piece: &Piece) -> Result<(), AllocError> {
        match piece {
            Piece::Type(ty, depth) => self.put_part(left, ty, *depth),
            Piece::Comma => self.put(", "),
            Piece::Close => self.put(">"),
            Piece::Length(length) => write!(self.text, ", {length}>"),
        }
    }

    fn put_part(
        &mut self,
        left: &mut Pieces,
        ty: &ValueType,
        depth: usize,
    ) -> Result<(), AllocError> {
        match ty {
            ValueType::Primitive(of) => self.put(of.desc()),
            ValueType::Own(id) => self.put_resource(*id),
            ValueType::Borrow(id) => {
                self.put("borrow<")?;
                self.put_resource(*id)?;
                self.put(">")
            }
            ValueType::Defined(id) => self.put_defined_part(left, *id, depth),
        }
    }

    fn put_defined_part(
        &mut self,
        left: &mut Pieces,
        id: DefinedTypeId,
        depth: usize,
    ) -> Result<(), AllocError> {
        if let Some(name) = self.scope.types.get(&id) {
            let name = name.clone()?;
            return self.put_name(&name);
        }
        if depth == 0 {
            return self.put("_");
        }
        self.put_shape(left, id, depth.saturating_sub(1))
    }

    /// Puts the name of a resource last.
    pub(crate) fn put_resource(&mut self, id: ResourceId) -> Result<(), AllocError> {
        if let Some(name) = self.scope.resources.get(&id) {
            let name = name.clone()?;
            return self.put_name(&name);
        }
        match resource(self.types, id) {
            Some(of) => self.put_name(&of.name),
            None => self.put("_"),
        }
    }

    // Puts how a type without name begins last; what is left of it stands among the pieces.
    fn put_shape(
        &mut self,
        left: &mut Pieces,
        id: DefinedTypeId,
        depth: usize,
    ) -> Result<(), AllocError> {
        let Some(content) = defined_type(self.types, id) else {
            return self.put("_");
        };
        match content {
            DefinedType::Record(_)
            | DefinedType::Variant(_)
            | DefinedType::Flags(_)
            | DefinedType::Enum(_) => self.put_alike(id),
            content => {
                left.push_shape(content, depth)?;
                self.put(opening_of(content))
            }
        }
    }

    // Puts the name of a type with the same tree last. A merged function may name an entry that is
    // equal to the one that its interface exports, and isn't that one.
    fn put_alike(&mut self, id: DefinedTypeId) -> Result<(), AllocError> {
        let tree = self.tree_of(id)?;
        match self.name_of(&tree)? {
            Some(name) => self.put_name(&name),
            None => self.put(&tree),
        }
    }

    // The name of a type that has this tree.
    fn name_of(&self, tree: &str) -> Result<Option<String>, AllocError> {
        for (id, name) in &self.scope.types {
            if self.has_tree(*id, tree)? {
                return Ok(Some(name.clone()?));
            }
        }
        Ok(None)
    }

    fn has_tree(&self, id: DefinedTypeId, tree: &str) -> Result<bool, AllocError> {
        let own = self.tree_of(id)?;
        Ok(own.as_str() == tree)
    }

    // The canonical text of a type.
    fn tree_of(&self, id: DefinedTypeId) -> Result<String, AllocError> {
        let mut text = String::new(self.alloc);
        let ty = Type::Value(ValueType::Defined(id));
        push_tree(self.alloc, &mut text, self.types, &ItemKind::Type(ty))?;
        Ok(text)
    }
}

// Puts the canonical text of an item last, where that stands in the collection.
fn push_tree(
    alloc: Global,
    text: &mut String,
    types: &Types,
    item: &ItemKind,
) -> Result<(), AllocError> {
    if types.contains_item(*item) {
        return push_item_text(alloc, text, types, *item);
    }
    Ok(())
}
