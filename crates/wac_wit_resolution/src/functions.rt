//! Functions.

use super::builder::Builder;
use super::shapes::FuncShape;
use std::alloc::{AllocError, Global};
use wac_component::{DefinedType, FuncTypeId, ItemKind, ResourceId, Type, Types, ValueType};
use wac_wit_elaboration::Meaning;
use wac_wit_names::{Fault, Reason, Taken, joined};
use wac_wit_syntax::{Field, Ident, Method, MethodKind, Signature, Span, TypeExpr};

impl Builder<'_> {
    /// Takes in a function.
    pub(crate) fn add_func(&mut self, name: &Ident, of: &Signature) -> Result<(), Fault> {
        self.take_name(&name.name, name.span)?;
        let id = self.free_func(name, of)?;
        self.items.insert(name.name.clone()?, ItemKind::Func(id))?;
        Ok(())
    }

    /// The entry of a function by itself.
    pub(crate) fn free_func(&mut self, name: &Ident, of: &Signature) -> Result<FuncTypeId, Fault> {
        self.item_span = name.span;
        let mut shape = self.shape_of(of);
        let mut seen = Taken::new(self.alloc);
        self.push_params(&mut shape, &mut seen, &of.params)?;
        shape.returns = self.returned(&of.returns)?;
        self.function(shape)
    }

    // A function without parameters and result.
    fn shape_of(&self, of: &Signature) -> FuncShape {
        FuncShape {
            names: Vec::new(self.alloc),
            params: Vec::new(self.alloc),
            returns: None,
            is_async: of.is_async,
        }
    }

    fn push_params(
        &mut self,
        shape: &mut FuncShape,
        seen: &mut Taken,
        params: &[Field],
    ) -> Result<(), Fault> {
        for param in params {
            if let Some(ty) = self.member_value(seen, &param.name, &param.ty)? {
                shape.names.push(param.name.name.clone()?)?;
                shape.params.push(ty)?;
            }
        }
        Ok(())
    }

    // The type of a result, in which no borrowed handle may stand.
    fn returned(&mut self, ty: &Option<TypeExpr>) -> Result<Option<ValueType>, Fault> {
        let Some(ty) = ty else {
            return Ok(None);
        };
        let ty = self.value_of(ty)?;
        if !self.types.contains(Type::Value(ty)) {
            return Err(Fault::Missing);
        }
        if ty.contains_borrow(self.types) {
            return Err(
                self.refuse(
                    self.item_span,
                    "this function returns a borrowed handle, which is lent to a callee alone",
                )
                .because(Reason::BorrowReturned),
            );
        }
        Ok(Some(ty))
    }

    /// Takes in the functions of a resource.
    pub(crate) fn add_methods(
        &mut self,
        resource: &Ident,
        methods: &[Method],
    ) -> Result<(), Fault> {
        if !self.is_resource(resource) {
            // it was refused, and another type has the name, or none
            return Ok(());
        }
        for method in methods {
            if self.is_there(&method.gates) {
                let done = self.add_method(resource, method);
                self.refusals.go_on(done)?;
            }
        }
        Ok(())
    }

    fn is_resource(&self, name: &Ident) -> bool {
        match self.names.types.get(name.name.as_str()) {
            Some(named) => matches!(named.meaning, Meaning::Resource(_)),
            None => false,
        }
    }

    fn add_method(&mut self, resource: &Ident, method: &Method) -> Result<(), Fault> {
        let Meaning::Resource(id) = self.named(resource)?.meaning else {
            return Err(Fault::Missing);
        };
        self.item_span = method.name.span;
        self.take_method(resource, method)?;
        let text = self.method_name(&resource.name, method)?;
        let of = self.method_of(id, method)?;
        self.items.insert(text, ItemKind::Func(of))?;
        Ok(())
    }

    // Takes the name of a function of a resource. A method and a static function may not have one
    // name, nor that of the resource; they may differ in case alone.
    fn take_method(&mut self, resource: &Ident, method: &Method) -> Result<(), Fault> {
        let (of, name) = (resource.name.as_str(), method.name.name.as_str());
        let span = method.name.span;
        let is_constructor = method.kind == MethodKind::Constructor;
        if !is_constructor && of.eq_ignore_ascii_case(name) {
            return Err(
                self.refuse(span, "a function of a resource has another name than that")
                    .because(Reason::NamedAsResource),
            );
        }
        let before = if is_constructor { "[constructor]" } else { "" };
        let key = name_in(self.alloc, before, of, method)?;
        self.taken
            .take_exactly(self.site.catalog, self.site.node.file, key, name, span)
    }

    fn method_name(&self, of: &str, method: &Method) -> Result<String, AllocError> {
        let before = match method.kind {
            MethodKind::Constructor => "[constructor]",
            MethodKind::Method => "[method]",
            MethodKind::Static => "[static]",
        };
        name_in(self.alloc, before, of, method)
    }

    fn method_of(&mut self, id: ResourceId, method: &Method) -> Result<FuncTypeId, Fault> {
        let of = &method.signature;
        let mut shape = self.shape_of(of);
        let mut seen = Taken::new(self.alloc);
        if method.kind == MethodKind::Method {
            self.push_self(&mut shape, &mut seen, id, method.name.span)?;
        }
        self.push_params(&mut shape, &mut seen, &of.params)?;
        shape.returns = self.returned_by(id, method)?;
        self.function(shape)
    }

    // The parameter that a method has beside those that it says.
    fn push_self(
        &self,
        shape: &mut FuncShape,
        seen: &mut Taken,
        id: ResourceId,
        span: Span,
    ) -> Result<(), Fault> {
        seen.take(self.site.catalog, self.site.node.file, "self", span)?;
        shape.names.push(String::from_str(self.alloc, "self")?)?;
        shape.params.push(ValueType::Borrow(id))?;
        Ok(())
    }

    fn returned_by(&mut self, id: ResourceId, method: &Method) -> Result<Option<ValueType>, Fault> {
        let returns = self.returned(&method.signature.returns)?;
        if method.kind != MethodKind::Constructor {
            return Ok(returns);
        }
        Ok(Some(self.constructed(id, method, returns)?))
    }

    // What a constructor returns: the resource, or a result that has it.
    fn constructed(
        &self,
        id: ResourceId,
        method: &Method,
        returns: Option<ValueType>,
    ) -> Result<ValueType, Fault> {
        let ty = returns.unwrap_or(ValueType::Own(id));
        if gives(self.types, &ty, &ValueType::Own(id)) {
            return Ok(ty);
        }
        Err(
            self.refuse(
                returned_span(method),
                "a constructor returns its resource, or `result` with it",
            )
            .because(Reason::NotConstructed),
        )
    }
}

// The name of a function of a resource behind that of the resource; a constructor has none.
fn name_in(alloc: Global, before: &str, of: &str, method: &Method) -> Result<String, AllocError> {
    if method.kind == MethodKind::Constructor {
        return joined(alloc, before, of, "");
    }
    joined(
        alloc,
        &joined(alloc, before, of, ".")?,
        &method.name.name,
        "",
    )
}

// Where the type stands that a constructor returns; of a result what it has.
fn returned_span(method: &Method) -> Span {
    let span = match &method.signature.returns {
        Some(TypeExpr::Result(Some(ok), _)) => span_of(ok),
        Some(ty) => span_of(ty),
        None => None,
    };
    span.unwrap_or(method.name.span)
}

// Where a type stands, if the tree has that.
fn span_of(ty: &TypeExpr) -> Option<Span> {
    match ty {
        TypeExpr::Primitive(_, span)
        | TypeExpr::FixedList(_, _, span)
        | TypeExpr::Tuple(_, span)
        | TypeExpr::Map(_, _, span) => Some(*span),
        TypeExpr::Name(name) | TypeExpr::Own(name) | TypeExpr::Borrow(name) => Some(name.span),
        _ => None,
    }
}

// Whether a type is that of a handle, or a result that has it.
fn gives(types: &Types, ty: &ValueType, own: &ValueType) -> bool {
    let ValueType::Defined(id) = ty else {
        return *ty == *own;
    };
    if !types.contains(Type::Value(ValueType::Defined(*id))) {
        return false;
    }
    match &types[*id] {
        DefinedType::Result {
            ok: Some(of),
            err: _,
        } => *of == *own,
        _ => false,
    }
}
