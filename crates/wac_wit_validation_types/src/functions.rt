//! Functions.

ghost use Rattle.std.specs.Prelude.{◌≡◌, IfSome, IsTrue, [], ◌++◌, codes, string_bytes};
ghost use Rattle.std.specs.Option.{option_map};
ghost use Rattle.wac_component.specs.Content.{func_content, named};
ghost use Rattle.wac_component.specs.Tree.{value_tree, root_name, func_tree, func_content_tree};
ghost use Rattle.wac_component.specs.declared.items.ValueType.TheVariants.{Borrow, Own};
ghost use Rattle.wac_wit_validation_types.specs.Denoted.{Setting};
ghost use Rattle.wac_wit_validation_types.specs.Functions.{IsConstructed, IsFuncOf, IsMade, IsMethodOf, self_param};
ghost use Rattle.wac_wit_validation_types.specs.Reading.{StandForTypes};
ghost use Rattle.wac_wit_syntax.specs.declared.tree.MethodKind.TheVariants as kind;

use super::names::NamedTypes;
use indexmap::map::Slice;
use wac_component::{FuncType, FuncTypeId, ResourceId, Type, ValueType};
use wac_wit_syntax::{Method, MethodKind, Signature, TypeExpr};

impl<'n> NamedTypes<'n> {
    /// Whether a function is the one that is written.
    pub fn is_func(&self, signature: &Signature, id: &FuncTypeId) -> bool
        ensures { IsTrue result → (s : Setting) → StandForTypes self.now s → IsFuncOf s signature.now [] (λ r. r) (func_tree self.now.types.now id.now) }
    {
        let Some(func) = self.func(id) else {
            return false;
        };
        func.is_async == signature.is_async
            && self.are_fields(&signature.params, func.params.as_slice())
            && self.is_value_if_any(&signature.returns, &func.result)
    }

    /// Whether a function is the one that is written of a resource.
    pub(crate) fn is_method(&self, method: &Method, resource: &ResourceId, id: &FuncTypeId) -> bool
        ensures { let c = self.now.types.now in IsTrue result → (s : Setting) → StandForTypes self.now s → IsMethodOf s method.now (root_name c resource.now) (func_tree c id.now) }
    {
        let Some(func) = self.func(id) else {
            return false;
        };
        let Some(params) = self.own_params(method.kind, resource, func.params.as_slice()) else {
            return false;
        };
        let signature = &method.signature;
        func.is_async == signature.is_async
            && self.are_fields(&signature.params, params)
            && self.is_made(method.kind, resource, &signature.returns, &func.result)
    }

    fn func(&self, id: &FuncTypeId) -> Option<&'n FuncType>
        ensures { IfSome result (λ f. func_tree self.now.types.now id.now ≡ func_content_tree self.now.types.now (func_content f.now)) }
    {
        if !self.types.contains(Type::Func(*id)) {
            return None;
        }
        Some(&self.types[*id])
    }

    // The parameters of a function of a resource, but for the resource that a method takes first.
    fn own_params<'f>(
        &self,
        kind: MethodKind,
        resource: &ResourceId,
        params: Slice<'f, String, ValueType>,
    ) -> Option<Slice<'f, String, ValueType>>
        ensures { let c = self.now.types.now in IfSome result (λ own. named (value_tree c) params.entry ≡ self_param kind (root_name c resource.now) ++ named (value_tree c) own) }
    {
        match kind {
            MethodKind::Method => self.params_behind_self(resource, params),
            MethodKind::Static | MethodKind::Constructor => Some(params),
        }
    }

    fn params_behind_self<'f>(
        &self,
        resource: &ResourceId,
        params: Slice<'f, String, ValueType>,
    ) -> Option<Slice<'f, String, ValueType>>
        ensures { let c = self.now.types.now in IfSome result (λ own. named (value_tree c) params.entry ≡ self_param kind.Method (root_name c resource.now) ++ named (value_tree c) own) }
    {
        let ((name, ty), own) = params.split_first()?;
        if is_self(resource, name, ty) {
            Some(own)
        } else {
            None
        }
    }

    // Whether a function of a resource returns what is written, or makes the resource.
    fn is_made(
        &self,
        kind: MethodKind,
        resource: &ResourceId,
        returns: &Option<TypeExpr>,
        of: &Option<ValueType>,
    ) -> bool
        ensures { let c = self.now.types.now in IsTrue result → (s : Setting) → StandForTypes self.now s → IsMade s kind (root_name c resource.now) returns.now (option_map (value_tree c) of.now) }
    {
        match kind {
            MethodKind::Constructor => self.is_constructed(resource, returns, of),
            MethodKind::Method | MethodKind::Static => self.is_value_if_any(returns, of),
        }
    }

    fn is_constructed(
        &self,
        resource: &ResourceId,
        returns: &Option<TypeExpr>,
        of: &Option<ValueType>,
    ) -> bool
        ensures { let c = self.now.types.now in IsTrue result → (s : Setting) → StandForTypes self.now s → IsConstructed s (root_name c resource.now) returns.now (option_map (value_tree c) of.now) }
    {
        match (returns, of) {
            (Some(ty), Some(of)) => self.is_value(ty, of),
            (None, Some(of)) => is_own_handle(resource, of),
            _ => false,
        }
    }
}

fn is_own_handle(resource: &ResourceId, ty: &ValueType) -> bool
    ensures { IsTrue result → ty.now ≡ Own resource.now }
{
    *ty == ValueType::Own(*resource)
}

// Whether a parameter is that of the resource that a method takes.
fn is_self(resource: &ResourceId, name: &String, ty: &ValueType) -> bool
    ensures name { IsTrue result → string_bytes name.now ≡ codes "self" }
    ensures ty { IsTrue result → ty.now ≡ Borrow resource.now }
{
    name.as_str() == "self" && *ty == ValueType::Borrow(*resource)
}
