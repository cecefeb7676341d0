//! Names that stand twice.

ghost use Rattle.std.specs.Prelude.{◌≡◌, ◌↔◌, IfOk, IsTrue};
ghost use Rattle.wac_wit_refusals_sites.specs.Judging.{Judges, body_syntax};
ghost use Rattle.wac_wit_refusals_sites.specs.Sites.{BodySyntax};
ghost use Rattle.wac_wit_refusals_sites.specs.TypeLists.{AreMethodsOf};
ghost use Rattle.wac_wit_refusals_types.specs.NamesTwice.{IsMethodTwice, IsNameTwice, IsSelfTwice, IsTwiceInBody};
ghost use Rattle.wac_wit_refusals_types.specs.TypeSteps.{AreMethodsTwice, AreOneMethod, HasMemberTwice, HasParamTwice, HaveOneMethodName, IsMethodAgain, MakeAlike, SaysSelfAt};
ghost use Rattle.wac_wit_scopes.specs.WitSources.{WitSources};
ghost use Rattle.wac_wit_syntax.specs.declared.tree.MethodKind.TheVariants.{Constructor, Method as AMethod};

use super::taken_names::{
    export_names, is_apart, item_names, member_names, param_names, stands_twice,
};
use std::alloc::AllocError;
use wac_wit_refusals_sites::{Body, Judge, PlacedMethod, is_at};
use wac_wit_syntax::{Field, MethodKind, Span};

/// Whether it is a name that may stand once, and stands twice.
pub fn is_name_twice(judge: &Judge<'_>, file: usize, span: Span) -> Result<bool, AllocError>
    ensures { IfOk result (λ is. IsTrue is → (of : WitSources) → Judges of judge.now → IsNameTwice of file span) }
{
    for placed in &judge.bodies_in(file)? {
        if has_name_twice(judge, &placed.body, span)? {
            return Ok(true);
        }
    }
    Ok(false)
}

fn has_name_twice<'j>(judge: &Judge<'j>, body: &Body<'j>, span: Span) -> Result<bool, AllocError>
    ensures { IfOk result (λ is. IsTrue is → (of : WitSources) → Judges of judge.now → IsTwiceInBody of (body_syntax body.now) span) }
{
    if has_item_twice(judge, body, span)? {
        return Ok(true);
    }
    if has_member_twice(judge, body, span)? {
        return Ok(true);
    }
    if has_param_twice(judge, body, span)? {
        return Ok(true);
    }
    has_method_twice(judge, body, span)
}

fn has_item_twice<'j>(judge: &Judge<'j>, body: &Body<'j>, span: Span) -> Result<bool, AllocError>
    ensures { IfOk result (λ is. IsTrue is → (of : WitSources) → Judges of judge.now → IsTwiceInBody of (body_syntax body.now) span) }
{
    if stands_twice(&item_names(judge, body)?, span) {
        return Ok(true);
    }
    Ok(stands_twice(&export_names(judge, body)?, span))
}

fn has_member_twice<'j>(judge: &Judge<'j>, body: &Body<'j>, span: Span) -> Result<bool, AllocError>
    ensures { IfOk result (λ is. IsTrue is → (of : WitSources) → Judges of judge.now → HasMemberTwice of (body_syntax body.now) span) }
{
    for ty in &judge.types_there(body)? {
        if stands_twice(&member_names(judge.alloc, &ty.def)?, span) {
            return Ok(true);
        }
    }
    Ok(false)
}

fn has_param_twice<'j>(judge: &Judge<'j>, body: &Body<'j>, span: Span) -> Result<bool, AllocError>
    ensures { IfOk result (λ is. IsTrue is → (of : WitSources) → Judges of judge.now → HasParamTwice of (body_syntax body.now) span) }
{
    for named in &judge.signatures_of(body)? {
        if stands_twice(&param_names(judge.alloc, named.signature)?, span) {
            return Ok(true);
        }
    }
    Ok(false)
}

// Whether two functions of a resource have one name, or a method says `self`.
fn has_method_twice<'j>(judge: &Judge<'j>, body: &Body<'j>, span: Span) -> Result<bool, AllocError>
    ensures { IfOk result (λ is. IsTrue is → (of : WitSources) → Judges of judge.now → IsTwiceInBody of (body_syntax body.now) span) }
{
    let methods = judge.methods_of(body)?;
    if lists_method_twice(&methods, span) {
        return Ok(true);
    }
    Ok(has_self_twice(&methods, span))
}

fn lists_method_twice(methods: &[PlacedMethod<'_>], span: Span) -> bool
    ensures { IsTrue result → (of : WitSources) (b : BodySyntax) → AreMethodsOf of b methods.now → IsMethodTwice of b span }
{
    for placed in methods {
        if is_at(placed.method.name.span, span) && is_method_again(methods, placed) {
            return true;
        }
    }
    false
}

fn is_method_again(methods: &[PlacedMethod<'_>], placed: &PlacedMethod<'_>) -> bool
    ensures { IsTrue result → IsMethodAgain methods.now placed.now }
{
    for other in methods {
        if are_methods_twice(placed, other) {
            return true;
        }
    }
    false
}

fn are_methods_twice(placed: &PlacedMethod<'_>, other: &PlacedMethod<'_>) -> bool
    ensures { IsTrue result → AreMethodsTwice placed.now other.now }
{
    is_apart(placed.item, placed.part, other.item, other.part) && are_one(placed, other)
}

fn are_one(placed: &PlacedMethod<'_>, other: &PlacedMethod<'_>) -> bool
    ensures { IsTrue result → AreOneMethod placed.now other.now }
{
    have_one_name(placed, other) && make_alike(placed, other)
}

// Whether two functions have one name, of resources that have one.
fn have_one_name(placed: &PlacedMethod<'_>, other: &PlacedMethod<'_>) -> bool
    ensures { IsTrue result → HaveOneMethodName placed.now other.now }
{
    placed.resource.name.name == other.resource.name.name
        && placed.method.name.name == other.method.name.name
}

// Whether both make the resource, or none of the two.
fn make_alike(placed: &PlacedMethod<'_>, other: &PlacedMethod<'_>) -> bool
    ensures { IsTrue result → MakeAlike placed.now other.now }
{
    if is_constructor(placed) {
        return is_constructor(other);
    }
    !is_constructor(other)
}

fn is_constructor(placed: &PlacedMethod<'_>) -> bool
    ensures { IsTrue result ↔ placed.now.method.now.kind ≡ Constructor }
{
    placed.method.kind == MethodKind::Constructor
}

fn takes_self(placed: &PlacedMethod<'_>) -> bool
    ensures { IsTrue result → placed.now.method.now.kind ≡ AMethod }
{
    placed.method.kind == MethodKind::Method
}

fn has_self_twice(methods: &[PlacedMethod<'_>], span: Span) -> bool
    ensures { IsTrue result → (of : WitSources) (b : BodySyntax) → AreMethodsOf of b methods.now → IsSelfTwice of b span }
{
    for placed in methods {
        if takes_self(placed) && says_self(&placed.method.signature.params, span) {
            return true;
        }
    }
    false
}

fn says_self(params: &[Field], span: Span) -> bool
    ensures { IsTrue result → SaysSelfAt params.now span }
{
    for param in params {
        if is_at(param.name.span, span) && param.name.name.eq_ignore_ascii_case("self") {
            return true;
        }
    }
    false
}
