//! Reads attributes.

ghost use Rattle.std.specs.Prelude.{◌≡◌, ◌≢◌, false, true, IfOk, IsOk, OnOk};
ghost use Rattle.wac_wit_syntax.specs.Behind.{HasNoGate};
ghost use Rattle.wac_wit_syntax.specs.Completing.{AnyOf, Completes, NotBefore};
ghost use Rattle.wac_wit_syntax.specs.Cursors.{Reads, ReadsBehind, source};
ghost use Rattle.wac_wit_syntax.specs.GateParts.{TakesGate};
ghost use Rattle.wac_wit_syntax.specs.Gates.{AreExclusive, AreGatesOf, IsGateField, IsGates};
ghost use Rattle.wac_wit_syntax.specs.Productions.{◌▸◌, IsKind, token_at};
ghost use Rattle.wac_wit_syntax.specs.declared.cursor.Cursor.{Cursor};
ghost use Rattle.wac_wit_syntax.specs.declared.tree.Gate.{Gate};

use super::cursor::Cursor;
use super::error::Fault;
use super::positions::Span;
use super::token::TokenKind;
use super::tree::{Gate, Gates};
use super::versions::read_version;

/// Reads the attributes of an item.
pub(crate) fn read_gates(cursor: &mut Cursor) -> Result<Gates, Fault>
    ensures read { IfOk result (λ gates. Reads cursor.old cursor.new (IsGates gates)) }
    ensures complete { Completes cursor.old cursor.new result (NotBefore TokenKind.At (AnyOf IsGates)) }
    ensures none { (token_at (source cursor.old) cursor.old.next).kind ≢ TokenKind.At → IfOk result HasNoGate }
{
    let mut gates = Gates {
        docs: cursor.peek().docs,
        since: None,
        unstable: None,
        deprecated: None,
    };
    for _turn in 0..cursor.len() {
        if !cursor.eat(TokenKind::At) {
            break;
        }
        let span = cursor.peek().span;
        read_gate(cursor, &mut gates)?;
        refuse_both(cursor, &gates, span)?;
    }
    Ok(gates)
}

/// Refuses an item that can't have attributes behind some.
pub(crate) fn refuse_gates(cursor: &mut Cursor, gates: &Gates) -> Result<(), Fault>
    ensures none { OnOk result ((gates.now.since ≡ None) × (gates.now.unstable ≡ None) × (gates.now.deprecated ≡ None)) }
    ensures rest { OnOk result (cursor.new ≡ cursor.old) }
    ensures complete { gates.now.since ≡ None → gates.now.unstable ≡ None → gates.now.deprecated ≡ None → IsOk result }
{
    if gates.since.is_some() || gates.unstable.is_some() || gates.deprecated.is_some() {
        return Err(cursor.refuse("`interface` or `world` behind an attribute"));
    }
    Ok(())
}

// Refuses two attributes that don't go together, the second of which stands at a place.
fn refuse_both(cursor: &mut Cursor, gates: &Gates, span: Span) -> Result<(), Fault>
    ensures none { OnOk result (AreExclusive gates.now) }
    ensures complete { AreExclusive gates.now → IsOk result }
    ensures rest { OnOk result (cursor.new ≡ cursor.old) }
{
    if gates.since.is_some() && gates.unstable.is_some() {
        return Err(cursor.refuse_at(span, "`@since` and `@unstable` don't go together"));
    }
    Ok(())
}

// Reads an attribute after its `@`.
fn read_gate(cursor: &mut Cursor, gates: &mut Gates) -> Result<(), Fault>
    ensures read { OnOk result ((first at : Cursor) → Reads first at (AreGatesOf gates.old) → Reads at cursor.old (IsKind TokenKind.At) → Reads first cursor.new (AreGatesOf gates.new)) }
    ensures docs { OnOk result (gates.new.docs ≡ gates.old.docs) }
    ensures complete { TakesGate cursor.old cursor.new gates.old gates.new result }
{
    match cursor.word() {
        "since" => {
            put_gate(cursor, &mut gates.since, false)?;
            Ok(())
        }
        "unstable" => {
            put_gate(cursor, &mut gates.unstable, true)?;
            Ok(())
        }
        "deprecated" => {
            put_gate(cursor, &mut gates.deprecated, false)?;
            Ok(())
        }
        _ => Err(cursor.refuse("`since`, `unstable` or `deprecated`")),
    }
}

// Reads an attribute that hasn't been there yet, from its name on.
fn put_gate(cursor: &mut Cursor, gate: &mut Option<Gate>, is_feature: bool) -> Result<(), Fault>
    ensures none { OnOk result (gate.old ≡ None) }
    ensures put { OnOk result ((g : Gate) × (gate.new ≡ Some g) × ReadsBehind cursor.old cursor.new (IsKind TokenKind.OpenParen ▸ IsGateField is_feature g ▸ IsKind TokenKind.CloseParen)) }
    ensures complete { gate.old ≡ None → Completes cursor.old cursor.new result (IsKind TokenKind.Word ▸ IsKind TokenKind.OpenParen ▸ AnyOf (IsGateField is_feature) ▸ IsKind TokenKind.CloseParen) }
{
    let span = cursor.peek().span;
    if gate.is_some() {
        return Err(cursor.refuse_at(span, "this attribute stands twice"));
    }
    cursor.take();
    cursor.expect(TokenKind::OpenParen)?;
    let field = read_field(cursor, is_feature)?;
    let field = cursor.before(field, TokenKind::CloseParen)?;
    *gate = Some(field);
    Ok(())
}

// Reads `version = VERSION` or `feature = NAME`.
fn read_field(cursor: &mut Cursor, is_feature: bool) -> Result<Gate, Fault>
    ensures read { IfOk result (λ field. Reads cursor.old cursor.new (IsGateField is_feature field)) }
    ensures complete { Completes cursor.old cursor.new result (AnyOf (IsGateField is_feature)) }
{
    if is_feature {
        read_feature(cursor)
    } else {
        read_since(cursor)
    }
}

// Reads `version = VERSION`.
fn read_since(cursor: &mut Cursor) -> Result<Gate, Fault>
    ensures read { IfOk result (λ version. Reads cursor.old cursor.new (IsGateField false version)) }
    ensures complete { Completes cursor.old cursor.new result (AnyOf (IsGateField false)) }
{
    if !cursor.eat_word("version") {
        return Err(cursor.refuse("`version = VERSION`"));
    }
    cursor.expect(TokenKind::Equals)?;
    read_version(cursor)
}

// Reads `feature = NAME`.
fn read_feature(cursor: &mut Cursor) -> Result<Gate, Fault>
    ensures read { IfOk result (λ feature. Reads cursor.old cursor.new (IsGateField true feature)) }
    ensures complete { Completes cursor.old cursor.new result (AnyOf (IsGateField true)) }
{
    if !cursor.eat_word("feature") {
        return Err(cursor.refuse("`feature = NAME`"));
    }
    cursor.expect(TokenKind::Equals)?;
    Ok(cursor.ident("the name of a feature")?.into_gate())
}
