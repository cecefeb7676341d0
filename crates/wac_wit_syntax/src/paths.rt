//! Reads the names of packages, and paths.

ghost use Rattle.std.specs.Prelude.{IfOk};
ghost use Rattle.wac_wit_syntax.specs.Completing.{AnyOf, Completes, NotBefore};
ghost use Rattle.wac_wit_syntax.specs.Cursors.{Reads};
ghost use Rattle.wac_wit_syntax.specs.Paths.{IsPackageName, IsPath, IsPathRest, IsSuffix};
ghost use Rattle.wac_wit_syntax.specs.Productions.{IsName};
ghost use Rattle.wac_wit_syntax.specs.declared.cursor.Cursor.{Cursor};

use super::cursor::Cursor;
use super::error::Fault;
use super::token::TokenKind;
use super::tree::{Gate, Ident, PackageName, Path};
use super::versions::read_version;

// Reads `@VERSION`, if that comes next.
fn read_suffix(cursor: &mut Cursor) -> Result<Option<Gate>, Fault>
    ensures read { IfOk result (λ version. Reads cursor.old cursor.new (IsSuffix version)) }
    ensures complete { Completes cursor.old cursor.new result (NotBefore TokenKind.At (AnyOf IsSuffix)) }
{
    if !cursor.eat(TokenKind::At) {
        return Ok(None);
    }
    Ok(Some(read_version(cursor)?))
}

/// Reads the name of a package.
pub(crate) fn read_package_name(cursor: &mut Cursor) -> Result<PackageName, Fault>
    ensures read { IfOk result (λ name. Reads cursor.old cursor.new (IsPackageName name)) }
    ensures complete { Completes cursor.old cursor.new result (NotBefore TokenKind.At (NotBefore TokenKind.Colon (AnyOf IsPackageName))) }
{
    let namespace = cursor.label("the namespace of a package, as in `ns:name`")?;
    let name = read_last_name(cursor)?;
    let version = read_suffix(cursor)?;
    let span = namespace.span.to(cursor.last_span());
    Ok(PackageName {
        namespace,
        name,
        version,
        span,
    })
}

// Reads the name of a package behind its namespace. The grammar has names of several namespaces,
// which no tool supports yet.
fn read_last_name(cursor: &mut Cursor) -> Result<Ident, Fault>
    ensures read { IfOk result (λ name. Reads cursor.old cursor.new (IsName name)) }
    ensures complete { Completes cursor.old cursor.new result (NotBefore TokenKind.Colon (AnyOf IsName)) }
{
    let name = cursor.ident("the name of a package")?;
    if cursor.sees(TokenKind::Colon) {
        let span = cursor.peek().span;
        return Err(cursor.refuse_at(span, "a package with several namespaces isn't supported"));
    }
    Ok(name)
}

/// Reads a path.
pub(crate) fn read_path(cursor: &mut Cursor) -> Result<Path, Fault>
    ensures read { IfOk result (λ path. Reads cursor.old cursor.new (IsPath path)) }
    ensures complete { Completes cursor.old cursor.new result (NotBefore TokenKind.At (NotBefore TokenKind.Colon (AnyOf IsPath))) }
{
    let first = cursor.ident("the name of an interface or a world, or a path to one")?;
    path_after(cursor, first)
}

/// Reads what follows the first name of a path.
pub(crate) fn path_after(cursor: &mut Cursor, first: Ident) -> Result<Path, Fault>
    ensures read { IfOk result (λ path. (before : Cursor) → Reads before cursor.old (IsName first) → Reads before cursor.new (IsPath path)) }
    ensures complete { Completes cursor.old cursor.new result (NotBefore TokenKind.At (NotBefore TokenKind.Colon IsPathRest)) }
{
    if !cursor.eat(TokenKind::Colon) {
        let span = first.span;
        return Ok(Path {
            package: None,
            name: first,
            span,
        });
    }
    let package_name = read_last_name(cursor)?;
    cursor.expect(TokenKind::Slash)?;
    let name = cursor.ident("the name of an interface or a world")?;
    let version = read_suffix(cursor)?;
    let span = first.span.to(cursor.last_span());
    let package = PackageName {
        span: first.span.to(package_name.span),
        namespace: first,
        name: package_name,
        version,
    };
    Ok(Path {
        package: Some(package),
        name,
        span,
    })
}
