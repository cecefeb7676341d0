//! WIT packages that are refused: each reason is named, and nothing is refused besides.

use std::alloc::{AllocError, Global};
use std::test::Fail;
use wac_types::Types;
use wac_wit::{Features, Reason, SourceFile, WitError, read_packages};

// The texts of files of one folder, and why they are refused, at one place alone.
static REFUSED: [(&[&str], Reason); 45] = [
    (&["package a:b; interface i { f: func( }"], Reason::Syntax),
    (&["package a:b;", "package a:c;"], Reason::AnotherPackage),
    (&["package a:B; interface i {}"], Reason::UpperCase),
    (
        &["package a:b; package c:d {} package c:d {}"],
        Reason::PackageTwice,
    ),
    (&["interface i {}"], Reason::Nameless),
    (
        &[
            "package a:b; use c:d/i as x; use c:d/j as x; package c:d { interface i {} interface j {} }",
        ],
        Reason::UseTwice,
    ),
    (
        &["package a:b; use c:d/i; interface i {} package c:d { interface i {} }"],
        Reason::TakenByPackage,
    ),
    (
        &["package a:b; interface i {} interface i {}"],
        Reason::MemberTwice,
    ),
    (
        &["package a:b; @since(version = 1.0.0) interface i {}"],
        Reason::Unversioned,
    ),
    (
        &["package a:b@1.0.0; @since(version = 1.1.0) interface i {}"],
        Reason::Younger,
    ),
    (
        &["package a:b@1.0.0; @unstable(feature = f) interface i { type t = u8; }"],
        Reason::TypeOfHidden,
    ),
    (
        &["package a:b; interface i { use c:d/j.{t}; }"],
        Reason::UnknownPackage,
    ),
    (
        &["package a:b; interface i { use a:b/j.{t}; } interface j { type t = u8; }"],
        Reason::OwnPackage,
    ),
    (
        &["package a:b; interface i { use j.{t}; }"],
        Reason::UnknownMember,
    ),
    (
        &["package a:b; interface i { use w.{t}; } world w {}"],
        Reason::NotInterface,
    ),
    (
        &["package a:b; world w { include i; } interface i {}"],
        Reason::NotWorld,
    ),
    (
        &["package a:b; interface i { use j.{t}; } @unstable(feature = f) interface j {}"],
        Reason::HiddenMember,
    ),
    (
        &["package a:b; use c:d/w; world v { include w; } package c:d { world w {} }"],
        Reason::ForeignWorld,
    ),
    (
        &["package a:b; interface i { use j.{t}; } interface j { use i.{t}; }"],
        Reason::Cycle,
    ),
    (
        &["package a:b; interface i { type t = u8; type T = u16; type u = T; }"],
        Reason::NameTwice,
    ),
    (
        &["package a:b; interface i { type A = u8; type a = u8; type c = a; }"],
        Reason::NameTwice,
    ),
    (
        &["package a:b; interface i { type d = u8; resource d { m: func(); } }"],
        Reason::NameTwice,
    ),
    (
        &[
            "package a:b; world u { export f: func(); } world v { include u; } world w { include v; export f: func(); }",
        ],
        Reason::NameTwice,
    ),
    (
        &["package a:b; interface i { type t = u; }"],
        Reason::UnknownType,
    ),
    (
        &["package a:b; world v { import f: func(a: t); } world w { include v with { f as g } }"],
        Reason::UnknownType,
    ),
    (
        &["package a:b; interface i { type t = u; @unstable(feature = f) type u = u8; }"],
        Reason::HiddenType,
    ),
    (
        &["package a:b; interface i { type t = u8; f: func(x: borrow<t>); }"],
        Reason::NotResource,
    ),
    (
        &["package a:b; interface i { resource r { r: func(); } }"],
        Reason::NamedAsResource,
    ),
    (
        &["package a:b; interface i { type t = list<u8, 0>; }"],
        Reason::ZeroLength,
    ),
    (
        &["package a:b; interface i { resource r; f: func(x: stream<borrow<r>>); }"],
        Reason::BorrowSent,
    ),
    (
        &["package a:b; interface i { f: func(x: stream<char>); }"],
        Reason::CharStream,
    ),
    (
        &["package a:b; interface i { resource r; f: func() -> borrow<r>; }"],
        Reason::BorrowReturned,
    ),
    (
        &["package a:b; interface i { resource r { constructor() -> u8; } }"],
        Reason::NotConstructed,
    ),
    (
        &["package a:b; interface i { use j.{t}; } interface j {}"],
        Reason::UnknownUsed,
    ),
    (
        &[
            "package a:b; interface i { use j.{t}; } interface j { @unstable(feature = f) type t = u8; }",
        ],
        Reason::HiddenUsed,
    ),
    (
        &["package a:b; interface i { type t = u; type u = t; }"],
        Reason::TypeCycle,
    ),
    (
        &[
            "package a:b; interface i { flags f { a1, a2, a3, a4, a5, a6, a7, a8, a9, a10, a11, a12, a13, a14, a15, a16, a17, a18, a19, a20, a21, a22, a23, a24, a25, a26, a27, a28, a29, a30, a31, a32, a33 } }",
        ],
        Reason::ManyFlags,
    ),
    (&["package a:b; interface i { record r {} }"], Reason::Empty),
    (
        &["package a:b; world w { include v with { a as b } } world v {}"],
        Reason::UnknownRename,
    ),
    (
        &["package a:b; world w { import f: func(); include v; } world v { import f: func(); }"],
        Reason::IncludedTwice,
    ),
    (
        &[
            "package a:b; world v { import f: func(); import g: func(); } world w { include v; include v; }",
        ],
        Reason::IncludedTwice,
    ),
    (
        &["package a:b; world w { import x: i; } interface i {}"],
        Reason::RenamedInterface,
    ),
    (
        &["package a:b; world w { import i; import i; } interface i {}"],
        Reason::SaidTwice,
    ),
    (
        &[
            "package a:b; interface i { type t = u8; } interface j { use i.{t}; } interface k { use j.{t}; } world w { export i; export k; }",
        ],
        Reason::NeededTwice,
    ),
    (
        &[
            "package a:b; interface i { type t = u8; } interface j { use i.{t}; } interface k { use j.{t}; } world v { export k; } world w { include v; export i; }",
        ],
        Reason::NeededTwice,
    ),
];

#[test]
fn each_reason_is_named(rt: HostRuntime) -> Result<(), Fail> {
    for (texts, reason) in &REFUSED {
        let found = reason_of(rt.alloc(), texts)?;
        assert!(&rt; found == Some(*reason), "{}", texts.first().unwrap_or(&""));
    }
    Ok(())
}

// Why files are refused, if one refusal is told, and names a reason.
fn reason_of(alloc: Global, texts: &[&str]) -> Result<Option<Reason>, AllocError> {
    let mut files = Vec::new(alloc);
    for text in texts {
        files.push(SourceFile {
            name: String::from_str(alloc, "a.wit")?,
            text: String::from_str(alloc, text)?,
            group: 0,
        })?;
    }
    let mut types = Types::new(alloc, 1);
    match read_packages(alloc, &mut types, &files, Features::Stable) {
        Ok(_) => Ok(None),
        Err(error) => only_reason(&error),
    }
}

fn only_reason(error: &WitError) -> Result<Option<Reason>, AllocError> {
    match error {
        WitError::Memory => Err(AllocError),
        WitError::Refused(refusals) if refusals.len() == 1 => {
            Ok(refusals.first().and_then(|it| it.reason))
        }
        _ => Ok(None),
    }
}
