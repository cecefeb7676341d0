//! The texts of faults.

ghost use Rattle.std.specs.Prelude.{◌≡◌, Some};
ghost use Rattle.std.specs.Fmt.{WritesOnOk};
ghost use Rattle.wac_mismatch.specs.FaultText.{async_text, func_result_text, result_part_text, payload_text, parts_text, found_parts_text, count_text, part_text, found_part_text, name_text, case_type_text, missing_export_text, missing_import_text, missing_core_import_text, core_field_text};

use super::check::SubtypeCheck;
use super::fault::{CoreField, CountOf, Fault, NameOf, ResultPart};
use std::fmt;

impl fmt::Display for Fault {
    ghost use Rattle.wac_mismatch.specs.FaultText.{fault_text};

    ghost output = { λ fault. Some (fault_text fault) };

    fn fmt<W: fmt::Write>(&self, f: &mut fmt::Formatter<W>) -> fmt::Result {
        match self {
            Fault::Kind { expected, found } => write!(f, "expected {expected}, found {found}"),
            Fault::Resource { expected, found } => write!(
                f,
                "expected resource `{expected}`, found resource `{found}`"
            ),
            Fault::Async { expected } => write_async(f, *expected),
            Fault::ParamCount { expected, found } => write!(
                f,
                "expected function with parameter count {expected}, found parameter count {found}"
            ),
            Fault::ParamName {
                index,
                expected,
                found,
            } => write!(
                f,
                "expected function parameter {index} to be named `{expected}`, found name `{found}`"
            ),
            Fault::FuncResult { expected } => write_func_result(f, *expected),
            Fault::FixedSize => write!(f, "mismatched size for fixed size list element"),
            Fault::ResultPart { part, expected } => write_result_part(f, *part, *expected),
            Fault::Payload { expected } => write_payload(f, *expected),
            Fault::Count {
                of,
                expected,
                found,
            } => write_count(f, *of, *expected, *found),
            Fault::Name {
                of,
                index,
                expected,
                found,
            } => write_name(f, *of, *index, expected, found),
            Fault::CaseType { name, expected } => write_case_type(f, name, *expected),
            Fault::CoreFunc { expected, found } => write!(f, "expected {expected}, found {found}"),
            Fault::MissingExport {
                holder,
                kind,
                name,
                check,
            } => write_missing_export(f, holder, kind, name, *check),
            Fault::MissingImport { kind, name, check } => {
                write_missing_import(f, kind, name, *check)
            }
            Fault::MissingCoreImport {
                kind,
                module,
                name,
                check,
            } => write_missing_core_import(f, kind, module, name, *check),
            Fault::TableElement { expected, found } => write!(
                f,
                "expected table element type {expected}, found {found}"
            ),
            Fault::GlobalType { expected, found } => {
                write!(f, "expected global type {expected}, found {found}")
            }
            Fault::Core(field) => write_core_field(f, *field),
        }
    }
}

fn write_async<W: fmt::Write>(f: &mut fmt::Formatter<W>, expected: bool) -> fmt::Result
    ensures { WritesOnOk W.write_str_gives f.old result (async_text expected) f.new }
{
    if expected {
        write!(f, "expected async function, found sync function")
    } else {
        write!(f, "expected sync function, found async function")
    }
}

fn write_func_result<W: fmt::Write>(f: &mut fmt::Formatter<W>, expected: bool) -> fmt::Result
    ensures { WritesOnOk W.write_str_gives f.old result (func_result_text expected) f.new }
{
    if expected {
        write!(
            f,
            "expected function with a result, found function without a result"
        )
    } else {
        write!(
            f,
            "expected function without a result, found function with a result"
        )
    }
}

fn write_result_part<W: fmt::Write>(
    f: &mut fmt::Formatter<W>,
    part: ResultPart,
    expected: bool,
) -> fmt::Result
    ensures { WritesOnOk W.write_str_gives f.old result (result_part_text part expected) f.new }
{
    match (part, expected) {
        (ResultPart::Ok, true) => write!(f, "expected an `ok` for result type"),
        (ResultPart::Ok, false) => write!(f, "expected no `ok` for result type"),
        (ResultPart::Err, true) => write!(f, "expected an `err` for result type"),
        (ResultPart::Err, false) => write!(f, "expected no `err` for result type"),
    }
}

fn write_payload<W: fmt::Write>(f: &mut fmt::Formatter<W>, expected: bool) -> fmt::Result
    ensures { WritesOnOk W.write_str_gives f.old result (payload_text expected) f.new }
{
    if expected {
        write!(f, "expected a type payload, found none")
    } else {
        write!(f, "expected no type payload, found one")
    }
}

impl CountOf {
    // Says what is counted, before the expected number.
    fn parts(self) -> &'static str
        ensures { result.now ≡ parts_text self }
    {
        match self {
            CountOf::Enum => "an enum type case count of",
            CountOf::Flags => "a flags type flag count of",
            CountOf::Record => "a record field count of",
            CountOf::Variant => "a variant case count of",
            CountOf::Tuple => "a tuple of size",
        }
    }

    // Says it again, before the number found.
    fn found_parts(self) -> &'static str
        ensures { result.now ≡ found_parts_text self }
    {
        match self {
            CountOf::Enum | CountOf::Flags | CountOf::Record | CountOf::Variant => "a count of",
            CountOf::Tuple => "a tuple of size",
        }
    }
}

fn write_count<W: fmt::Write>(
    f: &mut fmt::Formatter<W>,
    of: CountOf,
    expected: usize,
    found: usize,
) -> fmt::Result
    ensures { WritesOnOk W.write_str_gives f.old result (count_text of expected found) f.new }
{
    let parts = of.parts();
    let found_parts = of.found_parts();
    write!(
        f,
        "expected {parts} {expected}, found {found_parts} {found}"
    )
}

impl NameOf {
    // Says what is named, before its index.
    fn part(self) -> &'static str
        ensures { result.now ≡ part_text self }
    {
        match self {
            NameOf::Enum => "enum case",
            NameOf::Flags => "flag",
            NameOf::Record => "record field",
            NameOf::Variant => "variant case",
        }
    }

    // Says it again, before the name found.
    fn found_part(self) -> &'static str
        ensures { result.now ≡ found_part_text self }
    {
        match self {
            NameOf::Enum => "an enum case",
            NameOf::Flags => "a flag",
            NameOf::Record => "a field",
            NameOf::Variant => "a case",
        }
    }
}

fn write_name<W: fmt::Write>(
    f: &mut fmt::Formatter<W>,
    of: NameOf,
    index: usize,
    expected: &str,
    found: &str,
) -> fmt::Result
    ensures { WritesOnOk W.write_str_gives f.old result (name_text of index expected.now found.now) f.new }
{
    let part = of.part();
    let found_part = of.found_part();
    write!(
        f,
        "expected {part} {index} to be named `{expected}`, found {found_part} named `{found}`"
    )
}

fn write_case_type<W: fmt::Write>(
    f: &mut fmt::Formatter<W>,
    name: &str,
    expected: bool,
) -> fmt::Result
    ensures { WritesOnOk W.write_str_gives f.old result (case_type_text name.now expected) f.new }
{
    if expected {
        write!(
            f,
            "expected variant case `{name}` to be typed, found an untyped case"
        )
    } else {
        write!(
            f,
            "expected variant case `{name}` to be untyped, found a typed case"
        )
    }
}

fn write_missing_export<W: fmt::Write>(
    f: &mut fmt::Formatter<W>,
    holder: &str,
    kind: &str,
    name: &str,
    check: SubtypeCheck,
) -> fmt::Result
    ensures { WritesOnOk W.write_str_gives f.old result (missing_export_text holder.now kind.now name.now check) f.new }
{
    match check {
        SubtypeCheck::Covariant => write!(f, "{holder} is missing expected {kind} export `{name}`"),
        SubtypeCheck::Contravariant => {
            write!(f, "{holder} has unexpected {kind} export `{name}`")
        }
    }
}

fn write_missing_import<W: fmt::Write>(
    f: &mut fmt::Formatter<W>,
    kind: &str,
    name: &str,
    check: SubtypeCheck,
) -> fmt::Result
    ensures { WritesOnOk W.write_str_gives f.old result (missing_import_text kind.now name.now check) f.new }
{
    match check {
        SubtypeCheck::Covariant => {
            write!(f, "component is missing expected {kind} import `{name}`")
        }
        SubtypeCheck::Contravariant => {
            write!(f, "component has unexpected import {kind} `{name}`")
        }
    }
}

fn write_missing_core_import<W: fmt::Write>(
    f: &mut fmt::Formatter<W>,
    kind: &str,
    from: &str,
    name: &str,
    check: SubtypeCheck,
) -> fmt::Result
    ensures { WritesOnOk W.write_str_gives f.old result (missing_core_import_text kind.now from.now name.now check) f.new }
{
    match check {
        SubtypeCheck::Covariant => {
            write!(
                f,
                "module is missing expected {kind} import `{from}::{name}`"
            )
        }
        SubtypeCheck::Contravariant => {
            write!(f, "module has unexpected {kind} import `{from}::{name}`")
        }
    }
}

fn write_core_field<W: fmt::Write>(f: &mut fmt::Formatter<W>, field: CoreField) -> fmt::Result
    ensures { WritesOnOk W.write_str_gives f.old result (core_field_text field) f.new }
{
    match field {
        CoreField::TableLimits => write!(f, "mismatched table limits"),
        CoreField::Table64 => write!(f, "mismatched table64 flag for tables"),
        CoreField::TableShared => write!(f, "mismatched shared flag for tables"),
        CoreField::MemoryShared => write!(f, "mismatched shared flag for memories"),
        CoreField::Memory64 => write!(f, "mismatched memory64 flag for memories"),
        CoreField::MemoryLimits => write!(f, "mismatched memory limits"),
        CoreField::PageSizeLog2 => write!(f, "mismatched page_size_log2 for memories"),
        CoreField::GlobalMutable => write!(f, "mismatched mutable flag for globals"),
        CoreField::GlobalShared => write!(f, "mismatched shared flag for globals"),
    }
}
