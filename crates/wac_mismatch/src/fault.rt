//! What is wrong at the end of a path.

use super::check::SubtypeCheck;
use wac_core::{CoreFuncType, CoreRefType, CoreType};

/// What a `Fault::Count` counts the parts of.
#[derive(Clone, Copy, PartialEq, Eq, Debug)]
pub enum CountOf {
    /// The cases of an enum.
    Enum,
    /// The flags of a flags type.
    Flags,
    /// The fields of a record.
    Record,
    /// The cases of a variant.
    Variant,
    /// The items of a tuple.
    Tuple,
}

/// What a `Fault::Name` names a part of.
#[derive(Clone, Copy, PartialEq, Eq, Debug)]
pub enum NameOf {
    /// A case of an enum.
    Enum,
    /// A flag of a flags type.
    Flags,
    /// A field of a record.
    Record,
    /// A case of a variant.
    Variant,
}

/// A part of a result type.
#[derive(Clone, Copy, PartialEq, Eq, Debug)]
pub enum ResultPart {
    /// The type of a success.
    Ok,
    /// The type of a failure.
    Err,
}

/// What two core externs of one sort differ in, but for their types.
#[derive(Clone, Copy, PartialEq, Eq, Debug)]
pub enum CoreField {
    /// The limits of tables, which don't fit.
    TableLimits,
    /// Whether tables are indexed by 64-bit integers.
    Table64,
    /// Whether tables are shared.
    TableShared,
    /// Whether memories are shared.
    MemoryShared,
    /// Whether memories are indexed by 64-bit integers.
    Memory64,
    /// The limits of memories, which don't fit.
    MemoryLimits,
    /// The sizes of the pages of memories.
    PageSizeLog2,
    /// Whether globals can change.
    GlobalMutable,
    /// Whether globals are shared.
    GlobalShared,
}

/// What two types disagree in. An `expected` that stands without a `found` says that what the
/// fault speaks of is there on the expected side, and not on the other, or else the other way
/// round.
#[derive(PartialEq, Eq, Debug, Drop)]
pub enum Fault {
    /// They are of different kinds.
    Kind {
        /// The description of the expected one.
        expected: &'static str,
        /// The description of the one found.
        found: &'static str,
    },
    /// They are different resources.
    Resource {
        /// The name of the expected one.
        expected: String,
        /// The name of the one found.
        found: String,
    },
    /// One of two functions is async.
    Async {
        /// Whether the expected one is.
        expected: bool,
    },
    /// Two functions have different numbers of parameters.
    ParamCount {
        /// The number of the expected one.
        expected: usize,
        /// The number of the one found.
        found: usize,
    },
    /// Two functions name a parameter differently.
    ParamName {
        /// The index of the parameter.
        index: usize,
        /// The name in the expected one.
        expected: String,
        /// The name in the one found.
        found: String,
    },
    /// One of two functions has a result.
    FuncResult {
        /// Whether the expected one has.
        expected: bool,
    },
    /// Two lists of fixed size have different sizes.
    FixedSize,
    /// One of two result types has a type for this part.
    ResultPart {
        /// The part.
        part: ResultPart,
        /// Whether the expected one has.
        expected: bool,
    },
    /// One of two futures or streams has a payload.
    Payload {
        /// Whether the expected one has.
        expected: bool,
    },
    /// They have different numbers of parts.
    Count {
        /// What has the parts.
        of: CountOf,
        /// The number of the expected one.
        expected: usize,
        /// The number of the one found.
        found: usize,
    },
    /// They name a part differently.
    Name {
        /// What has the part.
        of: NameOf,
        /// The index of the part.
        index: usize,
        /// The name in the expected one.
        expected: String,
        /// The name in the one found.
        found: String,
    },
    /// One of two variants has a type for this case.
    CaseType {
        /// The name of the case.
        name: String,
        /// Whether the expected one has.
        expected: bool,
    },
    /// Two core functions or two tags have different types.
    CoreFunc {
        /// The type of the expected one.
        expected: CoreFuncType,
        /// The type of the one found.
        found: CoreFuncType,
    },
    /// The right side exports what the left doesn't.
    MissingExport {
        /// What doesn't export it: `instance`, `component` or `module`.
        holder: &'static str,
        /// The description of the export.
        kind: &'static str,
        /// The name of the export.
        name: String,
        /// The direction, by which it is missing or unexpected.
        check: SubtypeCheck,
    },
    /// The left world imports what the right doesn't.
    MissingImport {
        /// The description of the import.
        kind: &'static str,
        /// The name of the import.
        name: String,
        /// The direction, by which it is missing or unexpected.
        check: SubtypeCheck,
    },
    /// The left core module imports what the right doesn't.
    MissingCoreImport {
        /// The sort of the import.
        kind: &'static str,
        /// The module that it is imported from.
        module: String,
        /// Its name there.
        name: String,
        /// The direction, by which it is missing or unexpected.
        check: SubtypeCheck,
    },
    /// Two tables have elements of different types.
    TableElement {
        /// The type of the expected ones.
        expected: CoreRefType,
        /// The type of those found.
        found: CoreRefType,
    },
    /// Two globals have values of different types.
    GlobalType {
        /// The type of the expected one.
        expected: CoreType,
        /// The type of the one found.
        found: CoreType,
    },
    /// Two core externs of one sort differ in this.
    Core(CoreField),
}
