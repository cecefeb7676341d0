//! Types of WebAssembly components: collections of them, which type fits where another is asked
//! for, which names with versions are compatible, packages, and which component fits a target
//! world.
#![tactic(auto)]

pub mod laws;

pub use wac_aggregator::{
    AggregateAllError, AggregateError, Call, Imports, MergeFrame, TypeAggregator, aggregate_all,
};
pub use wac_checker::SubtypeChecker;
pub use wac_component::{
    DefinedType, DefinedTypeId, EntryId, Enum, ExternKind, Flags, FuncKind, FuncType, FuncTypeId,
    Interface, InterfaceId, ItemKind, ModuleError, ModuleTypeId, Record, ReplaceError, Resource,
    ResourceAlias, ResourceId, Type, Types, UsedType, ValueType, Variant, World, WorldId,
};
pub use wac_core::{
    CoreExtern, CoreFuncType, CoreRefType, CoreType, HeapType, ModuleType, has_valid_limits,
};
pub use wac_core_merge::{join_externs, join_modules, meet_externs, meet_modules};
pub use wac_interners::{Countdown, Numbers};
pub use wac_merge::{join, meet};
pub use wac_mismatch::{
    CoreField, CountOf, Fault, Frame, NameOf, Path, ResultPart, SubtypeCheck, SubtypeError,
};
pub use wac_model::PrimitiveType;
pub use wac_names::{
    NameClass, NameError, NameMap, NameMapIntern, NameMapNoIntern, are_semver_compatible,
    read_version, track_of, version_cmp,
};
pub use wac_package::{
    BorrowedKey, BorrowedPackageKey, Package, PackageKey, is_same_key, same_key,
};
pub use wac_targets::{
    ImportsNotInTarget, MismatchedTypes, MissingExports, TargetError, TargetValidationReport,
    TargetValidationResult, validate_target,
};
