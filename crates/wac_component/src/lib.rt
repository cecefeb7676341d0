//! The types of WebAssembly components, in collections whose ids always lead to an entry and never
//! back to where they started.
#![tactic(auto)]

pub mod borrows;
pub mod collection;
pub mod defined;
pub mod desc;
pub mod functions;
pub mod ids;
pub mod implicit;
pub mod interfaces;
pub mod items;
pub mod laws;
mod parts;
pub mod resources;
pub mod valid;
pub mod visits;
pub mod worlds;

pub use collection::{
    EntryId, ModuleError, ReplaceError, Types, contents_ids, id_at, items_ids, lead_to, put_back,
    put_ids, take_out,
};
pub use defined::{DefinedType, Enum, Flags, Record, Variant};
pub use functions::{FuncKind, FuncType};
pub use ids::{DefinedTypeId, FuncTypeId, InterfaceId, ModuleTypeId, ResourceId, WorldId};
pub use implicit::TargetError;
pub use interfaces::{Interface, UsedType};
pub use items::{ItemKind, Type, ValueType};
pub use resources::{Resource, ResourceAlias};
pub use worlds::{ExternKind, World};
