//! Frames to the parts of two entries.

ghost use Rattle.std.specs.Prelude.{◌≡◌, ◌<◌, false, Some, length, slice_get, string_bytes, IfOk};
ghost use Rattle.wac_model.specs.ItemTree.{Kind, leaf, func};
ghost use Rattle.wac_component.specs.Content.{named, names};
ghost use Rattle.wac_component.specs.Key.{Stands, defined_key, func_key, interface_key, world_key};
ghost use Rattle.wac_component.specs.Tree.{value_tree, func_tree, externs, IsResolved};
ghost use Rattle.wac_mismatch.specs.Place.{value_side, item_side};
ghost use Rattle.wac_checker_parts.specs.Parts.{side_parts, listed, IsFrameAt, IsExportFrame};
ghost use Rattle.wac_checker_parts.specs.Pairs.{HasPart, IsFrameOf, IsPairFrame, IsStanding, PairHasPart, Worlds, two_of};
ghost use Rattle.wac_component.specs.declared.items.ValueType.TheVariants.{Defined};

use indexmap::IndexMap;
use std::alloc::AllocError;
use wac_checker_parts::{
    EntryPair, PairSort, Sides, defined_at, entry_at, func_at, interface_at, world_at,
};
use wac_component::{DefinedType, DefinedTypeId, FuncTypeId, InterfaceId, Types, WorldId};
use wac_mismatch::Frame;

// The name at an index.
fn name_of<V>(entries: &IndexMap<String, V>, index: usize) -> Result<String, AllocError>
    requires { index < length entries.now.entries }
    ensures name { IfOk result (λ n. slice_get (names entries.now.entries) index ≡ Some (string_bytes n)) }
    ensures at { IfOk result (λ n. (x : V) × (slice_get (named (λ k. k) entries.now.entries) index ≡ Some (string_bytes n, x))) }
{
    Ok(entry_at(entries, index).0.clone()?)
}

// The frame to the part of a defined type at a place.
fn defined_frame(id: DefinedTypeId, types: &Types, index: usize) -> Result<Frame, AllocError>
    requires standing { Stands types.now (defined_key id) }
    requires resolved { IsResolved types.now (Defined id) }
    requires within { index < length (side_parts (value_side (value_tree types.now (Defined id)))) }
    ensures { IfOk result (IsFrameAt (value_side (value_tree types.now (Defined id))) index) }
{
    match &types[id] {
        DefinedType::Tuple(_) => Ok(Frame::Item(index)),
        DefinedType::List(_) => Ok(Frame::ListElement),
        DefinedType::FixedSizeList(_, _) => Ok(Frame::FixedSizeListElement),
        DefinedType::Map(_, _) if index == 0 => Ok(Frame::MapKey),
        DefinedType::Map(_, _) => Ok(Frame::MapValue),
        DefinedType::Option(_) => Ok(Frame::Option),
        DefinedType::Result { .. } if index == 0 => Ok(Frame::Ok),
        DefinedType::Result { .. } => Ok(Frame::Err),
        DefinedType::Variant(variant) => Ok(Frame::Case(name_of(&variant.cases, index)?)),
        DefinedType::Record(record) => Ok(Frame::Field(name_of(&record.fields, index)?)),
        DefinedType::Stream(_) => Ok(Frame::StreamPayload),
        DefinedType::Future(_) => Ok(Frame::FuturePayload),
        DefinedType::Flags(_) | DefinedType::Enum(_) | DefinedType::Alias(_) => unreachable!(),
    }
}

// The frame to the part of a function at a place.
fn func_frame(id: FuncTypeId, types: &Types, index: usize) -> Result<Frame, AllocError>
    requires { Stands types.now (func_key id) }
    ensures { (k : Kind) → IfOk result (IsFrameAt (item_side (leaf k (func (func_tree types.now id)))) index) }
{
    let params = &types[id].params;
    if index < params.len() {
        return Ok(Frame::Parameter(name_of(params, index)?));
    }
    Ok(Frame::FuncResult)
}

// The frame to the export of an interface at a place.
fn interface_frame(id: InterfaceId, types: &Types, index: usize) -> Result<Frame, AllocError>
    requires standing { Stands types.now (interface_key id) }
    requires within { index < length (listed (externs types.now (interface_key id)).exports) }
    ensures { IfOk result (IsExportFrame (externs types.now (interface_key id)).exports index) }
{
    Ok(Frame::Export(name_of(&types[id].exports, index)?))
}

// The frame to the imports of two worlds at a place of the left one, or to their exports at one
// of the right one.
fn world_frame(sides: &Sides<'_>, a: WorldId, b: WorldId, index: usize) -> Result<Frame, AllocError>
    requires left { Stands sides.now.left.now (world_key a) }
    requires right { Stands sides.now.right.now (world_key b) }
    requires within { HasPart sides.now.left.now sides.now.right.now (Worlds a b) index }
    ensures { IfOk result (IsFrameOf sides.now.left.now sides.now.right.now (Worlds a b) index) }
{
    let imports = &sides.left[a].imports;
    if index < imports.len() {
        return Ok(Frame::Import(name_of(imports, index)?));
    }
    let index = index - imports.len();
    Ok(Frame::Export(name_of(&sides.right[b].exports, index)?))
}

/// The frame to the parts of a pair at a place.
pub(crate) fn frame_to(
    sides: &Sides<'_>,
    pair: &EntryPair,
    index: usize,
) -> Result<Frame, AllocError>
    requires stands { IsStanding sides.now.left.now sides.now.right.now pair.now }
    requires straight { sides.now.swapped ≡ false }
    requires within { PairHasPart sides.now.left.now sides.now.right.now (two_of sides.now.left.now sides.now.right.now pair.now) index }
    ensures { IfOk result (IsPairFrame sides.now.left.now sides.now.right.now (two_of sides.now.left.now sides.now.right.now pair.now) index) }
{
    let sides = sides.of(pair.swapped);
    let (left, right) = (sides.left, sides.right);
    match pair.sort {
        PairSort::Defined => defined_frame(defined_at(left, pair.left), left, index),
        PairSort::Func => func_frame(func_at(left, pair.left), left, index),
        PairSort::Interface => interface_frame(interface_at(right, pair.right), right, index),
        PairSort::World => {
            let a = world_at(left, pair.left);
            world_frame(&sides, a, world_at(right, pair.right), index)
        }
        PairSort::Module => unreachable!(),
    }
}
