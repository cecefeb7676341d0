//! The state of merging before the first call.

ghost use Rattle.std.specs.Prelude.{◌≡◌};
ghost use Rattle.wac_aggregator_memo.specs.Memo.{memo_of};
ghost use Rattle.wac_aggregator.specs.InOrder.{IsStart};

use indexmap::IndexMap;
use std::alloc::{AllocError, Global};
use wac_aggregator_imports::ImportList;
use wac_aggregator_memo::Memo;
use wac_aggregator_taking::Merging;
use wac_component::{InterfaceId, Types};
use wac_mismatch::SubtypeCheck;
use wac_names::NameClass;

// For how many calls room is made at once, at most: the tables of a longer list grow from there.
const ROOM: usize = 256;

/// No imports, and nothing that was taken in. The own collection has this number. There is room for
/// what so many calls bring, or the first ones of many, if there was memory for it: if not, each
/// call asks for its own.
pub(crate) fn no_imports(alloc: Global, number: u64, check: SubtypeCheck, calls: usize) -> Merging
    ensures { IsStart result number }
{
    let types = Types::new(alloc, number);
    types.sound();
    let mut shared = IndexMap::new(alloc);
    let mut imports = ImportList::new(alloc);
    let mut taken = Memo::new(alloc);
    let _made = make_room(&mut shared, &mut imports, &mut taken, calls.min(ROOM));
    imports.filed();
    Merging {
        types,
        shared,
        imports,
        taken,
        copies: Memo::new(alloc),
        check,
        handed_in: None,
    }
}

// Makes room for what so many calls bring: an import each, of an interface with a function.
fn make_room(
    shared: &mut IndexMap<NameClass, InterfaceId>,
    imports: &mut ImportList,
    taken: &mut Memo,
    calls: usize,
) -> Result<(), AllocError>
    ensures shared { shared.new.entries ≡ shared.old.entries }
    ensures imports { imports.new ≡ imports.old }
    ensures taken { memo_of taken.new ≡ memo_of taken.old }
{
    shared.reserve(calls)?;
    imports.reserve(calls)?;
    taken.reserve(calls)
}
