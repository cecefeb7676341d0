//! The meets of items, asked for one time after another.

ghost use Rattle.std.specs.Prelude.{◌++◌, ◌∷◌, [], IfOk};
ghost use Rattle.std.specs.Option.{option_map};
ghost use Rattle.wac_bounds.specs.Bounds.{IsMeetIfAny};
ghost use Rattle.wac_component.specs.Collection.{Collection};
ghost use Rattle.wac_component.specs.Growth.{Extends};
ghost use Rattle.wac_component.specs.Key.{AllStand, item_keys};
ghost use Rattle.wac_component.specs.Sound.{IsSound};
ghost use Rattle.wac_component.specs.Tree.{item_tree};
ghost use Rattle.wac_merge.specs.Known.{KnowsMeets};

use crate::memo::BoundMemo;
use crate::steps::tell;
use std::alloc::{AllocError, Global};
use wac_component::{ItemKind, Types};

/// What is known of which items of a collection have a meet: two entries are met once, however
/// often they are asked about.
pub struct Meets {
    memo: BoundMemo,
}

// By hand, as of `Types`.
impl Drop for Meets {
    fn drop(self) {
        let Meets { memo: _ } = self;
    }
}

impl Meets {
    /// Nothing is known.
    pub fn new(alloc: Global) -> Meets
        ensures { (c : Collection) → KnowsMeets c c result }
    {
        Meets {
            memo: BoundMemo::new(alloc),
        }
    }

    /// The greatest item that fits where either of two items is asked for, if there is one, of items
    /// that stood in the collection before anything was asked. Entries are only added.
    pub fn meet(
        &mut self,
        types: &mut Types,
        a: ItemKind,
        b: ItemKind,
    ) -> Result<Option<ItemKind>, AllocError>
        requires known { (c : Collection) × IsSound c × AllStand c (item_keys a ++ item_keys b) × KnowsMeets c types.old self.old }
        ensures meet { IfOk result (λ m. IsMeetIfAny (option_map (item_tree types.new) m) (item_tree types.old a ∷ item_tree types.old b ∷ [])) }
        ensures known { (c : Collection) → IsSound c → AllStand c (item_keys a ++ item_keys b) → KnowsMeets c types.old self.old → KnowsMeets c types.new self.new }
        ensures grows { Extends types.old types.new }
    {
        let mut steps = Vec::new(self.memo.alloc);
        tell(types, &mut self.memo, &mut steps, a, b)
    }
}
