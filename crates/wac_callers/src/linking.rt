//! A caller of `is_subtype`.

ghost use Rattle.std.specs.Prelude.{◌≢◌};
ghost use Rattle.wac_types.specs.Checker.{Answers};
ghost use Rattle.wac_types.specs.Key.{AllStand, item_keys};
ghost use Rattle.wac_types.specs.Order.{Fits};
ghost use Rattle.wac_types.specs.Tree.{item_tree};

use std::alloc::Global;
use std::collections::HashSet;
use wac_types::{ItemKind, SubtypeChecker, SubtypeError, Types};

/// Whether what one component gives will do where another asks for an item: yes exactly where it
/// fits, and else a path to where the two disagree.
pub fn link(
    alloc: Global,
    given: ItemKind,
    from: &Types,
    wanted: ItemKind,
    to: &Types,
) -> Result<(), SubtypeError>
    requires given { AllStand from.now (item_keys given) }
    requires wanted { AllStand to.now (item_keys wanted) }
    requires apart { from.now.number ≢ to.now.number }
    ensures { Answers result (Fits (item_tree from.now given) (item_tree to.now wanted)) }
{
    let mut cache = HashSet::new(alloc);
    let mut checker = SubtypeChecker::new(&mut cache);
    checker.is_subtype(alloc, given, from, wanted, to)
}
