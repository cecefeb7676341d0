//! Laws of keys and of definitions, each as the contract of a function.

ghost use Rattle.std.specs.Prelude.{◌≡◌, ◌↔◌, true};
ghost use Rattle.std.specs.declared.cmp.Ordering.{Ordering};
ghost use Rattle.wac_package.specs.Definitions.{DefinitionsAreDetermined};
ghost use Rattle.wac_package.specs.Key.{KeysAreDecided, KeysAreOrdered, borrowed_content};
ghost use Rattle.wac_package.specs.declared.keys.PackageKey.{PackageKey};
ghost use Rattle.wac_package.specs.declared.keys.BorrowedPackageKey.{BorrowedPackageKey};

use crate::{BorrowedPackageKey, PackageKey};
use std::hash::Hash;

/// Two keys are equal exactly where their names and their versions are.
pub fn equality_of_keys_is_decided()
    ensures { KeysAreDecided }
{}

/// The order of keys is total, and two keys tie exactly where they are equal.
pub fn keys_are_ordered()
    ensures { KeysAreOrdered }
{}

/// Equal keys hash equally, and so do a key and a borrowed one of the same name and version.
pub fn equal_keys_hash_equally()
    ensures owned { (j k : PackageKey) → ⟦<PackageKey as PartialEq>⟧.eq j k ≡ true → ⟦<PackageKey as Hash>⟧.hash_input j ≡ ⟦<PackageKey as Hash>⟧.hash_input k }
    ensures borrowed { (j : PackageKey) (k : BorrowedPackageKey) → j ≡ borrowed_content k → ⟦<PackageKey as Hash>⟧.hash_input j ≡ ⟦<BorrowedPackageKey<'static> as Hash>⟧.hash_input k }
{}

/// Two keys are equal exactly where their order ties.
pub fn order_of_keys_agrees_with_equality()
    ensures { (j k : PackageKey) → (⟦<PackageKey as Ord>⟧.cmp j k ≡ Ordering.Equal) ↔ (⟦<PackageKey as PartialEq>⟧.eq j k ≡ true) }
{}

/// The exports of a world have one list of definitions.
pub fn definitions_are_determined()
    ensures { DefinitionsAreDetermined }
{}
