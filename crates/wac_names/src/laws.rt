//! Laws of the definitions, each as the contract of a function.

ghost use Rattle.std.specs.Cmp.{IsTotalOrder};
ghost use Rattle.wac_names.specs.Class.{ClassesAreDecided, ClassesTellNames, KeysAreTracks};
ghost use Rattle.wac_names.specs.NameMap.{StandsAsInternerGrows};
ghost use Rattle.wac_names.specs.Pairs.{FindsOne};
ghost use Rattle.wac_names.specs.Track.{IsEquivalenceOfNames, KeysHaveNoKey, NamesHaveOneTrack, VersionsTellNames, version_cmp};

use crate::NameMap;
use std::hash::Hash;

/// Compatibility of names is reflexive, symmetric and transitive.
pub fn compatibility_is_an_equivalence()
    ensures { IsEquivalenceOfNames }
{}

/// A name has one track key at most, and one version.
pub fn names_have_one_track()
    ensures { NamesHaveOneTrack }
{}

/// On one track equal versions mean equal names.
pub fn versions_tell_names()
    ensures { VersionsTellNames }
{}

/// The order of versions is total.
pub fn versions_are_ordered()
    ensures { IsTotalOrder version_cmp }
{}

/// The text of a track key has no track key: as a name it stands alone.
pub fn keys_have_no_key()
    ensures { KeysHaveNoKey }
{}

/// The key by which the class of a name is told is its track key.
pub fn key_of_a_name_is_its_track()
    ensures { KeysAreTracks }
{}

/// Two names are compatible exactly where their classes are equal.
pub fn classes_tell_names()
    ensures { ClassesTellNames }
{}

/// Equality of classes is decided.
pub fn classes_are_decided()
    ensures { ClassesAreDecided }
{}

/// What is found at a name is one value or none.
pub fn finds_one<V>()
    ensures { FindsOne V }
{}

/// A map stands for the same pairs after its interner has grown.
pub fn stands_as_interner_grows<K: Eq + Hash, V>(map: &NameMap<K, V>)
    ensures { StandsAsInternerGrows K.eq map.now }
{
    let _ = map;
}
