//! Maps from names to values, which are read by track.

ghost use Rattle.std.specs.Prelude.{◌≡◌, ◌<◌, ◌^◌, length, List, [], true, IfOk, OnOk, OnErr};
ghost use Rattle.std.specs.Ordering.{is_lt};
ghost use Rattle.std.specs.Borrow.{sem};
ghost use Rattle.std.specs.Map.Iter.{ShowsInOrder, ShowsValuesInOrder, deref_pair};
ghost use Rattle.std.specs.Option.{option_copied, option_copied_mut};
ghost use Rattle.semver.specs.Identifiers.{parts_of};
ghost use Rattle.wac_model.specs.Text.{Text};
ghost use Rattle.wac_names.specs.Interner.{ExtendsInterning, GrowsOnlyAt, Interning, IsKnown, IsLawful};
ghost use Rattle.wac_names.specs.Lends.{lends_value};
ghost use Rattle.wac_names.specs.NameMap.{AreEntriesOf, InsertAnswers, IsNameOrKey, OnTwice, SameDefinitions, Represents, definitions, value_with_key};
ghost use Rattle.wac_names.specs.Pairs.{IsFound, value_at, with_pair};
ghost use Rattle.wac_names.specs.Placing.{NotesName, NotesVersion, PlaceAnswers, Places, SameMaps};
ghost use Rattle.wac_names.specs.Track.{HasTrackKey, version_cmp};

use crate::error::NameError;
use crate::intern::NameMapIntern;
use crate::track::tracked;
use indexmap::IndexMap;
use indexmap::map::Iter;
use semver::Version;
use std::alloc::{AllocError, Global};
use std::cmp::Ordering;
use std::hash::Hash;

/// A map from names to values, in which a name that is not there finds the
/// greatest version on its track.
///
/// It stands for a list of pairs of a name and a value under an interner's function: use one
/// interner with it. What an interner is given later changes nothing in the map.
#[derive(Debug)]
pub struct NameMap<K: Eq + Hash, V> {
    definitions: IndexMap<K, V>,
    // For each track the key of the name with the greatest version, and that version.
    alternate_lookups: IndexMap<K, (K, Version)>,
}

// By hand, since the map is large and hides its fields: who drops one has not to spell them out.
impl<K: Eq + Hash + Drop, V: Drop> Drop for NameMap<K, V> {
    fn drop(self) {
        let NameMap {
            definitions: _,
            alternate_lookups: _,
        } = self;
    }
}

// Whether a version comes before another.
fn is_before(a: &Version, b: &Version) -> bool
    ensures { result ≡ is_lt (version_cmp (parts_of a.now) (parts_of b.now)) }
{
    a.cmp(b) == Ordering::Less
}

impl<K: Eq + Hash, V> NameMap<K, V> {
    /// An empty map.
    pub fn new(alloc: Global) -> NameMap<K, V>
        ensures empty { (f : Interning K) → Represents K.eq f result [] }
    {
        NameMap {
            definitions: IndexMap::new(alloc),
            alternate_lookups: IndexMap::new(alloc),
        }
    }

    /// The keys of the names with their values, in order. A name that was shadowed keeps its place.
    pub fn raw_iter(&self) -> Iter<'_, K, V>
        ensures entries { result ≡ definitions self.now }
        ensures pairs { (f : Interning K) (ps : List (Text × V)) → Represents K.eq f self.now ps → AreEntriesOf f ps result }
        ensures fits { length result < 2 ^ 63 }
        ensures runs { ShowsInOrder (deref_pair {K = K} {X = V}) }
        ensures values_run { ShowsValuesInOrder (deref_pair {K = K} {X = V}) }
    {
        self.definitions.iter()
    }
}

// Notes that the name with this key has this version on a track,
// unless a greater one is noted there.
fn note<K: Eq + Hash + Drop>(
    notes: &mut IndexMap<K, (K, Version)>,
    track: K,
    key: K,
    version: Version,
) -> Result<(), AllocError>
    ensures ok { OnOk result (NotesVersion K.eq notes.old.entries notes.new.entries track (key, version)) }
    ensures err { OnErr result (notes.new.entries ≡ notes.old.entries) }
{
    if let Some((_, noted)) = notes.get(&track) {
        if is_before(&version, noted) {
            return Ok(());
        }
    }
    notes.insert(track, (key, version))?;
    Ok(())
}

// Notes a name that has this key, where it stands on a track.
fn note_name<K: Clone + Eq + Hash + Drop, I: NameMapIntern<Key = K>>(
    notes: &mut IndexMap<K, (K, Version)>,
    alloc: Global,
    name: &str,
    cx: &mut I,
    key: &K,
) -> Result<(), AllocError>
    requires clones { (j k : K) → K.is_clone j k → K.eq j k ≡ true }
    ensures track { OnOk result ((track : Text) → HasTrackKey name.now track → IsKnown (I.is_key cx.new) track) }
    ensures extends { ExtendsInterning (I.is_key cx.old) (I.is_key cx.new) }
    ensures grows { GrowsOnlyAt (I.is_key cx.old) (I.is_key cx.new) (HasTrackKey name.now) }
    ensures ok { OnOk result (NotesName K.eq (I.is_key cx.new) name.now key.now notes.old.entries notes.new.entries) }
    ensures err { OnErr result (notes.new.entries ≡ notes.old.entries) }
{
    let Some((track, version)) = tracked(alloc, name)? else {
        return Ok(());
    };
    let track_key = cx.intern(alloc, track)?;
    let lead = key.clone()?;
    note(notes, track_key, lead, version)
}

impl<K: Clone + Eq + Hash + Drop, V: Drop> NameMap<K, V> {
    // Interns a name and its track, and then defines the name.
    fn place<I: NameMapIntern<Key = K>>(
        &mut self,
        name: &str,
        cx: &mut I,
        allow_shadowing: bool,
        item: V,
    ) -> Result<K, NameError>
        requires clones { (j k : K) → K.is_clone j k → K.eq j k ≡ true }
        ensures key { IfOk result (λ k. I.is_key cx.new name.now k ≡ true) }
        ensures track { OnOk result ((track : Text) → HasTrackKey name.now track → IsKnown (I.is_key cx.new) track) }
        ensures extends { ExtendsInterning (I.is_key cx.old) (I.is_key cx.new) }
        ensures grows { GrowsOnlyAt (I.is_key cx.old) (I.is_key cx.new) (IsNameOrKey name.now) }
        ensures twice { OnTwice result (GrowsOnlyAt (I.is_key cx.old) (I.is_key cx.new) (λ text. text ≡ name.now)) }
        ensures ok { OnOk result (Places K.eq (I.is_key cx.new) name.now item self.old self.new) }
        ensures err { OnErr result (SameMaps self.old self.new) }
        ensures answer { PlaceAnswers K.eq (I.is_key cx.new) self.old name.now allow_shadowing result }
    {
        let alloc = *self.definitions.allocator();
        let key = cx.intern(alloc, name)?;
        if !allow_shadowing && self.definitions.contains_key(&key) {
            let name = String::from_str(alloc, name)?;
            return Err(NameError::Twice { name });
        }
        let stored = key.clone()?;
        self.definitions.reserve(1)?;
        note_name(&mut self.alternate_lookups, alloc, name, cx, &stored)?;
        self.definitions.insert(stored, item).unwrap();
        Ok(key)
    }

    /// Defines a name, and answers its key. A name that is there gets the new value in its place,
    /// if shadowing is allowed; else the answer is `Twice`. `Memory` is a failed allocation.
    ///
    /// The name is interned first and then, unless the answer is `Twice`, its track key where it
    /// has one. After a refusal the map is as before, and the interner may have grown. Clones of
    /// keys have to equal their originals.
    pub fn insert<I: NameMapIntern<Key = K>>(
        &mut self,
        name: &str,
        cx: &mut I,
        allow_shadowing: bool,
        item: V,
    ) -> Result<K, NameError>
        requires clones { (j k : K) → K.is_clone j k → K.eq j k ≡ true }

        // The interner has the name, and the name's track where it has
        // one, and nothing else is new.
        ensures key { IfOk result (λ k. I.is_key cx.new name.now k ≡ true) }
        ensures track { OnOk result ((track : Text) → HasTrackKey name.now track → IsKnown (I.is_key cx.new) track) }
        ensures extends { ExtendsInterning (I.is_key cx.old) (I.is_key cx.new) }
        ensures grows { GrowsOnlyAt (I.is_key cx.old) (I.is_key cx.new) (IsNameOrKey name.now) }
        ensures twice { OnTwice result (GrowsOnlyAt (I.is_key cx.old) (I.is_key cx.new) (λ text. text ≡ name.now)) }

        // The map stands for the pairs with the new one, and where it refuses for the same pairs.
        ensures ok { (ps : List (Text × V)) → Represents K.eq (I.is_key cx.old) self.old ps → OnOk result (Represents K.eq (I.is_key cx.new) self.new (with_pair ps name.now item)) }
        ensures err { (ps : List (Text × V)) → Represents K.eq (I.is_key cx.old) self.old ps → OnErr result (Represents K.eq (I.is_key cx.new) self.new ps) }
        ensures unchanged { OnErr result (SameDefinitions self.old self.new) }
        ensures answer { (ps : List (Text × V)) → Represents K.eq (I.is_key cx.old) self.old ps → InsertAnswers ps name.now allow_shadowing result }
    {
        self.place(name, cx, allow_shadowing, item)
    }
}

impl<K: Eq + Hash + Drop, V> NameMap<K, V> {
    // The value at the name itself.
    fn exact<I: NameMapIntern<Key = K>>(&self, name: &str, cx: &I) -> Result<Option<&V>, AllocError>
        ensures value { (ps : List (Text × V)) → Represents K.eq (I.is_key cx.now) self.now ps → IfOk result (λ r. option_copied r ≡ value_at ps name.now) }
    {
        let alloc = *self.definitions.allocator();
        let Some(key) = cx.lookup(alloc, name)? else {
            return Ok(None);
        };
        Ok(self.definitions.get(&key))
    }

    /// The value at a name; where the name is not there, the value at the greatest version on its
    /// track; else none. The greatest is told by the order of `semver::Version`: that of SemVer
    /// 2.0.0, item 11, and then build metadata. `Err` is a failed allocation.
    pub fn get<I: NameMapIntern<Key = K>>(
        &self,
        name: &str,
        cx: &I,
    ) -> Result<Option<&V>, AllocError>
        ensures found { (ps : List (Text × V)) → Represents K.eq (I.is_key cx.now) self.now ps → IfOk result (λ r. IsFound ps name.now (option_copied r)) }
    {
        let alloc = *self.definitions.allocator();
        let exact = self.exact(name, cx)?;
        if exact.is_some() {
            return Ok(exact);
        }
        let Some((track, _version)) = tracked(alloc, name)? else {
            return Ok(None);
        };
        let Some(track_key) = cx.lookup(alloc, track)? else {
            return Ok(None);
        };
        let Some((key, _version)) = self.alternate_lookups.get(&track_key) else {
            return Ok(None);
        };
        Ok(self.definitions.get(key))
    }

    /// The value of the name that has this key, to write; no key and no other value changes.
    pub fn raw_get_mut(&mut self, key: &K) -> Option<&mut V>
        ensures* writes_back { sem 𝓛 (lends_value K.row V.row K.Hash self.entry key.now result) }
        ensures value { (f : Interning K) (ps : List (Text × V)) → IsLawful K.eq f → Represents K.eq f self.old ps → option_copied_mut result ≡ value_with_key f ps key.now }
    {
        self.definitions.get_mut(key)
    }
}

impl<K: Clone + Eq + Hash + Drop, V: Clone + Drop> Clone for NameMap<K, V> {
    ghost use Rattle.wac_names.specs.NameMap.{IsNameMapClone};

    ghost is_clone = { λ m n. IsNameMapClone K.eq K.is_clone V.is_clone m n };

    fn clone(&self) -> Result<NameMap<K, V>, AllocError> {
        let definitions = self.definitions.clone()?;
        let alternate_lookups = self.alternate_lookups.clone()?;
        Ok(NameMap {
            definitions,
            alternate_lookups,
        })
    }
}
